// The tables of a lawful draft in fixed memory, and the questions about them.
#![tactic(auto)]

mod calls;
mod tables;

pub use tables::LawfulTables;
