// The check of one node: which labels' definitions a node satisfies under a typing.
#![tactic(auto)]

mod asked;
mod checker;
mod shape;

pub use checker::Checker;
pub use hoods::Scratch;
