// A validator over any store and value test.
#![tactic(auto)]

mod calls;
mod decide;
mod forget;
mod memory;
mod write;

pub use memory::Validator;
