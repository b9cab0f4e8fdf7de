// The chain store: a triple store in its own fixed memory.
#![tactic(auto)]

mod calls;
mod cells;
mod memory;

pub use memory::ChainStore;
