// Triples, and what a triple store means.
#![tactic(auto)]

mod arcs;
mod code;
mod counted_arcs;
mod fault;
mod store;

pub use crate::arcs::Arcs;
pub use crate::counted_arcs::CountedArcs;
pub use crate::fault::StoreFault;
pub use store::{MAX_FAN, MAX_NODES, Store, Triple};
