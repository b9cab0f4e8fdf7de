// Which triple rows the arcs of a node meet.
#![tactic(auto)]

mod arcs;
mod named;
mod neighbourhood;
mod read;
mod rows;
mod scratch;
mod typing;
mod words;

pub use arcs::NodeArcs;
pub use neighbourhood::Neighbourhood;
pub use scratch::Scratch;
