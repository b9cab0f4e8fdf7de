// Graph pages: a store's triples as bytes, and back.
#![tactic(auto)]

mod code;
mod fault;
mod head;
mod read;
mod write;

pub use crate::fault::{Entry, PageFault};
pub use read::load;
pub use write::save;
