// The rules of a validator, read once more and as plainly as can be, for tests to compare with.
#![tactic(auto)]

mod book;
mod compare;
mod facts;
mod pairs;
mod references;
mod satisfy;
mod typing;

pub use book::Book;
pub use compare::{has_arc, same, same_held, same_triples};
pub use facts::Facts;
pub use pairs::Pairs;
pub use references::{Reference, find_references, strata, stratifies};
