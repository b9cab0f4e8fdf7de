// Which nodes of a store lead to a node by triples.
#![tactic(auto)]

mod backward;
mod node_set;
mod search;

pub use search::upstream;
