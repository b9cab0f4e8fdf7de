// Which pairs of node and label a verdict rests on.
#![tactic(auto)]

mod admitted;
mod fault;
mod pairs;
mod search;

pub use fault::ReachFault;
pub use search::reach;
