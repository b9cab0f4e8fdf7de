// Decides wanted pairs of node and label by refinement, stratum by stratum.
#![tactic(auto)]

mod check;
mod due;
mod narrow;
mod strata;
mod write;

pub use check::NodeCheck;
pub use strata::{TooShort, decide, try_decide};
