// The negated references on a cycle, and the stratifications of lawful tables.
#![tactic(auto)]

mod cycle;
mod reach;
mod strata;

pub use cycle::negated_cycle;
pub use strata::{ranks, stratifies};
