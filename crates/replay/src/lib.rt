// Whole lists of calls on a validator, and what the ledger says of them.
#![tactic(auto)]

ghost use Rattle.replay.specs.Determined.{Steady, Determined};

mod call;
mod run;

pub use call::{Answer, Call, Sweep};
pub use run::{Short, replay};

/// What the ledger answers, and the tables that it makes, rest on the calls alone: not on the order of the arcs,
/// nor on the stratification.
pub fn ledger_stands()
    ensures call { Steady }
    ensures calls { Determined }
{}
