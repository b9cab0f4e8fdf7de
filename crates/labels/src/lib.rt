// Sets of labels, and which labels stand in the definitions of lawful tables.
#![tactic(auto)]

mod filter;
mod label_set;
mod mentions;

pub use filter::{ArcFilter, EveryArc, WithProperty};
pub use label_set::LabelSet;
pub use mentions::{RowLabels, labels_of_definition, labels_of_definitions};
