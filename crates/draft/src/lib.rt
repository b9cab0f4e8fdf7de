// Drafts of schemas: four tables of rows, and which of them are refused.
#![tactic(auto)]

mod check;
mod code;
mod draft;
mod fault;
mod laws;
mod named;
mod rows;
mod set;

pub use crate::fault::{SchemaFault, Table};
pub use draft::Draft;
pub use laws::{lawful_stands, unfolding_stands};
pub use named::{TableRow, flag_named};
pub use rows::{ShapeRow, TripleRow};
pub use set::PropertySet;
