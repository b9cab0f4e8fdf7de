// Accepted schemas: how a draft is accepted or refused, the questions about a schema, and its strata.
#![tactic(auto)]

mod calls;
mod laws;
mod questions;
mod schema;

pub use laws::stratifications_stand;
pub use schema::Schema;
