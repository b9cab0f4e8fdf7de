// The row store: a triple store in rows that the caller lends.
#![tactic(auto)]

mod calls;
mod store;

pub use store::RowStore;
