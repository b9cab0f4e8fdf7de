// The layers of the validator: every refusal names the one where it arose.
#![tactic(auto)]

mod fault;

pub use crate::fault::Fault;
use std::fmt;

#[derive(Clone, Copy, PartialEq, Eq, Debug)]
pub enum Layer {
    Page,
    Validator,
    Schema,
    Store,
}

// By hand: a layer is no error, and the library derives no names of cases.
impl fmt::Display for Layer {
    fn fmt<W: fmt::Write>(&self, f: &mut fmt::Formatter<W>) -> fmt::Result {
        match self {
            Layer::Page => write!(f, "page"),
            Layer::Validator => write!(f, "validator"),
            Layer::Schema => write!(f, "schema"),
            Layer::Store => write!(f, "store"),
        }
    }
}
