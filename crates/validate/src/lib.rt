// The calls on a validator, and what they promise.
#![tactic(auto)]

mod code;
mod fault;
mod promise;

pub use crate::fault::ValidatorFault;
pub use promise::Validate;
