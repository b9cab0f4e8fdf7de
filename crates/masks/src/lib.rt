// Sets of masks: which of the masks of a few places have a property, one flag a mask.
#![tactic(auto)]

mod fan;
mod join;
mod parts;
mod plain;
mod submasks;

pub use fan::{Fan, MASKS};
pub use join::each;
pub use parts::times;
pub use plain::{empty, single, some};
