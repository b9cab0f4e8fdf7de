// The arcs of one node, copied from a store.
ghost use Rattle.std.specs.Prelude.{◌≤◌, length};

use masks::Fan;

// As many arcs as the fan says; the rest of the array means nothing.
// Not an ArrayVec: the masks want the length as a Fan, which each check of a row would have to make again.
#[derive(Clone, Copy)]
pub struct NodeArcs {
    pub(crate) fan: Fan,
    pub(crate) arcs: [(u8, u16); 12],
    ghost room: { fan.value ≤ length arcs },
}
