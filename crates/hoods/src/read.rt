// Reading the arcs of a node.
ghost use Rattle.std.specs.Prelude.{◌≡◌};
ghost use Rattle.hoods.specs.Arcs.{arcs_of};

use crate::arcs::NodeArcs;
use masks::Fan;
use triple::{CountedArcs, Store};

impl NodeArcs {
    pub fn of<S: Store>(store: &S, node: u16) -> NodeArcs
        ensures { arcs_of result ≡ S.Store.arcs store.now node }
    {
        let mut arcs = [(0, 0); 12];
        let mut fan = 0;
        for (place, arc) in CountedArcs::of(store, node).enumerate() {
            arcs[place] = arc;
            fan = place + 1;
        }
        NodeArcs {
            fan: Fan::new(fan),
            arcs,
        }
    }
}
