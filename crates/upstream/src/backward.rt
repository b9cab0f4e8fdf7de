// The arcs of a store backwards.
ghost use Rattle.std.specs.Prelude.{◌≡◌, ℕ, ◌<◌, ◌↔◌};
ghost use Rattle.upstream.specs.Arcs.{Leads, sources_of, Leading, Added};

use crate::node_set::NodeSet;
use triple::{CountedArcs, Store};

// For each object the nodes that have an arc to it.
#[derive(Drop)]
pub(crate) struct Backward {
    sources: [NodeSet; 256],
}

impl Backward {
    pub(crate) fn sources(&self, object: u16) -> &NodeSet
        requires { object < 256 }
        ensures { result.now ≡ sources_of self.now object }
    {
        &self.sources[usize::from(object)]
    }

    // Adds the arcs of a node.
    fn add<S: Store>(&mut self, store: &S, node: u16)
        requires { node < 256 }
        ensures { Added (S.Store.arcs store.now) node self.old self.new }
    {
        store.lawful();
        for (_, object) in CountedArcs::of(store, node) {
            self.sources[usize::from(object)].insert(node);
        }
    }

    pub(crate) fn of<S: Store>(store: &S) -> Backward
        ensures { (n o : ℕ) → Leading result n o ↔ Leads (S.Store.arcs store.now) n o }
    {
        store.lawful();
        let mut backward = Backward {
            sources: [NodeSet::NONE; 256],
        };
        for node in 0..store.node_count() {
            backward.add(store, node);
        }
        backward
    }
}
