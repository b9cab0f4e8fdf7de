// The arcs of a node, one after another, where the store is asked how many there are first.
ghost use Rattle.std.specs.Prelude.{◌≡◌, ◌≤◌, length};
ghost use Rattle.std.specs.Iterator.{YieldsFirst};
ghost use Rattle.std.specs.Iterator.Runs.{YieldsInOrder};
ghost use Rattle.triple.specs.Walks.{counted_left};

use crate::store::Store;

// What is left of the arcs of a node, from a place on. It ends by the fan: over rows the arc past the last is a scan of them all.
#[derive(Clone, Copy)]
pub struct CountedArcs<'a, S> {
    pub(crate) store: &'a S,
    pub(crate) node: u16,
    pub(crate) place: u8,
    pub(crate) fan: u8,
}

impl<'a, S: Store> CountedArcs<'a, S> {
    pub fn of(store: &'a S, node: u16) -> CountedArcs<'a, S>
        ensures left { counted_left S.arcs result ≡ S.arcs store.now node }
        ensures few { length (counted_left S.arcs result) ≤ 12 }
        ensures runs { YieldsInOrder (YieldsFirst (counted_left S.arcs)) (counted_left S.arcs) }
    {
        store.lawful();
        CountedArcs {
            store,
            node,
            place: 0,
            fan: store.fan(node),
        }
    }
}

impl<'a, S: Store> Iterator for CountedArcs<'a, S> {
    ghost use Rattle.std.specs.Iterator.{YieldsFirst, item_count};

    type Item = (u8, u16);

    ghost next_gives = { YieldsFirst (counted_left S.arcs) };

    ghost remaining = { item_count (counted_left S.arcs) };

    fn next(&mut self) -> Option<(u8, u16)> {
        self.store.lawful();
        if self.place >= self.fan {
            return None;
        }
        let arc = self.store.arc(self.node, self.place)?;
        self.place += 1;
        Some(arc)
    }
}
