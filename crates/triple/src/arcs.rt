// The arcs of a node, one after another.
ghost use Rattle.std.specs.Prelude.{◌≡◌, ◌≤◌, length};
ghost use Rattle.std.specs.Iterator.{YieldsFirst};
ghost use Rattle.std.specs.Iterator.Runs.{YieldsInOrder};
ghost use Rattle.triple.specs.Walks.{arcs_left};

use crate::store::Store;

// What is left of the arcs of a node, from a place on.
#[derive(Clone, Copy)]
pub struct Arcs<'a, S> {
    pub(crate) store: &'a S,
    pub(crate) node: u16,
    pub(crate) place: u8,
}

impl<'a, S: Store> Arcs<'a, S> {
    pub fn of(store: &'a S, node: u16) -> Arcs<'a, S>
        ensures left { arcs_left S.arcs result ≡ S.arcs store.now node }
        ensures few { length (arcs_left S.arcs result) ≤ 12 }
        ensures runs { YieldsInOrder (YieldsFirst (arcs_left S.arcs)) (arcs_left S.arcs) }
    {
        store.lawful();
        Arcs {
            store,
            node,
            place: 0,
        }
    }
}

impl<'a, S: Store> Iterator for Arcs<'a, S> {
    ghost use Rattle.std.specs.Iterator.{YieldsFirst, item_count};

    type Item = (u8, u16);

    ghost next_gives = { YieldsFirst (arcs_left S.arcs) };

    ghost remaining = { item_count (arcs_left S.arcs) };

    fn next(&mut self) -> Option<(u8, u16)> {
        self.store.lawful();
        let arc = self.store.arc(self.node, self.place)?;
        self.place += 1;
        Some(arc)
    }
}
