// Walks over the arcs of a node.
use crate::runs::{fill_node, t};
use chain::ChainStore;
use rows::RowStore;
use std::process::Abort;
use triple::{Arcs, CountedArcs, Store};

// At three nodes: both walks give the arcs by their places, and then nothing.
fn walks<S: Store>(rt: &impl Abort, store: &mut S) {
    fill_node(rt, store, 1, 0);
    assert_eq!(rt; store.take(t(1, 5, 0)), Ok(()));
    assert_eq!(rt; store.put(t(0, 9, 2)), Ok(()));
    for (node, fan) in [(0, 1), (1, 11), (2, 0), (3, 0)] {
        let mut arcs = Arcs::of(store, node);
        let mut counted = CountedArcs::of(store, node);
        for place in 0..fan {
            let arc = store.arc(node, place);
            assert!(rt; arc.is_some());
            assert_eq!(rt; arcs.next(), arc);
            assert_eq!(rt; counted.next(), arc);
        }
        for _ in 0..2 {
            assert!(rt; arcs.next().is_none());
            assert!(rt; counted.next().is_none());
        }
    }
    assert_eq!(rt; Arcs::of(store, 0).next(), Some((9, 2)));
    assert_eq!(rt; CountedArcs::of(store, 0).next(), Some((9, 2)));
}

#[test]
fn walks_give_the_arcs_by_place(rt: HostRuntime) {
    walks(&rt, &mut ChainStore::new(3));
    let mut rows = [None; 512];
    walks(&rt, &mut RowStore::new(&mut rows, 3));
}
