// The tables of cases, run on the chain store and, where it has the room, on the row store.
use crate::model::Model;
use crate::runs::{fill_node, puts, t, takes, wander};
use chain::ChainStore;
use refusal::{Fault, Layer};
use rows::RowStore;
use std::process::Abort;
use std::test::Fail;
use triple::{Store, StoreFault};

fn counts_nodes<S: Store>(rt: &impl Abort, store: &mut S, made: u16) {
    assert_eq!(rt; store.node_count(), made);
    assert_eq!(rt; store.capacity(), 512);
    assert_eq!(rt; store.total(), 0);
    assert_eq!(rt; store.put(t(made, 0, 0)), Err(StoreFault::NoSubject));
    assert_eq!(rt; store.take(t(made, 0, 0)), Err(StoreFault::NoSubject));
    assert_eq!(rt; store.fan(made), 0);
    assert!(rt; store.arc(65535, 0).is_none());
}

#[test]
fn node_counts(rt: HostRuntime) {
    let mut rows = [None; 512];
    for (asked, made) in [
        (0, 0),
        (1, 1),
        (255, 255),
        (256, 256),
        (257, 256),
        (300, 256),
        (65535, 256),
    ] {
        counts_nodes(&rt, &mut ChainStore::new(asked), made);
        counts_nodes(&rt, &mut RowStore::new(&mut rows, asked), made);
    }
}

// The tables below have the faults themselves.
#[test]
fn faults_have_their_numbers(rt: HostRuntime) {
    for (fault, number) in [
        (StoreFault::NoSubject, 7),
        (StoreFault::NoObject, 8),
        (StoreFault::Present, 10),
        (StoreFault::FullNode, 11),
        (StoreFault::FullStore, 12),
        (StoreFault::Absent, 13),
    ] {
        assert_eq!(rt; fault.number(), number);
        assert_eq!(rt; fault.layer(), Layer::Store);
    }
}

// At three nodes.
fn refuses<S: Store>(rt: &impl Abort, store: &mut S) {
    puts(
        rt,
        store,
        &[
            (0, 1, 0, Ok(())),
            (0, 1, 0, Err(StoreFault::Present)),
            (3, 1, 0, Err(StoreFault::NoSubject)),
            (3, 1, 3, Err(StoreFault::NoSubject)),
            (0, 1, 3, Err(StoreFault::NoObject)),
            (0, 255, 2, Ok(())),
            (0, 1, 1, Ok(())),
            (65535, 0, 65535, Err(StoreFault::NoSubject)),
        ],
    );
    assert_eq!(rt; store.fan(0), 3);
    takes(
        rt,
        store,
        &[
            (1, 1, 0, Err(StoreFault::Absent)),
            (0, 2, 0, Err(StoreFault::Absent)),
            (0, 1, 2, Err(StoreFault::Absent)),
            (3, 1, 0, Err(StoreFault::NoSubject)),
            (3, 1, 3, Err(StoreFault::NoSubject)),
            (0, 1, 3, Err(StoreFault::NoObject)),
            (0, 1, 0, Ok(())),
            (0, 1, 0, Err(StoreFault::Absent)),
        ],
    );
    assert_eq!(rt; store.total(), 2);
}

#[test]
fn refusals(rt: HostRuntime) {
    refuses(&rt, &mut ChainStore::new(3));
    let mut rows = [None; 512];
    refuses(&rt, &mut RowStore::new(&mut rows, 3));
}

// At two nodes.
fn fills_node<S: Store>(rt: &impl Abort, store: &mut S) {
    fill_node(rt, store, 1, 0);
    // the fan is 12: present before full
    puts(
        rt,
        store,
        &[
            (1, 12, 0, Err(StoreFault::FullNode)),
            (1, 11, 0, Err(StoreFault::Present)),
            (1, 12, 2, Err(StoreFault::NoObject)),
            (2, 12, 0, Err(StoreFault::NoSubject)),
            (0, 12, 0, Ok(())),
        ],
    );
    assert_eq!(rt; store.fan(1), 12);
    takes(rt, store, &[(1, 5, 0, Ok(()))]);
    puts(
        rt,
        store,
        &[(1, 12, 0, Ok(())), (1, 5, 0, Err(StoreFault::FullNode))],
    );
}

#[test]
fn full_node(rt: HostRuntime) {
    fills_node(&rt, &mut ChainStore::new(2));
    let mut rows = [None; 512];
    fills_node(&rt, &mut RowStore::new(&mut rows, 2));
}

// At 256 nodes, with room for 512 triples.
fn fills_store<S: Store>(rt: &impl Abort, store: &mut S) {
    for s in 0..42 {
        fill_node(rt, store, s, 0);
    }
    for s in 42..50 {
        assert_eq!(rt; store.put(t(s, 7, 255)), Ok(()));
    }
    assert_eq!(rt; store.total(), 512);
    // full: present before a full node before a full store
    puts(
        rt,
        store,
        &[
            (50, 7, 0, Err(StoreFault::FullStore)),
            (49, 7, 255, Err(StoreFault::Present)),
            (0, 12, 0, Err(StoreFault::FullNode)),
            (0, 11, 0, Err(StoreFault::Present)),
            (256, 0, 0, Err(StoreFault::NoSubject)),
            (50, 0, 256, Err(StoreFault::NoObject)),
        ],
    );
    takes(rt, store, &[(41, 0, 0, Ok(()))]);
    puts(
        rt,
        store,
        &[(50, 7, 0, Ok(())), (51, 7, 0, Err(StoreFault::FullStore))],
    );
    assert_eq!(rt; store.total(), 512);
}

#[test]
fn full_store(rt: HostRuntime) {
    fills_store(&rt, &mut ChainStore::new(300));
    let mut rows = [None; 512];
    fills_store(&rt, &mut RowStore::new(&mut rows, 300));
}

#[test]
fn wanders_small(rt: HostRuntime) -> Result<(), Fail> {
    let mut model = Model::new(rt.alloc(), 3, 512);
    wander(&rt, &mut ChainStore::new(3), &mut model, 20000, 4)
}

#[test]
fn wanders_wide(rt: HostRuntime) -> Result<(), Fail> {
    let mut model = Model::new(rt.alloc(), 60, 512);
    wander(&rt, &mut ChainStore::new(60), &mut model, 20000, 2)
}
