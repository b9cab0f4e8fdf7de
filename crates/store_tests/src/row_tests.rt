// The row store: slices of several lengths, rows that must survive, refusals, and the chain store beside it.
ghost use Rattle.std.specs.Prelude.{◌≡◌, drop};

use crate::model::Model;
use crate::runs::{alike, fill_node, puts, t, takes, wander};
use chain::ChainStore;
use rows::RowStore;
use std::process::Abort;
use std::test::Fail;
use triple::{Store, StoreFault, Triple};

// The caller has its slice back, and the rows past 1,024 are as they were.
fn stays(rows: &mut [Option<Triple>], triple: Triple)
    ensures { drop 1024 rows.new ≡ drop 1024 rows.old }
{
    let mut store = RowStore::new(rows, 4);
    let _ = store.put(triple);
    let _ = store.take(triple);
}

// The triple number i of those that fill a store, 12 to a subject.
fn nth(i: u16) -> Triple {
    t(i / 12, (i % 12) as u8, i % 256)
}

fn fills(rt: &impl Abort, rows: &mut [Option<Triple>], capacity: u16) {
    let mut store = RowStore::new(rows, 256);
    assert_eq!(rt; store.capacity(), capacity);
    assert_eq!(rt; store.total(), 0);
    for i in 0..capacity {
        assert_eq!(rt; store.put(nth(i)), Ok(()));
    }
    assert_eq!(rt; store.put(t(255, 0, 0)), Err(StoreFault::FullStore));
    assert_eq!(rt; store.total(), capacity);
    for i in 0..capacity {
        assert_eq!(rt; store.take(nth(i)), Ok(()));
        assert_eq!(rt; store.take(nth(i)), Err(StoreFault::Absent));
    }
    assert_eq!(rt; store.total(), 0);
}

#[test]
fn lengths(rt: HostRuntime) {
    fills(&rt, &mut [], 0);
    let mut one = [None; 1];
    fills(&rt, &mut one, 1);
    let mut dozen = [None; 12];
    fills(&rt, &mut dozen, 12);
    let mut most = [None; 1024];
    fills(&rt, &mut most, 1024);
}

#[test]
fn later_rows(rt: HostRuntime) {
    let mut rows = [Some(t(3, 7, 5)); 1030];
    fills(&rt, &mut rows, 1024);
    stays(&mut rows, t(0, 0, 1));
    let (used, later) = rows.split_at(1024);
    assert!(rt; used.iter().all(|row| row.is_none()));
    assert!(rt; later.iter().all(|row| *row == Some(t(3, 7, 5))));
}

#[test]
fn making(rt: HostRuntime) {
    let mut rows = [Some(t(0, 1, 2)); 4];
    let mut store = RowStore::new(&mut rows, 300);
    assert_eq!(rt; store.node_count(), 256);
    assert_eq!(rt; store.fan(0), 0);
    assert!(rt; store.arc(0, 0).is_none());
    assert_eq!(rt; store.put(t(255, 9, 255)), Ok(()));
    assert_eq!(rt; store.arc(255, 0), Some((9, 255)));
    assert!(rt; store.arc(255, 1).is_none());
    assert_eq!(rt; store.fan(256), 0);
}

#[test]
fn refusals(rt: HostRuntime) {
    let mut rows = [None; 13];
    let mut store = RowStore::new(&mut rows, 4);
    let strange = [
        (4, 0, 4, Err(StoreFault::NoSubject)),
        (0, 0, 4, Err(StoreFault::NoObject)),
    ];
    puts(&rt, &mut store, &strange);
    takes(&rt, &mut store, &strange);
    takes(&rt, &mut store, &[(0, 0, 0, Err(StoreFault::Absent))]);
    fill_node(&rt, &mut store, 1, 2);
    // a full node, then a full store
    puts(
        &rt,
        &mut store,
        &[
            (1, 3, 2, Err(StoreFault::Present)),
            (1, 3, 3, Err(StoreFault::FullNode)),
            (2, 3, 3, Ok(())),
            (2, 3, 3, Err(StoreFault::Present)),
            (1, 3, 3, Err(StoreFault::FullNode)),
            (2, 3, 1, Err(StoreFault::FullStore)),
        ],
    );
    takes(
        &rt,
        &mut store,
        &[(1, 3, 3, Err(StoreFault::Absent)), (1, 3, 2, Ok(()))],
    );
    assert_eq!(rt; store.fan(1), 11);
    puts(&rt, &mut store, &[(2, 3, 1, Ok(()))]);
}

#[test]
fn wanders(rt: HostRuntime) -> Result<(), Fail> {
    let mut rows = [None; 40];
    let mut store = RowStore::new(&mut rows, 5);
    let mut model = Model::new(rt.alloc(), 5, 40);
    wander(&rt, &mut store, &mut model, 20000, 5)
}

#[test]
fn both_kinds(rt: HostRuntime) {
    let mut chain = ChainStore::new(70);
    let mut rows = [None; 512];
    let mut store = RowStore::new(&mut rows, 70);
    alike(&rt, &mut chain, &mut store, 72, 20000);
}
