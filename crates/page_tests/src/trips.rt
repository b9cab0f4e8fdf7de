// Round trips from either kind of store into either, and what a save leaves alone.
use crate::format::{arcs, written};
use crate::loads::{schema, t};
use chain::ChainStore;
use model::has_arc;
use page::{load, save};
use rows::RowStore;
use std::alloc::Global;
use std::process::Abort;
use std::test::Fail;
use triple::Store;
use validate::Validate;
use validator::Validator;
use values::AnswerSheet;

// The longest page: 256 nodes and 1,024 arcs, and some bytes more.
const ROOM: usize = 2400;

// Every arc of the one store is in the other, and the totals are equal.
fn same_arcs<A: Store, B: Store>(rt: &impl Abort, a: &A, b: &B) {
    assert_eq!(rt; a.total(), b.total());
    assert_eq!(rt; a.node_count(), b.node_count());
    for node in 0..a.node_count() {
        assert_eq!(rt; a.fan(node), b.fan(node));
        for place in 0..a.fan(node) {
            if let Some((property, object)) = a.arc(node, place) {
                assert!(rt; has_arc(b, t(node, property, object)));
            }
        }
    }
}

// Saves the store: the bytes are those of the format, and the later ones stay.
fn check_save<S: Store>(
    rt: &impl Abort,
    heap: Global,
    store: &S,
    buffer: &mut [u8],
) -> Result<usize, Fail> {
    let expected = written(heap, store)?;
    let order = arcs(heap, store)?;
    let Ok(length) = save(store, buffer) else {
        return Err(Fail::new("save refuses"));
    };
    assert_eq!(rt; length, expected.len());
    for (at, byte) in buffer.iter().enumerate() {
        assert_eq!(rt; *byte, expected.get(at).copied().unwrap_or(171));
    }
    assert!(rt;
        order.as_slice() == arcs(heap, store)?.as_slice(),
        "the store's order"
    );
    Ok(length)
}

// Loads what the one store saves into the other, which is empty, and saves it from there.
fn check_trip<A: Store, B: Store + Drop>(
    rt: &impl Abort,
    heap: Global,
    from: &A,
    to: B,
) -> Result<(), Fail> {
    let mut buffer = vec![in heap; 171; ROOM]?;
    let length = check_save(rt, heap, from, buffer.as_mut_slice())?;
    let page = buffer.as_slice().get(0..length).unwrap_or(&[]);
    let mut validator = Validator::new(schema(), to, AnswerSheet::new(&[], &[], 0));
    let Ok(total) = load(&mut validator, page) else {
        return Err(Fail::new("load refuses"));
    };
    assert_eq!(rt; total, usize::from(from.total()));
    same_arcs(rt, from, validator.store());
    let mut again = vec![in heap; 171; ROOM]?;
    assert_eq!(rt;
        check_save(rt, heap, validator.store(), again.as_mut_slice())?,
        length
    );
    Ok(())
}

// Into both kinds of store; the rows are as many as the triples.
fn check_trips<A: Store>(rt: &impl Abort, heap: Global, from: &A) -> Result<(), Fail> {
    if from.total() <= 512 {
        check_trip(rt, heap, from, ChainStore::new(from.node_count()))?;
    }
    let mut rows = vec![in heap; None; usize::from(from.total())]?;
    check_trip(
        rt,
        heap,
        from,
        RowStore::new(rows.as_mut_slice(), from.node_count()),
    )
}

// Puts triples that look random; those that the store refuses are left out.
fn scatter<S: Store>(store: &mut S, puts: u16, seed: u32) {
    let nodes = u32::from(store.node_count()).max(1);
    let mut state = seed;
    for _ in 0..puts {
        state = state.wrapping_mul(1664525).wrapping_add(1013904223);
        let subject = ((state >> 16) % nodes) as u16;
        let property = (state >> 24) as u8;
        state = state.wrapping_mul(1664525).wrapping_add(1013904223);
        let object = ((state >> 16) % nodes) as u16;
        let _ = store.put(t(subject, property, object));
    }
}

// From a store of each kind with so many nodes.
fn check_kinds(rt: &impl Abort, heap: Global, nodes: u16, puts: u16) -> Result<(), Fail> {
    let mut chain = ChainStore::new(nodes);
    scatter(&mut chain, puts, 2026);
    check_trips(rt, heap, &chain)?;
    let mut rows = vec![in heap; None; 1024]?;
    let mut store = RowStore::new(rows.as_mut_slice(), nodes);
    scatter(&mut store, puts, 1118);
    check_trips(rt, heap, &store)
}

#[test]
fn round_trips(rt: HostRuntime) -> Result<(), Fail> {
    for (nodes, puts) in [
        (0, 0),
        (1, 0),
        (1, 30),
        (2, 20),
        (7, 60),
        (100, 300),
        (255, 900),
        (256, 1200),
        (300, 700),
    ] {
        check_kinds(&rt, rt.alloc(), nodes, puts)?;
    }
    Ok(())
}

// 12 arcs at each of 85 nodes, and 4 at one: as many as there can be rows.
#[test]
fn full_fans(rt: HostRuntime) -> Result<(), Fail> {
    let mut rows = [None; 1024];
    let mut store = RowStore::new(&mut rows, 256);
    for i in 0..1024u16 {
        assert!(rt; store.put(t(i / 12, (i % 12) as u8, i % 256)).is_ok());
    }
    assert_eq!(rt; store.total(), 1024);
    check_trips(&rt, rt.alloc(), &store)?;
    let mut chain = ChainStore::new(256);
    for i in 0..512u16 {
        assert!(rt; chain.put(t(255 - i / 12, (i % 12) as u8, i % 256)).is_ok());
    }
    check_trips(&rt, rt.alloc(), &chain)
}
