// A page that is refused at each of its entries: the adds before it stay, and none after it is tried.
use crate::format::Outcome;
use crate::loads::{load_fresh, t};
use chain::ChainStore;
use model::Facts;
use refusal::Layer;
use rows::RowStore;
use std::alloc::{AllocError, Global};
use std::process::Abort;
use std::test::Fail;
use triple::{Store, Triple};
use values::AnswerSheet;

// Four nodes; three arcs of node 0, one of node 1, two of node 3.
const PAGE: [u8; 18] = [4, 0, 3, 1, 0, 2, 1, 2, 3, 1, 1, 2, 1, 2, 3, 0, 0, 1];

// The six triples of the page, in its order.
const TRIPLES: [(u16, u8, u16); 6] = [
    (0, 1, 1),
    (0, 2, 2),
    (0, 3, 3),
    (1, 1, 0),
    (3, 1, 0),
    (3, 2, 1),
];

fn facts(heap: Global, literals: &[u8; 4]) -> Result<Facts, AllocError> {
    Ok(Facts {
        literals: literals.iter().map(|byte| *byte == 1).collect(heap)?,
        passes: Vec::new(heap),
        tests: 0,
    })
}

fn load_chain(
    rt: &impl Abort,
    heap: Global,
    literals: &[u8; 4],
    before: &[Triple],
    page: &[u8],
) -> Result<Outcome, Fail> {
    let known = facts(heap, literals)?;
    let sheet = AnswerSheet::new(literals, &[], 0);
    load_fresh(rt, heap, ChainStore::new(4), sheet, known, before, page)
}

// An object past the nodes; a triple that is present.
fn refuse_entry(rt: &impl Abort, heap: Global, at: usize, triple: Triple) -> Result<(), Fail> {
    let mut page = PAGE;
    if let Some(object) = page.get_mut(at.saturating_add(12)) {
        *object = 4;
    }
    let past = load_chain(rt, heap, &[0; 4], &[], &page)?;
    assert_eq!(rt; past, Outcome::Entry(22, at, Layer::Validator, 8));
    let present = load_chain(rt, heap, &[0; 4], &[triple], &PAGE)?;
    assert_eq!(rt; present, Outcome::Entry(22, at, Layer::Store, 10));
    Ok(())
}

// A store with as many rows as entries before the refused one.
fn fill_rows(rt: &impl Abort, heap: Global, at: usize) -> Result<(), Fail> {
    let mut rows = [None; 6];
    let sheet = AnswerSheet::new(&[], &[], 0);
    let known = facts(heap, &[0; 4])?;
    let store = RowStore::new(&mut rows[0..at.min(6)], 4);
    let full = load_fresh(rt, heap, store, sheet, known, &[], &PAGE)?;
    assert_eq!(rt; full, Outcome::Entry(22, at, Layer::Store, 12));
    Ok(())
}

#[test]
fn refused_entries(rt: HostRuntime) -> Result<(), Fail> {
    let heap = rt.alloc();
    assert_eq!(rt;
        load_chain(&rt, heap, &[0; 4], &[], &PAGE)?,
        Outcome::Loaded(6)
    );
    for (at, (subject, property, object)) in TRIPLES.iter().enumerate() {
        refuse_entry(&rt, heap, at, t(*subject, *property, *object))?;
        fill_rows(&rt, heap, at)?;
    }
    // the first entry of a subject that is a literal
    for (literals, at) in [([1, 0, 0, 0], 0), ([0, 1, 0, 1], 3), ([0, 0, 1, 1], 4)] {
        let given = load_chain(&rt, heap, &literals, &[], &PAGE)?;
        assert_eq!(rt; given, Outcome::Entry(22, at, Layer::Validator, 9));
    }
    Ok(())
}

// Node 0 has some arcs; of the page's twelve only so many find room. The objects are nodes without arcs.
fn fill_node(rt: &impl Abort, heap: Global, before: &[Triple]) -> Result<(), Fail> {
    let mut page = [2; 30];
    for (byte, head) in page.iter_mut().zip([4, 0, 12, 0, 0, 0]) {
        *byte = head;
    }
    for (property, byte) in page.iter_mut().skip(6).take(12).enumerate() {
        *byte = (property & 15) as u8;
    }
    let expected = if before.len() == 0 {
        Outcome::Loaded(12)
    } else {
        Outcome::Entry(22, 12usize.saturating_sub(before.len()), Layer::Store, 11)
    };
    assert_eq!(rt; load_chain(rt, heap, &[0; 4], before, &page)?, expected);
    Ok(())
}

#[test]
fn full_nodes(rt: HostRuntime) -> Result<(), Fail> {
    let before = [t(0, 99, 2), t(0, 98, 2), t(0, 97, 2), t(0, 96, 2)];
    for count in 0..5usize {
        fill_node(&rt, rt.alloc(), &before[0..count.min(4)])?;
    }
    Ok(())
}
