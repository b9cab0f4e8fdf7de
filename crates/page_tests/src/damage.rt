// A small page, changed byte by byte and cut at each length.
use crate::format::Outcome;
use crate::loads::{load_fresh, t};
use chain::ChainStore;
use model::Facts;
use rows::RowStore;
use std::alloc::{AllocError, Global};
use std::process::Abort;
use std::test::Fail;
use values::{AnswerSheet, Term, TermKind, TermTable};

// Three nodes; two arcs of node 0, (1, 1) and (2, 2), and one of node 2, (1, 0).
const PAGE: [u8; 11] = [3, 0, 2, 0, 1, 1, 2, 1, 1, 2, 0];

// Node 1 is a literal.
const TERMS: [Term; 2] = [
    Term {
        kind: TermKind::Iri,
    },
    Term {
        kind: TermKind::Text,
    },
];

// How many loads came out in each way.
#[derive(Clone, Copy, Default)]
struct Tally {
    loaded: usize,
    whole: usize,
    fans: usize,
    entries: usize,
}

impl Tally {
    fn count(&mut self, outcome: Outcome) {
        match outcome {
            Outcome::Loaded(_) => self.loaded = self.loaded.saturating_add(1),
            Outcome::Refused(_) => self.whole = self.whole.saturating_add(1),
            Outcome::Fan(_, _) => self.fans = self.fans.saturating_add(1),
            Outcome::Entry(_, _, _, _) => self.entries = self.entries.saturating_add(1),
        }
    }
}

pub(crate) fn one_literal(heap: Global) -> Result<Facts, AllocError> {
    Ok(Facts {
        literals: [false, true].to_vec(heap)?,
        passes: Vec::new(heap),
        tests: 0,
    })
}

// Into a chain store with a term table, and into three rows, of which one is taken, with an answer sheet.
fn load_twice(rt: &impl Abort, heap: Global, page: &[u8], tally: &mut Tally) -> Result<(), Fail> {
    let table = TermTable::new(&TERMS, &[]);
    let facts = one_literal(heap)?;
    tally.count(load_fresh(
        rt,
        heap,
        ChainStore::new(3),
        table,
        facts,
        &[t(2, 7, 0)],
        page,
    )?);
    let mut rows = [None; 3];
    let sheet = AnswerSheet::new(&[0, 1], &[], 0);
    let store = RowStore::new(&mut rows, 3);
    let facts = one_literal(heap)?;
    tally.count(load_fresh(rt, heap, store, sheet, facts, &[t(0, 2, 0)], page)?);
    Ok(())
}

const VALUES: [u8; 9] = [0, 1, 2, 3, 4, 12, 13, 128, 255];

fn change_byte(
    rt: &impl Abort,
    heap: Global,
    page: [u8; 11],
    at: usize,
    tally: &mut Tally,
) -> Result<(), Fail> {
    for value in VALUES {
        let mut damaged = page;
        if let Some(byte) = damaged.get_mut(at) {
            *byte = value;
        }
        load_twice(rt, heap, &damaged, tally)?;
    }
    Ok(())
}

// With another byte changed too.
fn change_two(
    rt: &impl Abort,
    heap: Global,
    first: usize,
    value: u8,
    tally: &mut Tally,
) -> Result<(), Fail> {
    let mut damaged = PAGE;
    if let Some(byte) = damaged.get_mut(first) {
        *byte = value;
    }
    for second in 0..first {
        change_byte(rt, heap, damaged, second, tally)?;
    }
    Ok(())
}

#[test]
fn changed_bytes(rt: HostRuntime) -> Result<(), Fail> {
    let mut tally = Tally::default();
    for at in 0..11 {
        change_byte(&rt, rt.alloc(), PAGE, at, &mut tally)?;
        for value in [0, 1, 2, 200] {
            change_two(&rt, rt.alloc(), at, value, &mut tally)?;
        }
    }
    assert!(rt;
        tally.loaded > 100 && tally.whole > 100 && tally.fans > 100 && tally.entries > 100,
        "the outcomes are mixed"
    );
    Ok(())
}

#[test]
fn cut_pages(rt: HostRuntime) -> Result<(), Fail> {
    let longer = [3, 0, 2, 0, 1, 1, 2, 1, 1, 2, 0, 0, 0, 9];
    let mut tally = Tally::default();
    for length in 0..15usize {
        load_twice(&rt, rt.alloc(), &longer[0..length.min(14)], &mut tally)?;
    }
    // only the whole page loads, and only where there is room
    assert_eq!(rt; tally.loaded, 1);
    assert_eq!(rt; tally.entries, 1);
    assert_eq!(rt; tally.whole, 28);
    Ok(())
}
