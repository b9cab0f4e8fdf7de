// Long lists of calls over both kinds of store and both kinds of value test.
use crate::calls::Source;
use crate::schemas::{Rows, accepted, groups, levels, random_rows, schema_of};
use crate::wander::{Tally, wander};
use crate::world::{TESTS, bytes, facts, terms};
use chain::ChainStore;
use draft::Draft;
use model::{Book, find_references, strata, stratifies};
use rows::RowStore;
use std::alloc::Global;
use std::process::Abort;
use std::test::Fail;
use triple::{Store, Triple};
use validator::Validator;
use values::{AnswerSheet, TermTable, ValueTest};

// How long the lists are, and over which nodes; the last node has no record. At first each node below `ring` has an
// arc with property 1 to the next, and the last of them one to the first.
#[derive(Clone, Copy)]
struct Plan {
    heap: Global,
    nodes: u16,
    rows: usize,
    ring: u16,
    lists: u16,
    calls: u16,
    crowd: usize,
    seed: u32,
}

// Puts the ring into the store and into the book, literals as subjects too: a store may hold such arcs at the making.
fn start<S: Store>(rt: &impl Abort, store: &mut S, book: &mut Book, ring: u16) -> Result<(), Fail> {
    for subject in 0..ring {
        let next = subject.saturating_add(1);
        let triple = Triple {
            subject,
            property: 1,
            object: if next == ring { 0 } else { next },
        };
        assert!(rt; store.put(triple).is_ok());
        book.triples.push(triple)?;
    }
    Ok(())
}

fn run<S: Store + Drop, V: ValueTest + Drop>(
    rt: &impl Abort,
    plan: Plan,
    draft: &Draft,
    mut store: S,
    values: V,
    tally: &mut Tally,
) -> Result<(), Fail> {
    let schema = schema_of(draft)?;
    let known = facts(plan.heap, plan.nodes.saturating_sub(1))?;
    let capacity = usize::from(store.capacity());
    let mut book = Book::new(plan.heap, *draft, known, plan.nodes, capacity)?;
    start(rt, &mut store, &mut book, plan.ring)?;
    let mut validator = Validator::new(schema, store, values);
    let mut source = Source { state: plan.seed };
    for _ in 0..plan.lists {
        wander(
            rt,
            plan.heap,
            &mut validator,
            &mut book,
            &mut source,
            plan.calls,
            plan.crowd,
            tally,
        )?;
    }
    Ok(())
}

fn by_terms(rt: &impl Abort, plan: Plan, draft: &Draft, tally: &mut Tally) -> Result<(), Fail> {
    let records = terms(plan.heap, plan.nodes.saturating_sub(1))?;
    let table = TermTable::new(records.as_slice(), &TESTS);
    run(rt, plan, draft, ChainStore::new(plan.nodes), table, tally)?;
    let mut rows = vec![in plan.heap; None; plan.rows]?;
    let store = RowStore::new(rows.as_mut_slice(), plan.nodes);
    run(rt, plan, draft, store, table, tally)
}

fn by_sheet(rt: &impl Abort, plan: Plan, draft: &Draft, tally: &mut Tally) -> Result<(), Fail> {
    let known = facts(plan.heap, plan.nodes.saturating_sub(1))?;
    let literals = bytes(plan.heap, known.literals.as_slice())?;
    let answers = bytes(plan.heap, known.passes.as_slice())?;
    let sheet = AnswerSheet::new(literals.as_slice(), answers.as_slice(), 4);
    run(rt, plan, draft, ChainStore::new(plan.nodes), sheet, tally)?;
    let mut rows = vec![in plan.heap; None; plan.rows]?;
    let store = RowStore::new(rows.as_mut_slice(), plan.nodes);
    run(rt, plan, draft, store, sheet, tally)
}

fn every_kind(rt: &impl Abort, plan: Plan, rows: &Rows, tally: &mut Tally) -> Result<(), Fail> {
    let draft = rows.draft();
    by_terms(rt, plan, &draft, tally)?;
    by_sheet(rt, plan, &draft, tally)
}

#[test]
fn small_houses(rt: HostRuntime) -> Result<(), Fail> {
    let mut tally = Tally::default();
    for seed in 0..10u32 {
        let plan = Plan {
            heap: rt.alloc(),
            nodes: 6,
            rows: 14,
            ring: 5,
            lists: 10,
            calls: 100,
            crowd: 12,
            seed: seed.wrapping_mul(2654435761),
        };
        every_kind(&rt, plan, &levels(), &mut tally)?;
        every_kind(&rt, plan, &groups(), &mut tally)?;
    }
    assert!(rt; tally.is_mixed(200), "the answers are mixed");
    Ok(())
}

// Whether a draft is accepted, by whether its references leave it a stratification.
fn is_stratified(heap: Global, draft: &Draft) -> Result<bool, Fail> {
    let references = find_references(heap, draft)?;
    let lowest = strata(references.as_slice());
    Ok(stratifies(references.as_slice(), 4, &lowest))
}

#[test]
fn random_schemas(rt: HostRuntime) -> Result<(), Fail> {
    let mut tally = Tally::default();
    let mut source = Source { state: 1117 };
    for seed in 0..300u32 {
        let plan = Plan {
            heap: rt.alloc(),
            nodes: 5,
            rows: 11,
            ring: 3,
            lists: 2,
            calls: 30,
            crowd: 9,
            seed: seed.wrapping_mul(2246822519),
        };
        let rows = random_rows(&mut source);
        let draft = rows.draft();
        let lawful = is_stratified(rt.alloc(), &draft)?;
        assert_eq!(rt; accepted(&draft).is_some(), lawful);
        if lawful {
            every_kind(&rt, plan, &rows, &mut tally)?;
        }
    }
    assert!(rt; tally.is_mixed(50), "the answers are mixed");
    Ok(())
}

#[test]
fn wide_houses(rt: HostRuntime) -> Result<(), Fail> {
    let mut tally = Tally::default();
    for (nodes, ring) in [(40, 39), (255, 60), (256, 256)] {
        let plan = Plan {
            heap: rt.alloc(),
            nodes,
            rows: 300,
            ring,
            lists: 2,
            calls: 60,
            crowd: 290,
            seed: 20261118,
        };
        every_kind(&rt, plan, &levels(), &mut tally)?;
        every_kind(&rt, plan, &groups(), &mut tally)?;
    }
    assert!(rt; tally.is_mixed(20), "the answers are mixed");
    Ok(())
}
