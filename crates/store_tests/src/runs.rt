// Runs of calls on a store, and on the model beside it.
use crate::model::Model;
use std::process::Abort;
use std::test::Fail;
use triple::{Store, StoreFault, Triple};

pub(crate) fn t(subject: u16, property: u8, object: u16) -> Triple {
    Triple {
        subject,
        property,
        object,
    }
}

// A call of a table: its subject, its property, its object, and what it answers.
pub(crate) type Call = (u16, u8, u16, Result<(), StoreFault>);

pub(crate) fn puts<S: Store>(rt: &impl Abort, store: &mut S, calls: &[Call]) {
    for &(s, p, o, answer) in calls {
        assert_eq!(rt; store.put(t(s, p, o)), answer);
    }
}

pub(crate) fn takes<S: Store>(rt: &impl Abort, store: &mut S, calls: &[Call]) {
    for &(s, p, o, answer) in calls {
        assert_eq!(rt; store.take(t(s, p, o)), answer);
    }
}

// The subject s with all the properties from 0 to 11, each to the node o.
pub(crate) fn fill_node<S: Store>(rt: &impl Abort, store: &mut S, s: u16, o: u16) {
    for property in 0..12 {
        assert_eq!(rt; store.put(t(s, property, o)), Ok(()));
    }
}

// Whether the store has the triple, by its questions alone.
fn found<S: Store>(store: &S, triple: Triple) -> bool {
    (0..store.fan(triple.subject)).any(|place| store.arc(triple.subject, place)
        == Some((triple.property, triple.object)))
}

// The store answers every question as the model does.
pub(crate) fn compare<S: Store>(rt: &impl Abort, store: &S, model: &Model) {
    assert_eq!(rt; usize::from(store.total()), model.triples.len());
    for node in 0..=model.nodes {
        assert_eq!(rt; usize::from(store.fan(node)), model.fan(node));
        assert!(rt; store.arc(node, store.fan(node)).is_none());
    }
    assert!(rt; model.triples.iter().all(|triple| found(store, *triple)));
}

// A sequence of numbers that looks random.
fn next(state: u32) -> u32 {
    state.wrapping_mul(1664525).wrapping_add(1013904223)
}

fn pick(state: u32, below: u16) -> u16 {
    ((state >> 16) % (u32::from(below).max(1))) as u16
}

// Puts and takes of triples whose nodes are below `nodes` + 1, so that some are not in the store.
pub(crate) fn wander<S: Store>(
    rt: &impl Abort,
    store: &mut S,
    model: &mut Model,
    calls: u16,
    properties: u16,
) -> Result<(), Fail> {
    let nodes = model.nodes.saturating_add(1);
    let mut state = 2026u32;
    for _ in 0..calls {
        let subject = pick(state, nodes);
        state = next(state);
        let property = (pick(state, properties) & 0xff) as u8;
        state = next(state);
        let triple = t(subject, property, pick(state, nodes));
        state = next(state);
        if state >= 1_610_612_736 {
            assert_eq!(rt; store.put(triple), model.put(triple)?);
        } else {
            assert_eq!(rt; store.take(triple), model.take(triple));
        }
        state = next(state);
    }
    compare(rt, store, model);
    Ok(())
}

// The same puts and takes on two stores: equal answers, fans and totals.
pub(crate) fn alike<A: Store, B: Store>(
    rt: &impl Abort,
    a: &mut A,
    b: &mut B,
    nodes: u16,
    calls: u16,
) {
    let mut state = 1117u32;
    for _ in 0..calls {
        let subject = pick(state, nodes);
        state = next(state);
        let property = (pick(state, 3) & 0xff) as u8;
        let triple = t(subject, property, pick(state, nodes));
        state = next(state);
        if state >= 1_342_177_280 {
            assert_eq!(rt; a.put(triple), b.put(triple));
        } else {
            assert_eq!(rt; a.take(triple), b.take(triple));
        }
        state = next(state);
        assert_eq!(rt; a.total(), b.total());
        assert_eq!(rt; a.fan(subject), b.fan(subject));
    }
}
