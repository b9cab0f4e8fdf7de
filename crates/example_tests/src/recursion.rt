// Recursion without negation, and through negation.
use crate::builder::{DraftBuilder, only};
use crate::example::Example;
use draft::{SchemaFault, ShapeRow};
use refusal::Fault;
use schema::Schema;
use std::alloc::{AllocError, Global};
use std::test::*;
use values::{AnswerSheet, Term, TermKind, TermTable, Test};

const REPORTED_BY: u8 = 0;

const RELATED_TO: u8 = 1;

const ISSUE: u8 = 0;

const TEXT: u8 = 1;

// Two issues, "Ren" and "Bob".
const TERMS: [Term; 4] = [
    Term {
        kind: TermKind::Iri,
    },
    Term {
        kind: TermKind::Iri,
    },
    Term {
        kind: TermKind::Text,
    },
    Term {
        kind: TermKind::Text,
    },
];

const TESTS: [Test; 1] = [Test::Text];

// The issues are related to each other; one is reported by Ren, the other by Bob.
const RELATED: [(u16, u8, u16); 4] = [
    (0, REPORTED_BY, 2),
    (0, RELATED_TO, 1),
    (1, REPORTED_BY, 3),
    (1, RELATED_TO, 0),
];

// An issue is reported by one text, and related to any number of issues.
fn issues(heap: Global) -> Result<Example<'static, TermTable<'static>>, AllocError> {
    let mut draft = DraftBuilder::new(heap);
    let reported = draft.arc(only(&[REPORTED_BY]), TEXT)?;
    let related = draft.arcs(only(&[RELATED_TO]), ISSUE)?;
    let issue = draft.each(reported, related)?;
    draft.define(ShapeRow::Hood(issue))?;
    draft.define(ShapeRow::Value(0))?;
    Ok(Example {
        draft,
        values: TermTable::new(&TERMS, &TESTS),
        nodes: 4,
        triples: &RELATED,
    })
}

// That both are issues is correct, and so is that neither is: the larger typing is answered.
#[test]
fn two_correct_typings(rt: HostRuntime) -> Result<(), Fail> {
    let example = issues(rt.alloc())?;
    let both = [(0, ISSUE), (1, ISSUE), (2, TEXT), (3, TEXT)];
    let neither = [(2, TEXT), (3, TEXT)];
    let unreported = [(0, ISSUE), (1, ISSUE)];
    assert!(rt; example.is_correct(rt.alloc(), &both)?);
    assert!(rt; example.is_correct(rt.alloc(), &neither)?);
    assert!(rt; !example.is_correct(rt.alloc(), &unreported)?);
    assert!(rt; example.is_correct(rt.alloc(), &[])?);
    example.has_typing(&rt, rt.alloc(), &both)
}

const P: u8 = 0;

const FIRST: u8 = 0;

const SECOND: u8 = 1;

// Two nodes, each with an arc to the other.
const FACING: [(u16, u8, u16); 2] = [(0, P, 1), (1, P, 0)];

// Each label is had by what has not one arc to a node with the other label.
fn opposed(heap: Global) -> Result<Example<'static, AnswerSheet<'static>>, AllocError> {
    let mut draft = DraftBuilder::new(heap);
    let to_second = draft.arc(only(&[P]), SECOND)?;
    let to_first = draft.arc(only(&[P]), FIRST)?;
    let to_second = draft.shape(ShapeRow::Hood(to_second))?;
    let to_first = draft.shape(ShapeRow::Hood(to_first))?;
    draft.define(ShapeRow::Not(to_second))?;
    draft.define(ShapeRow::Not(to_first))?;
    Ok(Example {
        draft,
        values: AnswerSheet::new(&[], &[], 0),
        nodes: 2,
        triples: &FACING,
    })
}

// Two correct typings contradict each other, so the draft is refused.
#[test]
fn mutual_negation(rt: HostRuntime) -> Result<(), Fail> {
    let example = opposed(rt.alloc())?;
    assert!(rt; example.is_correct(rt.alloc(), &[(0, FIRST)])?);
    assert!(rt; example.is_correct(rt.alloc(), &[(1, SECOND)])?);
    assert!(rt; !example.is_correct(rt.alloc(), &[(0, FIRST), (1, SECOND)])?);
    let mut schema = Schema::new();
    match schema.accept(&example.draft.draft()) {
        Ok(()) => Err(Fail::new("mutual negation was accepted")),
        Err(fault) => {
            assert_eq!(rt; fault.number(), 6);
            assert!(rt; matches!(fault, SchemaFault::Negation(FIRST, SECOND)));
            assert_eq!(rt; schema.label_count(), 0);
            Ok(())
        }
    }
}
