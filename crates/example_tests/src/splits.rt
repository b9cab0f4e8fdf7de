// How the arcs of a node are split: an arc that two rows admit, and repeats with two ends.
use crate::builder::{DraftBuilder, only};
use crate::example::Example;
use draft::ShapeRow;
use std::alloc::{AllocError, Global};
use std::test::*;
use values::{Term, TermKind, TermTable, Test};

const P: u8 = 0;

const MATCHING: u8 = 0;

const TO_NINE: u8 = 1;

const TO_FOUR: u8 = 2;

// Five subjects, then the numbers 3, 4, 7 and 8.
const TERMS: [Term; 9] = [
    Term {
        kind: TermKind::Iri,
    },
    Term {
        kind: TermKind::Iri,
    },
    Term {
        kind: TermKind::Iri,
    },
    Term {
        kind: TermKind::Iri,
    },
    Term {
        kind: TermKind::Iri,
    },
    Term {
        kind: TermKind::Whole(3),
    },
    Term {
        kind: TermKind::Whole(4),
    },
    Term {
        kind: TermKind::Whole(7),
    },
    Term {
        kind: TermKind::Whole(8),
    },
];

const THREE: u16 = 5;

const FOUR: u16 = 6;

const SEVEN: u16 = 7;

const EIGHT: u16 = 8;

const TESTS: [Test; 2] = [Test::Whole(0, 9), Test::Whole(0, 4)];

fn example<'a>(
    mut draft: DraftBuilder,
    row: u8,
    triples: &'a [(u16, u8, u16)],
) -> Result<Example<'a, TermTable<'static>>, AllocError> {
    draft.define(ShapeRow::Hood(row))?;
    draft.define(ShapeRow::Value(0))?;
    draft.define(ShapeRow::Value(1))?;
    Ok(Example {
        draft,
        values: TermTable::new(&TERMS, &TESTS),
        nodes: 9,
        triples,
    })
}

// One arc to a number up to 9, and any arcs to numbers up to 4. The objects are 3 and 7; 7 and 3; 7 and 8; 7; none.
const SHARED: [(u16, u8, u16); 7] = [
    (0, P, THREE),
    (0, P, SEVEN),
    (1, P, SEVEN),
    (1, P, THREE),
    (2, P, SEVEN),
    (2, P, EIGHT),
    (3, P, SEVEN),
];

#[test]
fn an_arc_that_two_rows_admit(rt: HostRuntime) -> Result<(), Fail> {
    let mut draft = DraftBuilder::new(rt.alloc());
    let nine = draft.arc(only(&[P]), TO_NINE)?;
    let fours = draft.arcs(only(&[P]), TO_FOUR)?;
    let row = draft.each(nine, fours)?;
    let typing = [
        (0, MATCHING),
        (1, MATCHING),
        (3, MATCHING),
        (THREE, TO_NINE),
        (FOUR, TO_NINE),
        (SEVEN, TO_NINE),
        (EIGHT, TO_NINE),
        (THREE, TO_FOUR),
        (FOUR, TO_FOUR),
    ];
    example(draft, row, &SHARED)?.has_typing(&rt, rt.alloc(), &typing)
}

// Subject i has i arcs.
const COUNTED: [(u16, u8, u16); 10] = [
    (1, P, THREE),
    (2, P, THREE),
    (2, P, FOUR),
    (3, P, THREE),
    (3, P, FOUR),
    (3, P, SEVEN),
    (4, P, THREE),
    (4, P, FOUR),
    (4, P, SEVEN),
    (4, P, EIGHT),
];

#[test]
fn two_or_three_arcs(rt: HostRuntime) -> Result<(), Fail> {
    let mut draft = DraftBuilder::new(rt.alloc());
    let nine = draft.arc(only(&[P]), TO_NINE)?;
    let row = draft.times(nine, 2, Some(3))?;
    let typing = [
        (2, MATCHING),
        (3, MATCHING),
        (THREE, TO_NINE),
        (FOUR, TO_NINE),
        (SEVEN, TO_NINE),
        (EIGHT, TO_NINE),
        (THREE, TO_FOUR),
        (FOUR, TO_FOUR),
    ];
    example(draft, row, &COUNTED)?.has_typing(&rt, rt.alloc(), &typing)
}
