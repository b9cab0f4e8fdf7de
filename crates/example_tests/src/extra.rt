// Shapes that are open to further properties, and shapes that let some triples go unmatched.
use crate::builder::{DraftBuilder, all_but, only};
use crate::example::Example;
use draft::ShapeRow;
use std::alloc::{AllocError, Global};
use std::test::*;
use values::{Term, TermKind, TermTable, Test};

const P: u8 = 0;

const Q: u8 = 1;

// The subjects are named by their set of triples; the last has also an arc of the property Q.
const M24: u16 = 0;

const M246: u16 = 1;

const M2A: u16 = 2;

const M24A: u16 = 3;

const M24AQ: u16 = 4;

const TWO: u16 = 5;

const FOUR: u16 = 6;

const SIX: u16 = 7;

const A: u16 = 8;

const OPEN: u8 = 0;

const OPEN_EXTRA: u8 = 1;

const CLOSED_EXTRA: u8 = 2;

const EVEN: u8 = 3;

const BELOW_FIVE: u8 = 4;

const NEITHER: u8 = 5;

const ANYTHING: u8 = 6;

const TERMS: [Term; 9] = [
    Term {
        kind: TermKind::Iri,
    },
    Term {
        kind: TermKind::Iri,
    },
    Term {
        kind: TermKind::Iri,
    },
    Term {
        kind: TermKind::Iri,
    },
    Term {
        kind: TermKind::Iri,
    },
    Term {
        kind: TermKind::Whole(2),
    },
    Term {
        kind: TermKind::Whole(4),
    },
    Term {
        kind: TermKind::Whole(6),
    },
    Term {
        kind: TermKind::Text,
    },
];

// A term table has no test for even numbers, so 2, 4 and 6 are asked for one by one.
const TESTS: [Test; 4] = [
    Test::Whole(2, 2),
    Test::Whole(4, 4),
    Test::Whole(6, 6),
    Test::Whole(i32::MIN, 4),
];

const TRIPLES: [(u16, u8, u16); 14] = [
    (M24, P, TWO),
    (M24, P, FOUR),
    (M246, P, TWO),
    (M246, P, FOUR),
    (M246, P, SIX),
    (M2A, P, TWO),
    (M2A, P, A),
    (M24A, P, TWO),
    (M24A, P, FOUR),
    (M24A, P, A),
    (M24AQ, P, TWO),
    (M24AQ, P, FOUR),
    (M24AQ, P, A),
    (M24AQ, Q, TWO),
];

// One arc to an even number and one to a number below five. The rows are closed, so that a shape is open is
// written as any arcs of other properties, and that P is extra as any arcs of P to what neither arc admits.
fn define_hoods(draft: &mut DraftBuilder) -> Result<(), AllocError> {
    let even = draft.arc(only(&[P]), EVEN)?;
    let below = draft.arc(only(&[P]), BELOW_FIVE)?;
    let both = draft.each(even, below)?;
    let others = draft.arcs(all_but(&[P]), ANYTHING)?;
    let unmatched = draft.arcs(only(&[P]), NEITHER)?;
    let open = draft.each(both, others)?;
    let extra = draft.each(both, unmatched)?;
    let open_extra = draft.each(extra, others)?;
    draft.define(ShapeRow::Hood(open))?;
    draft.define(ShapeRow::Hood(open_extra))?;
    draft.define(ShapeRow::Hood(extra))?;
    Ok(())
}

fn define_values(draft: &mut DraftBuilder) -> Result<(), AllocError> {
    let two = draft.shape(ShapeRow::Value(0))?;
    let four = draft.shape(ShapeRow::Value(1))?;
    let six = draft.shape(ShapeRow::Value(2))?;
    let below = draft.shape(ShapeRow::Value(3))?;
    let two_or_four = draft.shape(ShapeRow::Or(two, four))?;
    let even = draft.shape(ShapeRow::Or(two_or_four, six))?;
    let either = draft.shape(ShapeRow::Or(even, below))?;
    let anything = draft.arcs(all_but(&[]), ANYTHING)?;
    draft.define(ShapeRow::Or(two_or_four, six))?;
    draft.define(ShapeRow::Value(3))?;
    draft.define(ShapeRow::Not(either))?;
    draft.define(ShapeRow::Hood(anything))?;
    Ok(())
}

fn example(heap: Global) -> Result<Example<'static, TermTable<'static>>, AllocError> {
    let mut draft = DraftBuilder::new(heap);
    define_hoods(&mut draft)?;
    define_values(&mut draft)?;
    Ok(Example {
        draft,
        values: TermTable::new(&TERMS, &TESTS),
        nodes: 9,
        triples: &TRIPLES,
    })
}

// With P extra, "a" may stand beside 2 and 4, but 6 may not, since it is even; a closed shape refuses the arc of Q.
#[test]
fn open_closed_and_extra(rt: HostRuntime) -> Result<(), Fail> {
    let typing = [
        (M24, OPEN),
        (M24, OPEN_EXTRA),
        (M24, CLOSED_EXTRA),
        (M24A, OPEN_EXTRA),
        (M24A, CLOSED_EXTRA),
        (M24AQ, OPEN_EXTRA),
        (TWO, EVEN),
        (FOUR, EVEN),
        (SIX, EVEN),
        (TWO, BELOW_FIVE),
        (FOUR, BELOW_FIVE),
        (M24, NEITHER),
        (M246, NEITHER),
        (M2A, NEITHER),
        (M24A, NEITHER),
        (M24AQ, NEITHER),
        (A, NEITHER),
        (M24, ANYTHING),
        (M246, ANYTHING),
        (M2A, ANYTHING),
        (M24A, ANYTHING),
        (M24AQ, ANYTHING),
        (TWO, ANYTHING),
        (FOUR, ANYTHING),
        (SIX, ANYTHING),
        (A, ANYTHING),
    ];
    example(rt.alloc())?.has_typing(&rt, rt.alloc(), &typing)
}
