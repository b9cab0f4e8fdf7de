// Sets of triples of one property to 2, 4, 6 and the text "a".
use crate::builder::{DraftBuilder, only};
use crate::example::Example;
use draft::ShapeRow;
use std::alloc::{AllocError, Global};
use std::test::*;
use values::AnswerSheet;

const P: u8 = 0;

const TWO: u16 = 0;

const FOUR: u16 = 1;

const SIX: u16 = 2;

const A: u16 = 3;
// The subjects are named by their set of triples.
const M24: u16 = 4;

const M246: u16 = 5;

const M2A: u16 = 6;

const M24A: u16 = 7;

const MATCHING: u8 = 0;

const EVEN: u8 = 1;

const BELOW_FIVE: u8 = 2;

const ABOVE_FIVE: u8 = 3;

const TEXT: u8 = 4;

const TRIPLES: [(u16, u8, u16); 10] = [
    (M24, P, TWO),
    (M24, P, FOUR),
    (M246, P, TWO),
    (M246, P, FOUR),
    (M246, P, SIX),
    (M2A, P, TWO),
    (M2A, P, A),
    (M24A, P, TWO),
    (M24A, P, FOUR),
    (M24A, P, A),
];

// The sheet ends before the subjects: they are no literals, and no test holds at them.
const LITERALS: [u8; 4] = [1, 1, 1, 1];

// By node: even, below five, above five, text.
const ANSWERS: [u8; 16] = [1, 1, 0, 0, 1, 1, 0, 0, 1, 0, 1, 0, 0, 0, 0, 1];

// One arc to an even number, and beside it any arcs to numbers below five, or one arc to a text.
fn matching(heap: Global) -> Result<Example<'static, AnswerSheet<'static>>, AllocError> {
    let mut draft = DraftBuilder::new(heap);
    let even = draft.arc(only(&[P]), EVEN)?;
    let below = draft.arcs(only(&[P]), BELOW_FIVE)?;
    let text = draft.arc(only(&[P]), TEXT)?;
    let rest = draft.some(below, text)?;
    let matching = draft.each(even, rest)?;
    draft.define(ShapeRow::Hood(matching))?;
    for test in 0..4 {
        draft.define(ShapeRow::Value(test))?;
    }
    Ok(Example {
        draft,
        values: AnswerSheet::new(&LITERALS, &ANSWERS, 4),
        nodes: 8,
        triples: &TRIPLES,
    })
}

// The first three sets match, and the fourth does not.
#[test]
fn even_and_below_five_or_text(rt: HostRuntime) -> Result<(), Fail> {
    let typing = [
        (M24, MATCHING),
        (M246, MATCHING),
        (M2A, MATCHING),
        (TWO, EVEN),
        (TWO, BELOW_FIVE),
        (FOUR, EVEN),
        (FOUR, BELOW_FIVE),
        (SIX, EVEN),
        (SIX, ABOVE_FIVE),
        (A, TEXT),
    ];
    matching(rt.alloc())?.has_typing(&rt, rt.alloc(), &typing)
}
