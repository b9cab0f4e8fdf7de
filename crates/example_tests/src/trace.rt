// A negated label above two labels that refer to each other, over four nodes.
use crate::builder::{DraftBuilder, only};
use crate::example::Example;
use chain::ChainStore;
use draft::ShapeRow;
use std::alloc::{AllocError, Global};
use std::process::Abort;
use std::test::*;
use triple::Store;
use validate::{Validate, ValidatorFault};
use validator::Validator;
use values::{Term, TermKind, TermTable, Test, ValueTest};

const A: u8 = 0;

const B: u8 = 1;

const C: u8 = 2;

const N1: u16 = 0;

const N2: u16 = 1;

const N3: u16 = 2;

const FOUR: u16 = 3;

const L1: u8 = 0;

const L2: u8 = 1;

const L3: u8 = 2;

const TEXT: u8 = 3;

const TERMS: [Term; 4] = [
    Term {
        kind: TermKind::Iri,
    },
    Term {
        kind: TermKind::Iri,
    },
    Term {
        kind: TermKind::Iri,
    },
    Term {
        kind: TermKind::Whole(4),
    },
];

const TESTS: [Test; 1] = [Test::Text];

const TRIPLES: [(u16, u8, u16); 4] = [(N1, A, N2), (N1, B, FOUR), (N2, C, N3), (N3, C, N2)];

// Nothing is a text, N2 and N3 support each other, and the negated hood is met nowhere.
const TYPING: [(u16, u8); 8] = [
    (N1, L1),
    (N2, L1),
    (N3, L1),
    (FOUR, L1),
    (N2, L2),
    (N3, L2),
    (N2, L3),
    (N3, L3),
];

// L1 has not exactly an A to L2 with a B to a text; L2 has a C to L3, and L3 a C to L2.
fn example(heap: Global) -> Result<Example<'static, TermTable<'static>>, AllocError> {
    let mut draft = DraftBuilder::new(heap);
    let to_l2 = draft.arc(only(&[A]), L2)?;
    let to_text = draft.arc(only(&[B]), TEXT)?;
    let both = draft.each(to_l2, to_text)?;
    let both = draft.shape(ShapeRow::Hood(both))?;
    let c_to_l3 = draft.arc(only(&[C]), L3)?;
    let c_to_l2 = draft.arc(only(&[C]), L2)?;
    draft.define(ShapeRow::Not(both))?;
    draft.define(ShapeRow::Hood(c_to_l3))?;
    draft.define(ShapeRow::Hood(c_to_l2))?;
    draft.define(ShapeRow::Value(0))?;
    Ok(Example {
        draft,
        values: TermTable::new(&TERMS, &TESTS),
        nodes: 4,
        triples: &TRIPLES,
    })
}

#[test]
fn typing_after_refinement(rt: HostRuntime) -> Result<(), Fail> {
    let example = example(rt.alloc())?;
    assert!(rt; example.is_correct(rt.alloc(), &TYPING)?);
    example.has_typing(&rt, rt.alloc(), &TYPING)
}

// Whether a sweep refuses the strata.
fn is_refused<V: ValueTest + Copy + Drop>(
    validator: &mut Validator<ChainStore, V>,
    strata: [u8; 4],
) -> bool {
    let mut table = [0; 16];
    let answer = validator.sweep(&strata, &mut table);
    matches!(answer, Err(ValidatorFault::NoStratification))
}

// L2 and L3 share a stratum, and L2 and the text label are below L1.
fn strata_of<V: ValueTest + Copy + Drop>(
    rt: &impl Abort,
    example: &Example<'_, V>,
) -> Result<(), Fail> {
    let mut validator = example.validator(rt)?;
    for strata in [[1, 1, 1, 1], [2, 1, 2, 1], [2, 2, 2, 1], [2, 1, 1, 2]] {
        assert!(rt; is_refused(&mut validator, strata));
    }
    let mut strata = [0; 4];
    assert_eq!(rt; validator.schema().strata(&mut strata).ok(), Some(4));
    let [l1, l2, l3, text] = strata;
    assert!(rt; l2 == l3 && l2 < l1 && text < l1);
    Ok(())
}

#[test]
fn stratifications(rt: HostRuntime) -> Result<(), Fail> {
    let example = example(rt.alloc())?;
    example.sweeps_to(&rt, rt.alloc(), &[2, 1, 1, 1], &TYPING)?;
    example.sweeps_to(&rt, rt.alloc(), &[3, 1, 1, 2], &TYPING)?;
    strata_of(&rt, &example)
}

// What is held of the four labels at a node.
fn held<V: ValueTest + Copy + Drop>(
    validator: &Validator<ChainStore, V>,
    node: u16,
) -> [Option<Option<bool>>; 4] {
    [L1, L2, L3, TEXT].map(|label| validator.held(node, label).ok())
}

// A look at N1 and L1 follows A to L2, B to the text, and the ring of L2 and L3; it holds nothing else.
fn held_after_look<V: ValueTest + Copy + Drop>(
    rt: &impl Abort,
    example: &Example<'_, V>,
) -> Result<(), Fail> {
    let mut validator = example.validator(rt)?;
    assert_eq!(rt; validator.look(N1, L1).ok(), Some(true));
    let not_held = Some(None);
    let yes = Some(Some(true));
    let no = Some(Some(false));
    assert_eq!(rt; held(&validator, N1), [yes, not_held, not_held, not_held]);
    assert_eq!(rt; held(&validator, N2), [not_held, yes, not_held, not_held]);
    assert_eq!(rt; held(&validator, N3), [not_held, not_held, yes, not_held]);
    assert_eq!(rt; held(&validator, FOUR), [not_held, not_held, not_held, no]);
    Ok(())
}

#[test]
fn first_look(rt: HostRuntime) -> Result<(), Fail> {
    held_after_look(&rt, &example(rt.alloc())?)
}
