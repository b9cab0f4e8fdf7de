// The small house: two shows that follow each other, and the running time of both.
use crate::schemas::schema_of;
use crate::world::t;
use chain::ChainStore;
use draft::{Draft, PropertySet, ShapeRow, TripleRow};
use rows::RowStore;
use schema::Schema;
use std::process::Abort;
use std::test::Fail;
use triple::Store;
use validate::Validate;
use validator::Validator;
use values::{AnswerSheet, Term, TermKind, TermTable, Test, ValueTest};

const TESTS: [Test; 1] = [Test::Whole(1, 200)];

fn terms(minutes: i32) -> [Term; 4] {
    [
        Term {
            kind: TermKind::Iri,
        },
        Term {
            kind: TermKind::Iri,
        },
        Term {
            kind: TermKind::Whole(minutes),
        },
        Term {
            kind: TermKind::Text,
        },
    ]
}

// Label 0: one arc with property 2 to a running time, and any number with property 1 to label 0. Label 1: test 0.
fn house_schema() -> Result<Schema, Fail> {
    let triples = [
        TripleRow::Arc(1, 1),
        TripleRow::Arc(0, 0),
        TripleRow::Times(1, 0, None),
        TripleRow::Each(0, 2),
    ];
    let sets = [
        PropertySet::from_words([2, 0, 0, 0]),
        PropertySet::from_words([4, 0, 0, 0]),
    ];
    let draft = Draft {
        definitions: &[0, 1],
        shapes: &[ShapeRow::Hood(3), ShapeRow::Value(0)],
        triples: &triples,
        sets: &sets,
    };
    schema_of(&draft)
}

fn fill<S: Store>(rt: &impl Abort, store: &mut S) {
    for triple in [t(0, 2, 2), t(1, 2, 2), t(0, 1, 1), t(1, 1, 0)] {
        assert!(rt; store.put(triple).is_ok());
    }
}

// What is held of the eight pairs, by node and then by label.
fn check_held<A: Validate>(
    rt: &impl Abort,
    validator: &A,
    expected: [Option<bool>; 8],
) -> Result<(), Fail> {
    for (place, verdict) in expected.iter().enumerate() {
        let node = ((place / 2) & 3) as u16;
        let label = (place & 1) as u8;
        let Ok(held) = validator.held(node, label) else {
            return Err(Fail::new("held refuses"));
        };
        assert_eq!(rt; held, *verdict);
    }
    Ok(())
}

// The table is longer than the eight pairs: its last two bytes stay 7.
fn check_sweep<A: Validate>(
    rt: &impl Abort,
    validator: &mut A,
    count: usize,
    expected: [u8; 10],
) -> Result<(), Fail> {
    let mut table = [7; 10];
    let Ok(pairs) = validator.sweep(&[1, 1], &mut table) else {
        return Err(Fail::new("sweep refuses"));
    };
    assert_eq!(rt; pairs, count);
    assert!(rt; table == expected);
    Ok(())
}

const Y: Option<bool> = Some(true);

const N: Option<bool> = Some(false);

const O: Option<bool> = None;

// A first look at (0, 0), then a sweep, then the withdrawal of (1, 2, 2).
fn check_calls<A: Validate>(rt: &impl Abort, validator: &mut A) -> Result<(), Fail> {
    check_held(rt, validator, [O, O, O, O, O, O, O, O])?;
    assert!(rt; matches!(validator.look(0, 0), Ok(true)));
    check_held(rt, validator, [Y, O, Y, O, O, Y, O, O])?;
    check_sweep(rt, validator, 3, [1, 0, 1, 0, 0, 1, 0, 0, 7, 7])?;
    check_held(rt, validator, [Y, N, Y, N, N, Y, N, N])?;
    assert!(rt; validator.withdraw(t(1, 2, 2)).is_ok());
    check_held(rt, validator, [O, O, O, O, N, Y, N, N])?;
    assert!(rt; matches!(validator.look(0, 0), Ok(false)));
    check_held(rt, validator, [N, O, N, O, N, Y, N, N])?;
    check_sweep(rt, validator, 1, [0, 0, 0, 0, 0, 1, 0, 0, 7, 7])
}

fn check_house<S: Store + Drop, V: ValueTest + Drop>(
    rt: &impl Abort,
    mut store: S,
    values: V,
) -> Result<(), Fail> {
    fill(rt, &mut store);
    let mut validator = Validator::new(house_schema()?, store, values);
    check_calls(rt, &mut validator)
}

#[test]
fn small_house(rt: HostRuntime) -> Result<(), Fail> {
    let known = terms(110);
    let table = TermTable::new(&known, &TESTS);
    let sheet = AnswerSheet::new(&[0, 0, 1, 1], &[0, 0, 1, 0], 1);
    check_house(&rt, ChainStore::new(4), table)?;
    check_house(&rt, ChainStore::new(4), sheet)?;
    let mut rows = [None; 4];
    check_house(&rt, RowStore::new(&mut rows, 4), table)?;
    check_house(&rt, RowStore::new(&mut rows, 4), sheet)
}

fn check_minutes(rt: &impl Abort, minutes: i32, verdict: bool) -> Result<(), Fail> {
    let known = terms(minutes);
    let mut store = ChainStore::new(4);
    fill(rt, &mut store);
    let values = TermTable::new(&known, &TESTS);
    let mut validator = Validator::new(house_schema()?, store, values);
    assert!(rt; matches!(validator.look(2, 1), Ok(v) if v == verdict));
    assert!(rt; matches!(validator.look(1, 0), Ok(v) if v == verdict));
    Ok(())
}

#[test]
fn ends_of_the_range(rt: HostRuntime) -> Result<(), Fail> {
    for (minutes, verdict) in [
        (110, true),
        (200, true),
        (1, true),
        (201, false),
        (0, false),
        (-1, false),
        (2147483647, false),
        (-2147483648, false),
    ] {
        check_minutes(&rt, minutes, verdict)?;
    }
    Ok(())
}
