// The late show: the running time of its feature is corrected two triples away from the show.
use crate::schemas::schema_of;
use crate::world::t;
use chain::ChainStore;
use draft::{Draft, PropertySet, ShapeRow, TripleRow};
use rows::RowStore;
use schema::Schema;
use std::process::Abort;
use std::test::Fail;
use triple::Store;
use validate::Validate;
use validator::Validator;
use values::{Term, TermKind, TermTable, Test, ValueTest};

const FEATURE: u8 = 1;

const RUNS: u8 = 2;

// Node 0 is the late show, 1 its feature, 2 and 3 are running times, 4 is a show of another feature, 5.
const TERMS: [Term; 6] = [
    Term {
        kind: TermKind::Iri,
    },
    Term {
        kind: TermKind::Iri,
    },
    Term {
        kind: TermKind::Whole(250),
    },
    Term {
        kind: TermKind::Whole(95),
    },
    Term {
        kind: TermKind::Iri,
    },
    Term {
        kind: TermKind::Iri,
    },
];

const TESTS: [Test; 1] = [Test::Whole(1, 200)];

// Label 0 is a show with a feature, 1 a feature with a running time, 2 a running time of at most 200 minutes.
fn show_schema() -> Result<Schema, Fail> {
    let sets = [
        PropertySet::from_words([2, 0, 0, 0]),
        PropertySet::from_words([4, 0, 0, 0]),
    ];
    let draft = Draft {
        definitions: &[0, 1, 2],
        shapes: &[ShapeRow::Hood(0), ShapeRow::Hood(1), ShapeRow::Value(0)],
        triples: &[TripleRow::Arc(0, 1), TripleRow::Arc(1, 2)],
        sets: &sets,
    };
    schema_of(&draft)
}

fn check_pair<A: Validate>(
    rt: &impl Abort,
    validator: &A,
    node: u16,
    label: u8,
    verdict: Option<bool>,
) -> Result<(), Fail> {
    let Ok(held) = validator.held(node, label) else {
        return Err(Fail::new("held refuses"));
    };
    assert_eq!(rt; held, verdict);
    Ok(())
}

// The late show waits for the right running time; the other show is not touched.
fn correct<A: Validate>(rt: &impl Abort, validator: &mut A) -> Result<(), Fail> {
    assert!(rt; matches!(validator.look(0, 0), Ok(false)));
    assert!(rt; matches!(validator.look(4, 0), Ok(true)));
    check_pair(rt, validator, 1, 1, Some(false))?;
    check_pair(rt, validator, 2, 2, Some(false))?;
    assert!(rt; validator.withdraw(t(1, RUNS, 2)).is_ok());
    check_pair(rt, validator, 0, 0, None)?;
    assert!(rt; validator.add(t(1, RUNS, 3)).is_ok());
    check_pair(rt, validator, 0, 0, None)?;
    check_pair(rt, validator, 1, 1, None)?;
    check_pair(rt, validator, 2, 2, Some(false))?;
    check_pair(rt, validator, 4, 0, Some(true))?;
    check_pair(rt, validator, 5, 1, Some(true))?;
    assert!(rt; matches!(validator.look(0, 0), Ok(true)));
    check_pair(rt, validator, 0, 0, Some(true))?;
    check_pair(rt, validator, 1, 1, Some(true))
}

// A sweep gives the verdicts of the looks: shows 0 and 4, features 1 and 5, the running time 3.
fn check_sweep<A: Validate>(rt: &impl Abort, validator: &mut A) {
    let mut table = [0; 18];
    assert!(rt; matches!(validator.sweep(&[3, 2, 1], &mut table), Ok(5)));
    let expected = [1, 0, 0, 0, 1, 0, 0, 0, 0, 0, 0, 1, 1, 0, 0, 0, 1, 0];
    assert!(rt; table == expected);
}

fn check_show<S: Store + Drop>(rt: &impl Abort, mut store: S) -> Result<(), Fail> {
    for triple in [
        t(0, FEATURE, 1),
        t(1, RUNS, 2),
        t(4, FEATURE, 5),
        t(5, RUNS, 3),
    ] {
        assert!(rt; store.put(triple).is_ok());
    }
    let values = TermTable::new(&TERMS, &TESTS);
    let mut validator = Validator::new(show_schema()?, store, values);
    correct(rt, &mut validator)?;
    check_sweep(rt, &mut validator);
    Ok(())
}

#[test]
fn late_show(rt: HostRuntime) -> Result<(), Fail> {
    check_show(&rt, ChainStore::new(6))?;
    let mut rows = [None; 9];
    check_show(&rt, RowStore::new(&mut rows, 6))
}
