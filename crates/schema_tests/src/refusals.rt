// One draft for each refusal by length or row, and for pairs of refusals the one that comes first.
use crate::answer::answer;
use draft::{PropertySet, SchemaFault, ShapeRow, Table, TripleRow};

const VALUE: ShapeRow = ShapeRow::Value(7);

#[test]
fn no_rows(rt: HostRuntime) {
    assert_eq!(rt; answer(&[], &[], &[], &[]), Ok(()));
}

#[test]
fn limits_met(rt: HostRuntime) {
    assert_eq!(rt;
        answer(
            &[127; 32],
            &[VALUE; 128],
            &[TripleRow::Empty; 128],
            &[PropertySet::EMPTY; 32]
        ),
        Ok(())
    );
}

#[test]
fn labels_past_the_limit(rt: HostRuntime) {
    assert_eq!(rt;
        answer(&[0; 33], &[VALUE; 129], &[], &[]),
        Err(SchemaFault::TooLong(Table::Labels))
    );
}

#[test]
fn shapes_past_the_limit(rt: HostRuntime) {
    assert_eq!(rt;
        answer(&[200], &[VALUE; 129], &[TripleRow::Empty; 129], &[]),
        Err(SchemaFault::TooLong(Table::ShapeRows))
    );
}

#[test]
fn triples_past_the_limit(rt: HostRuntime) {
    assert_eq!(rt;
        answer(
            &[200],
            &[],
            &[TripleRow::Empty; 129],
            &[PropertySet::EMPTY; 33]
        ),
        Err(SchemaFault::TooLong(Table::TripleRows))
    );
}

#[test]
fn sets_past_the_limit(rt: HostRuntime) {
    assert_eq!(rt;
        answer(&[200], &[], &[], &[PropertySet::EMPTY; 33]),
        Err(SchemaFault::TooLong(Table::Sets))
    );
}

#[test]
fn definitions(rt: HostRuntime) {
    assert_eq!(rt;
        answer(&[0], &[], &[], &[]),
        Err(SchemaFault::Definition(0))
    );
    assert_eq!(rt;
        answer(&[0, 1, 9], &[VALUE], &[], &[]),
        Err(SchemaFault::Definition(1))
    );
    assert_eq!(rt;
        answer(&[1], &[ShapeRow::Not(0)], &[], &[]),
        Err(SchemaFault::Definition(0))
    );
}

#[test]
fn shapes_that_name_themselves_or_later_rows(rt: HostRuntime) {
    assert_eq!(rt;
        answer(&[], &[ShapeRow::Not(0)], &[], &[]),
        Err(SchemaFault::ShapeRow(0))
    );
    assert_eq!(rt;
        answer(&[], &[VALUE, ShapeRow::And(0, 1)], &[], &[]),
        Err(SchemaFault::ShapeRow(1))
    );
    assert_eq!(rt;
        answer(&[], &[VALUE, ShapeRow::Or(2, 0), VALUE], &[], &[]),
        Err(SchemaFault::ShapeRow(1))
    );
    assert_eq!(rt;
        answer(
            &[],
            &[VALUE, ShapeRow::Or(0, 0), ShapeRow::And(0, 1)],
            &[],
            &[]
        ),
        Ok(())
    );
}

#[test]
fn hoods(rt: HostRuntime) {
    assert_eq!(rt;
        answer(&[], &[ShapeRow::Hood(0)], &[], &[]),
        Err(SchemaFault::ShapeRow(0))
    );
    assert_eq!(rt;
        answer(
            &[],
            &[ShapeRow::Hood(1)],
            &[TripleRow::Empty, TripleRow::Empty],
            &[]
        ),
        Ok(())
    );
}

#[test]
fn shapes_before_triples(rt: HostRuntime) {
    assert_eq!(rt;
        answer(
            &[],
            &[VALUE, ShapeRow::Not(1)],
            &[TripleRow::Each(0, 0)],
            &[]
        ),
        Err(SchemaFault::ShapeRow(1))
    );
}

#[test]
fn triples_that_name_themselves_or_later_rows(rt: HostRuntime) {
    assert_eq!(rt;
        answer(&[], &[], &[TripleRow::Each(0, 0)], &[]),
        Err(SchemaFault::TripleRow(0))
    );
    assert_eq!(rt;
        answer(&[], &[], &[TripleRow::Empty, TripleRow::Some(0, 1)], &[]),
        Err(SchemaFault::TripleRow(1))
    );
    assert_eq!(rt;
        answer(&[], &[], &[TripleRow::Times(0, 0, None)], &[]),
        Err(SchemaFault::TripleRow(0))
    );
}

#[test]
fn arcs(rt: HostRuntime) {
    let sets = [PropertySet::EMPTY];
    assert_eq!(rt;
        answer(&[0], &[VALUE], &[TripleRow::Arc(0, 0)], &sets),
        Ok(())
    );
    assert_eq!(rt;
        answer(&[0, 0], &[VALUE], &[TripleRow::Arc(1, 1)], &sets),
        Err(SchemaFault::TripleRow(0))
    );
    assert_eq!(rt;
        answer(&[0], &[VALUE], &[TripleRow::Arc(0, 1)], &sets),
        Err(SchemaFault::TripleRow(0))
    );
}

#[test]
fn bounds(rt: HostRuntime) {
    assert_eq!(rt;
        answer(
            &[],
            &[],
            &[TripleRow::Empty, TripleRow::Times(0, 3, Some(2))],
            &[]
        ),
        Err(SchemaFault::Bounds(1))
    );
    assert_eq!(rt;
        answer(
            &[],
            &[],
            &[TripleRow::Empty, TripleRow::Times(0, 3, Some(3))],
            &[]
        ),
        Ok(())
    );
    assert_eq!(rt;
        answer(
            &[],
            &[],
            &[TripleRow::Empty, TripleRow::Times(0, 255, None)],
            &[]
        ),
        Ok(())
    );
}

#[test]
fn names_before_bounds_at_a_row(rt: HostRuntime) {
    assert_eq!(rt;
        answer(
            &[],
            &[],
            &[TripleRow::Empty, TripleRow::Times(1, 3, Some(2))],
            &[]
        ),
        Err(SchemaFault::TripleRow(1))
    );
    assert_eq!(rt;
        answer(
            &[],
            &[],
            &[
                TripleRow::Empty,
                TripleRow::Times(0, 3, Some(2)),
                TripleRow::Each(2, 2)
            ],
            &[]
        ),
        Err(SchemaFault::Bounds(1))
    );
}
