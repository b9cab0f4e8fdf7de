// Recursion with and without negation.
use crate::answer::answer;
use draft::{PropertySet, SchemaFault, ShapeRow, TripleRow};

// The labels' definitions over arcs of one property to labels 0, 1 and 2: the triple row of an arc is its label.
fn answer_over_arcs(definitions: &[u8], shapes: &[ShapeRow]) -> Result<(), SchemaFault> {
    let triples = [
        TripleRow::Arc(0, 0),
        TripleRow::Arc(0, 1),
        TripleRow::Arc(0, 2),
    ];
    let sets = [PropertySet::from_words([2, 0, 0, 0])];
    answer(definitions, shapes, &triples, &sets)
}

#[test]
fn mutual_negation(rt: HostRuntime) {
    let shapes = [
        ShapeRow::Hood(1),
        ShapeRow::Not(0),
        ShapeRow::Hood(0),
        ShapeRow::Not(2),
        ShapeRow::Value(0),
    ];
    assert_eq!(rt;
        answer_over_arcs(&[1, 3, 4], &shapes),
        Err(SchemaFault::Negation(0, 1))
    );
}

#[test]
fn negation_twice_is_negation(rt: HostRuntime) {
    let shapes = [ShapeRow::Hood(0), ShapeRow::Not(0), ShapeRow::Not(1)];
    assert_eq!(rt;
        answer(
            &[2],
            &shapes,
            &[TripleRow::Arc(0, 0)],
            &[PropertySet::EMPTY]
        ),
        Err(SchemaFault::Negation(0, 0))
    );
}

#[test]
fn recursion_without_negation(rt: HostRuntime) {
    let shapes = [
        ShapeRow::Hood(0),
        ShapeRow::Hood(1),
        ShapeRow::Hood(2),
        ShapeRow::And(0, 1),
        ShapeRow::Or(2, 3),
    ];
    assert_eq!(rt; answer_over_arcs(&[4, 4, 4], &shapes), Ok(()));
}

#[test]
fn negation_below_a_positive_cycle(rt: HostRuntime) {
    let shapes = [
        ShapeRow::Hood(1),
        ShapeRow::Hood(2),
        ShapeRow::Not(1),
        ShapeRow::And(0, 2),
        ShapeRow::Hood(0),
        ShapeRow::Value(0),
    ];
    assert_eq!(rt; answer_over_arcs(&[3, 4, 5], &shapes), Ok(()));
}

#[test]
fn negation_with_a_positive_way_back(rt: HostRuntime) {
    let shapes = [
        ShapeRow::Hood(2),
        ShapeRow::Not(0),
        ShapeRow::Hood(1),
        ShapeRow::Value(0),
        ShapeRow::Hood(0),
    ];
    assert_eq!(rt;
        answer_over_arcs(&[2, 1, 4], &shapes),
        Err(SchemaFault::Negation(1, 2))
    );
}

#[test]
fn one_negated_way_down_is_enough(rt: HostRuntime) {
    let shapes = [
        ShapeRow::Hood(0),
        ShapeRow::Not(0),
        ShapeRow::Or(0, 1),
        ShapeRow::Value(0),
    ];
    assert_eq!(rt;
        answer_over_arcs(&[2, 3, 3], &shapes),
        Err(SchemaFault::Negation(0, 0))
    );
}

#[test]
fn the_lowest_labels_are_named(rt: HostRuntime) {
    let shapes = [
        ShapeRow::Hood(1),
        ShapeRow::Hood(2),
        ShapeRow::Or(0, 1),
        ShapeRow::Not(2),
        ShapeRow::Value(0),
    ];
    assert_eq!(rt;
        answer_over_arcs(&[4, 3, 3], &shapes),
        Err(SchemaFault::Negation(1, 1))
    );
    assert_eq!(rt;
        answer_over_arcs(&[4, 4, 3], &shapes),
        Err(SchemaFault::Negation(2, 2))
    );
}

#[test]
fn unused_rows_never_refer(rt: HostRuntime) {
    let shapes = [ShapeRow::Hood(0), ShapeRow::Not(0)];
    assert_eq!(rt; answer_over_arcs(&[0, 0, 0], &shapes), Ok(()));
}

#[test]
fn bounds_before_negation(rt: HostRuntime) {
    let shapes = [ShapeRow::Hood(0), ShapeRow::Not(0)];
    let triples = [TripleRow::Arc(0, 0), TripleRow::Times(0, 2, Some(1))];
    assert_eq!(rt;
        answer(&[1], &shapes, &triples, &[PropertySet::EMPTY]),
        Err(SchemaFault::Bounds(1))
    );
}

// An arc that no repeat ever uses still refers.
#[test]
fn an_arc_repeated_never(rt: HostRuntime) {
    let shapes = [ShapeRow::Hood(1), ShapeRow::Not(0)];
    let triples = [TripleRow::Arc(0, 0), TripleRow::Times(0, 0, Some(0))];
    assert_eq!(rt;
        answer(&[1], &shapes, &triples, &[PropertySet::EMPTY]),
        Err(SchemaFault::Negation(0, 0))
    );
}

// Each row names the row before it twice: its expression has 2^100 arcs, and the rows are visited once each.
#[test]
fn a_tower_of_shared_rows(rt: HostRuntime) {
    let mut triples = [TripleRow::Arc(0, 0); 101];
    for (row, below) in triples[1..].iter_mut().zip(0..) {
        *row = TripleRow::Each(below, below);
    }
    let shapes = [ShapeRow::Hood(100), ShapeRow::Not(0)];
    let sets = [PropertySet::EMPTY];
    assert_eq!(rt; answer(&[0], &shapes, &triples, &sets), Ok(()));
    assert_eq!(rt;
        answer(&[1], &shapes, &triples, &sets),
        Err(SchemaFault::Negation(0, 0))
    );
}
