// What an accepted schema answers, its strata, and what a refusal leaves.
use draft::{Draft, PropertySet, SchemaFault, ShapeRow, TripleRow};
use schema::Schema;

// Label 0 refers to itself and, under a NOT, to label 1; label 1 refers to nothing.
fn small() -> Schema {
    let mut schema = Schema::new();
    let shapes = [
        ShapeRow::Value(3),
        ShapeRow::Hood(0),
        ShapeRow::Hood(1),
        ShapeRow::Not(1),
        ShapeRow::And(2, 3),
    ];
    let triples = [TripleRow::Arc(1, 1), TripleRow::Arc(0, 0)];
    let sets = [
        PropertySet::from_words([2, 0, 0, 0]),
        PropertySet::from_words([0, 0, 0, 4]),
    ];
    let _ = schema.accept(&Draft {
        definitions: &[4, 0],
        shapes: &shapes,
        triples: &triples,
        sets: &sets,
    });
    schema
}

#[test]
fn a_new_schema_has_no_labels(rt: HostRuntime) {
    let schema = Schema::new();
    let mut bytes = [9; 1];
    assert_eq!(rt; schema.label_count(), 0);
    assert_eq!(rt; schema.definition(0), None);
    assert_eq!(rt; schema.shape(0), None);
    assert_eq!(rt; schema.strata(&mut bytes), Ok(0));
    assert_eq!(rt; bytes, [9]);
    assert!(rt; schema.stratifies(&[]));
}

#[test]
fn a_schema_is_small(rt: HostRuntime) {
    assert!(rt; std::mem::size_of::<Schema>() <= 8192);
}

#[test]
fn questions(rt: HostRuntime) {
    let schema = small();
    assert_eq!(rt; schema.label_count(), 2);
    assert_eq!(rt;
        [schema.definition(0), schema.definition(2)],
        [Some(4), None]
    );
    assert_eq!(rt;
        [schema.shape(4), schema.shape(5)],
        [Some(ShapeRow::And(2, 3)), None]
    );
    assert_eq!(rt;
        [schema.triple(0), schema.triple(2)],
        [Some(TripleRow::Arc(1, 1)), None]
    );
    assert!(rt;
        schema.contains(0, 1)
            && schema.contains(1, 194)
            && !schema.contains(1, 1)
            && !schema.contains(2, 1)
    );
}

#[test]
fn strata(rt: HostRuntime) {
    let schema = small();
    let mut bytes = [77; 4];
    assert_eq!(rt; schema.strata(&mut bytes), Ok(2));
    assert!(rt; schema.stratifies(&bytes) && bytes[1] < bytes[0]);
    assert_eq!(rt; [bytes[2], bytes[3]], [77; 2]);
}

#[test]
fn a_short_buffer_stays(rt: HostRuntime) {
    let schema = small();
    let mut bytes = [77; 1];
    assert_eq!(rt; schema.strata(&mut bytes), Err(SchemaFault::ShortBuffer));
    assert_eq!(rt; bytes, [77]);
}

#[test]
fn proposed_strata(rt: HostRuntime) {
    let schema = small();
    assert!(rt;
        schema.stratifies(&[2, 1])
            && schema.stratifies(&[32, 31, 0, 99])
            && !schema.stratifies(&[2])
    );
    assert!(rt;
        !schema.stratifies(&[1, 1]) && !schema.stratifies(&[1, 2]) && !schema.stratifies(&[1, 0])
    );
    assert!(rt; !schema.stratifies(&[33, 1]) && !schema.stratifies(&[255, 1]));
}

#[test]
fn a_refused_draft_leaves_the_place(rt: HostRuntime) {
    let mut schema = small();
    let shapes = [ShapeRow::Hood(0), ShapeRow::Not(0)];
    let draft = Draft {
        definitions: &[1],
        shapes: &shapes,
        triples: &[TripleRow::Arc(0, 0)],
        sets: &[PropertySet::EMPTY],
    };
    assert_eq!(rt; schema.accept(&draft), Err(SchemaFault::Negation(0, 0)));
    assert_eq!(rt; schema.label_count(), 2);
    assert_eq!(rt; schema.shape(1), Some(ShapeRow::Hood(0)));
    assert!(rt; schema.contains(0, 1));
    let other = Draft {
        definitions: &[0],
        shapes: &shapes,
        triples: &[TripleRow::Empty],
        sets: &[],
    };
    assert_eq!(rt; schema.accept(&other), Ok(()));
    assert_eq!(rt; schema.label_count(), 1);
    assert!(rt; !schema.contains(0, 1));
}
