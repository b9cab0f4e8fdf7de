// The schemas of the cases.
use anyhow::anyhow;
use draft::{Draft, PropertySet, ShapeRow, TripleRow};
use schema::Schema;

// The set of one property below 64.
fn only(property: u8) -> PropertySet {
    PropertySet::from_words([1 << (property % 64), 0, 0, 0])
}

fn accepted<'a>(
    definitions: &'a [u8],
    shapes: &'a [ShapeRow],
    triples: &'a [TripleRow],
) -> anyhow::Result<Schema> {
    // Set i has the property i + 1.
    let sets = [1, 2, 3, 4, 5, 6, 7, 8, 9].map(only);
    let draft = Draft {
        definitions,
        shapes,
        triples,
        sets: &sets,
    };
    let mut schema = Schema::new();
    match schema.accept(&draft) {
        Ok(()) => Ok(schema),
        Err(_) => Err(anyhow!("a draft is refused")),
    }
}

// Label 0 is HOOD of the last triple row, label 1 the nodes that are IRIs.
fn hood(triples: &[TripleRow], last: u8) -> anyhow::Result<Schema> {
    let shapes = [ShapeRow::Hood(last), ShapeRow::Value(0)];
    accepted(&[0, 1], &shapes, triples)
}

// One arc of property 2, and any number of property 1.
pub fn typical() -> anyhow::Result<Schema> {
    let rows = [
        TripleRow::Arc(1, 1),
        TripleRow::Arc(0, 0),
        TripleRow::Times(1, 0, None),
        TripleRow::Each(0, 2),
    ];
    hood(&rows, 3)
}

// Any number of groups of one arc of property 1 and one or two of property 2.
pub fn nested() -> anyhow::Result<Schema> {
    let rows = [
        TripleRow::Arc(0, 1),
        TripleRow::Arc(1, 1),
        TripleRow::Times(1, 1, Some(2)),
        TripleRow::Each(0, 2),
        TripleRow::Times(3, 0, None),
    ];
    hood(&rows, 4)
}

// Any number of groups of one or two arcs, and one to three more; all of property 1.
pub fn overlap() -> anyhow::Result<Schema> {
    let rows = [
        TripleRow::Arc(0, 1),
        TripleRow::Arc(0, 1),
        TripleRow::Each(0, 1),
        TripleRow::Some(0, 2),
        TripleRow::Times(3, 0, None),
        TripleRow::Times(1, 1, Some(3)),
        TripleRow::Each(4, 5),
    ];
    hood(&rows, 6)
}

// Each node has one arc of property 1, to a node that has the label.
pub fn line() -> anyhow::Result<Schema> {
    accepted(&[0], &[ShapeRow::Hood(0)], &[TripleRow::Arc(0, 0)])
}

// Shows, features, screens, keys, minutes, titles, seats, and whatever is no such show, in this order.
pub fn house() -> anyhow::Result<Schema> {
    let triples = [
        TripleRow::Arc(0, 1),
        TripleRow::Arc(1, 2),
        TripleRow::Arc(2, 0),
        TripleRow::Times(2, 0, None),
        TripleRow::Each(0, 1),
        TripleRow::Each(4, 3),
        TripleRow::Arc(3, 4),
        TripleRow::Arc(4, 5),
        TripleRow::Arc(5, 3),
        TripleRow::Times(8, 0, None),
        TripleRow::Each(6, 7),
        TripleRow::Each(10, 9),
        TripleRow::Arc(6, 6),
        TripleRow::Each(12, 7),
        TripleRow::Arc(7, 1),
        TripleRow::Arc(8, 4),
        TripleRow::Each(14, 15),
    ];
    let shapes = [
        ShapeRow::Hood(5),
        ShapeRow::Hood(11),
        ShapeRow::Hood(13),
        ShapeRow::Hood(16),
        ShapeRow::Value(1),
        ShapeRow::Value(2),
        ShapeRow::Value(3),
        ShapeRow::Not(0),
    ];
    accepted(&[0, 1, 2, 3, 4, 5, 6, 7], &shapes, &triples)
}
