// Small schemas with recursion, negation across strata, and overlapping parts; and random ones.
use crate::calls::Source;
use draft::{Draft, PropertySet, ShapeRow, TripleRow};
use schema::Schema;
use std::test::Fail;

// The tables of a draft.
#[derive(Clone, Copy)]
pub(crate) struct Rows {
    definitions: [u8; 4],
    shapes: [ShapeRow; 12],
    triples: [TripleRow; 13],
    sets: [PropertySet; 4],
}

// The properties 1; 2; 1 and 2; all but 1.
fn sets() -> [PropertySet; 4] {
    let every = 18446744073709551615;
    [
        PropertySet::from_words([2, 0, 0, 0]),
        PropertySet::from_words([4, 0, 0, 0]),
        PropertySet::from_words([6, 0, 0, 0]),
        PropertySet::from_words([every - 2, every, every, every]),
    ]
}

impl Rows {
    pub(crate) fn draft(&self) -> Draft<'_> {
        Draft {
            definitions: &self.definitions,
            shapes: &self.shapes,
            triples: &self.triples,
            sets: &self.sets,
        }
    }
}

// The schema of the draft, if it is accepted.
pub(crate) fn accepted(draft: &Draft) -> Option<Schema> {
    let mut schema = Schema::new();
    schema.accept(draft).ok()?;
    Some(schema)
}

// The schema of a draft that is to be accepted.
pub(crate) fn schema_of(draft: &Draft) -> Result<Schema, Fail> {
    accepted(draft).ok_or_else(|| Fail::new("the schema is refused"))
}

// Every label above 0 refers under a NOT to the one before it; 0 and 2 refer to themselves.
pub(crate) fn levels() -> Rows {
    Rows {
        definitions: [0, 4, 8, 11],
        shapes: [
            ShapeRow::Hood(1),
            ShapeRow::Value(2),
            ShapeRow::Hood(3),
            ShapeRow::Not(2),
            ShapeRow::Or(1, 3),
            ShapeRow::Hood(8),
            ShapeRow::Hood(9),
            ShapeRow::Not(6),
            ShapeRow::And(5, 7),
            ShapeRow::Hood(12),
            ShapeRow::Not(9),
            ShapeRow::Not(10),
        ],
        triples: [
            TripleRow::Arc(0, 0),
            TripleRow::Times(0, 1, None),
            TripleRow::Arc(2, 0),
            TripleRow::Times(2, 1, Some(2)),
            TripleRow::Arc(3, 1),
            TripleRow::Times(4, 0, Some(2)),
            TripleRow::Arc(0, 2),
            TripleRow::Times(6, 0, None),
            TripleRow::Each(5, 7),
            TripleRow::Arc(2, 1),
            TripleRow::Arc(2, 2),
            TripleRow::Empty,
            TripleRow::Some(10, 11),
        ],
        sets: sets(),
    }
}

// One stratum: the labels refer to each other, and most arcs serve several parts.
pub(crate) fn groups() -> Rows {
    Rows {
        definitions: [0, 3, 6, 8],
        shapes: [
            ShapeRow::Hood(5),
            ShapeRow::Value(1),
            ShapeRow::Hood(11),
            ShapeRow::Or(1, 2),
            ShapeRow::Hood(10),
            ShapeRow::Value(3),
            ShapeRow::Or(4, 0),
            ShapeRow::Hood(12),
            ShapeRow::And(6, 7),
            ShapeRow::Value(9),
            ShapeRow::Value(0),
            ShapeRow::Value(2),
        ],
        triples: [
            TripleRow::Arc(0, 0),
            TripleRow::Arc(1, 1),
            TripleRow::Each(0, 1),
            TripleRow::Arc(2, 1),
            TripleRow::Some(2, 3),
            TripleRow::Times(4, 0, None),
            TripleRow::Arc(3, 0),
            TripleRow::Empty,
            TripleRow::Some(6, 7),
            TripleRow::Times(3, 1, Some(2)),
            TripleRow::Each(8, 9),
            TripleRow::Times(10, 1, Some(3)),
            TripleRow::Times(4, 0, Some(1)),
        ],
        sets: sets(),
    }
}

fn triple_row(source: &mut Source, row: u8) -> TripleRow {
    let kinds = if row < 3 { 4 } else { 10 };
    match source.below(kinds) {
        0 => TripleRow::Empty,
        1 | 2 | 3 => TripleRow::Arc(source.byte(4), source.byte(4)),
        4 | 5 => TripleRow::Each(source.byte(row), source.byte(row)),
        6 => TripleRow::Some(source.byte(row), source.byte(row)),
        _ => {
            let least = source.byte(3);
            let most = match source.below(2) {
                0 => None,
                _ => Some(least.saturating_add(source.byte(3))),
            };
            TripleRow::Times(source.byte(row), least, most)
        }
    }
}

fn shape_row(source: &mut Source, row: u8) -> ShapeRow {
    let kinds = if row == 0 { 5 } else { 9 };
    match source.below(kinds) {
        0 => ShapeRow::Value(source.below(5)),
        1 | 2 | 3 | 4 => ShapeRow::Hood(source.byte(13)),
        5 => ShapeRow::And(source.byte(row), source.byte(row)),
        6 | 7 => ShapeRow::Or(source.byte(row), source.byte(row)),
        _ => ShapeRow::Not(source.byte(row)),
    }
}

pub(crate) fn random_rows(source: &mut Source) -> Rows {
    let mut shapes = [ShapeRow::Value(0); 12];
    for (row, shape) in shapes.iter_mut().enumerate() {
        *shape = shape_row(source, (row & 0x0f) as u8);
    }
    let mut triples = [TripleRow::Empty; 13];
    for (row, triple) in triples.iter_mut().enumerate() {
        *triple = triple_row(source, (row & 0x0f) as u8);
    }
    let definitions = [
        source.byte(12),
        source.byte(12),
        source.byte(12),
        source.byte(12),
    ];
    Rows {
        definitions,
        shapes,
        triples,
        sets: sets(),
    }
}
