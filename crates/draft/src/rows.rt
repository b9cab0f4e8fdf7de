// The rows of a draft's shape table and triple table. A row names other rows by their numbers.

ghost use Rattle.std.specs.Prelude.{◌≡◌};

// VALUE(test), HOOD(triple row), AND and OR of two shape rows, NOT of one.
#[derive(Clone, Copy, PartialEq, Eq, Debug)]
pub enum ShapeRow {
    Value(u16),
    Hood(u8),
    And(u8, u8),
    Or(u8, u8),
    Not(u8),
}

impl Default for ShapeRow {
    ghost use Rattle.draft.specs.declared.rows.ShapeRow.TheVariants.{Value};

    ghost is_default = { λ row. row ≡ Value 0 };

    fn default() -> ShapeRow {
        ShapeRow::Value(0)
    }
}

// EMPTY, ARC(property set, label), EACH and SOME of two triple rows, TIMES(triple row, least, most); no most is unbounded.
#[derive(Clone, Copy, PartialEq, Eq, Debug, Default)]
pub enum TripleRow {
    #[default]
    Empty,
    Arc(u8, u8),
    Each(u8, u8),
    Some(u8, u8),
    Times(u8, u8, Option<u8>),
}
