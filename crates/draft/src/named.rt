// Rows that name rows of their own table.
ghost use Rattle.std.specs.Prelude.{◌≡◌, ℕ, ◌<◌, true, false, ◌⊎◌, ◌↔◌, Some, None, slice_index_or};
ghost use Rattle.draft.specs.Named.{NamesShape, NamesTriple};

use crate::rows::{ShapeRow, TripleRow};

pub trait TableRow: Copy {
    // Holds of the rows that a row names.
    ghost names: { Self → ℕ → Type 0 };

    // The rows that the row names, at most two.
    fn named(self) -> [Option<u8>; 2]
        ensures { (p : ℕ) → names self p ↔ ((slice_index_or result 0 None ≡ Some p) ⊎ (slice_index_or result 1 None ≡ Some p)) };
}

impl TableRow for TripleRow {
    ghost names = { NamesTriple };

    fn named(self) -> [Option<u8>; 2] {
        match self {
            TripleRow::Empty | TripleRow::Arc(_, _) => [None, None],
            TripleRow::Each(x, y) | TripleRow::Some(x, y) => [Some(x), Some(y)],
            TripleRow::Times(x, _, _) => [Some(x), None],
        }
    }
}

impl TableRow for ShapeRow {
    ghost names = { NamesShape };

    fn named(self) -> [Option<u8>; 2] {
        match self {
            ShapeRow::Value(_) | ShapeRow::Hood(_) => [None, None],
            ShapeRow::And(a, b) | ShapeRow::Or(a, b) => [Some(a), Some(b)],
            ShapeRow::Not(a) => [Some(a), None],
        }
    }
}

// Flags the rows that the row names; a row past the flags is passed over.
pub fn flag_named<R: TableRow>(row: R, flags: &mut [bool; 128])
    ensures { (p : ℕ) → (slice_index_or flags.new p false ≡ true) ↔ ((slice_index_or flags.old p false ≡ true) ⊎ ((p < 128) × R.names row p)) }
{
    for name in row.named() {
        if let Some(p) = name {
            if p < 128 {
                flags[usize::from(p)] = true;
            }
        }
    }
}
