// The memory that one check of a node works in: 84 KiB, for the caller to make once.
ghost use Rattle.std.specs.Prelude.{◌≡◌, ℕ, slice_index};

use masks::MASKS;

// The sets of masks of the row at hand: of the rows that it names, and its own.
#[derive(Drop)]
pub(crate) struct RowScratch {
    pub(crate) left: [bool; MASKS],
    pub(crate) right: [bool; MASKS],
    pub(crate) found: [bool; MASKS],
    pub(crate) counts: [u16; MASKS],
}

// A word for each mask, in which bit r says whether the mask meets the triple row r.
#[derive(Drop)]
pub struct Scratch {
    pub(crate) words: [u128; MASKS],
    pub(crate) row: RowScratch,
}

impl Scratch {
    pub fn new() -> Scratch
        ensures { (m : ℕ) → slice_index result.words m ≡ 0 }
    {
        let row = RowScratch {
            left: [false; MASKS],
            right: [false; MASKS],
            found: [false; MASKS],
            counts: [0; MASKS],
        };
        Scratch {
            words: [0; MASKS],
            row,
        }
    }
}
