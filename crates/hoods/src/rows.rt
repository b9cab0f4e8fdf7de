// The triple rows from the first on, each by the rows that it names.
ghost use Rattle.std.specs.Prelude.{◌≡◌, ℕ, true, ◌↔◌, length};
ghost use Rattle.draft.specs.Refusals.{triple_names};
ghost use Rattle.tables.specs.Held.{held};
ghost use Rattle.masks.specs.Masks.{On};
ghost use Rattle.hoods.specs.Arcs.{arcs_of};
ghost use Rattle.hoods.specs.Words.{Finds, Meets};

use crate::named::with_named;
use crate::neighbourhood::Neighbourhood;
use crate::scratch::{RowScratch, Scratch};
use crate::words::{pack, unpack};
use draft::TripleRow;
use masks::{MASKS, each, empty, single, some, times};

impl Neighbourhood<'_> {
    // Finds the masks that meet a row, given in the words those that meet the rows that it names.
    fn find_masks(&self, row: TripleRow, words: &[u128; MASKS], scratch: &mut RowScratch)
        requires { triple_names (length (held self.now.tables.now).sets) (length (held self.now.tables.now).definitions) 128 row ≡ true }
        ensures { Finds (held self.now.tables.now) self.now.typing.now (arcs_of self.now.arcs.now) row words.now scratch.new.found }
    {
        let fan = self.arcs.fan;
        match row {
            TripleRow::Empty => empty(fan, &mut scratch.found),
            TripleRow::Arc(set, label) => {
                let mut admitted = [false; 12];
                self.admit(set, label, &mut admitted);
                single(fan, &admitted, &mut scratch.found);
            }
            TripleRow::Each(x, y) => {
                unpack(fan, words, x, &mut scratch.left);
                unpack(fan, words, y, &mut scratch.right);
                each(fan, &scratch.left, &scratch.right, &mut scratch.found);
            }
            TripleRow::Some(x, y) => {
                unpack(fan, words, x, &mut scratch.left);
                unpack(fan, words, y, &mut scratch.right);
                some(fan, &scratch.left, &scratch.right, &mut scratch.found);
            }
            TripleRow::Times(x, least, most) => {
                unpack(fan, words, x, &mut scratch.left);
                times(
                    fan,
                    &scratch.left,
                    least,
                    most,
                    &mut scratch.counts,
                    &mut scratch.found,
                );
            }
        }
    }

    // Flags triple rows that all the arcs together meet: every asked one, and no row that they do not meet.
    // A row that no asked row leads to is passed over.
    pub fn met_asked(&self, asked: &[bool; 128], scratch: &mut Scratch) -> [bool; 128]
        ensures only { (p : ℕ) → On result p → Meets (held self.now.tables.now) self.now.typing.now (arcs_of self.now.arcs.now) p }
        ensures asked { (p : ℕ) → On asked.now p → Meets (held self.now.tables.now) self.now.typing.now (arcs_of self.now.arcs.now) p → On result p }
    {
        self.tables.lawful();
        let fan = self.arcs.fan;
        let last = fan.masks() - 1;
        let needed = with_named(self.tables, asked);
        scratch.words[..fan.masks()].fill(0);
        let mut met = [false; 128];
        for (r, row) in self.tables.triples().iter().enumerate() {
            if needed[r] {
                self.find_masks(*row, &scratch.words, &mut scratch.row);
                pack(fan, &mut scratch.words, r, &scratch.row.found);
                met[r] = scratch.row.found[last];
            }
        }
        met
    }

    // Which triple rows all the arcs together meet.
    pub fn met_rows(&self, scratch: &mut Scratch) -> [bool; 128]
        ensures { (p : ℕ) → On result p ↔ Meets (held self.now.tables.now) self.now.typing.now (arcs_of self.now.arcs.now) p }
    {
        self.tables.lawful();
        self.met_asked(&[true; 128], scratch)
    }
}
