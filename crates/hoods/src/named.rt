// The triple rows that rows name, down to the last.
ghost use Rattle.std.specs.Prelude.{ℕ};
ghost use Rattle.tables.specs.Held.{held};
ghost use Rattle.masks.specs.Masks.{On};
ghost use Rattle.hoods.specs.Named.{Whole};

use draft::flag_named;
use tables::LawfulTables;

// The asked rows, with all that they name.
pub(crate) fn with_named(tables: &LawfulTables, asked: &[bool; 128]) -> [bool; 128]
    ensures asked { (p : ℕ) → On asked.now p → On result p }
    ensures whole { Whole (held tables.now).triples result }
{
    tables.lawful();
    let mut flags = *asked;
    let rows = tables.triples();
    // by the number: the library has no law of rev after enumerate
    for r in (0..rows.len()).rev() {
        if flags[r] {
            flag_named(rows[r], &mut flags);
        }
    }
    flags
}
