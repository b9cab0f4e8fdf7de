// Which triple rows the definitions of labels lead to.
ghost use Rattle.std.specs.Prelude.{ℕ, ◌<◌, ◌⊎◌, ◌↔◌, length, slice_index};
ghost use Rattle.tables.specs.Held.{held};
ghost use Rattle.masks.specs.Masks.{On};
ghost use Rattle.node_check.specs.Named.{Hoods, Asks};

use draft::{ShapeRow, flag_named};
use tables::LawfulTables;

// Flags the triple row, if the row is a HOOD.
fn flag_hood(row: ShapeRow, triples: &mut [bool; 128])
    requires { (e : ℕ) → Hoods row e → e < 128 }
    ensures { (e : ℕ) → On triples.new e ↔ (On triples.old e ⊎ Hoods row e) }
{
    if let ShapeRow::Hood(e) = row {
        triples[usize::from(e)] = true;
    }
}

// Flags the definitions of the wanted labels.
fn wanted_definitions(tables: &LawfulTables, wanted: &[bool; 32]) -> [bool; 128]
    ensures { (l : ℕ) → l < length (held tables.now).definitions → On wanted.now l → On result (slice_index (held tables.now).definitions l) }
{
    tables.lawful();
    let mut shapes = [false; 128];
    for (label, row) in tables.definitions().iter().enumerate() {
        if wanted[label] {
            shapes[usize::from(*row)] = true;
        }
    }
    shapes
}

// Flags the triple rows that the definitions of the wanted labels lead to.
pub(crate) fn asked_rows(tables: &LawfulTables, wanted: &[bool; 32]) -> [bool; 128]
    ensures { (e : ℕ) → Asks (held tables.now) wanted.now e → On result e }
{
    tables.lawful();
    let rows = tables.shapes();
    let mut shapes = wanted_definitions(tables, wanted);
    let mut triples = [false; 128];
    // by the number: the library has no law of rev after enumerate
    for r in (0..rows.len()).rev() {
        if shapes[r] {
            flag_named(rows[r], &mut shapes);
            flag_hood(rows[r], &mut triples);
        }
    }
    triples
}
