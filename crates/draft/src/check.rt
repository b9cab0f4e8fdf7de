// The draft, and the check of its rows.
ghost use Rattle.std.specs.Prelude.{◌≡◌, ◌≤◌, ℕ, Option, length};
ghost use Rattle.draft.specs.Refusals.{Told, refusal, first_from, AnswersBy, shape_names, triple_names, ordered, length_refusal, definition_refusal, shape_refusal, triple_refusal, row_refusal};
ghost use Rattle.draft.specs.Tables.{lent};

use crate::draft::Draft;
use crate::fault::{SchemaFault, Table};
use crate::rows::{ShapeRow, TripleRow};

// Whether the shape row may stand at the row r.
fn shape_names(row: ShapeRow, r: u8, triples: usize) -> bool
    ensures { result ≡ shape_names triples r row }
{
    match row {
        ShapeRow::Value(_) => true,
        ShapeRow::Hood(e) => usize::from(e) < triples,
        ShapeRow::And(a, b) | ShapeRow::Or(a, b) => a < r && b < r,
        ShapeRow::Not(a) => a < r,
    }
}

// Whether the triple row may stand at the row r.
fn triple_names(row: TripleRow, r: u8, sets: usize, labels: usize) -> bool
    ensures { result ≡ triple_names sets labels r row }
{
    match row {
        TripleRow::Empty => true,
        TripleRow::Arc(s, l) => usize::from(s) < sets && usize::from(l) < labels,
        TripleRow::Each(a, b) | TripleRow::Some(a, b) => a < r && b < r,
        TripleRow::Times(a, _, _) => a < r,
    }
}

fn in_order(row: TripleRow) -> bool
    ensures { result ≡ ordered row }
{
    match row {
        TripleRow::Times(_, least, Some(most)) => least <= most,
        _ => true,
    }
}

fn check_length(table: Table, length: usize) -> Result<(), SchemaFault>
    ensures { refusal result ≡ length_refusal table length }
{
    if length > usize::from(table.limit()) {
        return Err(SchemaFault::TooLong(table));
    }
    Ok(())
}

fn check_definition(label: u8, row: u8, shapes: usize) -> Result<(), SchemaFault>
    ensures { refusal result ≡ definition_refusal shapes label row }
{
    if usize::from(row) >= shapes {
        return Err(SchemaFault::Definition(label));
    }
    Ok(())
}

fn check_shape(r: u8, row: ShapeRow, triples: usize) -> Result<(), SchemaFault>
    ensures { refusal result ≡ shape_refusal triples r row }
{
    if !shape_names(row, r, triples) {
        return Err(SchemaFault::ShapeRow(r));
    }
    Ok(())
}

fn check_triple(r: u8, row: TripleRow, sets: usize, labels: usize) -> Result<(), SchemaFault>
    ensures { refusal result ≡ triple_refusal sets labels r row }
{
    if !triple_names(row, r, sets, labels) {
        return Err(SchemaFault::TripleRow(r));
    }
    if !in_order(row) {
        return Err(SchemaFault::Bounds(r));
    }
    Ok(())
}

// Refuses the first row that the check refuses, by its number.
fn check_table<R: Copy, F: Fn(u8, R) -> Result<(), SchemaFault>>(
    rows: &[R],
    check: F,
) -> Result<(), SchemaFault>
    requires few { length rows.now ≤ 128 }
    requires callable { F.IsAlwaysCallable check }
    ensures { (test : ℕ → R → Option Told) → AnswersBy F.Fn check test → refusal result ≡ first_from test 0 rows.now }
{
    for (row, r) in rows.iter().zip(0..) {
        check(r, *row)?;
    }
    Ok(())
}

impl Draft<'_> {
    // Refuses a draft for its lengths, definitions, shape rows and triple rows, in that order; each table in rising order.
    #[tactic(auto, unfolding(crate::specs::Refusals::row_refusal), using(crate::proofs::First::this_one, crate::proofs::First::the_next))]
    pub fn check_rows(&self) -> Result<(), SchemaFault>
        ensures { refusal result ≡ row_refusal (lent self.now) }
    {
        let labels = self.definitions.len();
        let shapes = self.shapes.len();
        let triples = self.triples.len();
        let sets = self.sets.len();
        check_length(Table::Labels, labels)?;
        check_length(Table::ShapeRows, shapes)?;
        check_length(Table::TripleRows, triples)?;
        check_length(Table::Sets, sets)?;
        check_table(
            self.definitions,
            |label, row| check_definition(label, row, shapes),
        )?;
        check_table(self.shapes, |r, row| check_shape(r, row, triples))?;
        check_table(self.triples, |r, row| check_triple(r, row, sets, labels))
    }
}
