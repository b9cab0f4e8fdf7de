// The shape rows from the first on, each by the rows that it names.
ghost use Rattle.std.specs.Prelude.{◌≡◌, ℕ, ◌<◌, true, false, length};
ghost use Rattle.draft.specs.Refusals.{shape_names};
ghost use Rattle.tables.specs.Held.{held};
ghost use Rattle.node_check.specs.Shapes.{row_holds, Settled};

use draft::ShapeRow;
use tables::LawfulTables;
use values::ValueTest;

// Whether a row holds at the node, given which triple rows its arcs meet and which rows below hold.
fn row_holds<V: ValueTest>(
    row: ShapeRow,
    values: &V,
    node: u16,
    met: &[bool; 128],
    holds: &[bool; 128],
) -> bool
    requires { shape_names 128 128 row ≡ true }
    ensures { result ≡ row_holds (V.ValueTest.passes values.now node) met.now holds.now row }
{
    match row {
        ShapeRow::Value(test) => values.holds(node, test),
        ShapeRow::Hood(e) => met[usize::from(e)],
        ShapeRow::And(a, b) => holds[usize::from(a)] && holds[usize::from(b)],
        ShapeRow::Or(a, b) => holds[usize::from(a)] || holds[usize::from(b)],
        ShapeRow::Not(a) => !holds[usize::from(a)],
    }
}

// Which shape rows hold at the node.
pub(crate) fn shape_rows<V: ValueTest>(
    tables: &LawfulTables,
    values: &V,
    node: u16,
    met: &[bool; 128],
) -> [bool; 128]
    ensures { Settled (V.ValueTest.passes values.now node) met.now (held tables.now).shapes (length (held tables.now).shapes) result }
{
    tables.lawful();
    let mut holds = [false; 128];
    for (r, row) in tables.shapes().iter().enumerate() {
        holds[r] = row_holds(*row, values, node, met, &holds);
    }
    holds
}
