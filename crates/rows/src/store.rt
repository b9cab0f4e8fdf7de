// The row store: the lent rows, of which the first 1,024 hold its triples, and the number of nodes.
ghost use Rattle.std.specs.Prelude.{◌≡◌, ℕ, ◌≤◌, min, true, length};
ghost use Rattle.triple.specs.Arcs.{distinct, inside};
ghost use Rattle.triple.specs.Stores.{total};
ghost use Rattle.rows.specs.Table.{arcs_of};

use triple::Triple;

// The most rows that a store uses; it never writes to a later one.
pub(crate) const MAX_ROWS: usize = 1024;

#[derive(Drop)]
pub struct RowStore<'a> {
    pub(crate) rows: &'a mut [Option<Triple>],
    pub(crate) nodes: u16,
    ghost small: { nodes ≤ 256 },
    ghost few: { (n : ℕ) → length (arcs_of rows.now n) ≤ 12 },
    ghost apart: { (n : ℕ) → distinct (arcs_of rows.now n) ≡ true },
    ghost within: { (n : ℕ) → inside nodes (arcs_of rows.now n) ≡ true },
    ghost past: { (n : ℕ) → nodes ≤ n → length (arcs_of rows.now n) ≡ 0 },
    ghost room: { total nodes (arcs_of rows.now) ≤ min (length rows.now) 1024 },
}
