// The row store as a triple store.
ghost use Rattle.std.specs.Prelude.{◌≡◌, ℕ, ◌<◌, min, [], ◌++◌, length, take, drop, replicate, is_some, MatchOption, MatchResult, ◌==◌, slice_index_or, Contains};
ghost use Rattle.triple.specs.Faults.{refusal};
ghost use Rattle.triple.specs.Stores.{present, put_refusal, take_refusal, Added, Removed};
ghost use Rattle.rows.specs.Table.{free, arc_of, arcs_of};

use crate::store::{MAX_ROWS, RowStore};
use triple::{MAX_FAN, MAX_NODES, Store, StoreFault, Triple};

// The arc of the row's triple, if the row holds one of the node.
fn arc_of(row: &Option<Triple>, node: u16) -> Option<(u8, u16)>
    ensures { result ≡ arc_of node row.now }
{
    match row {
        Some(triple) if triple.subject == node => Some((triple.property, triple.object)),
        _ => None,
    }
}

// Whether the row holds a triple of the node.
fn is_of(row: &Option<Triple>, node: u16) -> bool
    ensures { result ≡ is_some (arc_of node row.now) }
{
    match row {
        Some(triple) => triple.subject == node,
        None => false,
    }
}

impl<'a> RowStore<'a> {
    // Frees the first 1,024 rows, and touches no later one; more than 256 nodes are read as 256.
    pub fn new(rows: &'a mut [Option<Triple>], nodes: u16) -> RowStore<'a>
        ensures nodes { result.nodes ≡ min nodes 256 }
        ensures after { result.rows.now ≡ replicate (min (length rows.old) 1024) free ++ drop 1024 rows.old }
        ensures held { result.rows.ghost_name ≡ rows.entry.ghost_name }
        ensures kept { length result.rows.now ≡ length rows.old }
        ensures same { drop 1024 result.rows.now ≡ drop 1024 rows.old }
        ensures empty { (n : ℕ) → arcs_of result.rows.now n ≡ [] }
    {
        let count = rows.len().min(MAX_ROWS);
        rows[..count].fill(None);
        RowStore {
            rows,
            nodes: nodes.min(MAX_NODES),
        }
    }

    // The rows that the store uses.
    fn front(&self) -> &[Option<Triple>]
        ensures { result.now ≡ take 1024 self.now.rows.now }
    {
        &self.rows[..self.rows.len().min(MAX_ROWS)]
    }

    // A row equal to this one, if there is one.
    fn find(&self, row: Option<Triple>) -> Option<usize>
        ensures { MatchOption result (¬ Contains (take 1024 self.now.rows.now) row) (λ i. (i < length (take 1024 self.now.rows.now)) × (slice_index_or (take 1024 self.now.rows.now) i free ≡ row)) }
    {
        self.front().iter().position(|held| *held == row)
    }

    fn is_present(&self, triple: Triple) -> bool
        ensures { result ≡ present (arcs_of self.now.rows.now) triple.subject triple.property triple.object }
    {
        self.find(Some(triple)).is_some()
    }

    fn is_node_full(&self, node: u16) -> bool
        ensures { result ≡ (length (arcs_of self.now.rows.now node) == 12) }
    {
        self.fan(node) == MAX_FAN
    }
}

impl<'a> Store for RowStore<'a> {
    ghost nodes = { λ s. s.nodes };

    ghost capacity = { λ s. min (length s.rows.now) 1024 };

    ghost arcs = { λ s. arcs_of s.rows.now };

    fn lawful(&self) {}

    fn node_count(&self) -> u16 {
        self.nodes // at most 256
    }

    fn capacity(&self) -> u16 {
        self.rows.len().min(MAX_ROWS) as u16
    }

    fn total(&self) -> u16 {
        self.front()
            .iter()
            .map(|row| u16::from(row.is_some()))
            .sum::<u16>()
    }

    // An `if`, and no sum of tests: so a free row takes one test.
    fn fan(&self, node: u16) -> u8 {
        self.front().iter().fold(0usize, |fan, row| {
            if is_of(row, node) {
                fan.wrapping_add(1) // at most 12
            } else {
                fan
            }
        }) as u8
    }

    fn arc(&self, node: u16, place: u8) -> Option<(u8, u16)> {
        self.front()
            .iter()
            .filter_map(|row| arc_of(row, node))
            .nth(usize::from(place))
    }

    fn put(&mut self, triple: Triple) -> Result<(), StoreFault>
        ensures answer { refusal result ≡ put_refusal self.old.nodes (min (length self.old.rows.now) 1024) (arcs_of self.old.rows.now) triple.subject triple.property triple.object }
        ensures change { MatchResult result (λ _. Added (arcs_of self.old.rows.now) triple.subject triple.property triple.object (arcs_of self.new.rows.now)) (λ _. self.new ≡ self.old) }
        ensures kept { (self.new.nodes ≡ self.old.nodes) × (min (length self.new.rows.now) 1024 ≡ min (length self.old.rows.now) 1024) }
        ensures held { self.new.rows.ghost_name ≡ self.old.rows.ghost_name }
        ensures same { drop 1024 self.new.rows.now ≡ drop 1024 self.old.rows.now }
    {
        triple.check_nodes(self.nodes)?;
        if self.is_present(triple) {
            return Err(StoreFault::Present);
        }
        if self.is_node_full(triple.subject) {
            return Err(StoreFault::FullNode);
        }
        let Some(row) = self.find(None) else {
            return Err(StoreFault::FullStore);
        };
        self.rows[row] = Some(triple);
        Ok(())
    }

    fn take(&mut self, triple: Triple) -> Result<(), StoreFault>
        ensures answer { refusal result ≡ take_refusal self.old.nodes (arcs_of self.old.rows.now) triple.subject triple.property triple.object }
        ensures change { MatchResult result (λ _. Removed (arcs_of self.old.rows.now) triple.subject triple.property triple.object (arcs_of self.new.rows.now)) (λ _. self.new ≡ self.old) }
        ensures kept { (self.new.nodes ≡ self.old.nodes) × (min (length self.new.rows.now) 1024 ≡ min (length self.old.rows.now) 1024) }
        ensures held { self.new.rows.ghost_name ≡ self.old.rows.ghost_name }
        ensures same { drop 1024 self.new.rows.now ≡ drop 1024 self.old.rows.now }
    {
        triple.check_nodes(self.nodes)?;
        let Some(row) = self.find(Some(triple)) else {
            return Err(StoreFault::Absent);
        };
        self.rows[row] = None;
        Ok(())
    }
}
