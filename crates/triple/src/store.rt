// A triple store: what every kind of store means and promises.
ghost use Rattle.std.specs.Prelude.{◌≡◌, ℕ, List, length, MatchResult};
ghost use Rattle.std.specs.List.{slice_get};
ghost use Rattle.triple.specs.Faults.{refusal};
ghost use Rattle.triple.specs.Stores.{total, Lawful, node_refusal, put_refusal, take_refusal, Added, Removed};

use crate::fault::StoreFault;

// A larger node count is read as this one.
pub const MAX_NODES: u16 = 256;

// The most arcs that a node may have.
pub const MAX_FAN: u8 = 12;

#[derive(Clone, Copy, PartialEq, Eq, Debug)]
pub struct Triple {
    pub subject: u16,
    pub property: u8,
    pub object: u16,
}

impl Triple {
    // Refuses a triple whose subject or object is not one of the first `nodes` nodes.
    pub fn check_nodes(self, nodes: u16) -> Result<(), StoreFault>
        ensures { refusal result ≡ node_refusal nodes self.subject self.object }
    {
        if self.subject >= nodes {
            return Err(StoreFault::NoSubject);
        }
        if self.object >= nodes {
            return Err(StoreFault::NoObject);
        }
        Ok(())
    }
}

pub trait Store {
    ghost nodes: { Self → ℕ };

    ghost capacity: { Self → ℕ };

    ghost arcs: { Self → ℕ → List (ℕ × ℕ) };

    // Does nothing: what it promises holds of every store at any time.
    fn lawful(&self)
        ensures { Lawful (nodes self.now) (capacity self.now) (arcs self.now) };

    fn node_count(&self) -> u16
        ensures { result ≡ nodes self.now };

    fn capacity(&self) -> u16
        ensures { result ≡ capacity self.now };

    fn total(&self) -> u16
        ensures { result ≡ total (nodes self.now) (arcs self.now) };

    fn fan(&self, node: u16) -> u8
        ensures { result ≡ length (arcs self.now node) };

    fn arc(&self, node: u16, place: u8) -> Option<(u8, u16)>
        ensures { result ≡ slice_get (arcs self.now node) place };

    fn put(&mut self, triple: Triple) -> Result<(), StoreFault>
        ensures answer { refusal result ≡ put_refusal (nodes self.old) (capacity self.old) (arcs self.old) triple.subject triple.property triple.object }
        ensures change { MatchResult result (λ _. Added (arcs self.old) triple.subject triple.property triple.object (arcs self.new)) (λ _. self.new ≡ self.old) }
        ensures kept { (nodes self.new ≡ nodes self.old) × (capacity self.new ≡ capacity self.old) };

    fn take(&mut self, triple: Triple) -> Result<(), StoreFault>
        ensures answer { refusal result ≡ take_refusal (nodes self.old) (arcs self.old) triple.subject triple.property triple.object }
        ensures change { MatchResult result (λ _. Removed (arcs self.old) triple.subject triple.property triple.object (arcs self.new)) (λ _. self.new ≡ self.old) }
        ensures kept { (nodes self.new ≡ nodes self.old) × (capacity self.new ≡ capacity self.old) };
}
