// The chain store as a triple store.
ghost use Rattle.std.specs.Prelude.{◌≡◌, ℕ, min, true, false, [], MatchOption};
ghost use Rattle.triple.specs.Arcs.{has};
ghost use Rattle.chain.specs.Links.{chain_at, arc_at, arcs_of, on_chain};

use crate::cells::{Cell, Chain};
use crate::memory::{CELLS, ChainStore};
use arrayvec::ArrayVec;
use std::array;
use triple::{MAX_FAN, MAX_NODES, Store, StoreFault, Triple};

impl ChainStore {
    // Room for 512 triples and no triple; more than 256 nodes are read as 256.
    pub fn new(nodes: u16) -> ChainStore
        ensures nodes { result.nodes ≡ min nodes 256 }
        ensures empty { (n : ℕ) → arcs_of result.chains result.cells n ≡ [] }
    {
        let numbers: [u16; 512] = array::from_fn(|cell| cell as u16);
        let free = ArrayVec::from(numbers);
        ChainStore {
            nodes: nodes.min(MAX_NODES),
            chains: [Chain::default(); 256],
            cells: [Cell::default(); 512],
            free,
        }
    }

    // The chain of the node, which has no cell where the node is none of the store.
    fn chain(&self, node: u16) -> Chain
        ensures { result ≡ chain_at self.now.chains node }
    {
        self.chains
            .get(usize::from(node))
            .copied()
            .unwrap_or_default()
    }

    // The cell that holds the triple, if one does.
    fn find(&self, triple: Triple) -> Option<u16>
        ensures { MatchOption result (has triple.property triple.object (arcs_of self.now.chains self.now.cells triple.subject) ≡ false) (λ c. (on_chain self.now.chains self.now.cells triple.subject c ≡ true) × (arc_at self.now.cells c ≡ (triple.property, triple.object))) }
    {
        let chain = self.chain(triple.subject);
        let mut cell = chain.head;
        for _ in 0..chain.fan {
            let held = self.cells[usize::from(cell)];
            if held.property == triple.property && u16::from(held.object) == triple.object {
                return Some(cell);
            }
            cell = held.next;
        }
        None
    }
}

impl Store for ChainStore {
    ghost nodes = { λ s. s.nodes };

    ghost capacity = { λ s. 512 };

    ghost arcs = { λ s. arcs_of s.chains s.cells };

    fn lawful(&self) {}

    fn node_count(&self) -> u16 {
        self.nodes // at most 256
    }

    fn capacity(&self) -> u16 {
        CELLS // one cell a triple
    }

    fn total(&self) -> u16 {
        CELLS - self.free.len() as u16
    }

    fn fan(&self, node: u16) -> u8 {
        self.chain(node).fan
    }

    fn arc(&self, node: u16, place: u8) -> Option<(u8, u16)> {
        let chain = self.chain(node);
        if place >= chain.fan {
            return None;
        }
        let mut cell = chain.head;
        for _ in 0..place {
            cell = self.cells[usize::from(cell)].next;
        }
        let held = self.cells[usize::from(cell)];
        Some((held.property, u16::from(held.object)))
    }

    fn put(&mut self, triple: Triple) -> Result<(), StoreFault> {
        triple.check_nodes(self.nodes)?;
        if self.find(triple).is_some() {
            return Err(StoreFault::Present);
        }
        if self.fan(triple.subject) == MAX_FAN {
            return Err(StoreFault::FullNode);
        }
        let Some(cell) = self.free.last().copied() else {
            return Err(StoreFault::FullStore);
        };
        let subject = usize::from(triple.subject);
        let chain = self.chain(triple.subject);
        self.cells[usize::from(cell)] = Cell {
            property: triple.property,
            object: triple.object as u8,
            next: chain.head,
        };
        self.chains[subject] = Chain {
            head: cell,
            fan: chain.fan + 1,
        };
        let _ = self.free.pop();
        Ok(())
    }

    // The head's arc moves into the cell that held the triple, and the head becomes free.
    fn take(&mut self, triple: Triple) -> Result<(), StoreFault> {
        triple.check_nodes(self.nodes)?;
        let Some(cell) = self.find(triple) else {
            return Err(StoreFault::Absent);
        };
        let subject = usize::from(triple.subject);
        let chain = self.chain(triple.subject);
        let first = self.cells[usize::from(chain.head)];
        self.cells[usize::from(cell)] = Cell {
            property: first.property,
            object: first.object,
            next: self.cells[usize::from(cell)].next,
        };
        self.chains[subject] = Chain {
            head: first.next,
            fan: chain.fan - 1,
        };
        self.free.push(chain.head);
        Ok(())
    }
}
