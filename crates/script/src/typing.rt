// The typing that nodes are checked under.
use std::alloc::{AllocError, Global};

#[derive(Drop)]
pub struct Typing {
    heap: Global,
    pairs: Vec<(u16, u8)>,
}

impl Typing {
    pub fn new(heap: Global) -> Typing {
        Typing {
            heap,
            pairs: Vec::new(heap),
        }
    }

    // Puts a pair in, and answers how many have been put in since it was cleared.
    pub fn put(&mut self, node: u16, label: u8) -> Result<usize, AllocError> {
        self.pairs.push((node, label))?;
        Ok(self.pairs.len())
    }

    pub fn clear(&mut self) {
        self.pairs.clear();
    }

    // A byte for each node and label; pairs past the ends are left out.
    pub fn table(&self, nodes: u16, labels: usize) -> Result<Vec<u8>, AllocError> {
        let mut table = vec![in self.heap; 0; usize::from(nodes).saturating_mul(labels)]?;
        for (node, label) in self.pairs.as_slice() {
            let start = usize::from(*node).saturating_mul(labels);
            let place = start.saturating_add(usize::from(*label));
            if usize::from(*label) < labels
                && let Some(byte) = table.get_mut(place)
            {
                *byte = 1;
            }
        }
        Ok(table)
    }
}
