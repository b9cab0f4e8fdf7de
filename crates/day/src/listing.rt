// A graph page in words.
use script::Items;
use std::alloc::{AllocError, Global};
use std::fmt;

// The fan of each node, and the arcs of all nodes one after the other.
#[derive(Drop)]
pub struct Listing {
    fans: Vec<u8>,
    arcs: Vec<(u8, u8)>,
}

// The number of nodes that a page opens with, low byte first; 0 where it is too short to have one.
pub fn count_of(page: &[u8]) -> u16 {
    match page {
        [low, high, ..] => u16::from_le_bytes([*low, *high]),
        _ => 0,
    }
}

impl Listing {
    // Of a page that is lawful for so many nodes, with so many triples: behind the fans stand all properties, and
    // then all objects.
    pub fn new(heap: Global, page: &[u8], nodes: u16, total: usize) -> Result<Listing, AllocError> {
        let nodes = usize::from(nodes);
        let fans = page.iter().copied().skip(2).take(nodes).collect(heap)?;
        let properties = page
            .iter()
            .copied()
            .skip(nodes.saturating_add(2))
            .take(total);
        let objects = page
            .iter()
            .copied()
            .skip(nodes.saturating_add(2))
            .skip(total);
        Ok(Listing {
            fans,
            arcs: properties.zip(objects).collect(heap)?,
        })
    }
}

impl fmt::Display for Listing {
    fn fmt<W: fmt::Write>(&self, f: &mut fmt::Formatter<W>) -> fmt::Result {
        let nodes = self.fans.len();
        let total = self.arcs.len();
        write!(f, "{nodes} nodes, {total} triples")?;
        let mut left = self.arcs.as_slice();
        for (node, fan) in self.fans.iter().enumerate() {
            let (items, rest) = left.split_at(usize::from(*fan).min(left.len()));
            let arcs = Items {
                items,
                none: "none",
            };
            write!(f, "\n  node {node}: {arcs}")?;
            left = rest;
        }
        Ok(())
    }
}
