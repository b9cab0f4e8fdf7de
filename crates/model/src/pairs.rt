// Sets of pairs of a node and a label.
use std::alloc::{AllocError, Global};

#[derive(Drop)]
pub struct Pairs {
    marks: Vec<bool>,
    labels: usize,
}

impl Pairs {
    // The set of no pairs.
    pub fn new(heap: Global, nodes: u16, labels: usize) -> Result<Pairs, AllocError> {
        let size = usize::from(nodes).saturating_mul(labels);
        let marks = vec![in heap; false; size]?;
        Ok(Pairs { marks, labels })
    }

    fn place(&self, node: u16, label: u8) -> usize {
        usize::from(node)
            .saturating_mul(self.labels)
            .saturating_add(usize::from(label))
    }

    pub fn has(&self, node: u16, label: u8) -> bool {
        let place = self.place(node, label);
        usize::from(label) < self.labels && self.marks.get(place).copied().unwrap_or(false)
    }

    // Puts the pair in or takes it out; answers whether that changed the set.
    pub fn set(&mut self, node: u16, label: u8, inside: bool) -> bool {
        let place = self.place(node, label);
        match self.marks.get_mut(place) {
            Some(mark) => {
                let changed = *mark != inside;
                *mark = inside;
                changed
            }
            None => false,
        }
    }

    // Puts the other set's pairs in; both are for the same nodes and labels.
    pub fn join(&mut self, other: &Pairs) {
        for (mark, more) in self.marks.iter_mut().zip(other.marks()) {
            *mark = *mark || *more;
        }
    }

    // Puts all pairs in.
    pub fn fill(&mut self) {
        self.marks.fill(true);
    }

    // How many pairs are in the set.
    pub fn count(&self) -> usize {
        self.marks.iter().filter(|mark| **mark).count()
    }

    // The pairs by node and then by label.
    pub fn marks(&self) -> &[bool] {
        self.marks.as_slice()
    }
}
