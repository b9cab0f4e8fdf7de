// The rules of a store, read once more: a list of triples, searched from the front.
use std::alloc::{AllocError, Global};
use triple::{StoreFault, Triple};

#[derive(Drop)]
pub(crate) struct Model {
    pub(crate) nodes: u16,
    pub(crate) capacity: usize,
    pub(crate) triples: Vec<Triple>,
}

impl Model {
    pub(crate) fn new(heap: Global, nodes: u16, capacity: usize) -> Model {
        Model {
            nodes,
            capacity,
            triples: Vec::new(heap),
        }
    }

    pub(crate) fn has(&self, triple: Triple) -> bool {
        self.triples.contains(&triple)
    }

    pub(crate) fn fan(&self, node: u16) -> usize {
        self.triples.iter().filter(|t| t.subject == node).count()
    }

    // What a store answers to the put.
    pub(crate) fn put(&mut self, triple: Triple) -> Result<Result<(), StoreFault>, AllocError> {
        if triple.subject >= self.nodes {
            return Ok(Err(StoreFault::NoSubject));
        }
        if triple.object >= self.nodes {
            return Ok(Err(StoreFault::NoObject));
        }
        if self.has(triple) {
            return Ok(Err(StoreFault::Present));
        }
        if self.fan(triple.subject) == 12 {
            return Ok(Err(StoreFault::FullNode));
        }
        if self.triples.len() == self.capacity {
            return Ok(Err(StoreFault::FullStore));
        }
        self.triples.push(triple)?;
        Ok(Ok(()))
    }

    pub(crate) fn take(&mut self, triple: Triple) -> Result<(), StoreFault> {
        if triple.subject >= self.nodes {
            return Err(StoreFault::NoSubject);
        }
        if triple.object >= self.nodes {
            return Err(StoreFault::NoObject);
        }
        if !self.has(triple) {
            return Err(StoreFault::Absent);
        }
        self.triples.retain(|t| *t != triple);
        Ok(())
    }
}
