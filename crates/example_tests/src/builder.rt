// A draft's rows, pushed one by one; a push answers the number of its row.
use draft::{Draft, PropertySet, ShapeRow, TripleRow};
use std::alloc::{AllocError, Global};

#[derive(Drop)]
pub(crate) struct DraftBuilder {
    definitions: Vec<u8>,
    shapes: Vec<ShapeRow>,
    triples: Vec<TripleRow>,
    sets: Vec<PropertySet>,
}

// The number of the last of so many rows.
fn last(rows: usize) -> u8 {
    u8::try_from(rows.saturating_sub(1)).unwrap_or(u8::MAX)
}

// All properties of the examples are below 64, so one word holds them.
fn word(properties: &[u8]) -> u64 {
    properties
        .iter()
        .fold(0, |bits, property| bits | 1 << (*property % 64))
}

pub(crate) fn only(properties: &[u8]) -> PropertySet {
    PropertySet::from_words([word(properties), 0, 0, 0])
}

pub(crate) fn all_but(properties: &[u8]) -> PropertySet {
    PropertySet::from_words([!word(properties), u64::MAX, u64::MAX, u64::MAX])
}

impl DraftBuilder {
    pub(crate) fn new(heap: Global) -> DraftBuilder {
        DraftBuilder {
            definitions: Vec::new(heap),
            shapes: Vec::new(heap),
            triples: Vec::new(heap),
            sets: Vec::new(heap),
        }
    }

    fn triple(&mut self, row: TripleRow) -> Result<u8, AllocError> {
        self.triples.push(row)?;
        Ok(last(self.triples.len()))
    }

    pub(crate) fn arc(&mut self, set: PropertySet, label: u8) -> Result<u8, AllocError> {
        self.sets.push(set)?;
        let set = last(self.sets.len());
        self.triple(TripleRow::Arc(set, label))
    }

    pub(crate) fn each(&mut self, first: u8, second: u8) -> Result<u8, AllocError> {
        self.triple(TripleRow::Each(first, second))
    }

    pub(crate) fn some(&mut self, first: u8, second: u8) -> Result<u8, AllocError> {
        self.triple(TripleRow::Some(first, second))
    }

    pub(crate) fn times(&mut self, row: u8, least: u8, most: Option<u8>) -> Result<u8, AllocError> {
        self.triple(TripleRow::Times(row, least, most))
    }

    // Any number of such arcs.
    pub(crate) fn arcs(&mut self, set: PropertySet, label: u8) -> Result<u8, AllocError> {
        let arc = self.arc(set, label)?;
        self.times(arc, 0, None)
    }

    pub(crate) fn shape(&mut self, row: ShapeRow) -> Result<u8, AllocError> {
        self.shapes.push(row)?;
        Ok(last(self.shapes.len()))
    }

    // The next label, with its definition.
    pub(crate) fn define(&mut self, row: ShapeRow) -> Result<u8, AllocError> {
        let shape = self.shape(row)?;
        self.definitions.push(shape)?;
        Ok(last(self.definitions.len()))
    }

    pub(crate) fn label_count(&self) -> usize {
        self.definitions.len()
    }

    pub(crate) fn draft(&self) -> Draft<'_> {
        Draft {
            definitions: self.definitions.as_slice(),
            shapes: self.shapes.as_slice(),
            triples: self.triples.as_slice(),
            sets: self.sets.as_slice(),
        }
    }
}
