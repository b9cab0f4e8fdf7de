// The draft that a script builds, and the schema that was accepted last.
use crate::answer::Answer;
use crate::draft_lines::DraftLine;
use draft::{Draft, PropertySet, SchemaFault, ShapeRow, TripleRow};
use schema::Schema;
use std::alloc::{AllocError, Global};

#[derive(Drop)]
pub struct Drafting {
    heap: Global,
    definitions: Vec<u8>,
    shapes: Vec<ShapeRow>,
    triples: Vec<TripleRow>,
    sets: Vec<PropertySet>,
    schema: Schema,
}

// Adds a row behind the others, and answers its number.
pub(crate) fn add<T: Drop>(rows: &mut Vec<T>, row: T) -> Result<usize, AllocError> {
    let number = rows.len();
    rows.push(row)?;
    Ok(number)
}

impl Drafting {
    pub fn new(heap: Global) -> Drafting {
        Drafting {
            heap,
            definitions: Vec::new(heap),
            shapes: Vec::new(heap),
            triples: Vec::new(heap),
            sets: Vec::new(heap),
            schema: Schema::new(),
        }
    }

    pub fn schema(&self) -> &Schema {
        &self.schema
    }

    // The schema accepted last; a fresh place, with no labels, is left.
    pub fn take_schema(&mut self) -> Schema {
        std::mem::replace(&mut self.schema, Schema::new())
    }

    pub fn perform(&mut self, line: DraftLine) -> Result<Answer, AllocError> {
        Ok(match line {
            DraftLine::New => self.clear(),
            DraftLine::Set(set) => Answer::Set(add(&mut self.sets, set)?),
            DraftLine::Triple(row) => Answer::TripleRow(add(&mut self.triples, row)?),
            DraftLine::Shape(row) => Answer::ShapeRow(add(&mut self.shapes, row)?),
            DraftLine::Label(row) => Answer::Label(add(&mut self.definitions, row)?),
            DraftLine::Accept => self.accept(),
            DraftLine::Strata => Answer::Strata(self.strata()?),
        })
    }

    fn clear(&mut self) -> Answer {
        self.definitions.clear();
        self.shapes.clear();
        self.triples.clear();
        self.sets.clear();
        Answer::Draft
    }

    fn accept(&mut self) -> Answer {
        let draft = Draft {
            definitions: self.definitions.as_slice(),
            shapes: self.shapes.as_slice(),
            triples: self.triples.as_slice(),
            sets: self.sets.as_slice(),
        };
        let result = self.schema.accept(&draft);
        Answer::Schema(result.map(|()| self.schema.label_count()))
    }

    fn strata(&self) -> Result<Result<Vec<u8>, SchemaFault>, AllocError> {
        let mut bytes = [0; 32];
        match self.schema.strata(&mut bytes) {
            Ok(labels) => Ok(Ok(bytes.into_iter().take(labels).collect(self.heap)?)),
            Err(fault) => Ok(Err(fault)),
        }
    }
}
