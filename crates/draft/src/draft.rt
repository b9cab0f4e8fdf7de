// The draft: four tables that the caller lends.
use crate::rows::{ShapeRow, TripleRow};
use crate::set::PropertySet;

// A label's definition is the number of a shape row.
#[derive(Clone, Copy, PartialEq, Eq, Debug)]
pub struct Draft<'a> {
    pub definitions: &'a [u8],
    pub shapes: &'a [ShapeRow],
    pub triples: &'a [TripleRow],
    pub sets: &'a [PropertySet],
}
