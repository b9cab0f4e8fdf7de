// The tables of a lawful draft, copied into fixed memory.
ghost use Rattle.std.specs.Prelude.{◌≡◌, None};
ghost use Rattle.draft.specs.Refusals.{row_refusal};

use arrayvec::ArrayVec;
use draft::{PropertySet, ShapeRow, TripleRow};

#[derive(Drop)]
pub struct LawfulTables {
    pub(crate) definitions: ArrayVec<u8, 32>,
    pub(crate) shapes: ArrayVec<ShapeRow, 128>,
    pub(crate) triples: ArrayVec<TripleRow, 128>,
    pub(crate) sets: ArrayVec<PropertySet, 32>,
    ghost lawful: { row_refusal (record { definitions = definitions.items; shapes = shapes.items; triples = triples.items; sets = sets.items }) ≡ None },
}
