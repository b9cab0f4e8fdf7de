// What a new schema answers to a draft.
use draft::{Draft, PropertySet, SchemaFault, ShapeRow, TripleRow};
use schema::Schema;

pub(crate) fn answer(
    definitions: &[u8],
    shapes: &[ShapeRow],
    triples: &[TripleRow],
    sets: &[PropertySet],
) -> Result<(), SchemaFault> {
    let mut schema = Schema::new();
    schema.accept(&Draft {
        definitions,
        shapes,
        triples,
        sets,
    })
}
