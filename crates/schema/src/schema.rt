// The place of a schema: lawful tables in which no negated reference lies on a cycle.
ghost use Rattle.shapes.specs.References.{NegatedCycle};
ghost use Rattle.draft.specs.Tables.{schema_of};
ghost use Rattle.tables.specs.Held.{held};

use tables::LawfulTables;

#[derive(Drop)]
pub struct Schema {
    pub(crate) tables: LawfulTables,
    ghost acyclic: { NegatedCycle (schema_of (held tables)) → ⊥ },
}
