// The labels of the ARCs in a definition that admit a property.
ghost use Rattle.std.specs.Prelude.{◌≡◌, ℕ, ◌<◌};
ghost use Rattle.shapes.proofs.Leaning.{admits};
ghost use Rattle.labels.specs.Members.{member};
ghost use Rattle.leaning.specs.Labels.{schema_in};

use labels::{LabelSet, WithProperty, labels_of_definition};
use tables::LawfulTables;

// The labels of the ARCs in the label's definition whose set has the property.
pub(crate) fn admitted(tables: &LawfulTables, label: u8, property: u8) -> LabelSet
    requires { label < (schema_in tables.now).labels }
    ensures { (k : ℕ) → member result k ≡ admits (schema_in tables.now).sets ((schema_in tables.now).definition label) property k }
{
    labels_of_definition(tables, label, &WithProperty(property)).mentioned
}
