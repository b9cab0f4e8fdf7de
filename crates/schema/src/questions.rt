// The questions about an accepted schema.
ghost use Rattle.std.specs.Prelude.{◌≡◌};
ghost use Rattle.std.specs.List.{slice_get};
ghost use Rattle.shapes.specs.References.{NegatedCycle};
ghost use Rattle.draft.specs.Lawful.{Lawful};
ghost use Rattle.tables.specs.Held.{held};
ghost use Rattle.schema.specs.Accepted.{accepted, meaning};

use crate::schema::Schema;
use draft::{PropertySet, ShapeRow, TripleRow};
use tables::LawfulTables;

impl Schema {
    // How many labels there are.
    pub fn label_count(&self) -> usize
        ensures { result ≡ (meaning self.now).labels }
    {
        self.definitions().len()
    }

    // The shape row that defines the label.
    pub fn definition(&self, label: u8) -> Option<u8>
        ensures { result ≡ slice_get (accepted self.now).definitions label }
    {
        self.definitions().get(usize::from(label)).copied()
    }

    pub fn shape(&self, row: u8) -> Option<ShapeRow>
        ensures { result ≡ slice_get (accepted self.now).shapes row }
    {
        self.shapes().get(usize::from(row)).copied()
    }

    pub fn triple(&self, row: u8) -> Option<TripleRow>
        ensures { result ≡ slice_get (accepted self.now).triples row }
    {
        self.triples().get(usize::from(row)).copied()
    }

    // Whether the property is in the set; a set that is not there holds none.
    pub fn contains(&self, set: u8, property: u8) -> bool
        ensures { result ≡ (meaning self.now).sets set property }
    {
        self.sets()
            .get(usize::from(set))
            .is_some_and(|properties| properties.contains(property))
    }

    pub fn definitions(&self) -> &[u8]
        ensures { result.now ≡ (accepted self.now).definitions }
    {
        self.tables.definitions()
    }

    pub fn shapes(&self) -> &[ShapeRow]
        ensures { result.now ≡ (accepted self.now).shapes }
    {
        self.tables.shapes()
    }

    pub fn triples(&self) -> &[TripleRow]
        ensures { result.now ≡ (accepted self.now).triples }
    {
        self.tables.triples()
    }

    pub fn sets(&self) -> &[PropertySet]
        ensures { result.now ≡ (accepted self.now).sets }
    {
        self.tables.sets()
    }

    // The tables of the draft that was accepted last.
    pub fn tables(&self) -> &LawfulTables
        ensures { held result.now ≡ accepted self.now }
    {
        &self.tables
    }

    // What an accepted schema always is: lawful tables, and no negated reference on a cycle.
    pub fn lawful(&self)
        ensures rows { Lawful (accepted self.now) }
        ensures acyclic { NegatedCycle (meaning self.now) → ⊥ }
    {
        self.tables.lawful();
    }
}
