// Reading a typing from a table of bytes, and which arcs an ARC admits.
ghost use Rattle.std.specs.Prelude.{◌≡◌, ℕ, ◌<◌, ◌≤◌, false, ◌&&◌, length, get_or, slice_index_or};
ghost use Rattle.draft.specs.Tables.{schema_of};
ghost use Rattle.tables.specs.Held.{held};
ghost use Rattle.hoods.specs.Typings.{typed};

use crate::neighbourhood::Neighbourhood;

// Whether the node has the label.
fn has_label(typing: &[u8], labels: usize, node: u16, label: u8) -> bool
    requires { labels ≤ 32 }
    ensures { result ≡ typed labels typing.now node label }
{
    let place = usize::from(node) * labels + usize::from(label);
    usize::from(label) < labels && typing.get(place).copied() == Some(1)
}

impl Neighbourhood<'_> {
    // Marks the arcs whose property is in the set and whose object has the label.
    pub(crate) fn admit(&self, set: u8, label: u8, admitted: &mut [bool; 12])
        requires { set < length (held self.now.tables.now).sets }
        ensures { (j : ℕ) → j < self.now.arcs.now.fan.value → slice_index_or admitted.new j false ≡ ((schema_of (held self.now.tables.now)).sets set (get_or self.now.arcs.now.arcs j (0, 0)).0 && typed (schema_of (held self.now.tables.now)).labels self.now.typing.now (get_or self.now.arcs.now.arcs j (0, 0)).1 label) }
    {
        self.tables.lawful();
        let properties = self.tables.sets()[usize::from(set)];
        let labels = self.tables.definitions().len();
        let arcs = self.arcs;
        for (j, (property, object)) in arcs.arcs[..arcs.fan.value].iter().enumerate() {
            admitted[j] = properties.contains(*property)
                && has_label(self.typing, labels, *object, label);
        }
    }
}
