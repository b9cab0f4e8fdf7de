// How the tables are made, and the questions about them.
ghost use Rattle.std.specs.Prelude.{◌≡◌, ◌≤◌, length, IfOk};
ghost use Rattle.draft.specs.Lawful.{Lawful};
ghost use Rattle.draft.specs.Refusals.{refusal, row_refusal};
ghost use Rattle.draft.specs.Tables.{lent, no_rows};
ghost use Rattle.tables.specs.Held.{held};

use crate::tables::LawfulTables;
use arrayvec::ArrayVec;
use draft::{Draft, PropertySet, SchemaFault, ShapeRow, TripleRow};

fn copied<T: Copy + Default, const N: usize>(rows: &[T]) -> ArrayVec<T, N>
    requires { length rows.now ≤ N }
    ensures { result.items ≡ rows.now }
{
    ArrayVec::try_from(rows).unwrap()
}

impl LawfulTables {
    // A copy of the draft's tables, if its rows are lawful.
    pub fn of(draft: &Draft) -> Result<LawfulTables, SchemaFault>
        ensures answer { refusal result ≡ row_refusal (lent draft.now) }
        ensures value { IfOk result (λ t. held t ≡ lent draft.now) }
    {
        draft.check_rows()?;
        Ok(LawfulTables {
            definitions: copied(draft.definitions),
            shapes: copied(draft.shapes),
            triples: copied(draft.triples),
            sets: copied(draft.sets),
        })
    }

    // Tables with no rows.
    #[tactic(auto, unfolding(draft::specs::Refusals::row_refusal))]
    pub fn new() -> LawfulTables
        ensures { held result ≡ no_rows }
    {
        LawfulTables {
            definitions: ArrayVec::new(),
            shapes: ArrayVec::new(),
            triples: ArrayVec::new(),
            sets: ArrayVec::new(),
        }
    }

    // The shape rows that define the labels, by label.
    pub fn definitions(&self) -> &[u8]
        ensures { result.now ≡ (held self.now).definitions }
    {
        self.definitions.as_slice()
    }

    pub fn shapes(&self) -> &[ShapeRow]
        ensures { result.now ≡ (held self.now).shapes }
    {
        self.shapes.as_slice()
    }

    pub fn triples(&self) -> &[TripleRow]
        ensures { result.now ≡ (held self.now).triples }
    {
        self.triples.as_slice()
    }

    pub fn sets(&self) -> &[PropertySet]
        ensures { result.now ≡ (held self.now).sets }
    {
        self.sets.as_slice()
    }

    // What the tables in memory always are: lawful.
    pub fn lawful(&self)
        ensures { Lawful (held self.now) }
    {}
}
