// The labels that stand in each row's expression, row by row: a shared row is visited once.
ghost use Rattle.std.specs.Prelude.{◌≡◌, ℕ, ◌&&◌, ◌||◌, true, length, nat_lt, slice_index_or};
ghost use Rattle.draft.specs.Refusals.{shape_names, triple_names};
ghost use Rattle.draft.specs.Rows.{triple_tree, shape_tree};
ghost use Rattle.draft.specs.Sets.{no_properties};
ghost use Rattle.draft.specs.Tables.{schema_of};
ghost use Rattle.tables.specs.Held.{held};
ghost use Rattle.labels.specs.Members.{member, in_row};
ghost use Rattle.labels.specs.Mentions.{has_arc, mentions, negates, arcs_by, mentions_by, negates_by};
ghost use Rattle.labels.specs.Rows.{mentioned_in, negated_in, admitted};

use crate::filter::ArcFilter;
use crate::label_set::LabelSet;
use draft::{PropertySet, ShapeRow, TripleRow};
use tables::LawfulTables;

fn arcs_of_row<F: ArcFilter>(
    row: &TripleRow,
    filter: &F,
    sets: &[PropertySet],
    rows: &[LabelSet; 128],
) -> LabelSet
    requires { triple_names (length sets.now) 32 128 row.now ≡ true }
    ensures { (k : ℕ) → member result k ≡ arcs_by (admitted (F.admits filter.now) sets.now) (in_row rows.now) row.now k }
{
    match *row {
        TripleRow::Empty => LabelSet::NONE,
        TripleRow::Arc(set, label) => {
            if filter.admits(&sets[usize::from(set)]) {
                LabelSet::one(label)
            } else {
                LabelSet::NONE
            }
        }
        TripleRow::Each(a, b) | TripleRow::Some(a, b) => {
            rows[usize::from(a)].union(rows[usize::from(b)])
        }
        TripleRow::Times(a, _, _) => rows[usize::from(a)],
    }
}

// For each triple row, the labels of the ARCs in its expression that count.
fn arcs_of_rows<F: ArcFilter>(tables: &LawfulTables, filter: &F) -> [LabelSet; 128]
    ensures { (r k : ℕ) → in_row result r k ≡ (nat_lt r (length (held tables.now).triples) && has_arc (admitted (F.admits filter.now) (held tables.now).sets) (triple_tree (held tables.now).triples r) k) }
{
    tables.lawful();
    let sets = tables.sets();
    let mut rows = [LabelSet::NONE; 128];
    for (r, row) in tables.triples().iter().enumerate() {
        let labels = arcs_of_row(row, filter, sets, &rows);
        rows[r] = labels;
    }
    rows
}

// The labels that stand in an expression, and those that stand there below a NOT.
#[derive(Clone, Copy, PartialEq, Eq, Debug, Default)]
pub struct RowLabels {
    pub mentioned: LabelSet,
    pub negated: LabelSet,
}

impl RowLabels {
    pub(crate) const NONE: RowLabels = RowLabels {
        mentioned: LabelSet::NONE,
        negated: LabelSet::NONE,
    };

    pub(crate) fn union(self, other: RowLabels) -> RowLabels
        ensures mentioned { (k : ℕ) → member result.mentioned k ≡ (member self.mentioned k || member other.mentioned k) }
        ensures negated { (k : ℕ) → member result.negated k ≡ (member self.negated k || member other.negated k) }
    {
        RowLabels {
            mentioned: self.mentioned.union(other.mentioned),
            negated: self.negated.union(other.negated),
        }
    }
}

fn labels_of_row(row: &ShapeRow, arcs: &[LabelSet; 128], rows: &[RowLabels; 128]) -> RowLabels
    requires { shape_names 128 128 row.now ≡ true }
    ensures mentioned { (k : ℕ) → member result.mentioned k ≡ mentions_by (in_row arcs.now) (mentioned_in rows.now) row.now k }
    ensures negated { (k : ℕ) → member result.negated k ≡ negates_by (mentioned_in rows.now) (negated_in rows.now) row.now k }
{
    match *row {
        ShapeRow::Value(_) => RowLabels::NONE,
        ShapeRow::Hood(e) => RowLabels {
            mentioned: arcs[usize::from(e)],
            negated: LabelSet::NONE,
        },
        ShapeRow::And(a, b) | ShapeRow::Or(a, b) => {
            rows[usize::from(a)].union(rows[usize::from(b)])
        }
        ShapeRow::Not(a) => {
            let below = rows[usize::from(a)];
            RowLabels {
                mentioned: below.mentioned,
                negated: below.mentioned,
            }
        }
    }
}

// For each shape row, the labels of the ARCs in its expression that count.
fn labels_of_rows<F: ArcFilter>(tables: &LawfulTables, filter: &F) -> [RowLabels; 128]
    ensures mentioned { (r k : ℕ) → mentioned_in result r k ≡ (nat_lt r (length (held tables.now).shapes) && mentions (admitted (F.admits filter.now) (held tables.now).sets) (shape_tree (held tables.now).triples (held tables.now).shapes r) k) }
    ensures negated { (r k : ℕ) → negated_in result r k ≡ (nat_lt r (length (held tables.now).shapes) && negates (admitted (F.admits filter.now) (held tables.now).sets) (shape_tree (held tables.now).triples (held tables.now).shapes r) k) }
{
    tables.lawful();
    let arcs = arcs_of_rows(tables, filter);
    let mut rows = [RowLabels::NONE; 128];
    for (r, row) in tables.shapes().iter().enumerate() {
        let labels = labels_of_row(row, &arcs, &rows);
        rows[r] = labels;
    }
    rows
}

// The labels of the ARCs in the label's definition that count; a label past the last has none.
pub fn labels_of_definition<F: ArcFilter>(tables: &LawfulTables, label: u8, filter: &F) -> RowLabels
    ensures mentioned { (k : ℕ) → member result.mentioned k ≡ (nat_lt label (schema_of (held tables.now)).labels && mentions (admitted (F.admits filter.now) (held tables.now).sets) ((schema_of (held tables.now)).definition label) k) }
    ensures negated { (k : ℕ) → member result.negated k ≡ (nat_lt label (schema_of (held tables.now)).labels && negates (admitted (F.admits filter.now) (held tables.now).sets) ((schema_of (held tables.now)).definition label) k) }
{
    tables.lawful();
    match tables.definitions().get(usize::from(label)) {
        Some(row) => labels_of_rows(tables, filter)[usize::from(*row)],
        None => RowLabels::NONE,
    }
}

// For each label, the labels of the ARCs in its definition that count; labels past the last have none.
pub fn labels_of_definitions<F: ArcFilter>(tables: &LawfulTables, filter: &F) -> [RowLabels; 32]
    ensures mentioned { (l k : ℕ) → mentioned_in result l k ≡ (nat_lt l (schema_of (held tables.now)).labels && mentions (admitted (F.admits filter.now) (held tables.now).sets) ((schema_of (held tables.now)).definition l) k) }
    ensures negated { (l k : ℕ) → negated_in result l k ≡ (nat_lt l (schema_of (held tables.now)).labels && negates (admitted (F.admits filter.now) (held tables.now).sets) ((schema_of (held tables.now)).definition l) k) }
{
    tables.lawful();
    let rows = labels_of_rows(tables, filter);
    let mut labels = [RowLabels::NONE; 32];
    for (label, row) in tables.definitions().iter().enumerate() {
        labels[label] = rows[usize::from(*row)];
    }
    labels
}
