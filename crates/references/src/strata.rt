// Stratifications: one that always serves, and the check of a proposed one.
ghost use Rattle.std.specs.Prelude.{◌≡◌, ℕ, ◌<◌, ◌≤◌, length, Decides, slice_index};
ghost use Rattle.shapes.specs.References.{NegatedCycle, Stratification};
ghost use Rattle.draft.specs.Tables.{schema_of};
ghost use Rattle.tables.specs.Held.{held};
ghost use Rattle.labels.specs.Members.{member};
ghost use Rattle.references.specs.Strata.{Keeps, Above, Placed};

use crate::reach::reached;
use labels::{EveryArc, RowLabels, labels_of_definitions};
use tables::LawfulTables;

// For each label, how many labels it reaches by references, itself included: a stratification, if there is one.
pub fn ranks(tables: &LawfulTables) -> [u8; 32]
    ensures { (NegatedCycle (schema_of (held tables.now)) → ⊥) → Stratification (schema_of (held tables.now)) (λ l. slice_index result l) }
{
    tables.lawful();
    let references = labels_of_definitions(tables, &EveryArc);
    let reach = reached(&references);
    reach.map(|labels| labels.len())
}

// Whether the stratum keeps to the other label's, if that label is one of those.
fn keeps(stratum: u8, labels: RowLabels, label: u8, other: u8) -> bool
    ensures { Decides result (Keeps stratum (member labels.mentioned label) (member labels.negated label) other) }
{
    (!labels.mentioned.contains(label) || other <= stratum)
        && (!labels.negated.contains(label) || other < stratum)
}

// Whether the stratum is not below that of any label referred to, and above that of any label referred to under a NOT.
fn is_above(stratum: u8, labels: RowLabels, strata: &[u8]) -> bool
    requires { length strata.now ≤ 32 }
    ensures { Decides result (Above stratum (member labels.mentioned) (member labels.negated) strata.now (length strata.now)) }
{
    (0..32)
        .zip(strata)
        .all(|(label, other)| keeps(stratum, labels, label, *other))
}

// Whether a number for each label of the tables is placed as the references ask.
fn are_placed(references: &[RowLabels; 32], strata: &[u8]) -> bool
    requires { length strata.now ≤ 32 }
    ensures { Decides result ((l : ℕ) → l < length strata.now → Placed references.now strata.now l) }
{
    references.iter().zip(strata).all(|(labels, stratum)| {
        *stratum >= 1 && *stratum <= 32 && is_above(*stratum, *labels, strata)
    })
}

// Whether the first bytes, one for each label, are a stratification; later bytes are not read.
pub fn stratifies(tables: &LawfulTables, strata: &[u8]) -> bool
    ensures { Decides result (Stratification (schema_of (held tables.now)) (λ l. slice_index strata.now l)) }
{
    tables.lawful();
    let labels = tables.definitions().len();
    if strata.len() < labels {
        return false;
    }
    let references = labels_of_definitions(tables, &EveryArc);
    are_placed(&references, &strata[0..labels])
}
