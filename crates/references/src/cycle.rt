// The negated references that lie on a cycle.
ghost use Rattle.std.specs.Prelude.{◌≡◌, ℕ, ◌<◌, false, Some, MatchOption};
ghost use Rattle.shapes.specs.References.{NegatedCycle};
ghost use Rattle.draft.specs.Tables.{schema_of};
ghost use Rattle.tables.specs.Held.{held};
ghost use Rattle.references.specs.Cycles.{FirstOnCycle, Lowest, leads_back, closes};

use crate::reach::reached;
use labels::{EveryArc, LabelSet, RowLabels, labels_of_definitions};
use tables::LawfulTables;

// The lowest of the labels that leads back to the label l.
fn back_to(l: u8, labels: LabelSet, reach: &[LabelSet; 32]) -> Option<u8>
    ensures { Lowest result (leads_back labels reach.now l) }
{
    (0..32).find(|k| labels.contains(*k) && reach[usize::from(*k)].contains(l))
}

fn first_cycle(references: &[RowLabels; 32], reach: &[LabelSet; 32]) -> Option<(u8, u8)>
    ensures { MatchOption result ((l k : ℕ) → l < 32 → k < 32 → closes references.now reach.now l k ≡ false) (λ p. (p.0 < 32) × Lowest (Some p.1) (closes references.now reach.now p.0) × ((l k : ℕ) → l < p.0 → k < 32 → closes references.now reach.now l k ≡ false)) }
{
    for (l, labels) in references.iter().enumerate() {
        let from = l as u8;
        if let Some(to) = back_to(from, labels.negated, reach) {
            return Some((from, to));
        }
    }
    None
}

// The lowest label with a negated reference on a cycle, and the lowest label that such a reference of it leads to.
pub fn negated_cycle(tables: &LawfulTables) -> Option<(u8, u8)>
    ensures { MatchOption result (NegatedCycle (schema_of (held tables.now)) → ⊥) (λ p. FirstOnCycle (schema_of (held tables.now)) p.0 p.1) }
{
    tables.lawful();
    let references = labels_of_definitions(tables, &EveryArc);
    let reach = reached(&references);
    first_cycle(&references, &reach)
}
