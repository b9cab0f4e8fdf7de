// The labels that a way of references leads to.
ghost use Rattle.std.specs.Prelude.{◌≡◌, ℕ, ◌<◌, ◌&&◌, ◌||◌, ◌==◌};
ghost use Rattle.labels.specs.Members.{member, in_row};
ghost use Rattle.labels.specs.Rows.{mentioned_in};
ghost use Rattle.references.specs.Ways.{way};

use labels::{LabelSet, RowLabels};

// The labels, and l beside them.
fn with_label(labels: LabelSet, l: usize) -> LabelSet
    requires { l < 32 }
    ensures { (k : ℕ) → member result k ≡ (l == k || member labels k) }
{
    LabelSet::one(l as u8).union(labels)
}

// Each label beside those that it refers to.
fn with_self(references: &[RowLabels; 32]) -> [LabelSet; 32]
    ensures { (l k : ℕ) → l < 32 → in_row result l k ≡ (l == k || mentioned_in references.now l k) }
{
    let mut reach = [LabelSet::NONE; 32];
    for (l, labels) in references.iter().enumerate() {
        reach[l] = with_label(labels.mentioned, l);
    }
    reach
}

// Adds the ways that pass through the label m.
fn through(reach: &mut [LabelSet; 32], m: u8)
    requires { m < 32 }
    ensures { (l k : ℕ) → l < 32 → in_row reach.new l k ≡ (in_row reach.old l k || (in_row reach.old l m && in_row reach.old m k)) }
{
    let on = reach[usize::from(m)];
    for labels in reach.iter_mut() {
        if labels.contains(m) {
            *labels = labels.union(on);
        }
    }
}

// For each label, those that it reaches by references, itself included.
pub(crate) fn reached(references: &[RowLabels; 32]) -> [LabelSet; 32]
    ensures { (l k : ℕ) → l < 32 → in_row result l k ≡ way (mentioned_in references.now) 32 l k }
{
    let mut reach = with_self(references);
    for m in 0..32 {
        through(&mut reach, m);
    }
    reach
}
