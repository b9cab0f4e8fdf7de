// What a day asked of its validator, and what became of the verdicts.
use std::fmt;
use validate::Validate;

#[derive(Clone, Copy, Default)]
pub struct Tally {
    pub asked: usize,
    pub refused: usize,
    pub dropped: usize,
}

impl Tally {
    pub fn ask(&mut self, refused: bool) {
        self.asked = self.asked.saturating_add(1);
        self.refused = self.refused.saturating_add(usize::from(refused));
    }

    pub fn lose(&mut self, verdicts: usize) {
        self.dropped = self.dropped.saturating_add(verdicts);
    }
}

impl fmt::Display for Tally {
    fn fmt<W: fmt::Write>(&self, f: &mut fmt::Formatter<W>) -> fmt::Result {
        let asked = self.asked;
        let refused = self.refused;
        write!(f, "{asked} asked, {refused} refused")
    }
}

// How many verdicts of one node are held; a schema has at most 32 labels.
fn count_held_of<A: Validate>(validator: &A, node: u16) -> usize {
    let held = |label| usize::from(matches!(validator.held(node, label), Ok(Some(_))));
    let counts = (0..32u8).take(validator.label_count()).map(held);
    counts.fold(0usize, |sum, count| sum.saturating_add(count))
}

pub fn count_held<A: Validate>(validator: &A) -> usize {
    let counts = (0..validator.node_count()).map(|node| count_held_of(validator, node));
    counts.fold(0usize, |sum, count| sum.saturating_add(count))
}
