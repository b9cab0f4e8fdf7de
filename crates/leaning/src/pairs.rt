// Pairs of node and label, by number.
ghost use Rattle.std.specs.Prelude.{◌≡◌, ◌+◌, ◌*◌, ◌<◌, ◌≤◌, ◌↔◌, is_ok, Err};
ghost use Rattle.leaning.specs.Pairs.{accepted};

use crate::fault::ReachFault;
use stack::Goal;

// How many nodes and labels there are.
#[derive(Clone, Copy)]
pub(crate) struct Pairs {
    pub(crate) nodes: usize,
    pub(crate) labels: usize,
    ghost few_nodes: { nodes ≤ 256 },
    ghost few_labels: { labels ≤ 32 },
}

impl Pairs {
    pub(crate) fn count(self) -> usize
        ensures { result ≡ self.nodes * self.labels }
    {
        self.nodes * self.labels
    }

    // The place of the pair's byte.
    pub(crate) fn place(self, pair: Goal) -> usize
        requires { (pair.node < self.nodes) × (pair.label < self.labels) }
        ensures value { result ≡ pair.node * self.labels + pair.label }
        ensures bound { result < self.nodes * self.labels }
    {
        usize::from(pair.node) * self.labels + usize::from(pair.label)
    }

    // Whether the pair is one of them, and three slices of these lengths have an element for each.
    pub(crate) fn fit(
        self,
        pair: Goal,
        held: usize,
        marks: usize,
        goals: usize,
    ) -> Result<(), ReachFault>
        ensures answer { is_ok result ≡ accepted self.nodes self.labels held marks goals pair.node pair.label }
        ensures no_pair { (result ≡ Err ReachFault.NoPair) ↔ ¬ ((pair.node < self.nodes) × (pair.label < self.labels)) }
    {
        if usize::from(pair.node) >= self.nodes || usize::from(pair.label) >= self.labels {
            return Err(ReachFault::NoPair);
        }
        if held.min(marks).min(goals) < self.count() {
            return Err(ReachFault::ShortSlice);
        }
        Ok(())
    }
}
