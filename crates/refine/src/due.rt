// The pairs that are decided at one stratum.
ghost use Rattle.std.specs.Prelude.{ℕ, ◌*◌, ◌≤◌, length};

use crate::write::write_where;
use std::ops::Range;

// The wanted pairs whose label has the stratum.
#[derive(Drop)]
pub(crate) struct Due<'a> {
    pub(crate) nodes: usize,
    pub(crate) labels: usize,
    // The stratum of each label.
    pub(crate) strata: &'a [u8],
    // A byte for each pair, in a row for each node: 1 where the pair is wanted.
    pub(crate) wanted: &'a [u8],
    pub(crate) stratum: u8,
    ghost few_nodes: { nodes ≤ 256 },
    ghost few_labels: { labels ≤ 32 },
    ghost strata_long: { labels ≤ length strata.now },
    ghost wanted_long: { nodes * labels ≤ length wanted.now },
}

impl Due<'_> {
    ghost use Rattle.std.specs.Prelude.{◌≡◌, ◌+◌, ◌<◌, true, Decides, slice_index};
    ghost use Rattle.refine.specs.Due.{is_due, Raised, Cleared};

    // The places of a node's pairs.
    pub(crate) fn row(&self, node: u16) -> Range<usize>
        requires { node < self.now.nodes }
        ensures start { result.start ≡ node * self.now.labels }
        ensures end { result.end ≡ result.start + self.now.labels }
        ensures within { result.end ≤ self.now.nodes * self.now.labels }
    {
        let start = usize::from(node) * self.labels;
        start..start + self.labels
    }

    // Whether a pair of the node is due and in its row.
    pub(crate) fn is_in(&self, node: u16, row: &[u8]) -> bool
        requires { node < self.now.nodes }
        ensures { Decides result ((l : ℕ) × (l < self.now.labels) × (slice_index row.now l ≡ 1) × (is_due self.now (node * self.now.labels + l) ≡ true)) }
    {
        row.iter()
            .zip(&self.wanted[self.row(node)])
            .zip(self.strata)
            .any(|((byte, wanted), stratum)| {
                *byte == 1 && *wanted == 1 && *stratum == self.stratum
            })
    }

    // Takes out of a node's row the due pairs whose label is not found; says whether there is one.
    pub(crate) fn clear(&self, node: u16, found: &[bool; 32], row: &mut [u8]) -> bool
        requires node_bound { node < self.now.nodes }
        requires row_long { length row.old ≡ self.now.labels }
        ensures { Cleared self.now node found.now row.old result row.new }
    {
        let wanted = &self.wanted[self.row(node)];
        write_where(row, 0, |label, byte| {
            byte == 1 && wanted[label] == 1 && self.strata[label] == self.stratum && !found[label]
        })
    }

    // Puts every due pair in.
    pub(crate) fn raise(&self, typing: &mut [u8])
        requires { self.now.nodes * self.now.labels ≤ length typing.old }
        ensures { Raised self.now typing.old typing.new }
    {
        write_where(&mut typing[..self.nodes * self.labels], 1, |place, _| {
            self.wanted[place] == 1 && self.strata[place % self.labels] == self.stratum
        });
    }
}
