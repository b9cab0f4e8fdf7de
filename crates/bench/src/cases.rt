// What is measured.
#[derive(Clone, Copy)]
pub enum Case {
    CheckTypical,
    CheckNested,
    CheckOverlap,
    CheckUnadmitted,
    SweepChain,
    SweepRows,
    LookAfterEdit,
    EditAndLook,
    SweepLine,
    SweepLineRows,
    SweepRing,
    LookRing,
    SweepCrowd,
}

impl Case {
    pub const ALL: [Case; 13] = [
        Case::CheckTypical,
        Case::CheckNested,
        Case::CheckOverlap,
        Case::CheckUnadmitted,
        Case::SweepChain,
        Case::SweepRows,
        Case::LookAfterEdit,
        Case::EditAndLook,
        Case::SweepLine,
        Case::SweepLineRows,
        Case::SweepRing,
        Case::LookRing,
        Case::SweepCrowd,
    ];

    pub fn name(self) -> &'static str {
        match self {
            Case::CheckTypical => "check, typical",
            Case::CheckNested => "check, nested repeats",
            Case::CheckOverlap => "check, overlap",
            Case::CheckUnadmitted => "check, one not admitted",
            Case::SweepChain => "sweep, chain store",
            Case::SweepRows => "sweep, row store",
            Case::LookAfterEdit => "look after a far edit",
            Case::EditAndLook => "far edit and look",
            Case::SweepLine => "line of 256",
            Case::SweepLineRows => "line of 256, row store",
            Case::SweepRing => "ring of 256",
            Case::LookRing => "ring of 256, look",
            Case::SweepCrowd => "crowd of 16",
        }
    }

    pub fn text(self) -> &'static str {
        match self {
            Case::CheckTypical => {
                "one check of a node with 0 to 12 arcs: one arc and any number of others"
            }
            Case::CheckNested => "the same: a repeat of groups that hold a repeat",
            Case::CheckOverlap => "the same: every ARC admits every arc",
            Case::CheckUnadmitted => "the same, but the last arc is admitted by no ARC",
            Case::SweepChain => "a sweep of 256 nodes, 512 triples and 8 labels",
            Case::SweepRows => "the same over a row store with 1,024 rows",
            Case::LookAfterEdit => "in that house, a look after an edit two triples away",
            Case::EditAndLook => "the same, with the edit",
            Case::SweepLine => "a sweep where each node leans on the next, and the last fails",
            Case::SweepLineRows => "the same over a row store with 1,024 rows",
            Case::SweepRing => "a sweep where each node leans on the next, and all hold",
            Case::LookRing => "a look at one node of the ring",
            Case::SweepCrowd => "a sweep of 16 nodes with 12 arcs that every ARC admits",
        }
    }

    // What stands in the column of the plain way.
    pub fn plain(self) -> &'static str {
        match self {
            Case::CheckTypical | Case::CheckNested | Case::CheckOverlap | Case::CheckUnadmitted =>
                "every split of the arcs",
            Case::LookAfterEdit | Case::EditAndLook | Case::LookRing => "the library's own sweep",
            _ => "every pair again in every round",
        }
    }
}
