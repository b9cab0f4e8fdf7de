// Theorems on the tables of drafts, each on the contract of a function.
ghost use Rattle.draft.specs.Lawful.{AreLawful, Unfolds};

pub fn lawful_stands()
    ensures { AreLawful }
{}

pub fn unfolding_stands()
    ensures { Unfolds }
{}
