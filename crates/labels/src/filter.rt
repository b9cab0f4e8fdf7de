// Which ARCs count, by their property sets.
ghost use Rattle.std.specs.Prelude.{◌≡◌, Bool, true};
ghost use Rattle.draft.specs.Sets.{in_set};
ghost use Rattle.draft.specs.declared.set.PropertySet.{PropertySet};

use draft::PropertySet;

pub trait ArcFilter {
    ghost admits: { Self → PropertySet → Bool };

    fn admits(&self, set: &PropertySet) -> bool
        ensures { result ≡ admits self.now set.now };
}

// Every ARC counts.
#[derive(Clone, Copy, PartialEq, Eq, Debug, Default)]
pub struct EveryArc;

impl ArcFilter for EveryArc {
    ghost admits = { λ filter set. true };

    fn admits(&self, _set: &PropertySet) -> bool {
        true
    }
}

// The ARCs whose set has the property count.
#[derive(Clone, Copy, PartialEq, Eq, Debug)]
pub struct WithProperty(pub u8);

impl ArcFilter for WithProperty {
    ghost admits = { λ filter set. in_set set filter.0 };

    fn admits(&self, set: &PropertySet) -> bool {
        set.contains(self.0)
    }
}
