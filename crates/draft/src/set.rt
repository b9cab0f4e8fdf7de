// Sets of properties: 256 bits, one for each property.
ghost use Rattle.std.specs.Prelude.{◌≡◌};
ghost use Rattle.draft.specs.Sets.{in_set};

#[derive(Clone, Copy, PartialEq, Eq, Debug, Default)]
pub struct PropertySet {
    words: [u64; 4],
}

impl PropertySet {
    // The default set, as a constant: an array literal repeats it, and a call of default() is no constant.
    pub const EMPTY: PropertySet = PropertySet { words: [0; 4] };

    // The set whose property 64 × i + j is bit j of word i.
    pub fn from_words(words: [u64; 4]) -> PropertySet
        ensures { result.words ≡ words }
    {
        PropertySet { words }
    }

    pub fn contains(&self, property: u8) -> bool
        ensures { result ≡ in_set self.now property }
    {
        let word = self.words[usize::from(property / 64)];
        (word >> (property % 64)) & 1 == 1
    }
}
