// Sets of labels: one bit for each of 32 labels.
ghost use Rattle.std.specs.Prelude.{◌≡◌, ℕ, ◌||◌, ◌&&◌, ◌==◌, nat_lt};
ghost use Rattle.labels.specs.Members.{member, how_many};

#[derive(Clone, Copy, PartialEq, Eq, Debug, Default)]
pub struct LabelSet {
    bits: u32,
}

impl LabelSet {
    pub const NONE: LabelSet = LabelSet { bits: 0 };

    // A label from 32 on is in no set.
    pub fn one(label: u8) -> LabelSet
        ensures { (k : ℕ) → member result k ≡ (nat_lt label 32 && label == k) }
    {
        LabelSet {
            bits: 1u32.checked_shl(u32::from(label)).unwrap_or(0),
        }
    }

    pub fn union(self, other: LabelSet) -> LabelSet
        ensures { (k : ℕ) → member result k ≡ (member self k || member other k) }
    {
        LabelSet {
            bits: self.bits | other.bits,
        }
    }

    pub fn contains(self, label: u8) -> bool
        ensures { result ≡ member self label }
    {
        label < 32 && (self.bits >> label) & 1 == 1
    }

    // How many labels the set holds.
    pub fn len(self) -> u8
        ensures { result ≡ how_many (member self) 32 }
    {
        self.bits.count_ones() as u8
    }
}
