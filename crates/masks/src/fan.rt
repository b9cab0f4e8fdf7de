// How many places a mask has.
ghost use Rattle.std.specs.Prelude.{◌≡◌, ◌^◌, ◌≤◌, min};

// The most masks that there are, 2^12.
pub const MASKS: usize = 4096;

// A fan stands beside the arrays and not in a struct with each: one fan serves all arrays of a row, and their memory is lent.
#[derive(Clone, Copy)]
pub struct Fan {
    pub value: usize,
    ghost few: { value ≤ 12 },
}

impl Fan {
    // More than 12 places are read as 12.
    pub fn new(value: usize) -> Fan
        ensures { result.value ≡ min value 12 }
    {
        Fan {
            value: value.min(12),
        }
    }

    pub fn masks(self) -> usize
        ensures value { result ≡ 2 ^ self.value }
        ensures bound { result ≤ 4096 }
    {
        1 << self.value
    }
}
