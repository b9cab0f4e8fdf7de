// The masks of EACH: the sums of two disjoint masks.
ghost use Rattle.std.specs.Prelude.{◌≡◌, ℕ, ◌-◌, ◌^◌, ◌<◌, ◌↔◌};
ghost use Rattle.masks.specs.Masks.{On, Splits};
ghost use Rattle.masks.specs.Steps.{Spread};

use crate::fan::{Fan, MASKS};
use crate::submasks::Submasks;

// Marks s + d for each mask d of b that is disjoint from s.
fn spread(fan: Fan, b: &[bool; MASKS], s: usize, c: &mut [bool; MASKS])
    requires { s < 2 ^ fan.value }
    ensures { Spread fan.value c.old b.now s (2 ^ fan.value - 1 - s) 0 c.new }
{
    for d in Submasks::of(fan.masks() - 1 - s) {
        c[s + d] |= b[d];
    }
}

// The masks that split into one of a and a disjoint one of b.
pub fn each(fan: Fan, a: &[bool; MASKS], b: &[bool; MASKS], c: &mut [bool; MASKS])
    ensures { (m : ℕ) → m < 2 ^ fan.value → On c.new m ↔ Splits fan.value a.now b.now m }
{
    c[..fan.masks()].fill(false);
    for (s, is_on) in a[..fan.masks()].iter().enumerate() {
        if *is_on {
            spread(fan, b, s, c);
        }
    }
}
