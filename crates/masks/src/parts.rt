// The masks of TIMES: those that split into a number of masks.
ghost use Rattle.std.specs.Prelude.{◌≡◌, ℕ, ◌+◌, ◌^◌, ◌<◌, ◌≤◌, true, ◌⊎◌, ◌↔◌, slice_index};
ghost use Rattle.shapes.specs.Meaning.{AtMost};
ghost use Rattle.masks.specs.Masks.{On, Bit, Chain};
ghost use Rattle.masks.specs.Steps.{More, Begun, Counted};

use crate::fan::{Fan, MASKS};
use crate::submasks::Submasks;

// Counts one part more at part + d than at d, for each part d of the rest.
fn add_part(counts: &mut [u16; MASKS], part: usize, rest: usize)
    requires lower { rest < part }
    requires room { part + rest < 4096 }
    ensures { More counts.old part rest 0 counts.new }
{
    for d in Submasks::of(rest) {
        counts[part + d] |= counts[d] << 1;
    }
}

// Counts what begins with a part of the top place 2^place.
fn add_parts(fan: Fan, a: &[bool; MASKS], place: usize, counts: &mut [u16; MASKS])
    requires place { place < fan.value }
    requires begun { Begun a.now counts.old fan.value (2 ^ place) }
    ensures { Begun a.now counts.new fan.value (2 ^ (place + 1)) }
{
    let top = Fan::new(place).masks();
    for (low, is_on) in a[top..2 * top].iter().enumerate() {
        if *is_on {
            add_part(counts, top + low, top - 1 - low);
        }
    }
}

// For each mask the set of its part counts, as bits; each part has the top place of what it is added to.
fn count_parts(fan: Fan, a: &[bool; MASKS], counts: &mut [u16; MASKS])
    ensures { Counted a.now counts.new (2 ^ fan.value) }
{
    counts[..fan.masks()].fill(0);
    counts[0] = 1;
    for place in 0..fan.value {
        add_parts(fan, a, place, counts);
    }
}

// Whether a bit from lo to hi is 1.
fn any_bit(x: u16, lo: u8, hi: u8) -> bool
    requires { hi < 16 }
    ensures { (result ≡ true) ↔ ((j : ℕ) × (lo ≤ j) × (j ≤ hi) × Bit x j) }
{
    // a loop: with any(..) on the range TIMES took 1.14 times as long at 4 arcs, and 1.11 at 6
    for j in lo..hi + 1 {
        if (x >> j) % 2 == 1 {
            return true;
        }
    }
    false
}

// The largest count of at most 12 parts that the most allows.
fn cap(most: Option<u8>) -> u8
    ensures small { result < 16 }
    ensures same { (j : ℕ) → j ≤ 12 → (j ≤ result) ↔ AtMost j most }
{
    most.unwrap_or(12).min(12)
}

// The masks that split into parts of a, none empty, at most `most` of them, and at least `least` unless a has the empty mask.
pub fn times(
    fan: Fan,
    a: &[bool; MASKS],
    least: u8,
    most: Option<u8>,
    counts: &mut [u16; MASKS],
    c: &mut [bool; MASKS],
)
    ensures { (m : ℕ) → m < 2 ^ fan.value → On c.new m ↔ ((j : ℕ) × AtMost j most × ((least ≤ j) ⊎ On a.now 0) × Chain a.now j m) }
{
    count_parts(fan, a, counts);
    let lo = if a[0] { 0 } else { least };
    let hi = cap(most);
    // by the place: after a zip of iter_mut a proof knows nothing of what was written
    let masks = &mut c[..fan.masks()];
    for (m, is_on) in masks.iter_mut().enumerate() {
        *is_on = any_bit(counts[m], lo, hi);
    }
}
