// The masks of EMPTY, ARC and SOME.
ghost use Rattle.std.specs.Prelude.{◌≡◌, ℕ, ◌^◌, ◌<◌, ◌⊎◌, ◌↔◌};
ghost use Rattle.masks.specs.Masks.{On, Single};

use crate::fan::{Fan, MASKS};

// The mask with no place.
pub fn empty(fan: Fan, c: &mut [bool; MASKS])
    ensures { (m : ℕ) → m < 2 ^ fan.value → On c.new m ↔ (m ≡ 0) }
{
    c[..fan.masks()].fill(false);
    c[0] = true;
}

// The masks with one place, an admitted one.
pub fn single(fan: Fan, admitted: &[bool; 12], c: &mut [bool; MASKS])
    ensures { (m : ℕ) → m < 2 ^ fan.value → On c.new m ↔ Single admitted.now fan.value m }
{
    c[..fan.masks()].fill(false);
    for (j, is_admitted) in admitted[..fan.value].iter().enumerate() {
        if *is_admitted {
            c[1 << (fan.value - 1 - j)] = true;
        }
    }
}

// The masks of either set.
pub fn some(fan: Fan, a: &[bool; MASKS], b: &[bool; MASKS], c: &mut [bool; MASKS])
    ensures { (m : ℕ) → m < 2 ^ fan.value → On c.new m ↔ (On a.now m ⊎ On b.now m) }
{
    // by the place: after a zip of iter_mut a proof knows nothing of what was written
    let masks = &mut c[..fan.masks()];
    for (m, is_on) in masks.iter_mut().enumerate() {
        *is_on = a[m] || b[m];
    }
}
