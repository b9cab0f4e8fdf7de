// Words with a bit for each triple row, one word a mask.
ghost use Rattle.std.specs.Prelude.{◌≡◌, ℕ, ◌^◌, ◌<◌, false, ◌↔◌, slice_index, slice_index_or};
ghost use Rattle.masks.specs.Masks.{On, Bit};
ghost use Rattle.hoods.specs.Words.{with_row};

use masks::{Fan, MASKS};

// The masks of a row.
pub(crate) fn unpack(fan: Fan, words: &[u128; MASKS], row: u8, c: &mut [bool; MASKS])
    requires { row < 128 }
    ensures { (m : ℕ) → m < 2 ^ fan.value → On c.new m ↔ Bit (slice_index words.now m) row }
{
    // by the place: after a zip of iter_mut a proof knows nothing of what was written
    let masks = &mut c[..fan.masks()];
    for (m, is_on) in masks.iter_mut().enumerate() {
        *is_on = (words[m] >> row) % 2 == 1;
    }
}

// Adds a row to words that have only rows below it.
pub(crate) fn pack(fan: Fan, words: &mut [u128; MASKS], row: usize, c: &[bool; MASKS])
    requires row { row < 128 }
    requires below { (m : ℕ) → m < 2 ^ fan.value → slice_index words.old m < 2 ^ row }
    ensures { (m : ℕ) → m < 2 ^ fan.value → slice_index words.new m ≡ with_row (slice_index_or c.now m false) row (slice_index words.old m) }
{
    for (m, is_on) in c[..fan.masks()].iter().enumerate() {
        if *is_on {
            words[m] += 1 << row;
        }
    }
}
