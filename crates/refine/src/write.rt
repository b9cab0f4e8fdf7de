// Writes into a slice.
ghost use Rattle.std.specs.Prelude.{ℕ, ◌<◌, length, slice_index_or};
ghost use Rattle.refine.specs.Writing.{WrittenWhere};

// Writes the value at each place where the test of the place and its item holds; says whether there is one.
pub(crate) fn write_where<T: Copy, F: Fn(usize, T) -> bool>(
    items: &mut [T],
    value: T,
    test: F,
) -> bool
    requires { (k : ℕ) → k < length items.old → F.pre test k (slice_index_or items.old k value) }
    ensures { WrittenWhere (F.post test) value items.old result items.new }
{
    let mut written = false;
    for (place, item) in items.iter_mut().enumerate() {
        if test(place, *item) {
            *item = value;
            written = true;
        }
    }
    written
}
