// The table that a sweep writes.
ghost use Rattle.std.specs.Prelude.{◌≡◌, ◌≤◌, length, take};
ghost use Rattle.ledger.specs.Steps.{ones};
ghost use Rattle.validator.specs.Marks.{Written};

// Writes 1 for each yes and 0 for each no, and answers how many are yes.
pub(crate) fn write_table(size: usize, verdicts: &[u8], table: &mut [u8]) -> usize
    requires verdicts_long { size ≤ length verdicts.now }
    requires table_long { size ≤ length table.old }
    ensures after { Written size verdicts.now table.old table.new }
    ensures value { result ≡ ones (take size table.new) }
{
    for (place, verdict) in verdicts[..size].iter().enumerate() {
        table[place] = u8::from(*verdict == 1);
    }
    table[..size].iter().filter(|byte| **byte == 1).count()
}
