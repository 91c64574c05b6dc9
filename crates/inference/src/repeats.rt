// Equal values that directly follow each other in a run.
ghost use Rattle.std.specs.Prelude.{◌*◌, ◌≤◌, ◌<◌, length};
ghost use Rattle.value_table.specs.Value.{record_size};
ghost use Rattle.inference.specs.Inside.Inferring.{MostEqualRecords, MostEqualValues};

use value_table::record;
use value_table::record::same_record;

// How many records from i on equal those from j on, one by one, up to record `end`.
pub fn equal_records(t: &[u8], i: usize, j: usize, end: usize) -> usize
    requires { (i ≤ j) × (j ≤ end) × (record_size * end ≤ length t.now) }
    ensures { MostEqualRecords t.now i j end result }
{
    for n in 0..end - j {
        if !same_record(t, i + n, j + n) {
            return n;
        }
    }
    end - j
}

// How many values that equal the one at record i directly follow it. `next` is the record behind it.
pub fn equal_values(t: &[u8], i: usize, next: usize) -> usize
    requires { (i < next) × (record_size * next ≤ length t.now) }
    ensures { MostEqualValues t.now i next result }
{
    let span = next - i;
    let n = equal_records(t, i, next, t.len() / record::SIZE);
    // Mostly none does, and a division takes long.
    if n < span { 0 } else { n / span }
}
