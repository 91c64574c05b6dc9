// The values of a run, one after the other, and how many elements an array has.
ghost use Rattle.std.specs.Prelude.{◌≡◌, false, ◌+◌, ◌*◌, ◌≤◌, eqb, length};
ghost use Rattle.value_table.specs.Value.{record_size, record_kind, array_kind, Values, count};
ghost use Rattle.inference.specs.Inside.Inferring.{TableRun, SomeRun, step_at};

use value_table::record;
use value_table::record::{kind_at, span_at};

// The records of a value. The span of a scalar is not read: where most are scalars, the next value is known without waiting.
pub fn step_at(t: &[u8], i: usize) -> usize
    requires { record_size * i + record_size ≤ length t.now }
    ensures { result ≡ step_at t.now i }
{
    if kind_at(t, i) <= record::LAST_SCALAR {
        1
    } else {
        span_at(t, i)
    }
}

// How many values a run has that are no fields.
fn count_values(t: &[u8]) -> usize
    requires { SomeRun false t.now }
    ensures { (vs : Values) → TableRun false t.now vs → result ≡ count vs }
{
    let end = t.len() / record::SIZE;
    let mut n = 0;
    let mut i = 0;
    while i < end {
        n += 1;
        i += step_at(t, i);
    }
    n
}

// How many elements an item has that has t below it, if it is an array.
pub fn elements_in(t: &[u8], kind: u8) -> usize
    requires { SomeRun (eqb kind record_kind) t.now }
    ensures { (vs : Values) → TableRun (eqb kind record_kind) t.now vs → kind ≡ array_kind → result ≡ count vs }
{
    if kind == record::ARRAY {
        count_values(t)
    } else {
        0
    }
}
