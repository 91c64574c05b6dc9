// The pass over a whole type and a part: union by union, and inside addends that have one label.
ghost use Rattle.std.specs.Prelude.{◌≡◌, Bool, true, not, cond, ◌+◌, ◌^◌, ◌<◌, length};
ghost use Rattle.counting_theory.specs.declared.equivalence.Equivalence.{Equivalence};
ghost use Rattle.counting_theory.specs.declared.equivalence.Equivalence.TheVariants.{Kind as by_kind};
ghost use Rattle.removal_theory.specs.Encoding.{type_kind, type_of};
ghost use Rattle.counting_theory.specs.WellFormed.{max_total};
ghost use Rattle.removal_theory.specs.WellFormed.{fields_of};
ghost use Rattle.removal_arena.specs.Inside.Addend.{Coded};
ghost use Rattle.removal_arena.specs.Inside.Runs.{TypeRun};
ghost use Rattle.removal.specs.Inside.Removing.{Run, WholeRun, run_left, placed, AddendRemoved, remainder_at};

use byte_records::store::put_bytes;
use removal_arena::addend::{body_of, keep, rest_of};
use removal_arena::record_store::TypeRecord;
use removal_arena::type_record;
use removal_arena::type_record::Counted;
use std::cmp::Ordering;
use type_arena::label_order::order_labels;
use type_arena::layout::{count_at, key_at, kind_at};
use type_arena::level::Level;
use type_arena::type_record::MAX_TOTAL;

// Whether a count in the run is above the limit.
fn passes(a: &[u8], limit: usize) -> bool
    requires { Run a.now }
    ensures { (e : Equivalence) (field : Bool) → Coded e field a.now → result ≡ not (fields_of by_kind limit (type_of e a.now)) }
{
    let mut x = a;
    while !x.is_empty() {
        if limit < count_at::<Counted>(x, 0) {
            return true;
        }
        x = rest_of(x);
    }
    false
}

// The most that a count may be in a run inside a record of this count: a field is counted at most as often as its record.
fn limit_inside(inner: Level, count: usize) -> usize
    ensures { result ≡ cond inner.field count max_total }
{
    if inner.field { count } else { MAX_TOTAL }
}

// Takes the first addend or field of y out of that of x, which has its label, and stores what is left from `at` on: so many bytes; none
// where x lacks something of y, or too much is left.
#[cycle(remove_addend_remove_union)]
fn remove_addend(
    x: &[u8],
    y: &[u8],
    out: &mut [u8],
    at: usize,
    level: Level,
    limit: usize,
) -> Option<usize>
    requires whole_run { WholeRun level limit x.now × (0 < length x.now) }
    requires type_run { TypeRun level y.now × (0 < length y.now) × (type_kind x.now 0 ≡ type_kind y.now 0) }
    requires x_bound { at + length x.now < 2 ^ 64 }
    ensures { AddendRemoved level.equivalence limit x.now y.now out.old at out.new result }
{
    let count = count_at::<Counted>(x, 0);
    let taken = count_at::<Counted>(y, 0);
    if count == taken {
        return (body_of(x) == body_of(y)).then_some(0);
    }
    if count < taken {
        return None;
    }
    let left = count - taken;
    if limit < left {
        return None;
    }
    let kind = kind_at::<Counted>(x, 0);
    let inner = level.inside(kind);
    let most = limit_inside(inner, left);
    let from = at + type_record::SIZE;
    let n = remove_union(body_of(x), body_of(y), out, from, inner, most)?;
    let bytes = type_record::SIZE + n;
    let record = TypeRecord {
        kind,
        key: key_at::<Counted>(x, 0),
        span: bytes / type_record::SIZE,
        count: left,
    };
    record.put(out, at);
    Some(bytes)
}

// Takes a union, or a run of fields, out of another, and stores what is left from `at` on: so many bytes; none where the part is not in it.
#[cycle(remove_addend_remove_union)]
pub fn remove_union(
    whole: &[u8],
    part: &[u8],
    out: &mut [u8],
    at: usize,
    level: Level,
    limit: usize,
) -> Option<usize>
    requires { WholeRun level limit whole.now × TypeRun level part.now × (at + length whole.now < 2 ^ 64) }
    ensures { remainder_at result out.new at ≡ placed out.old at (run_left level.equivalence limit whole.now part.now) }
{
    let mut x = whole;
    let mut y = part;
    let mut end = at;
    while !y.is_empty() {
        if x.is_empty() {
            return None;
        }
        match order_labels::<Counted>(x, 0, y, 0, level.equivalence) {
            Ordering::Less => {
                if limit < count_at::<Counted>(x, 0) {
                    return None;
                }
                x = keep(x, out, &mut end);
            }
            Ordering::Greater => return None,
            Ordering::Equal => {
                end += remove_addend(x, y, out, end, level, limit)?;
                x = rest_of(x);
                y = rest_of(y);
            }
        }
    }
    if level.field && passes(x, limit) {
        return None;
    }
    put_bytes(x, out, end);
    Some(end + x.len() - at)
}
