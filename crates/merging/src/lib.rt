// Merges two well-formed types in one pass over both: union by union, and inside addends that have one label.
#![tactic(auto)]

ghost use Rattle.std.specs.Prelude.{◌≡◌, ◌+◌, ◌^◌, ◌<◌, length};
ghost use Rattle.counting_theory.specs.Encoding.{type_kind, type_of};
ghost use Rattle.counting_theory.specs.WellFormed.{IsType};
ghost use Rattle.type_arena.specs.Inside.Runs.{TypeRun};
ghost use Rattle.merging.specs.Inside.Merging.{exceeds_here, MergedSoFar, MergeStored, Joined};

use byte_records::store::put_bytes;
use counting_theory::equivalence::Equivalence;
use std::cmp::Ordering;
use type_arena::addend::{append, body_of, keep, rest_of, union_total};
use type_arena::label_order::compare_labels;
use type_arena::level::Level;
use type_arena::payload::payload_at;
use type_arena::record_store::TypeRecord;
use type_arena::type_record;
use type_arena::type_record::{key_at, kind_at};

// How many bytes a merge has, and whether a union in it totals above the limit.
#[derive(Clone, Copy)]
pub struct Merged {
    pub bytes: usize,
    pub over: bool,
}

// Whether the merge of two unions totals above the limit; fields have no total.
fn total_over(a: &[u8], b: &[u8], level: Level) -> bool
    requires { TypeRun level a.now × TypeRun level b.now }
    ensures { result ≡ exceeds_here level.equivalence a.now b.now }
{
    !level.field && type_record::MAX_TOTAL < union_total(a) + union_total(b)
}

// Merges the first addends or fields of x and y, which have one label, into out from `at` on.
#[cycle(merge_addend_merge_run_merge_union)]
fn merge_addend(x: &[u8], y: &[u8], out: &mut [u8], at: usize, level: Level) -> Merged
    requires type_run { TypeRun level x.now × (0 < length x.now) }
    requires type_run_2 { TypeRun level y.now × (0 < length y.now) × (type_kind x.now 0 ≡ type_kind y.now 0) }
    requires y_bound { at + length x.now + length y.now < 2 ^ 64 }
    ensures { Joined level.equivalence x.now y.now out.old at out.new result.bytes result.over }
{
    let kind = kind_at(x, 0);
    let inside = merge_union(
        body_of(x),
        body_of(y),
        out,
        at + type_record::SIZE,
        level.inside(kind),
    );
    let bytes = type_record::SIZE + inside.bytes;
    let joined = TypeRecord {
        kind,
        key: key_at(x, 0),
        span: bytes / type_record::SIZE,
        payload: payload_at(x, 0).join(payload_at(y, 0)),
    };
    joined.put(out, at);
    Merged { bytes, ..inside }
}

// Merges two unions, or two runs of fields, until one has run out.
// Stores what is left of the second, and returns what is left of the first.
#[cycle(merge_addend_merge_run_merge_union)]
fn merge_run<'a>(
    first: &'a [u8],
    second: &[u8],
    out: &mut [u8],
    at: &mut usize,
    over: &mut bool,
    level: Level,
) -> &'a [u8]
    requires type_run { TypeRun level first.now × TypeRun level second.now }
    requires second_bound { at.old + length first.now + length second.now < 2 ^ 64 }
    ensures { MergedSoFar level.equivalence first.now second.now out.old at.old over.old
        result.now out.new at.new over.new }
{
    let mut x = first;
    let mut y = second;
    while !x.is_empty() && !y.is_empty() {
        match compare_labels(x, 0, y, 0, level.equivalence) {
            Ordering::Less => x = keep(x, out, at),
            Ordering::Greater => y = keep(y, out, at),
            Ordering::Equal => {
                let joined = merge_addend(x, y, out, *at, level);
                *at += joined.bytes;
                *over |= joined.over;
                x = rest_of(x);
                y = rest_of(y);
            }
        }
    }
    append(y, out, at);
    x
}

// Merges two unions, or two runs of fields, into out from `at` on.
#[cycle(merge_addend_merge_run_merge_union)]
fn merge_union(a: &[u8], b: &[u8], out: &mut [u8], at: usize, level: Level) -> Merged
    requires type_run { TypeRun level a.now × TypeRun level b.now }
    requires b_bound { at + length a.now + length b.now < 2 ^ 64 }
    ensures { MergeStored level.equivalence a.now b.now out.old at out.new result.bytes result.over }
{
    // One alone is well formed, so its totals are within the limit.
    if b.is_empty() {
        put_bytes(a, out, at);
        return Merged {
            bytes: a.len(),
            over: false,
        };
    }
    let mut end = at;
    let mut over = total_over(a, b, level);
    let tail = merge_run(a, b, out, &mut end, &mut over, level);
    append(tail, out, &mut end);
    Merged {
        bytes: end - at,
        over,
    }
}

// Merges two well-formed types into the arena as far as there is room.
pub fn merge_types(
    first: &[u8],
    second: &[u8],
    equivalence: Equivalence,
    arena: &mut [u8],
) -> Merged
    requires fact { IsType equivalence first.now (type_of equivalence first.now) }
    requires fact_2 { IsType equivalence second.now (type_of equivalence second.now) }
    ensures { MergeStored equivalence first.now second.now arena.old 0 arena.new result.bytes result.over }
{
    merge_union(first, second, arena, 0, Level::whole(equivalence))
}
