// The faults of one value record, 3 to 7, 15 and 17.
#![tactic(auto, unfolding(crate::specs::Judged::bad_kind, crate::specs::Judged::bad_span, crate::specs::Judged::bad_key, crate::specs::Judged::too_large, crate::specs::Judged::too_many))]

ghost use Rattle.std.specs.Prelude.{◌≡◌, Bool, true, ◌↔◌, List, ℕ, ◌+◌, ◌*◌, ◌%◌, ◌≤◌, ◌<◌, length};
ghost use Rattle.value_table.specs.Value.{record_size, max_length, key_at, span_at, member};
ghost use Rattle.value_table.specs.Inside.EarlierFields.{number_of_finding, EarlierFields, FieldsBefore, Parent, FaultIs, key_buckets, Latest};
ghost use Rattle.value_table.specs.Judged.{bad_kind, bad_span, bad_key, too_large, repeated, too_many};
ghost use Rattle.byte_records.specs.Inside.Chain.{Chain};
ghost use Rattle.value_table.specs.Inside.RecordBytes.{PlainScalar};

use crate::record::{key_at, kind_and_zero_at, kind_at, span_at, zero_at};
use crate::{Fault, record};

// How many buckets the keys are spread over.
pub const KEY_BUCKETS: usize = 64;

// A level at which values stand, that of the messages or inside an open value: where it ends, the first field if the open value is
// a record, and how many values it has had so far.
#[derive(Clone, Copy, Default)]
pub struct Level {
    pub end: usize,
    pub first: Option<usize>,
    pub count: usize,
}

fn bad_kind(table: &[u8], i: usize) -> bool
    requires { record_size * i + record_size ≤ length table.now }
    ensures { result ≡ bad_kind table.now i }
{
    !matches!(kind_at(table, i), 1..=record::ARRAY) || zero_at(table, i) != 0
}

fn bad_span(table: &[u8], i: usize, end: usize) -> bool
    requires { (record_size * i + record_size ≤ length table.now) × (length table.now ≤ max_length) }
    ensures { result ≡ bad_span table.now i end }
{
    let span = span_at(table, i);
    span == 0 || end < i + span || kind_at(table, i) <= record::LAST_SCALAR && 1 < span
}

// Whether record i has span 1, a scalar kind and a zero byte 1: a quick way past faults 3 and 4.
fn plain_scalar(table: &[u8], i: usize) -> bool
    requires { record_size * i + record_size ≤ length table.now }
    ensures { (result ≡ true) ↔ PlainScalar table.now i }
{
    span_at(table, i) == 1
        && (1..=record::LAST_SCALAR as usize).contains(&kind_and_zero_at(table, i))
}

fn bad_key(table: &[u8], i: usize, field: bool) -> bool
    requires { record_size * i + record_size ≤ length table.now }
    ensures { result ≡ bad_key table.now i field }
{
    (key_at(table, i) == 0) == field
}

// Whether the key of a field is above the largest.
fn too_large(table: &[u8], i: usize, field: bool, largest: usize) -> bool
    requires { record_size * i + record_size ≤ length table.now }
    ensures { result ≡ too_large largest table.now i field }
{
    field && largest < key_at(table, i)
}

// Whether the key of record i stands in an earlier field, the first of which is `first`.
fn key_before(table: &[u8], i: usize, first: usize) -> bool
    requires { (record_size * i + record_size ≤ length table.now) × EarlierFields table.now i first }
    ensures { (ks : List ℕ) → Chain (span_at table.now) (key_at table.now) i first ks →
        result ≡ member (key_at table.now i) ks }
{
    let key = key_at(table, i);
    let mut p = first;
    while p < i {
        if key_at(table, p) == key {
            return true;
        }
        p += span_at(table, p);
    }
    false
}

// The bucket of record i, by its key.
pub fn bucket_of(table: &[u8], i: usize) -> usize
    requires { record_size * i + record_size ≤ length table.now }
    ensures { (result ≡ key_at table.now i % key_buckets) × (result < key_buckets) }
{
    key_at(table, i) % KEY_BUCKETS
}

// Whether record i has the key of an earlier field: a bucket without fields of this parent needs no search.
fn repeats(table: &[u8], i: usize, first: Option<usize>, latest: &[usize; KEY_BUCKETS]) -> bool
    requires { (record_size * i + record_size ≤ length table.now) × Parent table.now i first × Latest table.now i latest.now }
    ensures { (field : Bool) (ks : List ℕ) → FieldsBefore table.now i first field ks → result ≡ repeated table.now i field ks }
{
    match first {
        None => false,
        Some(first) => first <= latest[bucket_of(table, i)] && key_before(table, i, first),
    }
}

// Whether a field is one too many, behind `before` others of its record.
fn too_many(field: bool, before: usize) -> bool
    ensures { result ≡ too_many field before }
{
    field && record::MAX_FIELDS <= before
}

// The fault of record i, which stands at this level. Keys go up to `largest`; `latest` has the latest record so far of
// each bucket.
pub fn fault_at(
    table: &[u8],
    i: usize,
    level: &Level,
    depth: usize,
    largest: usize,
    latest: &[usize; KEY_BUCKETS],
) -> Option<Fault>
    requires { (record_size * i + record_size ≤ length table.now) × (length table.now ≤ max_length) × (i < level.now.end)
        × Parent table.now i level.now.first × Latest table.now i latest.now }
    ensures { FaultIs largest table.now i level.now depth (number_of_finding result) }
{
    if !plain_scalar(table, i) {
        if bad_kind(table, i) {
            return Some(Fault::Kind);
        }
        if bad_span(table, i, level.end) {
            return Some(Fault::Span);
        }
    }
    let field = level.first.is_some();
    if bad_key(table, i, field) {
        return Some(Fault::Key);
    }
    if too_large(table, i, field, largest) {
        return Some(Fault::Large);
    }
    if repeats(table, i, level.first, latest) {
        return Some(Fault::Repeat);
    }
    if too_many(field, level.count) {
        return Some(Fault::Fields);
    }
    if record::MAX_DEPTH < depth {
        return Some(Fault::Depth);
    }
    None
}
