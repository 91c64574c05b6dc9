// Fields with a scalar that stand in the arena already: only counts grow, and no record moves.
ghost use Rattle.std.specs.Prelude.{◌≡◌, Bool, true, false, List, ℕ, ◌*◌, ◌≤◌, ◌<◌, length};
ghost use Rattle.value_table.specs.Value.{last_scalar, Values};
ghost use Rattle.counting_theory.specs.Label.{field_kind, CountingType};
ghost use Rattle.counting_theory.specs.declared.equivalence.Equivalence.{Equivalence};
ghost use Rattle.counting_theory.specs.Encoding.{type_size, type_key};
ghost use Rattle.type_arena.specs.Inside.Arena.{RecordIn};
ghost use Rattle.inference.specs.Inside.Inferring.{ArenaHolds, Starts, StandsAt, spot};
ghost use Rattle.inference.specs.Inside.ScalarFields.{AddedSoFar, SomeAddedSoFar, plain, SomeFrom, SomeField, field_start, BelowAt, SoughtIn, with_scalar, ScalarCounted, FieldCounted, OfFields};

use crate::search::resume_at;
use type_arena::payload::Payload;
use type_arena::record_store::join_payload;
use type_arena::type_record;
use type_arena::type_record::{key_at, kind_at, span_at};
use value_table::record;

// The next record of a run, and the field from which a search may begin.
#[derive(Clone, Copy)]
pub struct Progress {
    pub next: usize,
    pub from: usize,
}

// Where a search for a key may begin: at `from`, if no larger key stands there.
fn field_start(b: &[u8], from: usize, n: usize, key: usize) -> usize
    requires { from < n → RecordIn b.now from }
    ensures { result ≡ field_start b.now from n key }
{
    if from < n && key_at(b, from) <= key {
        from
    } else {
        0
    }
}

// Passes fields below a key, from one that is below it up to the first with another span, and answers the last one passed.
// Where the next field stands is then known without waiting for its span. The contract leaves free how far this goes.
fn last_alike(b: &[u8], from: usize, n: usize, key: usize) -> usize
    requires { SomeFrom true b.now n from × (from < n) × (type_key b.now from < key) }
    ensures { (from ≤ result) × OfFields b.now n from (λ e f q. BelowAt b.now n key f result) }
{
    let like = span_at(b, from);
    let mut p = from;
    let mut next = from + like;
    while next < n {
        if key <= key_at(b, next) {
            return p;
        }
        if span_at(b, next) != like {
            return next;
        }
        p = next;
        next += like;
    }
    p
}

// Looks for a field among n records of fields: where it stands (Ok), or a field from which a search for it may begin (Err).
// The contract leaves free whether the field is missing where the answer is an `Err`, and which field that names: a search by the
// whole label goes on there, and may begin at any.
fn seek_field(b: &[u8], from: usize, n: usize, key: usize) -> Result<usize, usize>
    requires { SomeFrom true b.now n from }
    ensures { OfFields b.now n from (λ e f q. SoughtIn (plain e field_kind key) f result) }
{
    let mut at = field_start(b, from, n, key);
    let mut before = at;
    while at < n {
        let other = key_at(b, at);
        // Two tests take less time than a match on an order.
        if key == other {
            return Ok(at);
        }
        if key < other {
            return Err(before);
        }
        before = last_alike(b, at, n, key);
        at = before + span_at(b, before);
    }
    Err(before)
}

// The same, where the field is mostly the one at `from`. The same is left free.
pub fn find_field(b: &[u8], from: usize, n: usize, key: usize) -> Result<usize, usize>
    requires { SomeFrom true b.now n from }
    ensures { OfFields b.now n from (λ e f q. SoughtIn (plain e field_kind key) f result) }
{
    if from < n && key == key_at(b, from) {
        return Ok(from);
    }
    seek_field(b, from, n, key)
}

// Where a scalar stands (Ok), or would (Err), among n records of a union.
fn find_scalar(b: &[u8], n: usize, kind: u8) -> Result<usize, usize>
    requires { SomeFrom false b.now n 0 × (kind ≤ last_scalar) }
    ensures { (e : Equivalence) (rest : ℕ) (f : CountingType) (q free : List ℕ) → ArenaHolds e false b.now n rest f q free →
        result ≡ spot (plain e kind 0) 0 f }
{
    let mut at = 0;
    while at < n {
        let other = kind_at(b, at);
        // Two tests take less time than a match on an order.
        if kind == other {
            return Ok(at);
        }
        if kind < other {
            return Err(at);
        }
        at += span_at(b, at);
    }
    Err(at)
}

// Counts a scalar in the field at record p, if its union has it.
fn count_scalar(a: &mut [u8], p: usize, kind: u8, weight: usize) -> bool
    requires { SomeField a.old p × (kind ≤ last_scalar) }
    ensures { (e : Equivalence) (n rest key : ℕ) (f : CountingType) (q free : List ℕ) → ArenaHolds e true a.old n rest f q free →
        StandsAt (plain e field_kind key) f p →
        ScalarCounted (with_scalar e key kind weight f) q n a.old result a.new }
{
    let inner = type_record::SIZE * p + type_record::SIZE;
    let held = span_at(a, p) - 1;
    let Ok(q) = find_scalar(&a[inner..], held, kind) else {
        return false;
    };
    join_payload(a, p, Payload::given(type_record::FIELD, weight, 0));
    join_payload(&mut a[inner..], q, Payload::given(kind, weight, 0));
    true
}

// Counts a field with a scalar among n records of fields, if it stands there with this scalar (Ok); else answers a field from which a
// search for it may begin (Err).
fn count_field(
    a: &mut [u8],
    from: usize,
    n: usize,
    kind: u8,
    key: usize,
    weight: usize,
) -> Result<usize, usize>
    requires { SomeFrom true a.old n from × (kind ≤ last_scalar) }
    ensures { OfFields a.old n from (λ e f q. FieldCounted e key kind weight f q n a.old result a.new) }
{
    let p = find_field(a, from, n, key)?;
    if count_scalar(a, p, kind, weight) {
        Ok(p)
    } else {
        Err(p)
    }
}

// Counts the fields of a run from record i on, `weight` times, up to the first that does not stand there with its scalar.
fn count_fields(a: &mut [u8], from: usize, n: usize, t: &[u8], i: usize, weight: usize) -> Progress
    requires { SomeAddedSoFar true weight a.old t.now n i from }
    ensures { (i ≤ result.next) × ((e : Equivalence) (vs : Values) (f : CountingType) (q : List ℕ) (rest : ℕ) → length q ≡ type_size * rest →
        AddedSoFar e true weight vs f q a.old t.now n i from →
        AddedSoFar e true weight vs f q a.new t.now n result.next result.from) }
{
    let end = i.max(t.len() / record::SIZE);
    let mut at = from;
    for next in i..end {
        let kind = record::kind_at(t, next);
        if record::LAST_SCALAR < kind {
            return Progress { next, from: at };
        }
        match count_field(a, at, n, kind, record::key_at(t, next), weight) {
            Err(p) => return Progress { next, from: p },
            Ok(p) => at = resume_at(a, p, n, true),
        }
    }
    Progress {
        next: end,
        from: at,
    }
}

// The same of a run that has fields or not.
pub fn count_standing(
    a: &mut [u8],
    from: usize,
    n: usize,
    t: &[u8],
    i: usize,
    weight: usize,
    field: bool,
) -> Progress
    requires { SomeAddedSoFar field weight a.old t.now n i from }
    ensures { (i ≤ result.next) × ((e : Equivalence) (vs : Values) (f : CountingType) (q : List ℕ) (rest : ℕ) → length q ≡ type_size * rest →
        AddedSoFar e field weight vs f q a.old t.now n i from →
        AddedSoFar e field weight vs f q a.new t.now n result.next result.from) }
{
    if field {
        count_fields(a, from, n, t, i, weight)
    } else {
        Progress { next: i, from }
    }
}
