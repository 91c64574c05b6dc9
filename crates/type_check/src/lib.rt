// Well-formedness of a type, in one pass over its records, whatever their size.
#![tactic(auto)]

pub mod judged;
pub mod pair;

ghost use Rattle.std.specs.Prelude.{◌≡◌, false, is_some, ◌*◌, ◌/◌, ◌&&◌, ◌||◌, ℕ, ◌+◌, ◌-◌, ◌≤◌, ◌<◌, length, eqb, leb, ltb};
ghost use Rattle.value_table.specs.Value.{max_depth, max_length, array_kind, last_scalar};
ghost use Rattle.counting_theory.specs.declared.equivalence.Equivalence.{Equivalence};
ghost use Rattle.counting_theory.specs.WellFormed.{max_total, bad_type_length, well_formed, field_count};
ghost use Rattle.type_arena.specs.Inside.Layout.{LabelledBy};
ghost use Rattle.type_check.specs.Inside.Checker.{has_total, addends, fields, placed_record, field_record, scalar_fits, type_record, count_fits, fits, ordered, addend_right, check_run};

use crate::judged::Judged;
use counting_theory::equivalence::Equivalence;
use std::alloc::AllocError;
use std::cmp::Ordering;
use std::marker::PhantomData;
use type_arena::label_order::order_labels;
use type_arena::layout::Layout;
use type_arena::type_record::Full;
use type_arena::{layout, type_record};
use value_table::record;

// A field's count against its record's.
fn count_agrees(count: usize, of_record: usize, equivalence: Equivalence) -> bool
    ensures { result ≡ field_count equivalence count of_record }
{
    match equivalence {
        Equivalence::Kind => count <= of_record,
        Equivalence::Label => count == of_record,
    }
}

// Records of a type that go up to `end`, with `left` levels of depth left for the addends among them.
#[derive(Drop)]
struct Checker<'a, L: Judged> {
    b: &'a [u8],
    end: usize,
    left: usize,
    equivalence: Equivalence,
    records: PhantomData<L>,
    ghost within: { L.Records.SIZE * end ≤ length b.now },
    ghost short: { end ≤ max_length },
    ghost shallow: { left ≤ max_depth },
}

// By hand, since a derive would ask both of L.
impl<'a, L: Judged> Clone for Checker<'a, L> {
    fn clone(&self) -> Result<Checker<'a, L>, AllocError> {
        Ok(*self)
    }
}

impl<'a, L: Judged> Copy for Checker<'a, L> {}

impl<'a, L: Judged> Checker<'a, L> {
    fn kind(self, p: usize) -> u8
        requires { p < self.end }
        ensures { result ≡ L.reading.kind self.entry.b.now p }
    {
        layout::kind_at::<L::Records>(self.b, p)
    }

    fn key(self, p: usize) -> usize
        requires { p < self.end }
        ensures { result ≡ L.reading.key self.entry.b.now p }
    {
        layout::key_at::<L::Records>(self.b, p)
    }

    fn span(self, p: usize) -> usize
        requires { p < self.end }
        ensures { (result ≡ L.reading.span self.entry.b.now p) × (result < 4294967296) }
    {
        layout::span_at::<L::Records>(self.b, p)
    }

    fn count(self, p: usize) -> usize
        requires { p < self.end }
        ensures { result ≡ L.reading.count self.entry.b.now p }
    {
        layout::count_at::<L::Records>(self.b, p)
    }

    // What is asked of the payload of a record that is no array.
    fn no_lengths(self, p: usize) -> bool
        requires { p < self.end }
        ensures { result ≡ L.reading.no_lengths self.entry.b.now p }
    {
        L::no_lengths(self.b, p)
    }

    // Byte 1 is zero, and the record with its content ends by the end.
    fn placed(self, p: usize) -> bool
        requires { p < self.end }
        ensures { result ≡ placed_record L.reading self.entry.b.now p self.entry.end }
    {
        let span = self.span(p);
        layout::zero_at::<L::Records>(self.b, p) == 0 && 1 <= span && p + span <= self.end
    }

    fn kind_fits(self, p: usize) -> bool
        requires { p < self.end }
        ensures { result ≡ (leb 1 (L.reading.kind self.entry.b.now p) && leb (L.reading.kind self.entry.b.now p) array_kind) }
    {
        let kind = self.kind(p);
        (1..=record::ARRAY).contains(&kind)
    }

    // A scalar has span 1.
    fn scalar_fits(self, p: usize) -> bool
        requires { p < self.end }
        ensures { result ≡ scalar_fits L.reading self.entry.b.now p }
    {
        record::LAST_SCALAR < self.kind(p) || self.span(p) == 1
    }

    fn field_record(self, p: usize) -> bool
        requires { p < self.end }
        ensures { result ≡ (placed_record L.reading self.entry.b.now p self.entry.end && field_record L.reading self.entry.b.now p) }
    {
        self.placed(p)
            && self.kind(p) == type_record::FIELD
            && 1 <= self.key(p)
            && 2 <= self.span(p)
    }

    // The addend's count is at least 1 and keeps the union's total within the limit.
    fn count_fits(self, p: usize, total: usize) -> bool
        requires { (p < self.end) × (total ≤ max_total) }
        ensures { result ≡ count_fits L.reading self.entry.b.now p total }
    {
        let count = self.count(p);
        1 <= count && count <= type_record::MAX_TOTAL - total
    }

    // Whether the addend at x comes before the one at y, by class, or is that one itself.
    fn in_order(self, x: usize, y: usize) -> bool
        requires { LabelledBy L.Records.SIZE L.reading.kind L.reading.key L.reading.span self.b.now x ×
            LabelledBy L.Records.SIZE L.reading.kind L.reading.key L.reading.span self.b.now y }
        ensures { result ≡ ordered L.reading self.entry.equivalence self.entry.b.now x y }
    {
        x == y
            || order_labels::<L::Records>(self.b, x, self.b, y, self.equivalence) == Ordering::Less
    }

    // What stands inside record p, where so many levels are left for it.
    fn inside(self, p: usize, left: usize) -> Checker<'a, L>
        requires { (p < self.end) × (p + L.reading.span self.b.now p ≤ self.end) × (left ≤ max_depth) }
        ensures { (result.b.now ≡ self.entry.b.now) × (result.end ≡ p + L.reading.span self.entry.b.now p) × (result.left ≡ left) ×
            (result.equivalence ≡ self.entry.equivalence) }
    {
        Checker {
            b: self.b,
            end: p + self.span(p),
            left,
            equivalence: self.equivalence,
            records: PhantomData,
        }
    }

    // The record of the addend at p.
    fn addend_record(self, p: usize) -> bool
        requires { p < self.end }
        ensures { result ≡ type_record L.reading self.entry.b.now p self.entry.end false (max_depth + 1 - self.entry.left) }
    {
        self.placed(p)
            && self.kind_fits(p)
            && self.key(p) == 0
            && self.left != 0
            && self.scalar_fits(p)
    }

    // The record of the field at p, its key above the last one and its count against its record's.
    #[tactic(auto, unfolding(crate::specs::Inside::Checker::fits, crate::specs::Inside::Checker::type_record))]
    fn field_fits(self, p: usize, last: usize, of_record: usize) -> bool
        requires { p < self.end }
        ensures { (depth : ℕ) → result ≡ fits L.reading self.entry.equivalence self.entry.b.now p self.entry.end (fields depth of_record last) }
    {
        self.field_record(p)
            && last < self.key(p)
            && self.no_lengths(p)
            && count_agrees(self.count(p), of_record, self.equivalence)
    }

    // The union of the field at p where it is one scalar, as most are, and that its count is the field's.
    fn check_scalar(self, p: usize) -> bool
        requires { (self.end ≡ p + 2) × (L.reading.kind self.b.now (p + 1) ≤ last_scalar) }
        ensures { result ≡ has_total (L.reading.count self.entry.b.now p)
            (check_run L.reading self.entry.equivalence self.entry.b.now (p + 1) self.entry.end (addends (max_depth + 1 - self.entry.left) (p + 1) 0)) }
    {
        self.count_fits(p + 1, 0)
            && self.addend_record(p + 1)
            && self.no_lengths(p + 1)
            && self.count(p + 1) == self.count(p)
    }

    // The total of the union in the records from i on.
    #[cycle(check_addend_check_field_check_fields_check_union)]
    fn check_union(self, i: usize) -> Option<usize>
        requires { i ≤ self.end }
        ensures { result ≡ check_run L.reading self.entry.equivalence self.entry.b.now i self.entry.end (addends (max_depth + 1 - self.entry.left) i 0) }
    {
        let mut p = i;
        let mut last = i;
        let mut total = 0;
        while p < self.end {
            if !self.count_fits(p, total) || !self.check_addend(p) || !self.in_order(last, p) {
                return None;
            }
            total += self.count(p);
            last = p;
            p += self.span(p);
        }
        Some(total)
    }

    // The addend at p by itself: its record, and the union or the fields inside it.
    #[cycle(check_addend_check_field_check_fields_check_union)]
    fn check_addend(self, p: usize) -> bool
        requires { (p < self.end) × (1 ≤ L.reading.count self.b.now p) × (L.reading.count self.b.now p ≤ max_total) }
        ensures { result ≡ addend_right L.reading self.entry.equivalence self.entry.b.now p self.entry.end (max_depth + 1 - self.entry.left) }
    {
        if !self.addend_record(p) {
            return false;
        }
        match self.kind(p) {
            record::ARRAY => self
                .inside(p, self.left - 1)
                .check_union(p + 1)
                .is_some_and(|elements| L::lengths_fit(self.b, p, elements)),
            record::RECORD => {
                self.no_lengths(p) && self.inside(p, self.left).check_fields(p + 1, self.count(p))
            }
            _ => self.no_lengths(p),
        }
    }

    // The fields of a record with this count, in the records from i on.
    #[cycle(check_addend_check_field_check_fields_check_union)]
    fn check_fields(self, i: usize, of_record: usize) -> bool
        requires { (i ≤ self.end) × (1 ≤ self.left) }
        ensures { result ≡ is_some
            (check_run L.reading self.entry.equivalence self.entry.b.now i self.entry.end (fields (max_depth + 1 - self.entry.left) of_record 0)) }
    {
        let mut p = i;
        let mut last = 0;
        while p < self.end {
            if !self.field_fits(p, last, of_record) {
                return false;
            }
            let inside = self.inside(p, self.left - 1);
            if !inside.check_field(p) {
                return false;
            }
            last = self.key(p);
            p = inside.end;
        }
        true
    }

    // The union of the field at p, in the records behind it, and that its total is the field's count.
    #[cycle(check_addend_check_field_check_fields_check_union)]
    fn check_field(self, p: usize) -> bool
        requires { (p < self.end) × (self.left < max_depth) }
        ensures { result ≡ has_total (L.reading.count self.entry.b.now p)
            (check_run L.reading self.entry.equivalence self.entry.b.now (p + 1) self.entry.end (addends (max_depth + 1 - self.entry.left) (p + 1) 0)) }
    {
        if self.end == p + 2 && self.kind(p + 1) <= record::LAST_SCALAR {
            return self.check_scalar(p);
        }
        self.check_union(p + 1) == Some(self.count(p))
    }
}

// The total of the union in the records from i to `end`, with `left` levels of depth left for its addends.
pub fn check_union<L: Judged>(
    b: &[u8],
    i: usize,
    end: usize,
    left: usize,
    equivalence: Equivalence,
) -> Option<usize>
    requires { (i ≤ end) × (L.Records.SIZE * end ≤ length b.now) × (length b.now ≤ max_length) × (left ≤ max_depth) }
    ensures { result ≡ check_run L.reading equivalence b.now i end (addends (max_depth + 1 - left) i 0) }
{
    let checker: Checker<L> = Checker {
        b,
        end,
        left,
        equivalence,
        records: PhantomData,
    };
    checker.check_union(i)
}

// Whether the check of the records in the bytes, as one union, finds nothing wrong.
pub fn check_records<L: Judged>(bytes: &[u8], equivalence: Equivalence) -> bool
    requires { length bytes.now ≤ max_length }
    ensures { result ≡ is_some (check_run L.reading equivalence bytes.now 0 (length bytes.now / L.Records.SIZE) (addends 1 0 0)) }
{
    let end = bytes.len() / L::Records::SIZE;
    check_union::<L>(bytes, 0, end, record::MAX_DEPTH, equivalence).is_some()
}

// Whether the bytes of an allowed length are a well-formed type.
pub fn well_formed(bytes: &[u8], equivalence: Equivalence) -> bool
    requires { bad_type_length (length bytes.now) ≡ false }
    ensures { result ≡ well_formed equivalence bytes.now }
{
    check_records::<Full>(bytes, equivalence)
}
