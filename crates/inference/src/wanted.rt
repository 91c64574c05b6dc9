// The label that is looked for among siblings in an arena, beside the labels of records that stand there.
ghost use Rattle.std.specs.Prelude.{◌≡◌, true, ◌+◌, ◌*◌, ◌≤◌, length};
ghost use Prim.Native.Nat.Ordering.{eq};
ghost use Rattle.counting_theory.specs.Label.{compare_label};
ghost use Rattle.counting_theory.specs.Encoding.{type_size};
ghost use Rattle.type_arena.specs.Inside.Arena.{label_at, HasRecord, Labelled};
ghost use Rattle.type_arena.specs.Inside.LabelOrder.{ordering_of};
ghost use Rattle.inference.specs.Inside.Inferring.{HeadTells, label_of_wanted};

use crate::key_list::KEY_SIZE;
use byte_records::little_endian::number;
use counting_theory::equivalence::Equivalence;
use std::cmp::Ordering;
use std::ops::ControlFlow;
use type_arena::type_record::{key_at, kind_at, span_at};
use value_table::record;

// A label under an equivalence: a kind, a key and an ascending key list, which only records have and only under label.
#[derive(Clone, Copy)]
pub struct Wanted<'a> {
    pub kind: u8,
    pub key: usize,
    pub keys: &'a [u8],
    pub equivalence: Equivalence,
}

impl Wanted<'_> {
    // What kind and key tell of the order of this label and that of the record at p, by kind, then by key: the order; or that key lists
    // settle it, and where that of the record ends. The tests come first, since they cost less than orders.
    fn compare_head(&self, b: &[u8], p: usize) -> ControlFlow<Ordering, usize>
        requires { HasRecord b.now p }
        ensures { HeadTells self.now.equivalence self.now.kind self.now.key b.now p result }
    {
        let kind = kind_at(b, p);
        if self.kind != kind {
            return ControlFlow::Break(self.kind.cmp(&kind));
        }
        let key = key_at(b, p);
        if self.key != key {
            return ControlFlow::Break(self.key.cmp(&key));
        }
        if self.equivalence == Equivalence::Kind || kind != record::RECORD {
            return ControlFlow::Break(Ordering::Equal);
        }
        ControlFlow::Continue(p + span_at(b, p))
    }

    // This label against that of the record at p. Key lists go by their lengths, which what is left of both tells apart where one ends,
    // then by the first key that differs.
    pub fn compare(&self, b: &[u8], p: usize) -> Ordering
        requires { Labelled b.now p }
        ensures { ordering_of result ≡ compare_label (label_of_wanted self.now) (label_at self.now.equivalence b.now p) }
    {
        let end = match self.compare_head(b, p) {
            ControlFlow::Break(order) => return order,
            ControlFlow::Continue(end) => end,
        };
        let keys = self.keys.len() / KEY_SIZE;
        let mut i = 0;
        let mut j = p + 1;
        let mut so_far = Ordering::Equal;
        while i < keys && j < end {
            if so_far.is_eq() {
                so_far = number::<2>(self.keys, KEY_SIZE * i).cmp(&key_at(b, j));
            }
            i += 1;
            j += span_at(b, j);
        }
        let left = keys - i;
        let other = end - j;
        if left == other {
            so_far
        } else {
            left.cmp(&other)
        }
    }

    // Whether this label, which has a key list, is that of the record at p.
    pub fn is_at(&self, b: &[u8], p: usize) -> bool
        requires { Labelled b.now p }
        ensures { result ≡ true → compare_label (label_of_wanted self.now) (label_at self.now.equivalence b.now p) ≡ eq }
    {
        let ControlFlow::Continue(end) = self.compare_head(b, p) else {
            return false;
        };
        let mut j = p + 1;
        for i in 0..self.keys.len() / KEY_SIZE {
            if j == end || number::<2>(self.keys, KEY_SIZE * i) != key_at(b, j) {
                return false;
            }
            j += span_at(b, j);
        }
        j == end
    }
}
