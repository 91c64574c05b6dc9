// The order of labels, and of the key lists that records have.
ghost use Rattle.std.specs.Prelude.{◌≡◌};
ghost use Rattle.counting_theory.specs.Label.{compare_keys, compare_label};
ghost use Rattle.type_arena.specs.Inside.Arena.{label_at, Labelled};
ghost use Rattle.type_arena.specs.Inside.Layout.{keys_inside, label_by, FieldsBy, LabelledBy};
ghost use Rattle.type_arena.specs.Inside.LabelOrder.{ordering_of};

use crate::layout::{Layout, key_at, kind_at, span_at};
use crate::type_record::Full;
use counting_theory::equivalence::Equivalence;
use std::cmp::Ordering;
use value_table::record;

// How the key list of record x of b stands to that of record y of c: by their lengths, then by the first key that differs. Where one ends,
// what is left of both tells their lengths apart.
fn compare_keys<L: Layout>(b: &[u8], x: usize, c: &[u8], y: usize) -> Ordering
    requires { FieldsBy L.SIZE L.key L.span b.now x × FieldsBy L.SIZE L.key L.span c.now y }
    ensures { ordering_of result ≡ compare_keys (keys_inside L.key L.span b.now x) (keys_inside L.key L.span c.now y) }
{
    let x_end = x + span_at::<L>(b, x);
    let y_end = y + span_at::<L>(c, y);
    let mut i = x + 1;
    let mut j = y + 1;
    let mut so_far = Ordering::Equal;
    loop {
        if i == x_end || j == y_end {
            break (x_end - i).cmp(&(y_end - j)).then(so_far);
        }
        if so_far.is_eq() {
            so_far = key_at::<L>(b, i).cmp(&key_at::<L>(c, j));
        }
        i += span_at::<L>(b, i);
        j += span_at::<L>(c, j);
    }
}

// How the label of record x of b stands to that of record y of c: by kind, then by key, then, for records under label, by key list. The tests
// come first, since they cost less than orders.
pub fn order_labels<L: Layout>(
    b: &[u8],
    x: usize,
    c: &[u8],
    y: usize,
    equivalence: Equivalence,
) -> Ordering
    requires { LabelledBy L.SIZE L.kind L.key L.span b.now x × LabelledBy L.SIZE L.kind L.key L.span c.now y }
    ensures { ordering_of result
        ≡ compare_label (label_by L.kind L.key L.span equivalence b.now x) (label_by L.kind L.key L.span equivalence c.now y) }
{
    let kind = kind_at::<L>(b, x);
    let other_kind = kind_at::<L>(c, y);
    if kind != other_kind {
        return kind.cmp(&other_kind);
    }
    let key = key_at::<L>(b, x);
    let other_key = key_at::<L>(c, y);
    if key != other_key {
        return key.cmp(&other_key);
    }
    if equivalence == Equivalence::Kind || kind != record::RECORD {
        return Ordering::Equal;
    }
    compare_keys::<L>(b, x, c, y)
}

// The same for the records of types.
#[tactic(auto, unfolding(crate::specs::Inside::Arena::label_at, crate::specs::Inside::Layout::label_by))]
pub fn compare_labels(b: &[u8], x: usize, c: &[u8], y: usize, equivalence: Equivalence) -> Ordering
    requires { Labelled b.now x × Labelled c.now y }
    ensures { ordering_of result ≡ compare_label (label_at equivalence b.now x) (label_at equivalence c.now y) }
{
    order_labels::<Full>(b, x, c, y, equivalence)
}
