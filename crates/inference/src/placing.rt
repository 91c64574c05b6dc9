// Adds a payload at a label among siblings in an arena: to that of its record, or in a new one.
ghost use Rattle.std.specs.Prelude.{Bool, List, ℕ, ◌+◌, ◌*◌, ◌≤◌, eqb, length};
ghost use Rattle.value_table.specs.Value.{record_kind, Values};
ghost use Rattle.counting_theory.specs.Trie.{size};
ghost use Rattle.counting_theory.specs.Label.{CountingType};
ghost use Rattle.type_arena.specs.Inside.Payload.{payload_of, item_payload};
ghost use Rattle.inference.specs.Inside.Inferring.{keys_per_record, TableRun, SomeRun, KeysFit, label_of_wanted, ArenaHolds, Starts, HeldFrom, split, CountedWithin, PlacedAt, label_for, with_item, OfHeld, KeyRoom};

use crate::elements::elements_in;
use crate::finding::find;
use crate::key_list::{KEY_SIZE, list_label};
use crate::wanted::Wanted;
use counting_theory::equivalence::Equivalence;
use type_arena::payload::Payload;
use type_arena::record_store::{NoRoom, insert_record, join_payload};
use type_arena::type_record;

// The record where a label stands now, and the number of records of its siblings.
#[derive(Clone, Copy, Debug, PartialEq, Eq)]
pub struct Put {
    pub at: usize,
    pub records: usize,
}

// Adds a payload at a label among n records of siblings, with `rest` records in use behind them.
pub fn place(
    a: &mut [u8],
    from: usize,
    n: usize,
    rest: usize,
    wanted: &Wanted<'_>,
    more: Payload,
) -> Result<Put, NoRoom>
    requires { HeldFrom wanted.now.equivalence a.old n rest from }
    ensures { OfHeld wanted.now.equivalence a.old n rest from (λ f q.
        PlacedAt (label_of_wanted wanted.now) (payload_of more) f q rest result a.new) }
{
    match find(a, from, n, wanted) {
        Ok(p) => {
            join_payload(a, p, more);
            Ok(Put { at: p, records: n })
        }
        Err(p) => {
            let used = type_record::SIZE * (n + rest);
            if a.len() - used < type_record::SIZE {
                return Err(NoRoom);
            }
            let o = type_record::SIZE * p;
            insert_record(&mut a[o..], used - o, wanted.kind, wanted.key, more);
            Ok(Put {
                at: p,
                records: n + 1,
            })
        }
    }
}

// An item that is to be added `weight` times, and the run below it.
#[derive(Clone, Copy)]
pub struct WeightedItem<'a> {
    pub kind: u8,
    pub key: usize,
    pub weight: usize,
    pub below: &'a [u8],
}

// Adds what an item gives at its label.
pub fn locate(
    a: &mut [u8],
    from: usize,
    n: usize,
    rest: usize,
    item: &WeightedItem<'_>,
    equivalence: Equivalence,
    words: bool,
    work: &mut [u8],
) -> Result<Put, NoRoom>
    requires { HeldFrom equivalence a.old n rest from × SomeRun (eqb item.now.kind record_kind) item.now.below.now ×
        KeyRoom a.old work.old × (1 ≤ item.now.weight) × KeysFit words item.now.below.now }
    ensures { OfHeld equivalence a.old n rest from (λ f q. (vs : Values) → TableRun (eqb item.now.kind record_kind) item.now.below.now vs →
        CountedWithin (size (with_item equivalence item.now.kind item.now.key item.now.weight vs f) + rest)
        (split (label_for equivalence item.now.kind item.now.key vs) f) (label_for equivalence item.now.kind item.now.key vs)
        (item_payload item.now.weight item.now.kind vs) q result a.new) }
{
    let keys = list_label(item.below, item.kind, equivalence, words, work)?;
    let wanted = Wanted {
        kind: item.kind,
        key: item.key,
        keys: &work[..KEY_SIZE * keys],
        equivalence,
    };
    let elements = elements_in(item.below, item.kind);
    let more = Payload::given(item.kind, item.weight, elements);
    place(a, from, n, rest, &wanted, more)
}
