// Inference of a whole table. Equal messages are gathered first and then added at once, since a log repeats few shapes.
#![tactic(auto)]

mod slots;

ghost use Rattle.std.specs.Prelude.{◌≡◌, true, false, ◌↔◌, List, [], ℕ, ◌+◌, ◌*◌, ◌/◌, ◌≤◌, ◌<◌, length, replicate};
ghost use Rattle.value_table.specs.Value.{max_length, record_size, records, span_at};
ghost use Rattle.value_table.specs.Judged.{messages};
ghost use Rattle.counting_theory.specs.Trie.{add};
ghost use Rattle.counting_theory.specs.Label.{Counting, CountingType};
ghost use Rattle.counting_theory.specs.Raw.{profile_of};
ghost use Rattle.counting_theory.specs.Encoding.{type_size};
ghost use Rattle.inference.specs.Inside.Inferring.{keys_per_record, AcceptedTable, KeysFit, ArenaHolds, HeldRun, Added};
ghost use Rattle.gathering.specs.Inside.Gathering.{slot_size, slots_of, message_raw, SameMessage, Waits, Roomy, Gathering, GatheredTo};

use counting_theory::equivalence::Equivalence;
use inference::inferring::add_run;
use inference::repeats::equal_records;
use slots::{SLOT_SIZE, Waiting, put_slot, read_slot};
use type_arena::record_store::NoRoom;
use type_arena::type_record;
use value_table::record;
use value_table::record::{front_at, span_at};

// How many records of a message are hashed.
const HASHED: usize = 12;

// What a hash is multiplied by before the next record is added: more than there are kinds, so that different kinds give different sums.
const BASE: usize = 9;

// What a hash stays below.
const HASHES: usize = 4294967296;

// 2^32 by the golden ratio, which scatters neighbouring keys.
const SCATTER: usize = 2654435769;

// Whether the messages at records j and i have the same bytes.
fn same_message(t: &[u8], j: usize, i: usize) -> bool
    requires { (j ≤ i) × (1 ≤ span_at t.now i) × (record_size * (i + span_at t.now i) ≤ length t.now) × (length t.now ≤ max_length) }
    ensures { (result ≡ true) ↔ SameMessage t.now j i }
{
    let span = span_at(t, i);
    span_at(t, j) == span && span <= equal_records(t, j, i, i + span)
}

// The slot of a message, from the kinds and keys of records i to end.
fn slot_of(t: &[u8], i: usize, end: usize, slots: usize) -> usize
    requires { (record_size * end ≤ length t.now) × (length t.now ≤ max_length) × (0 < slots) × (slots ≤ 4096) }
    ensures { result < slots }
{
    let mut hash = 0;
    for j in i..end {
        hash = (hash * BASE + front_at(t, j)) % HASHES;
    }
    hash * SCATTER / 65536 % 65536 * slots / 65536
}

// A table whose messages are added, and how: under an equivalence, with key lists from words where `words` says so.
#[derive(Clone, Copy)]
struct Source<'a> {
    table: &'a [u8],
    equivalence: Equivalence,
    words: bool,
}

impl Source<'_> {
    // Adds what waits in a slot to m records of messages' types.
    fn add_waiting(
        &self,
        a: &mut [u8],
        m: usize,
        waiting: Waiting,
        keys: &mut [u8],
    ) -> Result<usize, NoRoom>
        requires { HeldRun self.now.equivalence false a.old m 0 × Waits self.now.table.now (records self.now.table.now) waiting.first waiting.count ×
            (length self.now.table.now ≤ max_length) × (length a.old ≤ keys_per_record * length keys.old) × KeysFit self.now.words self.now.table.now }
        ensures { (f : CountingType) (free : List ℕ) → ArenaHolds self.now.equivalence false a.old m 0 f [] free →
            Added (add Counting (message_raw self.now.equivalence self.now.table.now waiting.first waiting.count) f) [] 0 result a.new }
    {
        if waiting.count == 0 {
            return Ok(m);
        }
        let from = record::SIZE * waiting.first;
        let stop = record::SIZE * (waiting.first + span_at(self.table, waiting.first));
        add_run(
            a,
            m,
            0,
            waiting.count,
            &self.table[from..stop],
            false,
            self.equivalence,
            self.words,
            keys,
        )
    }

    // Takes the message at record i into its slot. Other messages that waited there are added.
    fn take_message(
        &self,
        a: &mut [u8],
        m: usize,
        i: usize,
        slots: &mut [u8],
        keys: &mut [u8],
    ) -> Result<usize, NoRoom>
        requires { Gathering self.now.equivalence self.now.table.now a.old m i (slots_of slots.old) × (record_size * i < length self.now.table.now) ×
            (length self.now.table.now ≤ max_length) × Roomy a.old slots.old keys.old × KeysFit self.now.words self.now.table.now }
        ensures { GatheredTo self.now.equivalence self.now.table.now (i + span_at self.now.table.now i) result a.new (slots_of slots.new) }
    {
        let end = i + span_at(self.table, i).min(HASHED);
        let k = slot_of(self.table, i, end, slots.len() / SLOT_SIZE);
        let waiting = read_slot(slots, k);
        if same_message(self.table, waiting.first, i) {
            let more = Waiting {
                count: waiting.count + 1,
                ..waiting
            };
            put_slot(slots, k, more);
            return Ok(m);
        }
        put_slot(slots, k, Waiting { first: i, count: 1 });
        self.add_waiting(a, m, waiting, keys)
    }

    // Takes all messages of the table into slots.
    fn gather(&self, a: &mut [u8], slots: &mut [u8], keys: &mut [u8]) -> Result<usize, NoRoom>
        requires { AcceptedTable self.now.table.now × (length a.old ≤ max_length) × Roomy a.old slots.old keys.old ×
            (slots_of slots.old ≡ replicate (length slots.old / slot_size) 0) × KeysFit self.now.words self.now.table.now }
        ensures { GatheredTo self.now.equivalence self.now.table.now (records self.now.table.now) result a.new (slots_of slots.new) }
    {
        let end = self.table.len() / record::SIZE;
        let mut m = 0;
        let mut i = 0;
        while i < end {
            m = self.take_message(a, m, i, slots, keys)?;
            i += span_at(self.table, i);
        }
        Ok(m)
    }

    // Adds what waits in all slots.
    fn settle(&self, a: &mut [u8], m: usize, slots: &[u8], keys: &mut [u8]) -> Result<usize, NoRoom>
        requires { AcceptedTable self.now.table.now × Gathering self.now.equivalence self.now.table.now a.old m (records self.now.table.now) (slots_of slots.now) ×
            Roomy a.old slots.now keys.old × KeysFit self.now.words self.now.table.now }
        ensures { Added (profile_of self.now.equivalence (messages self.now.table.now)) [] 0 result a.new }
    {
        let mut n = m;
        for k in 0..slots.len() / SLOT_SIZE {
            n = self.add_waiting(a, n, read_slot(slots, k), keys)?;
        }
        Ok(n)
    }
}

// How many slots there are: as many as an arena of this length has records, but no more than the table has.
fn slots_for(arena: usize, table: usize) -> usize
    ensures { type_size * result ≤ arena }
{
    (table / record::SIZE).min(arena / type_record::SIZE)
}

// Adds the messages of an accepted table to an empty arena. Without slots they are added one by one. Key lists come from words where
// `words` says so. The upper half of the working buffer is for the slots, the rest for key lists.
// The contract leaves free what a full arena, the bytes behind the type and the working buffer hold: `infer` clears them.
pub fn add_messages(
    a: &mut [u8],
    t: &[u8],
    equivalence: Equivalence,
    words: bool,
    work: &mut [u8],
) -> Result<usize, NoRoom>
    requires { AcceptedTable t.now × (length a.old ≤ max_length) × (length a.old ≤ length work.old) × KeysFit words t.now }
    ensures { Added (profile_of equivalence (messages t.now)) [] 0 result a.new }
{
    let number = slots_for(a.len(), t.len());
    if number == 0 {
        return add_run(a, 0, 0, 1, t, false, equivalence, words, work);
    }
    let (keys, rest) = work.split_at_mut(work.len().div_ceil(2));
    let slots = &mut rest[..SLOT_SIZE * number];
    slots.fill(0);
    let source = Source {
        table: t,
        equivalence,
        words,
    };
    let m = source.gather(a, slots, keys)?;
    source.settle(a, m, slots, keys)
}
