// The entries of a type: for each addend of kind 5 its key set as a word, and the number of its fields.
ghost use Rattle.std.specs.Prelude.{◌≡◌, ◌+◌, ◌≤◌, length};
ghost use Rattle.std.proofs.lemmas.List.Edits.{sets};
ghost use Rattle.type_arena.specs.Inside.Arena.{keys_in};
ghost use Rattle.key_word.specs.Word.{word};
ghost use Rattle.tag_bus.specs.Entries.{entry_size, entry_of};
ghost use Rattle.tag_bus.specs.Inside.Flat.{entries_from, WordRecord, WordRecords, EntriesPut};

use byte_records::store::store_number;
use key_word::{number_of_keys, with_key};
use type_arena::record_store::NoRoom;
use type_arena::type_record::{key_at, kind_at, span_at};
use value_table::record;

// The bytes of an entry, and where its number of fields stands.
pub const ENTRY_SIZE: usize = 16;

const NUMBER_OFFSET: usize = 8;

// The keys of the fields inside record i as a word.
fn word_at(arena: &[u8], i: usize) -> u64
    requires { WordRecord arena.now i }
    ensures { result ≡ word (keys_in arena.now i) }
{
    let end = i + span_at(arena, i);
    let mut w: u64 = 0;
    let mut j = i + 1;
    while j < end {
        w = with_key(w, key_at(arena, j));
        j += span_at(arena, j);
    }
    w
}

// Stores the entry of a word.
fn put_entry(entries: &mut [u8], at: usize, w: u64)
    requires { at + entry_size ≤ length entries.old }
    ensures { entries.new ≡ sets entries.old at (entry_of w) }
{
    store_number::<8>(entries, at, w as usize);
    store_number::<8>(entries, at + NUMBER_OFFSET, number_of_keys(w));
}

// Stores the entries of the first n records, as long as there is room, and answers their bytes.
pub fn put_entries(arena: &[u8], n: usize, entries: &mut [u8]) -> Result<usize, NoRoom>
    requires { WordRecords arena.now n }
    ensures { EntriesPut (entries_from arena.now n 0) entries.old result entries.new }
{
    let mut at = 0;
    for i in 0..n {
        if kind_at(arena, i) == record::RECORD {
            if entries.len() - at < ENTRY_SIZE {
                return Err(NoRoom);
            }
            put_entry(entries, at, word_at(arena, i));
            at += ENTRY_SIZE;
        }
    }
    Ok(at)
}
