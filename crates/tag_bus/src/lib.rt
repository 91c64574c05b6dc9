// Tag-bus inference: types of messages whose keys are 1 to 64, with their key sets as words.
#![tactic(auto)]

mod entries;

ghost use Rattle.std.specs.Prelude.{◌≡◌, ◌||◌, ◌≤◌, length};
ghost use Rattle.value_table.specs.Value.{max_length, KeysUpTo};
ghost use Rattle.value_table.specs.Judged.{messages};
ghost use Rattle.counting_theory.specs.declared.equivalence.Equivalence.TheVariants.{Label as by_label};
ghost use Rattle.counting_theory.specs.Raw.{profile_of};
ghost use Rattle.counting_theory.specs.Answers.{bad_buffers};
ghost use Rattle.key_word.specs.Word.{word_bits};
ghost use Rattle.inference.specs.Inside.Inferring.{AcceptedTable};
ghost use Rattle.tag_bus.specs.TagBus.{bad_entries_length, stored_with_entries, inferred_tag_bus, left_with_entries, leaves_tag_bus};
ghost use Rattle.tag_bus.specs.Inside.Front.{FilledInFront};

use answers::Refusal;
use byte_records::clearing::clear_from;
use counting_theory::equivalence::Equivalence;
use counting_type::bad_buffers;
use entries::{ENTRY_SIZE, put_entries};
use gathering::add_messages;
use key_word::WORD_BITS;
use type_arena::type_record;
use value_table::{judge_up_to, record};

// How many records the type has, and how many bytes the entries.
#[derive(Clone, Copy, Debug, PartialEq, Eq)]
struct Filled {
    records: usize,
    entries: usize,
}

// What a refused call leaves in the fronts.
const NOTHING: Filled = Filled {
    records: 0,
    entries: 0,
};

// Whether the length of a table, of an arena or its working buffer, or of the entries is wrong.
#[tactic(auto, unfolding(crate::specs::TagBus::bad_entries_length))]
fn bad_lengths(table: usize, arena: usize, work: usize, entries: usize) -> bool
    ensures { result ≡ (bad_buffers table arena work || bad_entries_length entries) }
{
    bad_buffers(table, arena, work) || entries % ENTRY_SIZE != 0 || record::MAX_LENGTH < entries
}

// The type and the entries of a table's messages, in the fronts of the arena and of the entries.
fn infer_front(
    table: &[u8],
    arena: &mut [u8],
    work: &mut [u8],
    entries: &mut [u8],
) -> Result<Filled, Refusal>
    ensures { FilledInFront
        (inferred_tag_bus table.now (length arena.old) (length work.old) (length entries.old)) result
        arena.new entries.new }
{
    if bad_lengths(table.len(), arena.len(), work.len(), entries.len()) {
        return Err(Refusal::Length);
    }
    judge_up_to(table, WORD_BITS)?;
    let records = add_messages(arena, table, Equivalence::Label, true, work)?;
    let bytes = put_entries(arena, records, entries)?;
    Ok(Filled {
        records,
        entries: bytes,
    })
}

// Call 8: infers the type of a table's messages under label, with keys 1 to 64, into the arena, with a working buffer of the same length,
// and writes an entry for each addend of kind 5.
pub fn infer_tag_bus(
    table: &[u8],
    arena: &mut [u8],
    work: &mut [u8],
    entries: &mut [u8],
) -> Result<usize, Refusal>
    ensures { left_with_entries result arena.new work.new entries.new
        ≡ leaves_tag_bus (inferred_tag_bus table.now (length arena.old) (length work.old) (length entries.old))
        arena.old work.old entries.old }
{
    let filled = infer_front(table, arena, work, entries);
    let front = filled.unwrap_or(NOTHING);
    clear_from(arena, type_record::SIZE * front.records);
    work.fill(0);
    clear_from(entries, front.entries);
    Ok(filled?.records)
}
