// The C interface, as bindings/ct.h declares it.
#![tactic(auto)]

ghost use Rattle.std.specs.Prelude.{◌≡◌, [], length};
ghost use Rattle.value_table.specs.Outcome.{outcome_of_answer};
ghost use Rattle.value_table.specs.Judged.{judged};
ghost use Rattle.counting_theory.specs.Answers.{judged_type, leaves, inferred, inferred_default, merged};
ghost use Rattle.folding.specs.Folded.{folded};
ghost use Rattle.json_theory.specs.Reader.{read};
ghost use Rattle.removal.specs.Removed.{removed};
ghost use Rattle.tag_bus.specs.TagBus.{inferred_tag_bus, leaves_tag_bus};
ghost use Rattle.ct.specs.Left.{answer_left, answer_left_with_entries, answer_read};

use text_reader::call::read_text;
use value_table::{Answer, answer_of};

// Call 1: judges a table.
#[unsafe(no_mangle)]
pub extern "C" fn ct_judge_table(table: &[u8]) -> Answer
    ensures { outcome_of_answer result ≡ judged table.now }
{
    answer_of(value_table::judge(table))
}

// Call 2: infers the type of a table's messages under an equivalence into the arena.
#[unsafe(no_mangle)]
pub extern "C" fn ct_infer(
    table: &[u8],
    equivalence: u64,
    arena: &mut [u8],
    work: &mut [u8],
) -> Answer
    ensures { answer_left result arena.new work.new
        ≡ leaves (inferred table.now equivalence (length arena.old) (length work.old)) arena.old
        work.old }
{
    answer_of(counting_type::infer(table, equivalence, arena, work))
}

// Call 3: infers under the house default.
#[unsafe(no_mangle)]
pub extern "C" fn ct_infer_default(table: &[u8], arena: &mut [u8], work: &mut [u8]) -> Answer
    ensures { answer_left result arena.new work.new
        ≡ leaves (inferred_default table.now (length arena.old) (length work.old)) arena.old work.old }
{
    answer_of(counting_type::infer_default(table, arena, work))
}

// Call 4: judges a type under an equivalence.
#[unsafe(no_mangle)]
pub extern "C" fn ct_judge_type(bytes: &[u8], equivalence: u64) -> Answer
    ensures { outcome_of_answer result ≡ judged_type bytes.now equivalence }
{
    answer_of(counting_type::judge_type(bytes, equivalence))
}

// Call 5: merges a first and a second type under an equivalence into the arena.
#[unsafe(no_mangle)]
pub extern "C" fn ct_merge(
    first: &[u8],
    second: &[u8],
    equivalence: u64,
    arena: &mut [u8],
) -> Answer
    ensures { answer_left result arena.new []
        ≡ leaves (merged first.now second.now equivalence (length arena.old)) arena.old [] }
{
    answer_of(counting_type::merge(first, second, equivalence, arena))
}

// Call 6: reads a text into the table, with the keys of a book.
#[unsafe(no_mangle)]
pub extern "C" fn ct_read_text(text: &[u8], book: &[u8], table: &mut [u8]) -> Answer
    ensures { answer_read result table.new ≡ read text.now book.now (length table.old) }
{
    answer_of(read_text(text, book, table))
}

// Call 7: takes a part out of a whole type under an equivalence, into the arena.
#[unsafe(no_mangle)]
pub extern "C" fn ct_remove(whole: &[u8], part: &[u8], equivalence: u64, arena: &mut [u8]) -> Answer
    ensures { answer_left result arena.new []
        ≡ leaves (removed whole.now part.now equivalence (length arena.old)) arena.old [] }
{
    answer_of(removal::remove(whole, part, equivalence, arena))
}

// Call 8: infers the type of a table's messages under label, with keys 1 to 64, into the arena, and writes the key sets of its records into
// the entries.
#[unsafe(no_mangle)]
pub extern "C" fn ct_infer_tag_bus(
    table: &[u8],
    arena: &mut [u8],
    work: &mut [u8],
    entries: &mut [u8],
) -> Answer
    ensures { answer_left_with_entries result arena.new work.new entries.new
        ≡ leaves_tag_bus (inferred_tag_bus table.now (length arena.old) (length work.old) (length entries.old))
        arena.old work.old entries.old }
{
    answer_of(tag_bus::infer_tag_bus(table, arena, work, entries))
}

// Call 9: folds a type under label into the arena, as the type under kind.
#[unsafe(no_mangle)]
pub extern "C" fn ct_fold(bytes: &[u8], arena: &mut [u8], work: &mut [u8]) -> Answer
    ensures { answer_left result arena.new work.new
        ≡ leaves (folded bytes.now (length arena.old) (length work.old)) arena.old work.old }
{
    answer_of(folding::fold(bytes, arena, work))
}
