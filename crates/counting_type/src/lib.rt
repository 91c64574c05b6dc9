// The upper library: infers, judges and merges counting types.
#![tactic(auto)]

ghost use Rattle.std.specs.Prelude.{◌≡◌, [], ◌≤◌, length};
ghost use Rattle.value_table.specs.Value.{max_length};
ghost use Rattle.value_table.specs.Judged.{messages};
ghost use Rattle.counting_theory.specs.Trie.{reduce};
ghost use Rattle.counting_theory.specs.Label.{Counting};
ghost use Rattle.counting_theory.specs.Raw.{profile_of};
ghost use Rattle.counting_theory.specs.Encoding.{type_of};
ghost use Rattle.counting_theory.specs.WellFormed.{IsType};
ghost use Rattle.counting_theory.specs.Answers.{judged_type, leaves, stored, bad_buffers, inferred, inferred_default, merged, merged_types};
ghost use Rattle.answers.specs.Outcomes.{outcome_of, left_by};
ghost use Rattle.answers.specs.Inside.Front.{WrittenInFront};

use answers::Refusal;
use byte_records::clearing::clear_from;
use counting_theory::equivalence::Equivalence;
use gathering::add_messages;
use merging::merge_types;
use type_arena::type_record;
use type_arena::type_record::bad_length;
use type_check::pair::judge_pair;
use type_check::well_formed;
use value_table::{judge, record};

// The equivalence of call 3.
const HOUSE_DEFAULT: Equivalence = Equivalence::Label;

// Whether the length of a table, of an arena or of its working buffer is wrong.
pub fn bad_buffers(table: usize, arena: usize, work: usize) -> bool
    ensures { result ≡ bad_buffers table arena work }
{
    record::bad_length(table) || bad_length(arena) || work != arena
}

// The type of a table's messages, in the front of the arena, and how many records it has; behind them the arena and the working buffer
// may hold anything.
fn infer_front(
    table: &[u8],
    equivalence: u64,
    arena: &mut [u8],
    work: &mut [u8],
) -> Result<usize, Refusal>
    ensures { WrittenInFront (inferred table.now equivalence (length arena.old) (length work.old)) result
        arena.new }
{
    if bad_buffers(table.len(), arena.len(), work.len()) {
        return Err(Refusal::Length);
    }
    let equivalence = Equivalence::try_from(equivalence)?;
    judge(table)?;
    Ok(add_messages(arena, table, equivalence, false, work)?)
}

// Call 2: infers the type of a table's messages under an equivalence into the arena, with a working buffer of the same length.
pub fn infer(
    table: &[u8],
    equivalence: u64,
    arena: &mut [u8],
    work: &mut [u8],
) -> Result<usize, Refusal>
    ensures { left_by result arena.new work.new
        ≡ leaves (inferred table.now equivalence (length arena.old) (length work.old)) arena.old
        work.old }
{
    let answered = infer_front(table, equivalence, arena, work);
    clear_from(arena, type_record::SIZE * answered.unwrap_or(0));
    work.fill(0);
    answered
}

// Call 3: the same under the house default.
pub fn infer_default(table: &[u8], arena: &mut [u8], work: &mut [u8]) -> Result<usize, Refusal>
    ensures { left_by result arena.new work.new
        ≡ leaves (inferred_default table.now (length arena.old) (length work.old)) arena.old work.old }
{
    infer(table, HOUSE_DEFAULT as u64, arena, work)
}

// Call 4: judges a type under an equivalence, 0 for kind and 1 for label.
pub fn judge_type(bytes: &[u8], equivalence: u64) -> Result<usize, Refusal>
    ensures { outcome_of result ≡ judged_type bytes.now equivalence }
{
    if bad_length(bytes.len()) {
        return Err(Refusal::Length);
    }
    if !well_formed(bytes, Equivalence::try_from(equivalence)?) {
        return Err(Refusal::First);
    }
    Ok(bytes.len() / type_record::SIZE)
}

// The merge of two well-formed types, in the front of the arena.
fn merge_checked(
    first: &[u8],
    second: &[u8],
    equivalence: Equivalence,
    arena: &mut [u8],
) -> Result<usize, Refusal>
    requires fact { IsType equivalence first.now (type_of equivalence first.now) }
    requires fact_2 { IsType equivalence second.now (type_of equivalence second.now) }
    ensures { WrittenInFront
        (merged_types (reduce Counting (type_of equivalence first.now) (type_of equivalence second.now))
        (length arena.old)) result arena.new }
{
    let merged = merge_types(first, second, equivalence, arena);
    if merged.over {
        return Err(Refusal::Total);
    }
    if arena.len() < merged.bytes {
        return Err(Refusal::Room);
    }
    Ok(merged.bytes / type_record::SIZE)
}

// The same for any inputs.
fn merge_front(
    first: &[u8],
    second: &[u8],
    equivalence: u64,
    arena: &mut [u8],
) -> Result<usize, Refusal>
    ensures { WrittenInFront (merged first.now second.now equivalence (length arena.old)) result arena.new }
{
    let equivalence = judge_pair(first, second, equivalence, arena.len())?;
    merge_checked(first, second, equivalence, arena)
}

// Call 5: merges a first and a second type under an equivalence into the arena. Both may be the same bytes.
pub fn merge(
    first: &[u8],
    second: &[u8],
    equivalence: u64,
    arena: &mut [u8],
) -> Result<usize, Refusal>
    ensures { left_by result arena.new []
        ≡ leaves (merged first.now second.now equivalence (length arena.old)) arena.old [] }
{
    let answered = merge_front(first, second, equivalence, arena);
    clear_from(arena, type_record::SIZE * answered.unwrap_or(0));
    answered
}
