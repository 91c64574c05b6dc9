// Removal: takes a part out of a whole type.
#![tactic(auto)]

mod pass;

ghost use Rattle.std.specs.Prelude.{◌≡◌, [], length};
ghost use Rattle.removal_theory.specs.Encoding.{type_of};
ghost use Rattle.removal_theory.specs.WellFormed.{IsType};
ghost use Rattle.counting_theory.specs.Answers.{leaves};
ghost use Rattle.answers.specs.Outcomes.{left_by};
ghost use Rattle.answers.specs.Inside.Front.{WrittenInFront};
ghost use Rattle.removal.specs.Removed.{removed_type, removed_types, removed};

use answers::Refusal;
use byte_records::clearing::clear_from;
use counting_theory::equivalence::Equivalence;
use pass::remove_union;
use removal_arena::type_record;
use removal_check::pair::judge_pair;
use type_arena::level::Level;
use type_arena::type_record::MAX_TOTAL;

// What is left of a well-formed whole by a well-formed part, in the front of the arena.
fn remove_checked(
    whole: &[u8],
    part: &[u8],
    equivalence: Equivalence,
    arena: &mut [u8],
) -> Result<usize, Refusal>
    requires fact { IsType equivalence whole.now (type_of equivalence whole.now) }
    requires fact_2 { IsType equivalence part.now (type_of equivalence part.now) }
    ensures { WrittenInFront
        (removed_types (removed_type equivalence (type_of equivalence whole.now) (type_of equivalence part.now))
        (length arena.old)) result arena.new }
{
    let level = Level::whole(equivalence);
    let n = remove_union(whole, part, arena, 0, level, MAX_TOTAL).ok_or(Refusal::NotPart)?;
    if arena.len() < n {
        return Err(Refusal::Room);
    }
    Ok(n / type_record::SIZE)
}

// The same for any inputs.
fn remove_front(
    whole: &[u8],
    part: &[u8],
    equivalence: u64,
    arena: &mut [u8],
) -> Result<usize, Refusal>
    ensures { WrittenInFront (removed whole.now part.now equivalence (length arena.old)) result arena.new }
{
    let equivalence = judge_pair(whole, part, equivalence, arena.len())?;
    remove_checked(whole, part, equivalence, arena)
}

// Call 7: gives in the arena the type which, merged with the part under an equivalence, gives the whole. Both may be the same bytes.
pub fn remove(
    whole: &[u8],
    part: &[u8],
    equivalence: u64,
    arena: &mut [u8],
) -> Result<usize, Refusal>
    ensures { left_by result arena.new []
        ≡ leaves (removed whole.now part.now equivalence (length arena.old)) arena.old [] }
{
    let answered = remove_front(whole, part, equivalence, arena);
    clear_from(arena, type_record::SIZE * answered.unwrap_or(0));
    answered
}
