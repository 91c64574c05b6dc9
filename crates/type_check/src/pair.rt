// Two types before a call that writes a third: the refusals that come before its work.
ghost use Rattle.type_check.specs.Inside.Pair.{PairJudged};

use crate::well_formed;
use answers::Refusal;
use counting_theory::equivalence::Equivalence;
use type_arena::type_record::bad_length;

// Judges two types and an arena's length for a call that writes a third: lengths, the equivalence, the first, the second. Both are well
// formed under the equivalence that it answers.
pub fn judge_pair(
    first: &[u8],
    second: &[u8],
    equivalence: u64,
    arena: usize,
) -> Result<Equivalence, Refusal>
    ensures { PairJudged first.now second.now equivalence arena result }
{
    if bad_length(first.len()) || bad_length(second.len()) || bad_length(arena) {
        return Err(Refusal::Length);
    }
    let equivalence = Equivalence::try_from(equivalence)?;
    if !well_formed(first, equivalence) {
        return Err(Refusal::First);
    }
    if !well_formed(second, equivalence) {
        return Err(Refusal::Second);
    }
    Ok(equivalence)
}
