// Folding: turns a type under label into the type under kind.
#![tactic(auto)]

mod pass;

ghost use Rattle.std.specs.Prelude.{◌≡◌, ◌≤◌, length};
ghost use Rattle.value_table.specs.Value.{max_length};
ghost use Rattle.counting_theory.specs.declared.equivalence.Equivalence.TheVariants.{Label as by_label};
ghost use Rattle.counting_theory.specs.Encoding.{type_of};
ghost use Rattle.counting_theory.specs.WellFormed.{within_limit, IsType};
ghost use Rattle.counting_theory.specs.Answers.{leaves, merged_types};
ghost use Rattle.answers.specs.Outcomes.{left_by};
ghost use Rattle.answers.specs.Inside.Front.{WrittenInFront};
ghost use Rattle.folding.specs.Fold.{kind_type};
ghost use Rattle.folding.specs.Folded.{bad_fold_lengths, folded};
ghost use Rattle.folding.specs.Inside.Folding.{FoldedFront};

use answers::Refusal;
use byte_records::clearing::clear_from;
use counting_theory::equivalence::Equivalence;
use pass::fold_run;
use type_arena::record_store::NoRoom;
use type_arena::type_record;
use type_arena::type_record::bad_length;
use type_check::well_formed;

// Whether the length of a type, of an arena or of its working buffer is wrong.
fn bad_lengths(bytes: usize, arena: usize, work: usize) -> bool
    ensures { result ≡ bad_fold_lengths bytes arena work }
{
    bad_length(bytes) || bad_length(arena) || work != arena
}

// Whether the folded type in the first n records of an arena keeps the limit on totals: then it is well formed, and else not.
fn limit_kept(bytes: &[u8], arena: &[u8], n: usize) -> bool
    requires { IsType by_label bytes.now (type_of by_label bytes.now) × FoldedFront bytes.now n arena.now }
    ensures { result ≡ within_limit (kind_type (type_of by_label bytes.now)) }
{
    let end = type_record::SIZE * n;
    well_formed(&arena[..end], Equivalence::Kind)
}

// The same where the arena is too small: the type is folded into a buffer that has room for every type.
fn limit_kept_apart(bytes: &[u8]) -> bool
    requires { IsType by_label bytes.now (type_of by_label bytes.now) }
    ensures { result ≡ within_limit (kind_type (type_of by_label bytes.now)) }
{
    let mut spare = [0u8; type_record::LARGEST_ARENA];
    let run = fold_run(&mut spare, 0, 0, 0, bytes, false);
    run.is_ok_and(|folded| limit_kept(bytes, &spare, folded.records))
}

// The folded type of a well-formed one, in the front of the arena.
fn fold_checked(bytes: &[u8], arena: &mut [u8]) -> Result<usize, Refusal>
    requires { IsType by_label bytes.now (type_of by_label bytes.now) × (length arena.old ≤ max_length) }
    ensures { WrittenInFront (merged_types (kind_type (type_of by_label bytes.now)) (length arena.old)) result arena.new }
{
    match fold_run(arena, 0, 0, 0, bytes, false) {
        Ok(folded) if limit_kept(bytes, arena, folded.records) => Ok(folded.records),
        Err(NoRoom) if limit_kept_apart(bytes) => Err(Refusal::Room),
        _ => Err(Refusal::Total),
    }
}

// The same for any inputs, with a working buffer of `work` bytes.
fn fold_front(bytes: &[u8], arena: &mut [u8], work: usize) -> Result<usize, Refusal>
    ensures { WrittenInFront (folded bytes.now (length arena.old) work) result arena.new }
{
    if bad_lengths(bytes.len(), arena.len(), work) {
        return Err(Refusal::Length);
    }
    if !well_formed(bytes, Equivalence::Label) {
        return Err(Refusal::First);
    }
    fold_checked(bytes, arena)
}

// Call 9: folds a type under label into the arena, as the type under kind, with a working buffer of the same length.
pub fn fold(bytes: &[u8], arena: &mut [u8], work: &mut [u8]) -> Result<usize, Refusal>
    ensures { left_by result arena.new work.new
        ≡ leaves (folded bytes.now (length arena.old) (length work.old)) arena.old work.old }
{
    let answered = fold_front(bytes, arena, work.len());
    clear_from(arena, type_record::SIZE * answered.unwrap_or(0));
    clear_from(work, 0);
    answered
}
