// The text of the profile program: the report of a type, one line per type record, or the line of a refusal.
#![tactic(auto)]

mod decimal;
mod line;
mod walk;

ghost use Rattle.std.specs.Prelude.{◌≡◌, ◌*◌, ◌≤◌, length};
ghost use Rattle.counting_theory.specs.Encoding.{type_records, type_of};
ghost use Rattle.counting_theory.specs.WellFormed.{max_total, IsType};
ghost use Rattle.counting_theory.specs.Answers.{equivalence_number, leaves, inferred};
ghost use Rattle.answers.specs.Outcomes.{left_by};
ghost use Rattle.report.specs.Decimal.{leaves_text, text_left};
ghost use Rattle.report.specs.Line.{refusal_line};
ghost use Rattle.report.specs.Inside.Room.{line_limit, refusal_limit};
ghost use Rattle.report.specs.Report.{report, program_equivalence, printed};

use answers::Refusal;
use counting_theory::equivalence::Equivalence;
use decimal::{digit_count, put_text};
use line::{LINE_LIMIT, put_number_and};
use type_arena::addend::union_total;
use type_arena::type_record;
use value_table::Answer;
use walk::{Run, largest_count};

// The most bytes that are printed: a line for each record of the largest arena.
pub const TEXT_LIMIT: usize = LINE_LIMIT * (type_record::LARGEST_ARENA / type_record::SIZE);

// Stores the report of a well-formed type at the front of the buffer, and answers its length.
fn put_report(bytes: &[u8], out: &mut [u8]) -> usize
    requires { IsType program_equivalence bytes.now (type_of program_equivalence bytes.now) × (line_limit * type_records bytes.now ≤ length out.old) }
    ensures { text_left result out.new ≡ leaves_text (report (type_of program_equivalence bytes.now)) out.old }
{
    let n = bytes.len() / type_record::SIZE;
    let run = Run {
        depth: 1,
        whole: union_total(bytes),
        width: digit_count(largest_count(bytes, n)),
    };
    run.put(bytes, 0, n, out, 0)
}

// Stores the line of a refusal at the front of the buffer, and answers its length.
fn put_refusal(number: usize, place: usize, out: &mut [u8]) -> usize
    requires { (number ≤ max_total) × (place ≤ max_total) × (refusal_limit ≤ length out.old) }
    ensures { text_left result out.new ≡ leaves_text (refusal_line number place) out.old }
{
    let first = put_text(out, 0, "refused ");
    let second = put_number_and(out, first, number, b' ');
    put_number_and(out, second, place, b'\n')
}

// Infers the type of the program's input, under kind.
fn infer_input(input: &[u8], arena: &mut [u8], work: &mut [u8]) -> Result<usize, Refusal>
    ensures { left_by result arena.new work.new
        ≡ leaves (inferred input.now (equivalence_number program_equivalence) (length arena.old) (length work.old))
        arena.old work.old }
{
    counting_type::infer(input, Equivalence::Kind as u64, arena, work)
}

// Stores what the profile program prints for its input at the front of the buffer, and answers its length.
pub fn put_profile(input: &[u8], out: &mut [u8; TEXT_LIMIT]) -> usize
    ensures { text_left result out.new ≡ leaves_text (printed input.now) out.old }
{
    let mut arena = [0u8; type_record::LARGEST_ARENA];
    let mut work = [0u8; type_record::LARGEST_ARENA];
    match infer_input(input, &mut arena, &mut work) {
        Ok(records) => put_report(&arena[..type_record::SIZE * records], out),
        Err(why) => {
            let answer = Answer::from(why);
            put_refusal(answer.number as usize, answer.place as usize, out)
        }
    }
}
