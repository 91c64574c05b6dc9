// Trials of the calls that write a type for one table or type, with a working buffer.
use crate::Trial;
use answers::Refusal;
use std::io;
use trial_notation::buffers::{DIRT, ROOM};
use trial_notation::notation::build;
use trial_notation::records::Layout;
use trial_notation::text::part;
use trial_output::{behind_type, nonzero, print, print_answer, print_type, type_in};

fn layout_of(call: u8) -> Layout {
    if call == b'9' {
        Layout::Type
    } else {
        Layout::Value
    }
}

fn write(trial: &Trial, given: &[u8], arena: &mut [u8], work: &mut [u8]) -> Result<usize, Refusal> {
    match trial.call {
        b'3' => counting_type::infer_default(given, arena, work),
        b'9' => folding::fold(given, arena, work),
        _ => counting_type::infer(given, trial.equivalence, arena, work),
    }
}

fn write_into(
    rt: &impl Print,
    trial: &Trial,
    given: &[u8],
    arena: &mut [u8],
    work: &mut [u8],
) -> io::Result<()> {
    let answer = value_table::answer_of(write(trial, given, arena, work));
    print_answer(rt, answer)?;
    print(rt, nonzero(behind_type(arena, Layout::Type, answer.count)))?;
    print(rt, nonzero(work))?;
    print_type(rt, type_in(arena, Layout::Type, answer.count), Layout::Type)
}

// Calls 2, 3 and 9. The line may name the lengths of the arena, of the working buffer, and of the table or type.
pub fn try_single(rt: &impl Print, trial: &Trial) -> io::Result<()> {
    let mut bytes = [0u8; ROOM];
    let mut arena = [DIRT; ROOM];
    let mut work = [DIRT; ROOM];
    let built = build(&mut bytes, layout_of(trial.call), trial.records);
    let given = part(&bytes, 0, trial.length(3, built));
    let length = trial.length(1, Layout::Type.largest());
    let work_length = trial.length(2, length);
    match (arena.get_mut(..length), work.get_mut(..work_length)) {
        (Some(arena), Some(work)) => write_into(rt, trial, given, arena, work),
        _ => Ok(()),
    }
}
