// Trials of the calls that write a type for two others, without a working buffer.
use crate::Trial;
use answers::Refusal;
use std::io;
use trial_notation::buffers::{DIRT, ROOM};
use trial_notation::notation::build;
use trial_notation::records::Layout;
use trial_notation::text::{byte_at, cut, part};
use trial_output::{behind_type, nonzero, print, print_answer, print_type, type_in};

// Removal alone takes plain types.
fn layout_of(call: u8) -> Layout {
    if call == b'7' {
        Layout::Plain
    } else {
        Layout::Type
    }
}

fn combine(trial: &Trial, first: &[u8], second: &[u8], arena: &mut [u8]) -> Result<usize, Refusal> {
    if trial.call == b'7' {
        return removal::remove(first, second, trial.equivalence, arena);
    }
    counting_type::merge(first, second, trial.equivalence, arena)
}

fn combine_into(
    rt: &impl Print,
    trial: &Trial,
    first: &[u8],
    second: &[u8],
    arena: &mut [u8],
) -> io::Result<()> {
    let answer = value_table::answer_of(combine(trial, first, second, arena));
    let layout = layout_of(trial.call);
    print_answer(rt, answer)?;
    print(rt, nonzero(behind_type(arena, layout, answer.count)))?;
    print_type(rt, type_in(arena, layout, answer.count), layout)
}

fn combine_under(rt: &impl Print, trial: &Trial, first: &[u8], second: &[u8]) -> io::Result<()> {
    let mut arena = [DIRT; ROOM];
    let length = trial.length(1, layout_of(trial.call).largest());
    match arena.get_mut(..length) {
        Some(arena) => combine_into(rt, trial, first, second, arena),
        None => Ok(()),
    }
}

// Calls 5 and 7. The line may name the lengths of the arena, of the first and of the second type. The second may be the same as the first.
pub fn try_two_types(rt: &impl Print, trial: &Trial) -> io::Result<()> {
    let mut one = [0u8; ROOM];
    let mut other = [0u8; ROOM];
    // a space stands on either side of the bar
    let (before, after) = cut(trial.records, b'|');
    let before = part(before, 0, before.len().wrapping_sub(1));
    let layout = layout_of(trial.call);
    let built = build(&mut one, layout, before);
    let first = part(&one, 0, trial.length(2, built));
    if byte_at(after, 0) == b's' {
        return combine_under(rt, trial, first, first);
    }
    let built = build(&mut other, layout, after);
    let second = part(&other, 0, trial.length(3, built));
    combine_under(rt, trial, first, second)
}
