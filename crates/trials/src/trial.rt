// A trial builds tables, types or a text, has a call work on them, and prints the answer as a line that begins with the trial's name,
// the refusal number, the place and the count.
use crate::texts::try_text;
use std::io;
use trial_notation::buffers::ROOM;
use trial_notation::notation::build;
use trial_notation::records::Layout;
use trial_notation::text::{part, word};
use trial_output::print_answer;
use trial_types::Trial;
use trial_types::entries::try_tag_bus;
use trial_types::pairs::try_two_types;
use trial_types::singles::try_single;

// Call 1. The line may name the table's length.
fn try_table(rt: &impl Print, trial: &Trial) -> io::Result<()> {
    let mut bytes = [0u8; ROOM];
    let built = build(&mut bytes, Layout::Value, trial.records);
    let table = part(&bytes, 0, trial.length(1, built));
    print_answer(rt, value_table::answer_of(value_table::judge(table)))
}

// Call 4. The line may name the type's length.
fn try_type(rt: &impl Print, trial: &Trial) -> io::Result<()> {
    let mut bytes = [0u8; ROOM];
    let built = build(&mut bytes, Layout::Type, trial.records);
    let judged = part(&bytes, 0, trial.length(1, built));
    let answered = counting_type::judge_type(judged, trial.equivalence);
    print_answer(rt, value_table::answer_of(answered))
}

fn takes_equivalence(call: u8) -> bool {
    !matches!(call, b'1' | b'3' | b'6' | b'8' | b'9')
}

fn print_equivalence(rt: &impl Print, equivalence: u64) -> io::Result<()> {
    match equivalence {
        0 => print!(rt; "/kind"),
        1 => print!(rt; "/label"),
        2 => print!(rt; "/2"),
        _ => print!(rt; "/2^64-1"),
    }
}

fn try_under(rt: &impl Print, trial: &Trial) -> io::Result<()> {
    rt.write_all(word(trial.head, 0))?;
    if takes_equivalence(trial.call) {
        print_equivalence(rt, trial.equivalence)?;
    }
    match trial.call {
        b'1' => try_table(rt, trial),
        b'4' => try_type(rt, trial),
        b'5' | b'7' => try_two_types(rt, trial),
        b'6' => try_text(rt, trial),
        b'8' => try_tag_bus(rt, trial),
        _ => try_single(rt, trial),
    }?;
    println!(rt;)
}

// A call that takes an equivalence is tried under both, or, where `unknown` says so, under two numbers that no equivalence has.
pub fn try_call(
    rt: &impl Print,
    call: u8,
    unknown: bool,
    head: &[u8],
    records: &[u8],
) -> io::Result<()> {
    let equivalences: &[u64] = match (unknown, takes_equivalence(call)) {
        (true, _) => &[2, u64::MAX],
        (false, true) => &[0, 1],
        (false, false) => &[0],
    };
    for equivalence in equivalences {
        let trial = Trial {
            call,
            equivalence: *equivalence,
            head,
            records,
        };
        try_under(rt, &trial)?;
    }
    Ok(())
}
