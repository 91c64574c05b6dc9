// A trial of the inference for the tag bus: builds the table, and prints the answer, how many bytes behind the type, in the working buffer
// and behind the entries are not zero, the type, and of each entry the word and the number beside it.
ghost use Rattle.std.specs.Prelude.{◌+◌, ◌*◌, ◌≤◌, length};

use crate::Trial;
use byte_records::little_endian::number;
use std::io;
use trial_notation::buffers::{DIRT, ROOM};
use trial_notation::notation::build;
use trial_notation::records::{Layout, Number, RECORD, number_at};
use trial_notation::text::part;
use trial_output::{
    MOST_PRINTED, behind_type, nonzero, print, print_answer, print_checksum, print_type, type_in,
};
use value_table::{Answer, record};

// The bytes of an entry; its word takes the first half.
const ENTRY: usize = 16;

// The most bytes of all entries. They are lent where a line names no length.
const MOST_ENTRIES: usize = record::MAX_LENGTH / ENTRY * ENTRY;

fn print_entry(rt: &impl Print, entries: &[u8], i: usize) -> io::Result<()>
    requires { 16 * i + 16 ≤ length entries.now }
{
    let word = number::<8>(entries, ENTRY * i);
    let keys = number::<8>(entries, ENTRY * i + ENTRY / 2);
    print!(rt; " {word} {keys}")
}

fn print_each(rt: &impl Print, entries: &[u8]) -> io::Result<()> {
    for i in 0..entries.len() / ENTRY {
        if 0 < i {
            print!(rt; ";")?;
        }
        print_entry(rt, entries, i)?;
    }
    Ok(())
}

fn print_entries(rt: &impl Print, entries: &[u8]) -> io::Result<()> {
    if entries.is_empty() {
        return Ok(());
    }
    print!(rt; " |")?;
    if entries.len() / ENTRY <= MOST_PRINTED {
        print_each(rt, entries)
    } else {
        print_checksum(rt, entries)
    }
}

// The bytes of the entries of a type: each of its records of kind 5 has one.
fn entry_bytes(bytes: &[u8]) -> usize {
    let records = 0..Layout::Type.count_in(bytes.len());
    ENTRY.wrapping_mul(
        records
            .filter(|i| number_at(bytes, Layout::Type, *i, Number::Kind) == RECORD)
            .count(),
    )
}

// The answer, and what the call has left.
fn print_left(
    rt: &impl Print,
    answer: Answer,
    arena: &[u8],
    work: &[u8],
    entries: &[u8],
) -> io::Result<()> {
    let written = type_in(arena, Layout::Type, answer.count);
    let end = entry_bytes(written);
    print_answer(rt, answer)?;
    print(rt, nonzero(behind_type(arena, Layout::Type, answer.count)))?;
    print(rt, nonzero(work))?;
    print(rt, nonzero(part(entries, end, entries.len())))?;
    print_type(rt, written, Layout::Type)?;
    print_entries(rt, part(entries, 0, end))
}

fn infer_into(
    rt: &impl Print,
    table: &[u8],
    arena: &mut [u8],
    work: &mut [u8],
    entries: &mut [u8],
) -> io::Result<()> {
    let answer = value_table::answer_of(tag_bus::infer_tag_bus(table, arena, work, entries));
    print_left(rt, answer, arena, work, entries)
}

// Call 8. The line may name the lengths of the entries, of the arena, of the working buffer and of the table.
pub fn try_tag_bus(rt: &impl Print, trial: &Trial) -> io::Result<()> {
    let mut bytes = [0u8; ROOM];
    let mut arena = [DIRT; ROOM];
    let mut work = [DIRT; ROOM];
    let mut entries = [DIRT; ROOM];
    let built = build(&mut bytes, Layout::Value, trial.records);
    let table = part(&bytes, 0, trial.length(4, built));
    let entries_length = trial.length(1, MOST_ENTRIES);
    let length = trial.length(2, Layout::Type.largest());
    let work_length = trial.length(3, length);
    let (Some(arena), Some(work), Some(entries)) = (
        arena.get_mut(..length),
        work.get_mut(..work_length),
        entries.get_mut(..entries_length),
    ) else {
        return Ok(());
    };
    infer_into(rt, table, arena, work, entries)
}
