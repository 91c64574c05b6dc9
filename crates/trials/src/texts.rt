// A trial of the call that reads a text: builds the book and the text, and prints the answer, how many bytes behind the records are not zero,
// and the records, written as in the other trials.
ghost use Rattle.std.specs.Prelude.{◌+◌, ◌*◌, ◌≤◌, length};
ghost use Rattle.value_table.specs.Value.{record_size};

use std::io;
use text_reader::call;
use trial_notation::buffers::{DIRT, ROOM};
use trial_notation::records::Layout;
use trial_notation::spelled::{put_book, put_spelled};
use trial_notation::text::{cut, part};
use trial_output::{nonzero, print, print_answer};
use trial_types::Trial;
use value_table::record;
use value_table::record::{key_at, kind_at, span_at};

fn print_value(rt: &impl Print, table: &[u8], i: usize) -> io::Result<()>
    requires { record_size * i + record_size ≤ length table.now }
{
    let (kind, key, span) = (kind_at(table, i), key_at(table, i), span_at(table, i));
    print!(rt; " {kind} {key} {span}")
}

fn print_values(rt: &impl Print, table: &[u8]) -> io::Result<()> {
    for i in 0..table.len() / record::SIZE {
        if 0 < i {
            print!(rt; ";")?;
        }
        print_value(rt, table, i)?;
    }
    Ok(())
}

fn read_into(rt: &impl Print, text: &[u8], book: &[u8], table: &mut [u8]) -> io::Result<()> {
    let answer = value_table::answer_of(call::read_text(text, book, table));
    print_answer(rt, answer)?;
    let end = Layout::Value.start_of(answer.count as usize);
    print(rt, nonzero(part(table, end, table.len())))?;
    if 0 < end {
        print!(rt; ":")?;
    }
    print_values(rt, part(table, 0, end))
}

// Call 6. The line may name the lengths of the table, of the book and of the text.
pub fn try_text(rt: &impl Print, trial: &Trial) -> io::Result<()> {
    let mut keys = [0u8; ROOM];
    let mut bytes = [0u8; ROOM];
    let mut table = [DIRT; ROOM];
    let (before, after) = cut(trial.records, b'|');
    let listed = put_book(&mut keys, before);
    let written = put_spelled(&mut bytes, 0, after);
    let book = part(&keys, 0, trial.length(2, listed));
    let text = part(&bytes, 0, trial.length(3, written));
    let length = trial.length(1, Layout::Value.largest());
    match table.get_mut(..length) {
        Some(table) => read_into(rt, text, book, table),
        None => Ok(()),
    }
}
