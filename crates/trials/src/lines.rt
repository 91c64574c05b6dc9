// The text of the trials. A line "[call]" or "[call equivalences]" says how the lines after it are tried: "name lengths: records".
// Lines without a colon are passed over.
use crate::trial::try_call;
use std::io;
use trial_notation::text::{byte_at, cut};

// The call that is tried, by its number, and whether under equivalences that are unknown.
#[derive(Clone, Copy, Debug, PartialEq, Eq)]
struct Section {
    call: u8,
    unknown: bool,
}

fn try_line(rt: &impl Print, line: &[u8], section: Section) -> io::Result<()> {
    if !line.contains(&b':') {
        return Ok(());
    }
    let (head, records) = cut(line, b':');
    try_call(rt, section.call, section.unknown, head, records)
}

// What ends without a line feed is no line.
pub fn each_line(rt: &impl Print, text: &[u8]) -> io::Result<()> {
    let mut section = Section {
        call: 0,
        unknown: false,
    };
    for piece in text.split_inclusive(|c| *c == b'\n') {
        match piece.strip_suffix(b"\n") {
            Some(line) if byte_at(line, 0) == b'[' => {
                section = Section {
                    call: byte_at(line, 1),
                    unknown: byte_at(line, 3) == b'u',
                };
            }
            Some(line) => try_line(rt, line, section)?,
            None => (),
        }
    }
    Ok(())
}
