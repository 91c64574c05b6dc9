// What a line of the output says: the numbers of an answer, and what a call has left in the buffers lent to it.
#![tactic(auto)]

use std::io;
use trial_notation::records::{Layout, Number, number_at};
use trial_notation::text::part;

// A longer run of records is printed as its checksum.
pub const MOST_PRINTED: usize = 64;

pub fn print(rt: &impl Print, number: u64) -> io::Result<()> {
    print!(rt; " {number}")
}

pub fn print_answer(rt: &impl Print, answer: value_table::Answer) -> io::Result<()> {
    print!(rt; " {} {} {}", answer.number, answer.place, answer.count)
}

// How many bytes are not zero.
pub fn nonzero(bytes: &[u8]) -> u64 {
    bytes.iter().filter(|byte| **byte != 0).count() as u64
}

// The Adler-32 checksum.
fn checksum(bytes: &[u8]) -> u64 {
    let mut low = 1;
    let mut high = 0;
    for byte in bytes {
        low = (low + *byte as u64) % 65521;
        high = (high + low) % 65521;
    }
    high * 65536 + low
}

pub fn print_checksum(rt: &impl Print, bytes: &[u8]) -> io::Result<()> {
    print!(rt; " adler32 {}", checksum(bytes))
}

// The shortest and the longest length of the arrays of record i, where they are not both zero.
fn print_lengths(rt: &impl Print, bytes: &[u8], i: usize) -> io::Result<()> {
    let shortest = number_at(bytes, Layout::Type, i, Number::Shortest);
    let longest = number_at(bytes, Layout::Type, i, Number::Longest);
    if shortest != 0 || longest != 0 {
        print(rt, shortest)?;
        print(rt, longest)?;
    }
    Ok(())
}

// The numbers of record i, written as in the trials.
fn print_record(rt: &impl Print, bytes: &[u8], layout: Layout, i: usize) -> io::Result<()> {
    print(rt, number_at(bytes, layout, i, Number::Kind))?;
    print(rt, number_at(bytes, layout, i, Number::Key))?;
    print(rt, number_at(bytes, layout, i, Number::Span))?;
    print(rt, number_at(bytes, layout, i, Number::Count))?;
    match layout {
        Layout::Type => print_lengths(rt, bytes, i),
        _ => Ok(()),
    }
}

fn print_records(rt: &impl Print, bytes: &[u8], layout: Layout) -> io::Result<()> {
    for i in 0..layout.count_in(bytes.len()) {
        if 0 < i {
            print!(rt; ";")?;
        }
        print_record(rt, bytes, layout, i)?;
    }
    Ok(())
}

// The type that a call has written.
pub fn print_type(rt: &impl Print, bytes: &[u8], layout: Layout) -> io::Result<()> {
    if bytes.is_empty() {
        return Ok(());
    }
    print!(rt; ":")?;
    if layout.count_in(bytes.len()) <= MOST_PRINTED {
        print_records(rt, bytes, layout)
    } else {
        print_checksum(rt, bytes)
    }
}

// The bytes of a type of so many records at the front of an arena, and those behind it.
pub fn type_in(arena: &[u8], layout: Layout, count: u64) -> &[u8] {
    part(arena, 0, layout.start_of(count as usize))
}

pub fn behind_type(arena: &[u8], layout: Layout, count: u64) -> &[u8] {
    part(arena, layout.start_of(count as usize), arena.len())
}
