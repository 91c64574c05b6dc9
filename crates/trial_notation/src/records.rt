// Value records and type records in a buffer. Byte 1 of a record is the high byte of its kind; what lies beyond the buffer is
// passed over.
ghost use Rattle.std.specs.Prelude.{◌<◌, ◌≤◌};

use crate::text::{byte_at, read_digit};
use byte_records::store::put_bytes;
use type_arena::type_record;
use value_table::record;

// Records of tables, of types, and of plain types, which are without the lengths of arrays.
#[derive(Clone, Copy, Debug, PartialEq, Eq)]
pub enum Layout {
    Value,
    Type,
    Plain,
}

impl Layout {
    // The bytes of a record.
    pub fn size(self) -> usize
        ensures { (1 ≤ result) × (result ≤ 24) }
    {
        match self {
            Layout::Value => record::SIZE,
            Layout::Type => type_record::SIZE,
            Layout::Plain => removal_arena::type_record::SIZE,
        }
    }

    // Where the record at a place begins, in bytes.
    pub fn start_of(self, i: usize) -> usize
        ensures { result < 524288 }
    {
        i % 16384 * self.size()
    }

    // How many records so many bytes have.
    pub fn count_in(self, length: usize) -> usize {
        length / self.size()
    }

    // The bytes of the largest table or arena. It is lent where a line names none.
    pub fn largest(self) -> usize {
        record::MAX_LENGTH / self.size() * self.size()
    }
}

// The numbers of a record: a value record has the first three, one of a plain type the first four.
#[derive(Clone, Copy, Debug, PartialEq, Eq)]
pub enum Number {
    Kind,
    Key,
    Span,
    Count,
    Shortest,
    Longest,
}

impl Number {
    // Number j of a record; behind the last there is none.
    fn nth(j: usize) -> Option<Number> {
        match j {
            0 => Some(Number::Kind),
            1 => Some(Number::Key),
            2 => Some(Number::Span),
            3 => Some(Number::Count),
            4 => Some(Number::Shortest),
            5 => Some(Number::Longest),
            _ => None,
        }
    }

    // Where the number begins in its record, and how many bytes it has. The kind has byte 1 with it.
    fn extent(self) -> (usize, usize)
        ensures { (result.0 ≤ 20) × (result.1 ≤ 8) }
    {
        match self {
            Number::Kind => (0, 2),
            Number::Key => (2, 2),
            Number::Span => (4, 4),
            Number::Count => (8, 8),
            Number::Shortest => (16, 4),
            Number::Longest => (20, 4),
        }
    }
}

pub const RECORD: u64 = record::RECORD as u64;

pub const ARRAY: u64 = record::ARRAY as u64;

// What a run repeats: null; a field with null in it; a record with such a field; or an array around the next, which ends before a
// place.
#[derive(Clone, Copy, Debug, PartialEq, Eq)]
pub enum Item {
    Null,
    Field,
    Record,
    Array(usize),
}

// How many items a run has, the key of the first, and the step to the next.
#[derive(Clone, Copy, Debug, PartialEq, Eq)]
pub struct Run {
    pub count: usize,
    pub key: u64,
    pub step: u64,
}

// Stores a number of record i.
fn put_number(bytes: &mut [u8], layout: Layout, i: usize, which: Number, number: u64) {
    let (start, width) = which.extent();
    put_bytes(
        &number.to_le_bytes()[..width],
        bytes,
        layout.start_of(i) + start,
    );
}

// A number of record i.
pub fn number_at(bytes: &[u8], layout: Layout, i: usize, which: Number) -> u64 {
    let (start, width) = which.extent();
    let from = layout.start_of(i) + start;
    let mut number = [0u8; 8];
    for k in 0..width {
        number[k] = byte_at(bytes, from + k);
    }
    u64::from_le_bytes(number)
}

// The number of the next character, where eight are told for each record: another one after a space, and the last, which isn't stored, at a
// semicolon.
fn next_at(at: usize, c: u8) -> usize
    requires { at < 131072 }
    ensures { result < 131072 }
{
    match c {
        b' ' => (at + 1) % 131072,
        b';' => at / 8 * 8 + 7,
        _ => at,
    }
}

// Stores records from place i on, written as in document 01: "5 0 2; 1 1 1". Returns the place behind the last one.
pub fn put_text(bytes: &mut [u8], layout: Layout, i: usize, text: &[u8]) -> usize {
    if text.is_empty() {
        return i;
    }
    let mut at = i % 16384 * 8;
    let mut number = 0;
    for c in text {
        at = next_at(at, *c);
        number = read_digit(number, *c);
        if let Some(which) = Number::nth(at % 8) {
            put_number(bytes, layout, at / 8, which, number);
        }
    }
    at / 8 + 1
}

// Stores a record, with count 1 where it has one.
fn put(bytes: &mut [u8], layout: Layout, i: usize, kind: u64, key: u64, span: u64) {
    put_number(bytes, layout, i, Number::Kind, kind);
    put_number(bytes, layout, i, Number::Key, key);
    put_number(bytes, layout, i, Number::Span, span);
    put_count(bytes, layout, i, 1);
}

// Stores the count of a record, where it has one.
pub fn put_count(bytes: &mut [u8], layout: Layout, i: usize, count: u64) {
    match layout {
        Layout::Value => (),
        _ => put_number(bytes, layout, i, Number::Count, count),
    }
}

// Stores the shortest and the longest length of the arrays of a record, where it has lengths.
fn put_lengths(bytes: &mut [u8], layout: Layout, i: usize, length: u64) {
    match layout {
        Layout::Type => {
            put_number(bytes, layout, i, Number::Shortest, length);
            put_number(bytes, layout, i, Number::Longest, length);
        }
        _ => (),
    }
}

// The items return the place behind them.
fn put_null(bytes: &mut [u8], layout: Layout, i: usize, key: u64) -> usize {
    put(bytes, layout, i, 1, key, 1);
    i.wrapping_add(1)
}

fn put_field(bytes: &mut [u8], layout: Layout, i: usize, key: u64) -> usize {
    match layout {
        Layout::Value => put_null(bytes, layout, i, key),
        _ => {
            put(bytes, layout, i, 7, key, 2);
            put_null(bytes, layout, i.wrapping_add(1), 0)
        }
    }
}

// A record or an array with what ends before a place inside it.
pub fn put_around(bytes: &mut [u8], layout: Layout, i: usize, kind: u64, end: usize) {
    put(bytes, layout, i, kind, 0, end.wrapping_sub(i) as u64);
}

fn put_item(bytes: &mut [u8], layout: Layout, item: Item, i: usize, key: u64) -> usize {
    let inner = i.wrapping_add(1);
    match item {
        Item::Null => put_null(bytes, layout, i, 0),
        Item::Field => put_field(bytes, layout, i, key),
        Item::Record => {
            let end = put_field(bytes, layout, inner, key);
            put_around(bytes, layout, i, RECORD, end);
            end
        }
        Item::Array(end) => {
            put_around(bytes, layout, i, ARRAY, end);
            put_lengths(bytes, layout, i, 1);
            inner
        }
    }
}

// Stores a run from place i on.
pub fn put_run(bytes: &mut [u8], layout: Layout, item: Item, i: usize, run: Run) -> usize {
    let mut at = i;
    let mut key = run.key;
    let count = run.count;
    for _ in 0..count {
        at = put_item(bytes, layout, item, at, key);
        key = key.wrapping_add(run.step);
    }
    at
}
