// Guesses at the numbers of the book's keys, by their bytes. Each guess is verified where it is used, so nothing rests on them.
ghost use Rattle.std.specs.Prelude.{◌+◌, ◌≤◌, ◌<◌, length};
ghost use Rattle.value_table.specs.Value.{max_length};
ghost use Rattle.json_theory.specs.Book.{book_size};
ghost use Rattle.key_book.specs.Inside.Records.{HasRecord, places};

use crate::same_key::short_word;
use crate::validity::SIZE;
use byte_records::little_endian::number;

pub const HINTS: usize = 4096;

// Among how many places in a row the guess at a key stands.
pub const TRIES: usize = 8;

// A place among the guesses: the product spreads numbers that differ in few bits.
fn spread(x: usize) -> usize
    ensures { result < places }
{
    let folded = (x ^ (x >> 29)) % 4294967296;
    ((folded * 2654435769) >> 26) % HINTS
}

// The place for a key of eight bytes or more, in a text or a book: by its first, its middle and its last eight.
fn long_slot(s: &[u8], from: usize, to: usize) -> usize
    requires { (from + 8 ≤ to) × (to ≤ length s.now) }
    ensures { result < places }
{
    let middle = from + (to - from - 8) / 2;
    spread(number::<8>(s, from) ^ (number::<8>(s, middle) >> 3) ^ (number::<8>(s, to - 8) >> 7))
}

// The place for the key that the text has from `from` to `to`.
pub fn slot_in(text: &[u8], from: usize, to: usize) -> usize
    requires { (from ≤ to) × (8 ≤ to) × (to ≤ length text.now) }
    ensures { result < places }
{
    if to - from < 8 {
        return spread(short_word(text, from, to));
    }
    long_slot(text, from, to)
}

// How many bytes x has up to its last one that is not zero.
fn filled(x: usize) -> usize
    ensures { result ≤ 8 }
{
    8 - (u64::leading_zeros(x as u64) as usize) / 8
}

// Where a key of eight bytes or more ends, whose record begins at p.
fn long_end(book: &[u8], p: usize) -> usize
    requires { p + book_size ≤ length book.now }
    ensures { (p + 8 ≤ result) × (result ≤ p + book_size) }
{
    p + 8
        + filled(number::<8>(book, p + 8))
        + filled(number::<8>(book, p + 16))
        + filled(number::<8>(book, p + 24))
}

// The place for key i.
fn slot_of(book: &[u8], i: usize) -> usize
    requires { HasRecord book.now i }
    ensures { result < places }
{
    let p = SIZE * i;
    if book[p + 7] == 0 {
        return spread(number::<8>(book, p));
    }
    long_slot(book, p, long_end(book, p))
}

// The first free place from `slot` on, or the last one for a key.
fn free_slot(hints: &[u16; HINTS], slot: usize) -> usize
    requires { slot < places }
    ensures { result < places }
{
    let mut at = slot;
    for _ in 1..TRIES {
        if hints[at] == 0 {
            return at;
        }
        at = (at + 1) % HINTS;
    }
    at
}

// Makes a guess at each key of a book.
pub fn guesses(book: &[u8], hints: &mut [u16; HINTS])
    requires { length book.now ≤ max_length }
{
    for i in 0..book.len() / SIZE {
        let at = free_slot(hints, slot_of(book, i));
        hints[at] = (i + 1) as u16;
    }
}
