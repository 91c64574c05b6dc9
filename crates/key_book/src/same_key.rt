// Whether a key is what a text has between two places, by numbers of eight bytes. A yes is right; a no need not be.
ghost use Rattle.std.specs.Prelude.{◌≡◌, true, ◌+◌, ◌*◌, ◌-◌, ◌≤◌, ◌<◌, length, get_or};
ghost use Rattle.byte_records.specs.Number.{number_at};
ghost use Rattle.json_theory.specs.Book.{book_size};
ghost use Rattle.key_book.specs.Inside.Records.{book_record, HasRecord, Sought, KeyIf};

use crate::validity::SIZE;
use byte_records::little_endian::number;

// The bytes of the text from `from` to `to`, fewer than eight, as a number.
pub fn short_word(text: &[u8], from: usize, to: usize) -> usize
    requires { (from ≤ to) × (to < from + 8) × (8 ≤ to) × (to ≤ length text.now) }
    ensures { result ≡ number_at (to - from) text.now from }
{
    (number::<8>(text, to - 8) >> 8) >> (8 * (7 - (to - from)))
}

// Whether key i has no byte behind its first n.
fn ends_at(book: &[u8], i: usize, n: usize) -> bool
    requires { HasRecord book.now i × (n ≤ book_size) }
    ensures { result ≡ true → n < book_size → get_or (book_record book.now i) n 0 ≡ 0 }
{
    n == SIZE || book[SIZE * i + n] == 0
}

// Whether the eight bytes from the k-th on are the same in key i and in the text from `from` on.
fn same_word(book: &[u8], i: usize, text: &[u8], from: usize, k: usize) -> bool
    requires { HasRecord book.now i × (k + 8 ≤ book_size) × (from + k + 8 ≤ length text.now) }
    ensures { result ≡ true → number_at 8 text.now (from + k) ≡ number_at 8 book.now (book_size * i + k) }
{
    number::<8>(text, from + k) == number::<8>(book, SIZE * i + k)
}

// Whether key i is the bytes of the text from `from` to `to`, of which there are 8 to 32: by words, the last one over the others.
fn same_words(book: &[u8], i: usize, text: &[u8], from: usize, to: usize) -> bool
    requires { Sought book.now i text.now from to × (from + 8 ≤ to) }
    ensures { KeyIf book.now i text.now from to result }
{
    for word in 0..(to - from - 1) / 8 {
        if !same_word(book, i, text, from, 8 * word) {
            return false;
        }
    }
    same_word(book, i, text, from, to - from - 8) && ends_at(book, i, to - from)
}

// Whether key i is the bytes of the text from `from` to `to`, of which there are up to 32.
pub fn is_key(book: &[u8], i: usize, text: &[u8], from: usize, to: usize) -> bool
    requires { Sought book.now i text.now from to × (8 ≤ to) }
    ensures { KeyIf book.now i text.now from to result }
{
    if to - from < 8 {
        return short_word(text, from, to) == number::<8>(book, SIZE * i);
    }
    same_words(book, i, text, from, to)
}
