// A good book, and the number of a key: by a guess, or by halving the book.
ghost use Rattle.std.specs.Prelude.{◌≡◌, false, ◌+◌, ◌≤◌, length, IfSome};
ghost use Rattle.value_table.specs.Value.{max_length};
ghost use Rattle.json_theory.specs.Book.{book_size, key_of, book_records, book_keys, bad_book, place_of};
ghost use Rattle.json_theory.specs.Inside.Scanning.{Running, between};
ghost use Rattle.key_book.specs.Inside.Records.{book_record, OrderIs, is_filled, Sought, MadeOf, listed};

use crate::guesses::{HINTS, TRIES, guesses, slot_in};
use crate::same_key::is_key;
use crate::validity::{SIZE, good_book, record};
use std::cmp::Ordering;
use std::marker::Model;

// A good book, with guesses at the numbers of its keys. Contracts see its bytes.
#[derive(Drop)]
pub struct Book<'a> {
    bytes: &'a [u8],
    hints: &'a [u16; HINTS],
}

impl<'a> Model for Book<'a> {
    ghost use Rattle.std.specs.Prelude.{◌≡◌, false, ◌≤◌, List, ℕ, length};
    ghost use Rattle.value_table.specs.Value.{max_length};
    ghost use Rattle.json_theory.specs.Book.{bad_book};

    ghost Value = { List ℕ };

    ghost view = { λ b. b.bytes.now };

    ghost invariant = { λ b. (length b.bytes.now ≤ max_length) × (bad_book b.bytes.now ≡ false) };
}

// Key i against the bytes of the text from `from` to `to`, of which there are up to 32.
fn compare(book: &[u8], i: usize, text: &[u8], from: usize, to: usize) -> Ordering
    requires { Sought book.now i text.now from to }
    ensures { OrderIs (key_of (book_record book.now i)) (between text.now from to) result }
{
    let key = record(book, i);
    let n = to - from;
    let order = key[..n].cmp(&&text[from..to]);
    if order.is_eq() && n < SIZE && key[n] != 0 {
        Ordering::Greater
    } else {
        order
    }
}

impl<'a> Book<'a> {
    // The book of these bytes with these guesses, if it is good.
    pub fn new(bytes: &'a [u8], hints: &'a [u16; HINTS]) -> Option<Book<'a>>
        requires { length bytes.now ≤ max_length }
        ensures { MadeOf bytes.now result }
    {
        if good_book(bytes) {
            Some(Book { bytes, hints })
        } else {
            None
        }
    }

    // The same with guesses that are made for it. A bad book costs no guess.
    pub fn with_guesses(bytes: &'a [u8], hints: &'a mut [u16; HINTS]) -> Option<Book<'a>>
        requires { length bytes.now ≤ max_length }
        ensures { MadeOf bytes.now result }
    {
        Book::new(bytes, hints)?;
        guesses(bytes, hints);
        Some(Book { bytes, hints })
    }

    // How many keys there are.
    pub fn keys(&self) -> usize
        ensures { (result ≡ book_records self.now) × (length self.now ≤ max_length) }
    {
        self.bytes.len() / SIZE
    }

    // The number of the key that the text has from `from` to `to`.
    fn bisect(&self, text: &[u8], from: usize, to: usize) -> Option<usize>
        requires { Running is_filled text.now from to × (to ≤ from + book_size) }
        ensures { result ≡ listed (place_of (between text.now from to) 1 (book_keys self.now)) }
    {
        let mut low = 0;
        let mut high = self.bytes.len() / SIZE;
        while low < high {
            let middle = (low + high) / 2;
            match compare(self.bytes, middle, text, from, to) {
                Ordering::Less => low = middle + 1,
                Ordering::Equal => return Some(middle + 1),
                Ordering::Greater => high = middle,
            }
        }
        None
    }

    // The number of the key that the text has from `from` to `to`, if a guess is right.
    fn guessed(&self, text: &[u8], from: usize, to: usize) -> Option<usize>
        requires { Running is_filled text.now from to × (to ≤ from + book_size) }
        ensures { IfSome result (λ key. Some key ≡ listed (place_of (between text.now from to) 1 (book_keys self.now))) }
    {
        if to < 8 {
            return None;
        }
        let mut at = slot_in(text, from, to);
        for _ in 0..TRIES {
            let guess = usize::from(self.hints[at]);
            if guess == 0 || self.bytes.len() / SIZE < guess {
                return None;
            }
            if is_key(self.bytes, guess - 1, text, from, to) {
                return Some(guess);
            }
            at = (at + 1) % HINTS;
        }
        None
    }

    // The number of the key that the text has from `from` to `to`.
    pub fn find(&self, text: &[u8], from: usize, to: usize) -> Option<usize>
        requires { Running is_filled text.now from to }
        ensures { result ≡ listed (place_of (between text.now from to) 1 (book_keys self.now)) }
    {
        if SIZE < to - from {
            return None;
        }
        if let Some(key) = self.guessed(text, from, to) {
            return Some(key);
        }
        self.bisect(text, from, to)
    }
}
