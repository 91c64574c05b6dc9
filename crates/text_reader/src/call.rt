// The call that reads a text into a value table.
ghost use Rattle.std.specs.Prelude.{◌≡◌, ◌||◌, ◌*◌, ◌/◌, ◌≤◌, ◌<◌, ltb, length};
ghost use Rattle.value_table.specs.Judged.{bad_length};
ghost use Rattle.value_table.specs.Outcome.{outcome_of_answer};
ghost use Rattle.value_table.specs.Value.{max_length, record_size};
ghost use Rattle.json_theory.specs.Book.{bad_book_length};
ghost use Rattle.json_theory.specs.Reader.{read};
ghost use Rattle.text_reader.specs.Answer.{read_by, refusal_of_text};
ghost use Rattle.text_reader.specs.Inside.Items.{ReadIs, ReadInFront};
ghost use Rattle.text_reader.specs.declared.call.TextError.TheVariants.{Text};

use crate::fault::Faulty;
use crate::reader::read_messages;
use byte_records::clearing::clear_from;
use key_book::book::Book;
use key_book::guesses::HINTS;
use key_book::validity;
use value_table::{Answer, record};

// Why a text is refused: a length, the book, or a fault of the text.
#[derive(Clone, Copy, Debug, PartialEq, Eq)]
pub enum TextError {
    Length,
    Book,
    Text(Faulty),
}

impl From<Faulty> for TextError {
    ghost from_gives = { λ faulty error. error ≡ Text faulty };

    fn from(faulty: Faulty) -> TextError {
        TextError::Text(faulty)
    }
}

impl From<TextError> for Answer {
    ghost from_gives = { λ error answer. outcome_of_answer answer ≡ refusal_of_text error };

    fn from(error: TextError) -> Answer {
        match error {
            TextError::Length => Answer::refused(1, 0),
            TextError::Book => Answer::refused(14, 0),
            TextError::Text(faulty) => Answer::refused(faulty.why.number(), faulty.at),
        }
    }
}

// The keys for which a small local array has marks, and the bytes of both arrays: two for each key and level.
const FEW_KEYS: usize = 64;

const FEW_MARKS: usize = 4096;

const ALL_MARKS: usize = 131072;

fn bad_book_length(n: usize) -> bool
    ensures { result ≡ bad_book_length n }
{
    n % validity::SIZE != 0 || record::MAX_LENGTH < n
}

// Reads with marks for as many keys as a book may have, or for a few.
fn read_marked(text: &[u8], book: &Book<'_>, table: &mut [u8]) -> Result<usize, Faulty>
    requires { (length text.now ≤ max_length) × (length table.old ≤ max_length) }
    ensures { ReadIs text.now book.now table.new (length table.old / record_size) result }
{
    if book.keys() <= FEW_KEYS {
        read_messages(text, book, table, &mut [0u8; FEW_MARKS])
    } else {
        read_messages(text, book, table, &mut [0u8; ALL_MARKS])
    }
}

// Whether the length of a text, a book or a table is wrong.
fn bad_lengths(text: usize, book: usize, table: usize) -> bool
    ensures { result ≡ (ltb max_length text || bad_book_length book || bad_length table) }
{
    record::MAX_LENGTH < text || bad_book_length(book) || record::bad_length(table)
}

// The messages of a text, in the front of the table.
fn read_front(text: &[u8], book: &[u8], table: &mut [u8]) -> Result<usize, TextError>
    ensures { ReadInFront (read text.now book.now (length table.old)) result table.new }
{
    if bad_lengths(text.len(), book.len(), table.len()) {
        return Err(TextError::Length);
    }
    let mut hints = [0u16; HINTS];
    let book = Book::with_guesses(book, &mut hints).ok_or(TextError::Book)?;
    let count = read_marked(text, &book, table)?;
    Ok(count)
}

// Reads a text into the table, with the keys of a book, and counts its value records.
pub fn read_text(text: &[u8], book: &[u8], table: &mut [u8]) -> Result<usize, TextError>
    ensures { read_by result table.new ≡ read text.now book.now (length table.old) }
{
    let answered = read_front(text, book, table);
    clear_from(table, record::SIZE * answered.unwrap_or(0));
    answered
}
