// The key of a field.
ghost use Rattle.std.specs.Prelude.{◌≡◌, true, false, [], ℕ};
ghost use Rattle.value_table.specs.Value.{Values};
ghost use Rattle.json_theory.specs.Grammar.{object, is_space};
ghost use Rattle.json_theory.specs.Parts.{plain};
ghost use Rattle.json_theory.specs.Steps.{Stack, level as inside, State, in_key};
ghost use Rattle.json_theory.specs.Book.{book_records};
ghost use Rattle.json_theory.specs.Inside.Scanning.{byte_at, PlaceIn};
ghost use Rattle.text_reader.specs.Inside.Marks.{MarksHold};
ghost use Rattle.text_reader.specs.Inside.Progress.{AwaitsItem, Ready, LevelIs};
ghost use Rattle.text_reader.specs.Inside.Items.{LevelFits, NewKeyIs, FieldKeyIs, KeyPlace};

use crate::Level;
use crate::fault::{Faulty, TextFault};
use crate::key_marks::{has_mark, set_mark};
use json_items::item::{colon_end, key_end};
use json_tokens::scan::byte_at;
use key_book::book::Book;
use value_table::record;

// A key's number, and the byte from which the text goes on.
#[derive(Clone, Copy)]
pub struct Key {
    pub number: usize,
    pub end: usize,
}

// The key behind its opening quote, in the innermost open object: it is marked, unless the object has it or is full.
fn new_key(
    text: &[u8],
    book: &Book<'_>,
    seen: &mut [u8],
    from: usize,
    level: Level,
) -> Result<Key, Faulty>
    requires place_in { PlaceIn text.now from }
    requires level_fits { LevelFits (book_records book.now) seen.old level × (level.object ≡ true) }
    ensures key_place { KeyPlace text.now from result }
    ensures by_index { (room key : ℕ) (done : Values) (outer : Stack) → LevelIs (inside object key done outer) level →
        MarksHold (book_records book.now) seen.old (inside object key done outer) [] →
        NewKeyIs text.now book.now seen.new room (in_key plain [] (inside object key done outer)) from (inside object key done outer) result }
{
    let named = key_end(text, book, from)?;
    let listed = book.keys();
    let row = level.depth - 1;
    let mark = level.record + 1;
    if has_mark(seen, listed, row, named.key, mark) {
        return Err(TextFault::Repeated.at(named.quote));
    }
    if record::MAX_FIELDS <= level.items {
        return Err(TextFault::Fields.at(named.quote));
    }
    set_mark(seen, listed, row, named.key, mark);
    let end = named.quote + 1;
    Ok(Key {
        number: named.key,
        end,
    })
}

// The key of the field that begins at `at`, in the innermost open object, up to its value.
pub fn field_key(
    text: &[u8],
    book: &Book<'_>,
    seen: &mut [u8],
    at: usize,
    level: Level,
) -> Result<Key, Faulty>
    requires place_in { PlaceIn text.now at }
    requires level_fits { LevelFits (book_records book.now) seen.old level × (level.object ≡ true) }
    ensures key_place { KeyPlace text.now at result }
    ensures by_index { (room key : ℕ) (done : Values) (outer : Stack) (σ : State) → AwaitsItem σ (inside object key done outer) →
        is_space (byte_at text.now at) ≡ false → Ready text.now σ at →
        LevelIs (inside object key done outer) level → MarksHold (book_records book.now) seen.old (inside object key done outer) [] →
        FieldKeyIs text.now book.now seen.new room σ at (inside object key done outer) result }
{
    if byte_at(text, at) != 0x22 {
        return Err(TextFault::Grammar.at(at));
    }
    let key = new_key(text, book, seen, at + 1, level)?;
    let end = colon_end(text, key.end)?;
    Ok(Key {
        number: key.number,
        end,
    })
}
