// One item of the innermost level: a field of an object, or else a value.
ghost use Rattle.std.specs.Prelude.{◌≡◌, false, [], ℕ, ◌*◌, ◌/◌, ◌≤◌, length};
ghost use Rattle.value_table.specs.Value.{record_size, max_length};
ghost use Rattle.json_theory.specs.Grammar.{is_space};
ghost use Rattle.json_theory.specs.Steps.{Stack, State};
ghost use Rattle.json_theory.specs.Book.{book_records};
ghost use Rattle.json_theory.specs.Reader.{written};
ghost use Rattle.json_theory.specs.Inside.Scanning.{byte_at, PlaceIn};
ghost use Rattle.text_reader.specs.Inside.Marks.{MarksHold};
ghost use Rattle.text_reader.specs.Inside.Laid.{TableHolds};
ghost use Rattle.text_reader.specs.Inside.Progress.{AwaitsItem, Ready, LevelIs};
ghost use Rattle.text_reader.specs.Inside.Items.{LevelFits, KeyPlace, ItemKeyIs, ValuePlace, ItemIs};

use crate::Level;
use crate::fault::Faulty;
use crate::field::{Key, field_key};
use crate::value::{Begun, value_at};
use key_book::book::Book;

// The key of the item at `at`, or 0 outside objects, and where its value begins.
fn item_key(
    text: &[u8],
    book: &Book<'_>,
    seen: &mut [u8],
    at: usize,
    level: Level,
) -> Result<Key, Faulty>
    requires { PlaceIn text.now at × LevelFits (book_records book.now) seen.old level }
    ensures key_place { KeyPlace text.now at result }
    ensures by_index { (room : ℕ) (σ : State) (around : Stack) → AwaitsItem σ around → is_space (byte_at text.now at) ≡ false → Ready text.now σ at →
        LevelIs around level → MarksHold (book_records book.now) seen.old around [] →
        ItemKeyIs text.now book.now seen.new room σ at around result }
{
    if level.object {
        field_key(text, book, seen, at, level)
    } else {
        Ok(Key { number: 0, end: at })
    }
}

// The item at `at`, as record `count` of the table.
pub fn item_at(
    text: &[u8],
    book: &Book<'_>,
    table: &mut [u8],
    seen: &mut [u8],
    at: usize,
    count: usize,
    level: Level,
) -> Result<Begun, Faulty>
    requires place_in { PlaceIn text.now at × LevelFits (book_records book.now) seen.old level }
    requires table_len_bound { (length table.old ≤ max_length) × (record_size * count ≤ length table.old) }
    ensures value_place { ValuePlace text.now at result }
    ensures item_is { (σ : State) (around : Stack) → AwaitsItem σ around → is_space (byte_at text.now at) ≡ false → Ready text.now σ at →
        LevelIs around level → written around ≡ count → TableHolds table.old around →
        MarksHold (book_records book.now) seen.old around [] →
        ItemIs text.now book.now table.new seen.new (length table.old / record_size) σ at around result }
{
    let key = item_key(text, book, seen, at, level)?;
    value_at(text, table, key.end, key.number, count, level.depth)
}
