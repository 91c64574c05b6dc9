// The loop over a text, item by item.
ghost use Rattle.std.specs.Prelude.{[], ◌*◌, ◌/◌, ◌≤◌, length};
ghost use Rattle.value_table.specs.Value.{record_size, max_length, none};
ghost use Rattle.json_theory.specs.Steps.{base};
ghost use Rattle.json_theory.specs.Book.{book_records};
ghost use Rattle.text_reader.specs.Inside.Marks.{MarksHold};
ghost use Rattle.text_reader.specs.Inside.Items.{ReadIs};

use crate::Level;
use crate::between::{closes, next_item};
use crate::fault::Faulty;
use crate::item::item_at;
use crate::value::Begun;
use json_tokens::scan::space_end;
use key_book::book::Book;
use value_table::record;
use value_table::record_store::store_span;

// Reads a text into the table, where no key is marked yet. The levels around the innermost one stand in `outer`, by their depth.
pub fn read_messages(
    text: &[u8],
    book: &Book<'_>,
    table: &mut [u8],
    seen: &mut [u8],
) -> Result<usize, Faulty>
    requires text_len_bound { length text.now ≤ max_length }
    requires table_len_bound { (length table.old ≤ max_length) × MarksHold (book_records book.now) seen.old (base none) [] × (length seen.old ≤ 2 * max_length) }
    ensures { ReadIs text.now book.now table.new (length table.old / record_size) result }
{
    let outside = Level {
        record: 0,
        object: false,
        depth: 0,
        items: 0,
    };
    let mut outer = [outside; record::MAX_DEPTH];
    let mut level = outside;
    let mut count = 0;
    let mut at = 0;
    loop {
        let here = space_end(text, at);
        if closes(text, here, level) {
            store_span(table, level.record, count - level.record);
            level = outer[level.depth - 1];
            level.items += 1;
            at = here + 1;
            continue;
        }
        let Some(start) = next_item(text, at, here, level.depth, level.items == 0)? else {
            return Ok(count);
        };
        match item_at(text, book, table, seen, start, count, level)? {
            Begun::Scalar(end) => {
                at = end;
                level.items += 1;
                count += 1;
            }
            Begun::Opened { from, object } => {
                outer[level.depth] = level;
                level = Level {
                    record: count,
                    object,
                    depth: level.depth + 1,
                    items: 0,
                };
                at = from;
                count += 1;
            }
        }
    }
}
