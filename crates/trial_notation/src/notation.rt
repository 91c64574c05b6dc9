// How a line writes a table or a type: its records, or a word and numbers for a run of them, with further records after a semicolon; and
// before them, it may be, a word for the layout.
use crate::records::{ARRAY, Item, Layout, RECORD, Run, put_around, put_count, put_run, put_text};
use crate::text::{byte_at, cut, number_or};

// A run from place i on and the records behind it. Returns the place behind them.
fn put_behind(
    bytes: &mut [u8],
    layout: Layout,
    item: Item,
    i: usize,
    run: Run,
    records: &[u8],
) -> usize {
    let end = put_run(bytes, layout, item, i, run);
    put_text(bytes, layout, end, records)
}

// A record with a run of fields, and the records for further ones.
fn fields(bytes: &mut [u8], layout: Layout, count: u64, run: Run, records: &[u8]) -> usize {
    let end = put_behind(bytes, layout, Item::Field, 1, run, records);
    put_around(bytes, layout, 0, RECORD, end);
    put_count(bytes, layout, 0, count);
    end
}

// An array with a run of nulls, and the records behind it.
fn elements(bytes: &mut [u8], layout: Layout, run: Run, records: &[u8]) -> usize {
    let end = put_run(bytes, layout, Item::Null, 1, run);
    put_around(bytes, layout, 0, ARRAY, end);
    put_text(bytes, layout, end, records)
}

// The records at a depth, in arrays that end where they do.
fn arrays(bytes: &mut [u8], layout: Layout, depth: usize, records: &[u8]) -> usize {
    let count = depth.wrapping_sub(1);
    let end = put_text(bytes, layout, count, records);
    put_run(
        bytes,
        layout,
        Item::Array(end),
        0,
        Run {
            count,
            key: 0,
            step: 0,
        },
    );
    end
}

// Stores the records or the run that a text writes. Returns how many records it has.
fn put_records(bytes: &mut [u8], layout: Layout, text: &[u8]) -> usize {
    let (head, records) = cut(text, b';');
    let run = Run {
        count: number_or(head, 1, 0),
        key: number_or(head, 2, 0) as u64,
        step: number_or(head, 3, 0) as u64,
    };
    match byte_at(text, 0) {
        b'n' => put_behind(bytes, layout, Item::Null, 0, run, records),
        b'r' => put_behind(bytes, layout, Item::Record, 0, run, records),
        b'f' => fields(bytes, layout, number_or(head, 4, 1) as u64, run, records),
        b'a' => arrays(bytes, layout, run.count, records),
        b'e' => elements(bytes, layout, run, records),
        _ => put_text(bytes, layout, 0, text),
    }
}

fn build_in(bytes: &mut [u8], layout: Layout, text: &[u8]) -> usize {
    layout.start_of(put_records(bytes, layout, text))
}

// Stores what a text writes, in the layout that it names or else in the given one. Returns its length.
pub fn build(bytes: &mut [u8], layout: Layout, text: &[u8]) -> usize {
    match byte_at(text, 0) {
        b'l' => build_in(bytes, Layout::Type, cut(text, b';').1),
        b'p' => build_in(bytes, Layout::Plain, cut(text, b';').1),
        _ => build_in(bytes, layout, text),
    }
}
