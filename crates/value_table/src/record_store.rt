// Stores of value records.
ghost use Rattle.std.specs.Prelude.{◌≡◌, ◌+◌, ◌*◌, ◌≤◌, length};
ghost use Rattle.std.proofs.lemmas.List.Edits.{sets};
ghost use Rattle.byte_records.specs.Number.{bytes_of};
ghost use Rattle.value_table.specs.Value.{record_size};
ghost use Rattle.value_table.specs.Inside.RecordBytes.{span_offset, header_of};

use crate::record::{KEY_OFFSET, SIZE, SPAN_OFFSET};
use byte_records::store::store_number;

// Stores record i: a value of this kind with a key, and nothing inside it.
pub fn store_value(table: &mut [u8], i: usize, kind: u8, key: usize)
    requires { record_size * i + record_size ≤ length table.old }
    ensures { table.new ≡ sets table.old (record_size * i) (header_of kind key 1) }
{
    let at = SIZE * i;
    store_number::<2>(table, at, kind as usize);
    store_number::<2>(table, at + KEY_OFFSET, key);
    store_number::<4>(table, at + SPAN_OFFSET, 1);
}

// Stores the span of record i.
pub fn store_span(table: &mut [u8], i: usize, span: usize)
    requires { record_size * i + record_size ≤ length table.old }
    ensures { table.new ≡ sets table.old (record_size * i + span_offset) (bytes_of 4 span) }
{
    store_number::<4>(table, SIZE * i + SPAN_OFFSET, span);
}
