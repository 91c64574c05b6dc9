// The fields of a value record, and records with the same bytes.
#![tactic(auto, unfolding(crate::specs::Value::key_at, crate::specs::Value::span_at, byte_records::specs::Format::field_at, crate::specs::Judged::bad_length))]

ghost use Rattle.std.specs.Prelude.{◌≡◌, true, ◌↔◌, ◌+◌, ◌*◌, ◌≤◌, ◌<◌, length};
ghost use Rattle.byte_records.specs.Number.{number_at};
ghost use Rattle.value_table.specs.Value.{record_size, kind_at, zero_at, key_at, span_at};
ghost use Rattle.value_table.specs.Inside.RecordBytes.{record_at};
ghost use Rattle.value_table.specs.Judged.{bad_length};

use byte_records::little_endian::number;

pub const SIZE: usize = 8;

// Where the fields of a record begin in it: behind those that stand before them in the format.
const ZERO_OFFSET: usize = 1;

pub const KEY_OFFSET: usize = 2;

pub const SPAN_OFFSET: usize = 4;

// The most bytes of a table or a type, the largest depth of a value, the largest key, and the most fields of a record.
pub const MAX_LENGTH: usize = 65536;

pub const MAX_DEPTH: usize = 32;

pub const MAX_KEY: usize = 65535;

pub const MAX_FIELDS: usize = 256;

pub const RECORD: u8 = 5;

pub const ARRAY: u8 = 6;

pub const LAST_SCALAR: u8 = 4;

pub fn kind_at(table: &[u8], i: usize) -> u8
    requires { record_size * i + record_size ≤ length table.now }
    ensures { result ≡ kind_at table.now i }
{
    table[SIZE * i]
}

pub fn zero_at(table: &[u8], i: usize) -> u8
    requires { record_size * i + record_size ≤ length table.now }
    ensures { result ≡ zero_at table.now i }
{
    table[SIZE * i + ZERO_OFFSET]
}

// The kind and the zero byte, as one number.
pub fn kind_and_zero_at(table: &[u8], i: usize) -> usize
    requires { record_size * i + record_size ≤ length table.now }
    ensures { result ≡ kind_at table.now i + 256 * zero_at table.now i }
{
    number::<2>(table, SIZE * i)
}

// What stands before the span, the kind, the zero byte and the key, as one number.
pub fn front_at(table: &[u8], i: usize) -> usize
    requires { record_size * i + record_size ≤ length table.now }
    ensures { (result ≡ number_at 4 table.now (record_size * i)) × (result < 4294967296) }
{
    number::<4>(table, SIZE * i)
}

pub fn key_at(table: &[u8], i: usize) -> usize
    requires { record_size * i + record_size ≤ length table.now }
    ensures { result ≡ key_at table.now i }
{
    number::<2>(table, SIZE * i + KEY_OFFSET)
}

pub fn span_at(table: &[u8], i: usize) -> usize
    requires { record_size * i + record_size ≤ length table.now }
    ensures { (result ≡ span_at table.now i) × (result < 4294967296) }
{
    number::<4>(table, SIZE * i + SPAN_OFFSET)
}

// Whether records i and j have the same bytes. A record has the bytes of one number, so one comparison tells.
pub fn same_record(table: &[u8], i: usize, j: usize) -> bool
    requires { (record_size * i + record_size ≤ length table.now) × (record_size * j + record_size ≤ length table.now) }
    ensures { (result ≡ true) ↔ (record_at table.now i ≡ record_at table.now j) }
{
    number::<8>(table, SIZE * i) == number::<8>(table, SIZE * j)
}

// A length that is no multiple of the record size, or above the limit.
pub fn bad_length(n: usize) -> bool
    ensures { result ≡ bad_length n }
{
    n % SIZE != 0 || MAX_LENGTH < n
}
