// Stores of type records: a span, a payload that is joined to one, a whole record, and a new one before others.
ghost use Rattle.std.specs.Prelude.{◌≡◌, ◌+◌, ◌*◌, ◌^◌, ◌<◌, ◌≤◌, ◌++◌, length, take, drop};
ghost use Rattle.std.proofs.lemmas.List.Edits.{sets};
ghost use Rattle.byte_records.specs.Number.{bytes_of};
ghost use Rattle.counting_theory.specs.Payload as theory;
ghost use Rattle.counting_theory.specs.Encoding.{type_size, type_payload};
ghost use Rattle.type_arena.specs.Inside.Arena.{HasRecord, span_offset, header_of, record_bytes_of};
ghost use Rattle.type_arena.specs.Inside.Payload.{payload_of, payload_offset, payload_bytes};

use crate::layout::{KEY_OFFSET, SPAN_OFFSET};
use crate::payload::{Payload, payload_at};
use crate::type_record::SIZE;
use byte_records::store::{open_gap, put_bytes, store_number};

// That an arena has no room for a record.
#[derive(Clone, Copy, Debug, PartialEq, Eq)]
pub struct NoRoom;

// Stores the span of record i.
pub fn store_span(b: &mut [u8], i: usize, span: usize)
    requires { HasRecord b.old i }
    ensures { b.new ≡ sets b.old (type_size * i + span_offset) (bytes_of 4 span) }
{
    store_number::<4>(b, SIZE * i + SPAN_OFFSET, span);
}

// Joins a payload to that of record i.
pub fn join_payload(b: &mut [u8], i: usize, more: Payload)
    requires { HasRecord b.old i }
    ensures { b.new ≡ sets b.old (type_size * i + payload_offset)
        (payload_bytes (theory.join (type_payload b.old i) (payload_of more))) }
{
    payload_at(b, i).join(more).store(b, SIZE * i);
}

// A type record: its fields, and what it keeps of the values at its place.
#[derive(Clone, Copy)]
pub struct TypeRecord {
    pub kind: u8,
    pub key: usize,
    pub span: usize,
    pub payload: Payload,
}

impl TypeRecord {
    // Stores it where there is room for it.
    pub fn store(self, out: &mut [u8], at: usize)
        requires { at + type_size ≤ length out.old }
        ensures { out.new ≡ sets out.old at (record_bytes_of self) }
    {
        store_number::<2>(out, at, self.kind as usize);
        store_number::<2>(out, at + KEY_OFFSET, self.key);
        store_number::<4>(out, at + SPAN_OFFSET, self.span);
        self.payload.store(out, at);
    }

    // Stores it as far as there is room.
    pub fn put(self, out: &mut [u8], at: usize)
        requires { at + type_size < 2 ^ 64 }
        ensures { out.new ≡ sets out.old at (record_bytes_of self) }
    {
        if at + SIZE <= out.len() {
            self.store(out, at);
            return;
        }
        let mut bytes = [0u8; SIZE];
        self.store(&mut bytes, 0);
        put_bytes(&bytes, out, at);
    }
}

// Puts a new record with nothing inside it before the first n bytes.
pub fn insert_record(b: &mut [u8], n: usize, kind: u8, key: usize, payload: Payload)
    requires { n + type_size ≤ length b.old }
    ensures { b.new ≡ header_of kind key 1 (payload_of payload) ++ (take n b.old ++ drop (n + type_size) b.old) }
{
    open_gap(b, n, SIZE);
    let record = TypeRecord {
        kind,
        key,
        span: 1,
        payload,
    };
    record.store(b, 0);
}
