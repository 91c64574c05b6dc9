// The payload of a type record: what a type keeps of the values at one place.
ghost use Rattle.std.specs.Prelude.{◌≡◌, ◌+◌, ◌≤◌, length};
ghost use Rattle.std.proofs.lemmas.List.Edits.{sets};
ghost use Rattle.value_table.specs.Value.{array_kind, Values, count};
ghost use Rattle.counting_theory.specs.Payload as theory;
ghost use Rattle.counting_theory.specs.Encoding.{type_size, type_payload};
ghost use Rattle.type_arena.specs.Inside.Arena.{HasRecord};
ghost use Rattle.type_arena.specs.Inside.Payload.{payload_of, payload_offset, payload_bytes, item_payload};

use crate::layout::COUNT_OFFSET;
use crate::type_record::{LONGEST_OFFSET, SHORTEST_OFFSET, SIZE};
use byte_records::little_endian::number;
use byte_records::store::store_number;
use value_table::record;

#[derive(Clone, Copy)]
pub struct Payload {
    pub count: usize,
    pub shortest: usize,
    pub longest: usize,
}

// The payload of record i.
pub fn payload_at(b: &[u8], i: usize) -> Payload
    requires { HasRecord b.now i }
    ensures { payload_of result ≡ type_payload b.now i }
{
    Payload {
        count: number::<8>(b, SIZE * i + COUNT_OFFSET),
        shortest: number::<4>(b, SIZE * i + SHORTEST_OFFSET),
        longest: number::<4>(b, SIZE * i + LONGEST_OFFSET),
    }
}

impl Payload {
    // What a value of this kind, or a field, gives, `weight` times. An array has so many elements.
    pub fn given(kind: u8, weight: usize, elements: usize) -> Payload
        ensures { (content : Values) → (kind ≡ array_kind → elements ≡ count content) → payload_of result ≡ item_payload weight kind content }
    {
        let length = if kind == record::ARRAY { elements } else { 0 };
        Payload {
            count: weight,
            shortest: length,
            longest: length,
        }
    }

    // The payload of two collections together. A wrapped sum has the bytes of the whole one, so no bound on counts is asked.
    pub fn join(self, other: Payload) -> Payload
        ensures { payload_bytes (payload_of result) ≡ payload_bytes (theory.join (payload_of self) (payload_of other)) }
    {
        Payload {
            count: self.count.wrapping_add(other.count),
            shortest: self.shortest.min(other.shortest),
            longest: self.longest.max(other.longest),
        }
    }

    // Stores it in the record that begins at byte `at`.
    pub fn store(self, out: &mut [u8], at: usize)
        requires { at + type_size ≤ length out.old }
        ensures { out.new ≡ sets out.old (at + payload_offset) (payload_bytes (payload_of self)) }
    {
        store_number::<8>(out, at + COUNT_OFFSET, self.count);
        store_number::<4>(out, at + SHORTEST_OFFSET, self.shortest);
        store_number::<4>(out, at + LONGEST_OFFSET, self.longest);
    }
}
