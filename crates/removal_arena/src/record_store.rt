// A type record of 16 bytes, which removal alone works on, and its store.
ghost use Rattle.std.specs.Prelude.{◌≡◌, ◌+◌, ◌^◌, ◌≤◌, ◌<◌, length};
ghost use Rattle.std.proofs.lemmas.List.Edits.{sets};
ghost use Rattle.removal_theory.specs.Encoding.{type_size};
ghost use Rattle.removal_arena.specs.Inside.Arena.{record_bytes_of};

use crate::type_record::SIZE;
use byte_records::store::{put_bytes, store_number};
use type_arena::layout::{COUNT_OFFSET, KEY_OFFSET, SPAN_OFFSET};

// A type record: its fields, and how many values stand at its place.
#[derive(Clone, Copy)]
pub struct TypeRecord {
    pub kind: u8,
    pub key: usize,
    pub span: usize,
    pub count: usize,
}

impl TypeRecord {
    // Stores it where there is room for it.
    pub fn store(self, out: &mut [u8], at: usize)
        requires { at + type_size ≤ length out.old }
        ensures { out.new ≡ sets out.old at (record_bytes_of self) }
    {
        store_number::<2>(out, at, self.kind as usize);
        store_number::<2>(out, at + KEY_OFFSET, self.key);
        store_number::<4>(out, at + SPAN_OFFSET, self.span);
        store_number::<8>(out, at + COUNT_OFFSET, self.count);
    }

    // Stores it as far as there is room.
    pub fn put(self, out: &mut [u8], at: usize)
        requires { at + type_size < 2 ^ 64 }
        ensures { out.new ≡ sets out.old at (record_bytes_of self) }
    {
        if at + SIZE <= out.len() {
            self.store(out, at);
            return;
        }
        let mut bytes = [0u8; SIZE];
        self.store(&mut bytes, 0);
        put_bytes(&bytes, out, at);
    }
}
