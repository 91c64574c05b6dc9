// Marks at the keys of open objects.
ghost use Rattle.std.specs.Prelude.{◌≡◌, ◌*◌, ◌<◌, eqb, get_or, set};
ghost use Rattle.text_reader.specs.Inside.Marks.{marks_of, slot_of, Slot};

use byte_records::little_endian::number;
use byte_records::store::store_number;

const MARK_SIZE: usize = 2;

// Whether the key has the mark at a level.
pub fn has_mark(seen: &[u8], listed: usize, level: usize, key: usize, mark: usize) -> bool
    requires { Slot listed seen.now level key }
    ensures { result ≡ eqb (get_or (marks_of listed seen.now) (slot_of listed level key) 0) mark }
{
    number::<2>(seen, MARK_SIZE * (level * listed + (key - 1))) == mark
}

// Marks the key at a level.
pub fn set_mark(seen: &mut [u8], listed: usize, level: usize, key: usize, mark: usize)
    requires { Slot listed seen.old level key × (mark < 65536) }
    ensures { marks_of listed seen.new ≡ set (marks_of listed seen.old) (slot_of listed level key) mark }
{
    store_number::<2>(seen, MARK_SIZE * (level * listed + (key - 1)), mark);
}
