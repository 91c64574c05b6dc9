// The slots in which messages wait: numbers of eight bytes, one after the other.
ghost use Rattle.std.specs.Prelude.{◌≡◌, ◌+◌, ◌*◌, ◌^◌, ◌≤◌, ◌<◌, length, get_or, set};
ghost use Rattle.gathering.specs.Inside.Gathering.{slot_size, slots_of, slot_start, slot_count, slot_number};

use byte_records::little_endian::number;
use byte_records::store::store_number;

// The bytes of a slot.
pub const SLOT_SIZE: usize = 8;

// Messages that wait: how many, all like the one at record `first`.
#[derive(Clone, Copy)]
pub struct Waiting {
    pub first: usize,
    pub count: usize,
}

// What each message adds to the number in its slot; below it stands the record at which the first of them begins.
const ONE: usize = 8192;

// What waits in slot k.
pub fn read_slot(slots: &[u8], k: usize) -> Waiting
    requires { slot_size * (k + 1) ≤ length slots.now }
    ensures { (result.first ≡ slot_start (get_or (slots_of slots.now) k 0)) × (result.count ≡ slot_count (get_or (slots_of slots.now) k 0)) }
{
    let slot = number::<SLOT_SIZE>(slots, SLOT_SIZE * k);
    Waiting {
        first: slot % ONE,
        count: slot / ONE,
    }
}

// Puts into slot k what waits there.
pub fn put_slot(slots: &mut [u8], k: usize, waiting: Waiting)
    requires room { slot_size * (k + 1) ≤ length slots.old }
    requires fits { slot_number waiting.first waiting.count < 2 ^ 64 }
    ensures { slots_of slots.new ≡ set (slots_of slots.old) k (slot_number waiting.first waiting.count) }
{
    let slot = waiting.first + ONE * waiting.count;
    store_number::<SLOT_SIZE>(slots, SLOT_SIZE * k, slot);
}
