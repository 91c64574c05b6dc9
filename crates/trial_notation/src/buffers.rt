// The buffers that trials lend.
use type_arena::type_record;
use value_table::record;

// More than any buffer may have, by a record at least.
pub const ROOM: usize = record::MAX_LENGTH + type_record::SIZE;

// What the buffers that a call writes hold beforehand.
pub const DIRT: u8 = 165;
