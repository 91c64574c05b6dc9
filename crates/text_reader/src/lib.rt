// The reader from JSON text to a value table.
#![tactic(auto)]

pub mod between;
pub mod call;
pub mod fault;
pub mod field;
pub mod item;
pub mod key_marks;
pub mod reader;
pub mod value;

// The innermost open value: its record, whether it is an object, how many values are open, and how many items it has had. Where none is
// open, the record is 0 and no object, and the items are messages.
#[derive(Clone, Copy)]
pub struct Level {
    record: usize,
    depth: usize,
    items: usize,
    object: bool,
}
