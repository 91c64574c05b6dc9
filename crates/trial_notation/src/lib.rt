// How trials are written: parts of a text, numbers, and the tables, types, texts and books that they spell; and the buffers that they lend.
#![tactic(auto)]

pub mod buffers;
pub mod notation;
pub mod records;
pub mod spelled;
pub mod text;
