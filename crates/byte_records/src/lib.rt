// Numbers and runs of bytes, read and stored, and buffers that are cleared.
#![tactic(auto)]

pub mod clearing;
pub mod little_endian;
pub mod store;
