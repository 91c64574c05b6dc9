// The type records of removal, of 16 bytes: their fields, their store, and the parts of a run.
#![tactic(auto)]

pub mod addend;
pub mod record_store;
pub mod type_record;
