// Type records: their fields, their payload, the order of their labels, their stores, the parts and the level of a run.
#![tactic(auto)]

pub mod addend;
pub mod label_order;
pub mod layout;
pub mod level;
pub mod payload;
pub mod record_store;
pub mod type_record;
