// Inference in place: runs of values are added to the siblings that stand in an arena.
#![tactic(auto)]

mod elements;
mod finding;
pub mod inferring;
mod key_list;
pub mod placing;
pub mod repeats;
pub mod scalar_fields;
mod search;
pub mod wanted;
