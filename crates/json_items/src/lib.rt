// The items of a JSON text: a key and a scalar, as the reading meets them.
#![tactic(auto)]

pub mod item;
