// The tokens of a JSON text: white space, numbers, words and strings, each scanned from its first byte.
#![tactic(auto)]

pub mod quoted;
pub mod scan;
pub mod tails;
