// The key book: whether it is good, and the number of a key.
#![tactic(auto)]

pub mod book;
pub mod guesses;
pub mod same_key;
pub mod validity;
