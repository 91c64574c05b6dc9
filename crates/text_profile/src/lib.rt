#![tactic(auto)]

// The theory of going from a text to a profile has no functions.
