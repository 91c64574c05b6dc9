#![tactic(auto)]

// The theory of the types that removal works on, in records of 16 bytes: statements (specs/) and their laws (proofs/), and no function.
