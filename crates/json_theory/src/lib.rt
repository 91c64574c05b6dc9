#![tactic(auto)]

// The theory of JSON text: statements (specs/) and their laws (proofs/), and no function.
