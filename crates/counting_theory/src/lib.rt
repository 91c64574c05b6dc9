// The theory of counting types: statements (specs/) and their laws (proofs/); and the equivalences, which the code has too.
#![tactic(auto)]

pub mod equivalence;
