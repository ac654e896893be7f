//! Lemmas about lists, options, numbers and Booleans, which the proofs of the other crates share. It has no code.
#![tactic(auto)]
