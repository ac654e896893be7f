//! Tests of what no call of the built programs shows: a source and a sink over memory whose calls fail midway, a source
//! that a call leaves alone, questions about types that the programs do not ask yet, and what follows from the promises
//! of the command. They are a crate of their own, since a crate with tests is proved once more with them.
#![tactic(auto)]

#[cfg(test)]
mod failing;
pub mod promises;
#[cfg(test)]
mod types;
#[cfg(test)]
mod untouched;
