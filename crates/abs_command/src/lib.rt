//! The command `abs`: reads a source, analyses it, runs it, and writes what came of it.
#![tactic(auto)]

pub mod analysis;
pub mod command;
pub mod edge;
pub mod run;
pub mod source;
pub mod texts;

pub use command::{Ended, Status, abs_run};
