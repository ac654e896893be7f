//! The output of the command.

pub mod outcome;
pub mod report;
pub mod trace;
