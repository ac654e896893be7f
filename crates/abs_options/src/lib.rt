//! What the words of the command line ask for, and the text of a generated program.
#![tactic(auto)]

mod generator;
mod meaning;
mod words;

pub use generator::made;
pub use meaning::{FileName, Options, OptionsError, Wanted};
pub use words::options;
