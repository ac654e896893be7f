//! Checks classes, interfaces and the main block by their types, and with them a whole program.
#![tactic(auto)]

mod assignments;
mod calls;
mod classes;
mod creations;
mod endings;
mod guards;
mod interfaces;
mod method_types;
mod methods;
mod program;
mod right_sides;
mod statements;
mod visible;

pub use abs_tree::SourceError as TypeError;
pub use program::check;
