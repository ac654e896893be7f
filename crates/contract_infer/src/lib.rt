//! The contract of each method and of main: its contract terms, found in one walk over the program.
#![tactic(auto)]

mod accepts;
mod bodies;
mod calls;
mod classes;
mod declared_types;
mod indices;
mod made;
mod program;
mod reads;
mod settled;

pub use abs_tree::SourceError as ProfileError;
pub use program::infer;
