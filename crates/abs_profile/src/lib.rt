//! What the profile of the language refuses in a program whose names are resolved: the first such offence.
#![tactic(auto)]

mod accepted;
mod declarations;
mod expressions;
mod program;
mod statements;

pub use accepted::checked_is_accepted;
pub use program::profile_offence;
