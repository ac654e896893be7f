//! Names for the cogs, the objects and the tasks of all runs of a program, bounded so that there are finitely many. A
//! cog is named by the places at which it and the cogs around it are made, and of those just the youngest are kept.
#![tactic(auto)]

mod kind;
mod name;

pub use kind::{Kind, Sign};
pub use name::{Name, bound};
