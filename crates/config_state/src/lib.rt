//! Configurations: what there is at a moment of a run. A configuration has cogs, objects and tasks, each known by its
//! index, and a future is the index of its task.
#![tactic(auto)]

pub mod cog;
pub mod config;
pub mod frame;
pub mod initial;
pub mod laws;
pub mod lines;
pub mod object;
pub mod sharing;
pub mod task;

pub use cog::{Cog, Cogs};
pub use config::Config;
pub use frame::{Frame, Frames, Target};
pub use initial::first;
pub use laws::bodies_are_in_the_table;
pub use lines::Lines;
pub use object::{ObjectCell, Objects};
pub use sharing::configurations_are_shared;
pub use task::{State, TaskCell, Tasks};
