//! The ready set: the tasks that have an event, kept exactly while events come.
#![tactic(auto)]

mod candidates;
mod events;
mod growth;
mod order;
mod posts;
mod ready;
mod reseat;
mod search;
mod set_lists;
mod task_set;
mod turns;

pub use order::next_task;
pub use posts::{Post, Standing};
pub use ready::Ready;
