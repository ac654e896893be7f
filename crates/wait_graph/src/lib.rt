//! Which tasks wait for which others, and circles of them.
#![tactic(auto)]

mod laws;

pub use laws::{
    first_waits_are_waits, progress, stalled_has_a_circle, stalled_tasks_wait,
    waits_are_of_two_sorts,
};
