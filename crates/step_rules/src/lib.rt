//! The table of events: what each event of a task changes, and which tasks have one.
#![tactic(auto)]

pub mod enabled;
pub mod events;
mod guards;
pub mod inputs;
mod install;
pub mod kind;
pub mod laws;
mod lookups;
mod made;
mod mover;
mod plan;
mod planning;
pub mod reading;
mod room;
mod rules;
pub mod sharing;
mod turns;
mod waits;

pub use enabled::{has_step, waited_future};
pub use events::{apply, step};
pub use inputs::{Initials, Input, input_equal};
pub use kind::{Did, End};
pub use laws::{
    events_are_rules, events_have_causes, events_keep_configurations, events_leave_the_rest,
    events_stay_apart, events_wait_for_futures, guards_are_reported, local_rules_use_one_class,
    never_stuck_without_waits, values_come_from_reads,
};
pub use reading::input;
pub use sharing::inputs_are_shared;
