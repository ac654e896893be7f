//! Histories: whose event came when, the run of a history, and the order of one worker.
#![tactic(auto)]

pub mod history;
pub mod order;
pub mod replays;
pub mod sharing;

pub use history::History;
pub use order::turns_are_one_order;
pub use replays::{Replayed, replay};
pub use sharing::histories_are_shared;
