//! Soundness of the analysis. It begins with the order of knowledge: tasks know futures of tasks that come later alone.
//! The crate has definitions and laws alone.
#![tactic(auto)]

mod laws;

pub use laws::{knowledge_is_ordered, knowledge_never_closes, never_stuck_without_get};
