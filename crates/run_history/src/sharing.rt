//! Histories that threads share.
use crate::History;

/// A function of types whose values threads can hand over and share.
fn is_shared<T: Send + Sync>() {}

/// Threads can hand over and share histories.
pub fn histories_are_shared() {
    is_shared::<History>();
}
