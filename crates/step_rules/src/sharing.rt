//! Inputs of events that threads share.
use crate::{Did, Initials, Input};

/// A function of types whose values threads can hand over and share.
fn is_shared<T: Send + Sync>() {}

/// Threads can hand over and share what tasks evaluate for their events, initial values, and what events did.
pub fn inputs_are_shared() {
    is_shared::<Input>();
    is_shared::<Initials>();
    is_shared::<Did>();
}
