//! Configurations that threads share.
use crate::{Config, Lines};

/// A function of types whose values threads can hand over and share.
fn is_shared<T: Send + Sync>() {}

/// Threads can hand over and share configurations and lines.
pub fn configurations_are_shared() {
    is_shared::<Config>();
    is_shared::<Lines>();
}
