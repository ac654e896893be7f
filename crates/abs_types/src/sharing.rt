//! Programs that threads share.
use crate::Checked;
use abs_program::Named;

/// A function of types whose values threads can hand over and share.
fn is_shared<T: Send + Sync>() {}

/// Threads can hand over and share resolved and accepted programs.
pub fn programs_are_shared() {
    is_shared::<Named<'_>>();
    is_shared::<Checked<'_>>();
}
