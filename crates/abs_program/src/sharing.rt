//! Expressions of statements that threads share.
use crate::Exprs;

/// A function of types whose values threads can hand over and share.
fn is_shared<T: Send + Sync>() {}

/// Threads can hand over and share the expressions of statements.
pub fn expressions_are_shared() {
    is_shared::<Exprs>();
}
