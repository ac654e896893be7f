//! Values that threads share.
use crate::{Env, Evaluated, Output, Value, Values};

/// A function of types whose values threads can hand over and share.
fn is_shared<T: Send + Sync>() {}

/// Threads can hand over and share values, lists of values, the results of evaluations, and what expressions can read.
pub fn values_are_shared() {
    is_shared::<Value>();
    is_shared::<Values>();
    is_shared::<Evaluated>();
    is_shared::<Output>();
    is_shared::<Env>();
}
