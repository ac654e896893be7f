//! Whether two values are the same.
ghost use Rattle.std.specs.Prelude.{◌≡◌};
ghost use Rattle.abs_values.specs.ValueTrees.{same_value, same_parts};
ghost use Rattle.abs_values.specs.ValueViews.{value_tree, value_trees};

use crate::{Parts, Value};

/// Whether two values are the same: data by its structure, objects and futures by their numbers. Values of two sorts
/// are not the same. It takes no memory.
#[cycle(comparison)]
#[tactic(auto, unfolding(crate::specs::ValueTrees::same_value, crate::specs::ValueTrees::value_nodes))]
pub fn value_equal(left: &Value, right: &Value) -> bool
    ensures { result ≡ same_value (value_tree left.now) (value_tree right.now) }
{
    match left {
        Value::Int(number) => matches!(right, Value::Int(other) if other == number),
        Value::Text(text) =>
            matches!(right, Value::Text(other) if other.as_bytes() == text.as_bytes()),
        Value::Built(constructor, parts) => match right {
            Value::Built(other, others) => constructor.0 == other.0 && parts_equal(parts, others),
            _ => false,
        },
        Value::Object(object) => matches!(right, Value::Object(other) if other == object),
        Value::Future(task) => matches!(right, Value::Future(other) if other == task),
        Value::Null => matches!(right, Value::Null),
    }
}

/// Whether the parts of two constructors are the same, one by one. Those with different numbers of nodes are not, and
/// to see this takes the same time for all.
#[cycle(comparison)]
#[tactic(auto, unfolding(crate::specs::ValueTrees::same_value, crate::specs::ValueTrees::value_nodes))]
fn parts_equal(left: &Parts, right: &Parts) -> bool
    ensures { result ≡ same_parts left.now right.now }
{
    if left.nodes() != right.nodes() {
        return false;
    }
    let values = left.as_slice();
    let others = right.as_slice();
    if values.len() != others.len() {
        return false;
    }
    for (one, other) in values.iter().zip(others) {
        if !value_equal(one, other) {
            return false;
        }
    }
    true
}
