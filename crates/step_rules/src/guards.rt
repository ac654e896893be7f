//! What the futures of a guard allow.
ghost use Rattle.std.specs.Prelude.{◌≡◌, List};
ghost use Rattle.std.specs.Option.{option_map};
ghost use Rattle.abs_tree.specs.Syntax.{Name};
ghost use Rattle.abs_values.specs.ValueViews.{value_tree};
ghost use Rattle.config_state.specs.ConfigViews.{configuration};
ghost use Rattle.step_rules.specs.Lookups.{named_value as value_named};
ghost use Rattle.step_rules.specs.Plans.{guard_tree};
ghost use Rattle.step_rules.specs.WaitRules.{guard_by_value, guard_of};

use abs_values::{Fault, Value, Values};
use config_state::Config;

/// The value in the slot that a statement names, if it names one.
pub(crate) fn named_value(slots: &Values, name: Option<u32>) -> Option<&Value>
    ensures { option_map (λ value. value_tree value.now) result ≡ value_named slots.now name }
{
    slots.as_slice().get(name? as usize)
}

/// Whether the futures in these slots are all resolved.
///
/// # Errors
/// The first fault among them.
pub(crate) fn are_resolved(
    config: &Config,
    slots: &Values,
    names: &[Option<u32>],
) -> Result<bool, Fault>
    ensures { (symbols : List Name) → guard_tree result ≡ guard_of (configuration symbols config.now) slots.now
        names.now }
{
    let mut all = true;
    for name in names {
        let resolved = is_resolved(config, named_value(slots, *name))?;
        all = all && resolved;
    }
    Ok(all)
}

/// Whether a future is resolved.
///
/// # Errors
/// The fault Null for null, and Mistyped for what is no future.
fn is_resolved(config: &Config, value: Option<&Value>) -> Result<bool, Fault>
    ensures { (symbols : List Name) → guard_tree result ≡ guard_by_value (configuration symbols config.now)
        (option_map (λ found. value_tree found.now) value.entry) }
{
    match value {
        Some(Value::Future(task)) => match config.tasks.items.get(*task as usize) {
            Some(task) => Ok(task.outcome.is_some()),
            None => Err(Fault::Mistyped),
        },
        Some(Value::Null) => Err(Fault::Null),
        _ => Err(Fault::Mistyped),
    }
}
