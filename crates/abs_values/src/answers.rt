//! The two answers, which are values of constructors without parts.
ghost use Rattle.std.specs.Prelude.{◌≡◌, List, codes};
ghost use Rattle.abs_tree.specs.Names.{number_of_name};
ghost use Rattle.abs_values.specs.Operations.{truth_of};
ghost use Rattle.abs_tree.specs.Syntax.{Name};
ghost use Rattle.abs_values.specs.ValueTrees.{BuiltValue, NoPart};
ghost use Rattle.abs_values.specs.ValueViews.{value_tree};

use crate::Value;
use abs_tree::Symbol;

/// The answer that a value is, if it is a Bool. The symbols are those of `True` and of `False`, as
/// [`Symbols::symbol_of`](crate::Symbols::symbol_of) gives them.
pub fn answer_of(value: &Value, yes: Symbol, no: Symbol) -> Option<bool>
    ensures { (names : List Name) → yes.0 ≡ number_of_name names (codes "True")
        → no.0 ≡ number_of_name names (codes "False") → result ≡ truth_of names (value_tree value.now) }
{
    match value {
        Value::Built(symbol, parts) => {
            if parts.as_slice().is_empty() {
                constructor_answer(*symbol, yes, no)
            } else {
                None
            }
        }
        _ => None,
    }
}

/// The answer that a constructor without parts is.
fn constructor_answer(constructor: Symbol, yes: Symbol, no: Symbol) -> Option<bool>
    ensures { (names : List Name) → yes.0 ≡ number_of_name names (codes "True")
        → no.0 ≡ number_of_name names (codes "False") → result ≡ truth_of names (BuiltValue constructor.0 NoPart) }
{
    if constructor.0 == yes.0 {
        Some(true)
    } else if constructor.0 == no.0 {
        Some(false)
    } else {
        None
    }
}
