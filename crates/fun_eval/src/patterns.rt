//! Matching values with patterns.
ghost use Rattle.std.specs.Prelude.{◌≡◌, map, IfOk};
ghost use Rattle.std.specs.Option.{option_map};
ghost use Rattle.abs_tree.specs.Names.{name_of, number_of_name};
ghost use Rattle.abs_values.specs.Operations.{all_matched, matched};
ghost use Rattle.abs_tree.specs.SyntaxViews.{pattern_tree, pattern_trees};
ghost use Rattle.abs_values.specs.ValueViews.{value_tree, value_trees};
ghost use Rattle.fun_eval.specs.Matching.{is_number, is_string, parts_with, ChoosesFirst, Matches};

use abs_tree::{Branch, Pattern, Symbol, Symbols};
use abs_values::Value;
use std::alloc::AllocError;

/// The first of these branches whose pattern matches a value. The values of the pattern's variables are added to those
/// that are bound.
///
/// # Errors
/// [`AllocError`] if an allocation fails. So it is for each function here.
pub fn first_match<'b>(
    symbols: &Symbols<'_>,
    value: &Value,
    branches: &'b [Branch],
    bound: &mut Vec<Value>,
) -> Result<Option<&'b Branch>, AllocError>
    ensures { IfOk result (λ found. ChoosesFirst symbols.now branches.now (value_tree value.now)
        (option_map (λ branch. branch.now) found) (map value_tree bound.old.items)
        (map value_tree bound.new.items)) }
{
    let outside = bound.len();
    for branch in branches {
        if matches(symbols, &branch.pattern, value, bound)? {
            return Ok(Some(branch));
        }
        bound.truncate(outside);
    }
    Ok(None)
}

/// Whether a pattern matches a value. If it does, the values of its variables are added to those that are bound, in
/// their order. If not, some values may have been added.
#[cycle(matching)]
fn matches(
    symbols: &Symbols<'_>,
    pattern: &Pattern,
    value: &Value,
    bound: &mut Vec<Value>,
) -> Result<bool, AllocError>
    ensures { IfOk result (λ answer. Matches (matched symbols.now (pattern_tree symbols.now pattern.now)
        (value_tree value.now)) answer (map value_tree bound.old.items) (map value_tree bound.new.items)) }
{
    match pattern {
        Pattern::Any(_) => Ok(true),
        Pattern::Binds(..) => {
            bound.push(value.share()?)?;
            Ok(true)
        }
        Pattern::Number(_, number) => Ok(is_number(value, *number)),
        Pattern::Text(_, text) => Ok(is_string(value, text.as_bytes())),
        Pattern::Built {
            constructor,
            arguments,
            ..
        } => match parts_of(symbols, value, *constructor) {
            Some(parts) => all_match(symbols, arguments, parts, bound),
            None => Ok(false),
        },
    }
}

/// Whether patterns match values one by one, as many as they are. If they do, the values of their variables are added
/// to those that are bound, in their order. If not, some values may have been added.
#[cycle(matching)]
fn all_match(
    symbols: &Symbols<'_>,
    patterns: &[Pattern],
    values: &[Value],
    bound: &mut Vec<Value>,
) -> Result<bool, AllocError>
    ensures { IfOk result (λ answer. Matches (all_matched symbols.now (pattern_trees symbols.now patterns.now)
        (value_trees values.now)) answer (map value_tree bound.old.items) (map value_tree bound.new.items)) }
{
    if patterns.len() != values.len() {
        return Ok(false);
    }
    for (pattern, value) in patterns.iter().zip(values) {
        if !matches(symbols, pattern, value, bound)? {
            return Ok(false);
        }
    }
    Ok(true)
}

/// Whether a value is this number.
fn is_number(value: &Value, number: i128) -> bool
    ensures { result ≡ is_number number (value_tree value.now) }
{
    match value {
        Value::Int(other) => *other == number,
        _ => false,
    }
}

/// Whether a value is this string.
fn is_string(value: &Value, string: &[u8]) -> bool
    ensures { result ≡ is_string string.now (value_tree value.now) }
{
    match value {
        Value::Text(other) => other.as_bytes() == string,
        _ => false,
    }
}

/// The parts of a value that has this constructor.
fn parts_of<'v>(symbols: &Symbols<'_>, value: &'v Value, constructor: Symbol) -> Option<&'v [Value]>
    ensures { option_map (λ parts. value_trees parts.now) result
        ≡ parts_with (number_of_name symbols.now (name_of symbols.now constructor)) (value_tree value.now) }
{
    match value {
        Value::Built(other, parts) => {
            if symbols.number(constructor) == other.0 {
                Some(parts.as_slice())
            } else {
                None
            }
        }
        _ => None,
    }
}
