//! Lists of numbers, as values.
use crate::failure::Failure;
use abs_tree::Symbol;
use abs_values::Value;
use std::alloc::Global;

/// The constructor of a list without a number. No operation looks up the name of a constructor, so no table has it.
const NIL: Symbol = Symbol(0);

/// The constructor of a list with a first number and the list after it.
const CONS: Symbol = Symbol(1);

/// A list of `size` numbers, each of which is smaller by one than the one before it.
///
/// # Errors
/// [`Failure::Usage`] if it is past a limit of values, and [`Failure::Memory`] if memory runs out.
pub(crate) fn list_of(alloc: Global, size: u32) -> Result<Value, Failure> {
    let mut list = built(alloc, NIL, Vec::new(alloc))?;
    for number in 0..size {
        list = cons(alloc, number, list)?;
    }
    Ok(list)
}

/// A list with this first number and this list after it.
///
/// # Errors
/// [`Failure::Usage`] if it is past a limit of values, and [`Failure::Memory`] if memory runs out.
pub(crate) fn cons(alloc: Global, number: u32, rest: Value) -> Result<Value, Failure> {
    let parts = vec![in alloc; Value::Int(i128::from(number)), rest]?;
    built(alloc, CONS, parts)
}

/// A constructor with these parts.
///
/// # Errors
/// [`Failure::Usage`] if it is past a limit of values, and [`Failure::Memory`] if memory runs out.
fn built(alloc: Global, constructor: Symbol, parts: Vec<Value>) -> Result<Value, Failure> {
    match Value::built(alloc, constructor, parts)? {
        Some(value) => Ok(value),
        None => Err(Failure::Usage),
    }
}
