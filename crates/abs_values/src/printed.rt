//! The printed form of a value: whole, or within a limit.
ghost use Rattle.std.specs.Prelude.{◌≡◌, ◌++◌, ◌≤◌, length, codes, IfOk};
ghost use Rattle.abs_values.specs.Printed.{printed_form, inner_form, parts_form, escaped, escaped_byte};
ghost use Rattle.abs_values.specs.declared.printed.Stop.TheVariants.{Memory};
ghost use Rattle.abs_values.specs.PrintedWithin.{within, Appends};
ghost use Rattle.abs_values.specs.ValueViews.{value_tree, value_trees};

use crate::Value;
use abs_tree::{Symbols, Text};
use std::alloc::{AllocError, Global};

/// The printed form of a value in a program with these names: a number in decimal, with `-` if it is negative; a string
/// as it is, and inside data in quotes with its escapes; a constructor with its parts in parentheses; `object N`,
/// `future N`, `null`. A constructor whose symbol the program does not have gets the empty name.
///
/// # Errors
/// [`AllocError`] if an allocation fails.
pub fn value_text(alloc: Global, names: &Symbols<'_>, value: &Value) -> Result<Text, AllocError>
    ensures { IfOk result (λ text. text ≡ printed_form names.now (value_tree value.now)) }
{
    match value_text_within(alloc, names, value, usize::MAX)? {
        Some(text) => Ok(text),
        None => Err(AllocError),
    }
}

/// The printed form of a value, if it has at most `most` bytes. It stops as soon as the form is longer, so it takes no
/// more memory and time than `most` and the greatest name or string ask for.
///
/// # Errors
/// [`AllocError`] if an allocation fails.
pub fn value_text_within(
    alloc: Global,
    names: &Symbols<'_>,
    value: &Value,
    most: usize,
) -> Result<Option<Text>, AllocError>
    ensures { IfOk result (λ found. found ≡ within most (printed_form names.now (value_tree value.now))) }
{
    if let Value::Text(text) = value {
        return if text.len() <= most {
            Ok(Some(text.share()?))
        } else {
            Ok(None)
        };
    }
    let mut form = Vec::new(alloc);
    match add_value(alloc, names, value, most, &mut form) {
        Ok(()) => Ok(Some(Text::new(alloc, form)?)),
        Err(Stop::TooLong) => Ok(None),
        Err(Stop::Memory) => Err(AllocError),
    }
}

/// Why a form is not made.
enum Stop {
    /// It is longer than the limit.
    TooLong,
    /// An allocation failed.
    Memory,
}

impl From<AllocError> for Stop {
    ghost from_gives = { λ _ stop. stop ≡ Memory };

    fn from(_: AllocError) -> Stop {
        Stop::Memory
    }
}

/// Adds the form of a value inside data.
#[cycle(printed)]
#[tactic(auto, unfolding(crate::specs::Printed::inner_form, crate::specs::ValueTrees::value_nodes))]
fn add_value(
    alloc: Global,
    names: &Symbols<'_>,
    value: &Value,
    most: usize,
    form: &mut Vec<u8>,
) -> Result<(), Stop>
    requires { length form.old.items ≤ most }
    ensures { Appends most form.old.items (inner_form names.now (value_tree value.now)) result form.new.items }
{
    match value {
        Value::Int(number) => add(format!(in alloc; "{number}")?.as_bytes(), most, form),
        Value::Text(text) => add_string(text.as_bytes(), most, form),
        Value::Built(constructor, parts) => {
            add(names.name(*constructor), most, form)?;
            add_parts(alloc, names, parts.as_slice(), most, form)
        }
        Value::Object(object) => {
            add(format!(in alloc; "object {object}")?.as_bytes(), most, form)
        }
        Value::Future(task) => { add(format!(in alloc; "future {task}")?.as_bytes(), most, form) }
        Value::Null => add(b"null", most, form),
    }
}

/// Adds the parts of a constructor in parentheses; nothing without parts.
#[cycle(printed)]
#[tactic(auto, unfolding(crate::specs::Printed::inner_form, crate::specs::ValueTrees::value_nodes))]
fn add_parts(
    alloc: Global,
    names: &Symbols<'_>,
    parts: &[Value],
    most: usize,
    form: &mut Vec<u8>,
) -> Result<(), Stop>
    requires { length form.old.items ≤ most }
    ensures { Appends most form.old.items (parts_form names.now (value_trees parts.now)) result form.new.items }
{
    let Some((first, others)) = parts.split_first() else {
        return Ok(());
    };
    add(b"(", most, form)?;
    add_value(alloc, names, first, most, form)?;
    for other in others {
        add(b", ", most, form)?;
        add_value(alloc, names, other, most, form)?;
    }
    add(b")", most, form)
}

/// Adds a string in quotes, with its escapes.
fn add_string(string: &[u8], most: usize, form: &mut Vec<u8>) -> Result<(), Stop>
    requires { length form.old.items ≤ most }
    ensures { Appends most form.old.items (codes "\"" ++ (escaped string.now ++ codes "\"")) result form.new.items }
{
    add(b"\"", most, form)?;
    for byte in string {
        add_byte(*byte, most, form)?;
    }
    add(b"\"", most, form)
}

/// Adds a byte of a string, escaped if it has to be.
fn add_byte(byte: u8, most: usize, form: &mut Vec<u8>) -> Result<(), Stop>
    requires { length form.old.items ≤ most }
    ensures { Appends most form.old.items (escaped_byte byte) result form.new.items }
{
    match byte {
        b'"' => add(b"\\\"", most, form),
        b'\\' => add(b"\\\\", most, form),
        b'\n' => add(b"\\n", most, form),
        b'\t' => add(b"\\t", most, form),
        b'\r' => add(b"\\r", most, form),
        other => add(&[other], most, form),
    }
}

/// Adds some bytes, if all is within the limit then.
fn add(piece: &[u8], most: usize, form: &mut Vec<u8>) -> Result<(), Stop>
    requires { length form.old.items ≤ most }
    ensures { Appends most form.old.items piece.now result form.new.items }
{
    if piece.len() > most - form.len() {
        return Err(Stop::TooLong);
    }
    form.extend_from_slice(piece)?;
    Ok(())
}
