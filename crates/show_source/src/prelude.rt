//! Prints the tree of the prelude twice: as its text is read, and as it is made from a table.
ghost use Rattle.std.specs.Prelude.{◌≤◌, length};
ghost use Rattle.abs_tree.specs.Limits.{source_limit};

use crate::declarations::add_tree;
use crate::failure::Failure;
use crate::sink::Sink;
use abs_lexer::lexer::tokens;
use abs_parser::parse;
use abs_prelude::{DECLARATIONS, TEXT, add_names, prelude};
use abs_tree::limits::SOURCE_LIMIT;
use abs_tree::{Program, Symbols};
use std::alloc::{AllocError, Global};

/// Two lines with the tree of the prelude before an empty main block: as its text is read, and as it is made from a
/// table.
///
/// # Errors
/// [`Failure::Refused`] if the text is no program, and [`Failure::Memory`] if memory runs out.
pub(crate) fn prelude_lines(alloc: Global) -> Result<String, Failure> {
    let source = prelude_source(alloc)?;
    if source.len() > SOURCE_LIMIT {
        return Err(Failure::TooLarge);
    }
    both_trees(alloc, source.as_bytes())
}

/// The text of the declarations of the prelude, one of which is on a line, before an empty main block.
///
/// # Errors
/// [`AllocError`] if memory runs out.
fn prelude_source(alloc: Global) -> Result<String, AllocError> {
    let mut source = Sink::new(alloc);
    for line in TEXT.lines().take(DECLARATIONS) {
        source.push(line);
        source.push("\n");
    }
    source.push("{ }");
    source.finish()
}

/// A line with the tree of a source, and one with that of the prelude before the main block of the source.
///
/// # Errors
/// [`Failure::Refused`] if the source is no program, and [`Failure::Memory`] if memory runs out.
fn both_trees(alloc: Global, source: &[u8]) -> Result<String, Failure>
    requires { length source.now ≤ source_limit }
{
    let list = tokens(alloc, source)?;
    let read = parse(alloc, &list)?;
    Ok(made_after(alloc, &read)?)
}

/// A line with the tree of a program, and one with that of the prelude before the main block of the program.
///
/// # Errors
/// [`AllocError`] if memory runs out.
fn made_after(alloc: Global, read: &Program<'_>) -> Result<String, AllocError> {
    let mut symbols = Symbols::new(alloc);
    add_names(&mut symbols)?;
    let made = prelude(alloc, &symbols)?;
    let declarations = read.declarations.as_slice();
    let sink = add_tree(Sink::new(alloc), &read.symbols, declarations, &read.main);
    add_tree(sink, &symbols, made.as_slice(), &read.main).finish()
}
