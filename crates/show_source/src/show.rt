//! What is shown of a source, as whole lines: its tree, its tree with its names resolved, its names or its tokens.
ghost use Rattle.std.specs.Prelude.{◌≤◌, length};
ghost use Rattle.abs_tree.specs.Limits.{source_limit};

use crate::declarations::add_tree;
use crate::failure::Failure;
use crate::prelude::prelude_lines;
use crate::sink::Sink;
use abs_lexer::lexer::tokens;
use abs_lexer::token::Tokens;
use abs_names::resolve;
use abs_parser::parse;
use abs_prelude::DECLARATIONS;
use abs_program::Named;
use abs_tree::{Body, Decl, Place, Program, Symbol, Symbols};
use std::alloc::{AllocError, Global};

/// What is shown of a source.
#[derive(Clone, Copy)]
pub(crate) enum What {
    /// The tree.
    Tree,
    /// The tree with its names resolved, without the declarations of the prelude.
    Resolved,
    /// The tree with its names resolved, after the declarations of the prelude.
    Declared,
    /// The table of names of the source, in the order of their symbols.
    Names,
    /// The table of names of the resolved program: those of the source, and then those of the prelude.
    Symbols,
    /// The tokens, and the place after the last byte.
    Tokens,
    /// The tree of the prelude, whatever the source is: as its text is read, and as it is made from a table.
    Prelude,
}

impl What {
    /// What a word of the command line names.
    pub(crate) fn named(word: &str) -> Option<What> {
        match word {
            "tree" => Some(What::Tree),
            "resolved" => Some(What::Resolved),
            "declared" => Some(What::Declared),
            "names" => Some(What::Names),
            "symbols" => Some(What::Symbols),
            "tokens" => Some(What::Tokens),
            "prelude" => Some(What::Prelude),
            _ => None,
        }
    }
}

/// What is asked for of a source.
///
/// # Errors
/// [`Failure::Refused`] where the lexer refuses the source. So does the parser where more than its tokens are asked
/// for, and the resolver where its resolved program is. [`Failure::Memory`] where memory runs out.
pub(crate) fn show(alloc: Global, what: What, source: &[u8]) -> Result<String, Failure>
    requires { length source.now ≤ source_limit }
{
    let list = tokens(alloc, source)?;
    let lines = match what {
        What::Tokens => token_lines(alloc, &list),
        _ => return program_lines(alloc, what, parse(alloc, &list)?),
    };
    Ok(lines?)
}

/// What is asked for of a program.
///
/// # Errors
/// [`Failure::Refused`] where the resolver refuses the program, and its resolved form is asked for.
/// [`Failure::Memory`] where memory runs out.
fn program_lines(alloc: Global, what: What, program: Program<'_>) -> Result<String, Failure> {
    let lines = match what {
        What::Names => name_lines(alloc, &program.symbols),
        What::Resolved | What::Declared | What::Symbols => {
            resolved_lines(alloc, what, &resolve(alloc, program)?)
        }
        What::Prelude => return prelude_lines(alloc),
        What::Tree | What::Tokens => tree_line(
            alloc,
            &program.symbols,
            program.declarations.as_slice(),
            &program.main,
        ),
    };
    Ok(lines?)
}

/// What is asked for of a resolved program. The declarations of the prelude come first in it.
///
/// # Errors
/// [`AllocError`] if memory runs out.
fn resolved_lines(alloc: Global, what: What, named: &Named<'_>) -> Result<String, AllocError> {
    let all = named.declarations.as_slice();
    let shown = match what {
        What::Symbols => return name_lines(alloc, &named.symbols),
        What::Declared => all,
        _ => all.get(DECLARATIONS..).unwrap_or(all),
    };
    tree_line(alloc, &named.symbols, shown, &named.main)
}

/// A line with the tree of these parts.
///
/// # Errors
/// [`AllocError`] if memory runs out.
fn tree_line(
    alloc: Global,
    symbols: &Symbols<'_>,
    declarations: &[Decl],
    main: &Body,
) -> Result<String, AllocError> {
    add_tree(Sink::new(alloc), symbols, declarations, main).finish()
}

/// A line for each token: its offset, its place, its kind and its bytes. The last line is the end of the source.
///
/// # Errors
/// [`AllocError`] if memory runs out.
fn token_lines(alloc: Global, list: &Tokens<'_>) -> Result<String, AllocError> {
    let mut sink = Sink::new(alloc);
    for index in 0..list.len() {
        let token = list.at(index);
        add_offset(token.place, &mut sink);
        sink.debug(&token.kind);
        sink.push(" ");
        sink.bytes(token.slice);
        sink.push("\n");
    }
    add_offset(list.end(), &mut sink);
    sink.push("end\n");
    sink.finish()
}

/// Prints the offset of a place, its line and its column, before a space.
fn add_offset(place: Place, sink: &mut Sink) {
    sink.print(&place.offset);
    sink.push(" ");
    sink.print(&place.line);
    sink.push(":");
    sink.print(&place.column);
    sink.push(" ");
}

/// A line for each name, in the order of the symbols.
///
/// # Errors
/// [`AllocError`] if memory runs out.
fn name_lines(alloc: Global, symbols: &Symbols<'_>) -> Result<String, AllocError> {
    let mut sink = Sink::new(alloc);
    for number in 0..symbols.len() {
        match u32::try_from(number) {
            Ok(number) => sink.bytes(symbols.name(Symbol(number))),
            Err(_) => sink.push("?"),
        }
        sink.push("\n");
    }
    sink.finish()
}
