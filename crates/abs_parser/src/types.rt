//! Reads types.
ghost use Rattle.std.specs.Prelude.{◌≡◌, ◌+◌, ◌≤◌};
ghost use Rattle.abs_tree.specs.SyntaxViews.{type_tree, type_trees};
ghost use Rattle.abs_parser.specs.Productions.{Type', TypeArguments as ArgumentsOfType, Types};
ghost use Rattle.abs_parser.specs.Readings.{One, Optional};
ghost use Rattle.abs_parser.specs.ReaderAnswers.{Parses, parse_of, HasRoom};
ghost use Rattle.abs_parser.specs.Stops.{limit};
ghost use Rattle.abs_parser.specs.TreesOf.{type_in, type_arguments as arguments_in, types_in};
ghost use Rattle.abs_parser.specs.Views.{spot};

use crate::ParseError;
use crate::cursor::Cursor;
use abs_lexer::{Lexeme, Punctuator};
use abs_tree::Symbols;
use abs_tree::syntax::TypeTerm;
use std::alloc::Global;

/// A type nested in `depth` counted nonterminals, and the cursor after it.
///
/// # Errors
/// The refusal of the first token that is a syntax error or too deeply nested.
#[cycle(types)]
pub(crate) fn type_term<'a, 'b>(
    alloc: Global,
    symbols: &mut Symbols<'a>,
    depth: u32,
    from: Cursor<'a, 'b>,
) -> Result<(TypeTerm, Cursor<'a, 'b>), ParseError>
    requires names { HasRoom symbols.old (spot from) }
    requires depth { depth ≤ limit + 1 }
    ensures { Parses result (parse_of (One Type') depth symbols.old symbols.new (spot from.entry)
        (λ found. spot found.1) (λ found names inside. type_tree names found.0 ≡ type_in inside)) }
{
    let (name, after) = from.take(Lexeme::UpperName, depth + 1)?;
    let symbol = symbols.intern(name.slice)?;
    let (arguments, end) = type_arguments(alloc, symbols, depth + 1, after)?;
    let term = TypeTerm::Unresolved {
        place: name.place,
        name: symbol,
        arguments,
    };
    Ok((term, end))
}

/// The types between `<` and `>`, where there are any, and the cursor after them.
#[cycle(types)]
fn type_arguments<'a, 'b>(
    alloc: Global,
    symbols: &mut Symbols<'a>,
    depth: u32,
    from: Cursor<'a, 'b>,
) -> Result<(Vec<TypeTerm>, Cursor<'a, 'b>), ParseError>
    requires names { HasRoom symbols.old (spot from) }
    requires depth { depth ≤ limit }
    ensures { Parses result (parse_of (Optional ArgumentsOfType) depth symbols.old symbols.new (spot from.entry)
        (λ found. spot found.1) (λ found names inside. type_trees names found.0.items ≡ arguments_in inside)) }
{
    let Some((_, after)) = from.accept(Lexeme::Punctuator(Punctuator::Less)) else {
        return Ok((Vec::new(alloc), from));
    };
    let (types, close) = types(alloc, symbols, depth, after)?;
    let (_, end) = close.take(Lexeme::Punctuator(Punctuator::Greater), depth)?;
    Ok((types, end))
}

/// A type, and others after commas, and the cursor after them.
#[cycle(types)]
pub(crate) fn types<'a, 'b>(
    alloc: Global,
    symbols: &mut Symbols<'a>,
    depth: u32,
    from: Cursor<'a, 'b>,
) -> Result<(Vec<TypeTerm>, Cursor<'a, 'b>), ParseError>
    requires names { HasRoom symbols.old (spot from) }
    requires depth { depth ≤ limit }
    ensures { Parses result (parse_of (One Types) depth symbols.old symbols.new (spot from.entry)
        (λ found. spot found.1) (λ found names inside. type_trees names found.0.items ≡ types_in inside)) }
{
    let (first, mut here) = type_term(alloc, symbols, depth, from)?;
    let mut types = vec![in alloc; first]?;
    while let Some((_, after)) = here.accept(Lexeme::Punctuator(Punctuator::Comma)) {
        let (next, end) = type_term(alloc, symbols, depth, after)?;
        types.push(next)?;
        here = end;
    }
    Ok((types, here))
}
