//! Reads the arguments of functions, constructors and methods.
ghost use Rattle.std.specs.Prelude.{◌≡◌, ◌≤◌};
ghost use Rattle.abs_tree.specs.SyntaxViews.{expr_trees};
ghost use Rattle.abs_parser.specs.Productions.{Arguments, Args};
ghost use Rattle.abs_parser.specs.Readings.{One, Optional};
ghost use Rattle.abs_parser.specs.ReaderAnswers.{Parses, parse_of, HasRoom, maybe_exprs};
ghost use Rattle.abs_parser.specs.Stops.{limit};
ghost use Rattle.abs_parser.specs.TreesOf.{arguments_in, arguments_maybe as maybe_arguments_in, args_in};
ghost use Rattle.abs_parser.specs.Views.{spot};

use crate::ParseError;
use crate::cursor::Cursor;
use crate::expressions::expression;
use abs_lexer::{Lexeme, Punctuator};
use abs_tree::Symbols;
use abs_tree::syntax::Expr;
use std::alloc::Global;

/// The expressions between `(` and `)`, where there are parentheses, and the cursor after them.
///
/// # Errors
/// The refusal of the first token that is a syntax error or too deeply nested.
#[cycle(expressions)]
pub(crate) fn arguments_maybe<'a, 'b>(
    alloc: Global,
    symbols: &mut Symbols<'a>,
    depth: u32,
    from: Cursor<'a, 'b>,
) -> Result<(Option<Vec<Expr>>, Cursor<'a, 'b>), ParseError>
    requires names { HasRoom symbols.old (spot from) }
    requires depth { depth ≤ limit }
    ensures { Parses result (parse_of (Optional Arguments) depth symbols.old symbols.new (spot from.entry)
        (λ found. spot found.1) (λ found names inside. maybe_exprs names found.0 ≡ maybe_arguments_in inside)) }
{
    if !from.is(Lexeme::Punctuator(Punctuator::OpenParen)) {
        return Ok((None, from));
    }
    let (expressions, end) = arguments(alloc, symbols, depth, from)?;
    Ok((Some(expressions), end))
}

/// The expressions between `(` and `)`, and the cursor after them.
///
/// # Errors
/// The refusal of the first token that is a syntax error or too deeply nested.
#[cycle(expressions)]
pub(crate) fn arguments<'a, 'b>(
    alloc: Global,
    symbols: &mut Symbols<'a>,
    depth: u32,
    from: Cursor<'a, 'b>,
) -> Result<(Vec<Expr>, Cursor<'a, 'b>), ParseError>
    requires names { HasRoom symbols.old (spot from) }
    requires depth { depth ≤ limit }
    ensures { Parses result (parse_of (One Arguments) depth symbols.old symbols.new (spot from.entry)
        (λ found. spot found.1) (λ found names inside. expr_trees names found.0.items ≡ arguments_in inside)) }
{
    let (_, after) = from.take(Lexeme::Punctuator(Punctuator::OpenParen), depth)?;
    if let Some((_, end)) = after.accept(Lexeme::Punctuator(Punctuator::CloseParen)) {
        return Ok((Vec::new(alloc), end));
    }
    let (expressions, close) = expressions(alloc, symbols, depth, after)?;
    let (_, end) = close.take(Lexeme::Punctuator(Punctuator::CloseParen), depth)?;
    Ok((expressions, end))
}

/// An expression, and others after commas, and the cursor after them.
#[cycle(expressions)]
fn expressions<'a, 'b>(
    alloc: Global,
    symbols: &mut Symbols<'a>,
    depth: u32,
    from: Cursor<'a, 'b>,
) -> Result<(Vec<Expr>, Cursor<'a, 'b>), ParseError>
    requires names { HasRoom symbols.old (spot from) }
    requires depth { depth ≤ limit }
    ensures { Parses result (parse_of (One Args) depth symbols.old symbols.new (spot from.entry)
        (λ found. spot found.1) (λ found names inside. expr_trees names found.0.items ≡ args_in inside)) }
{
    let (first, mut here) = expression(alloc, symbols, depth, from)?;
    let mut expressions = vec![in alloc; first]?;
    while let Some((_, after)) = here.accept(Lexeme::Punctuator(Punctuator::Comma)) {
        let (next, end) = expression(alloc, symbols, depth, after)?;
        expressions.push(next)?;
        here = end;
    }
    Ok((expressions, here))
}
