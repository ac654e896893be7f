//! Reads patterns.
ghost use Rattle.std.specs.Prelude.{◌≡◌, true, List, ◌≤◌, IfOk, IfErr};
ghost use Rattle.abs_tree.specs.Syntax.{Name};
ghost use Rattle.abs_tree.specs.SyntaxViews.{pattern_tree, pattern_trees};
ghost use Rattle.abs_parser.specs.TokenKinds.{PunctuatorKind, UpperName, fits, next};
ghost use Rattle.abs_parser.specs.Productions.{Pattern as PatternSymbol, PatternArguments, Patterns};
ghost use Rattle.abs_parser.specs.Readings.{One, Optional, Subgoal};
ghost use Rattle.abs_parser.specs.ReaderAnswers.{Parses, parse_of, HasRoom, FoundAs, IsRefused, left_at};
ghost use Rattle.abs_parser.specs.Stops.{limit};
ghost use Rattle.abs_parser.specs.TreesOf.{pattern_in, pattern_arguments as arguments_in, patterns_in};
ghost use Rattle.abs_parser.specs.Views.{spot};

use crate::ParseError;
use crate::cursor::Cursor;
use crate::literals::{numeral, text};
use abs_lexer::{Lexeme, Punctuator};
use abs_tree::Symbols;
use abs_tree::syntax::{Pattern, Variable};
use std::alloc::Global;

/// A pattern nested in `depth` counted nonterminals, and the cursor after it.
///
/// # Errors
/// The refusal of the first token that is a syntax error or too deeply nested.
#[cycle(patterns)]
pub(crate) fn pattern<'a, 'b>(
    alloc: Global,
    symbols: &mut Symbols<'a>,
    depth: u32,
    from: Cursor<'a, 'b>,
) -> Result<(Pattern, Cursor<'a, 'b>), ParseError>
    requires names { HasRoom symbols.old (spot from) }
    requires depth { depth ≤ limit }
    ensures { Parses result (parse_of (One PatternSymbol) depth symbols.old symbols.new (spot from.entry)
        (λ found. spot found.1) (λ found names inside. pattern_tree names found.0 ≡ pattern_in inside)) }
{
    let Some((first, _)) = from.next() else {
        return Err(from.wrong());
    };
    match first.kind {
        Lexeme::LowerName => {
            let (name, end) = from.take(Lexeme::LowerName, depth + 1)?;
            let variable = Variable::Unresolved(symbols.intern(name.slice)?);
            Ok((Pattern::Binds(name.place, variable), end))
        }
        Lexeme::UpperName => constructor_pattern(alloc, symbols, depth, from),
        Lexeme::Number => {
            let (number, end) = from.take(Lexeme::Number, depth + 1)?;
            Ok((Pattern::Number(number.place, numeral(number.slice)), end))
        }
        Lexeme::Text => {
            let (literal, end) = from.take(Lexeme::Text, depth + 1)?;
            Ok((
                Pattern::Text(literal.place, text(alloc, literal.slice)?),
                end,
            ))
        }
        Lexeme::Punctuator(punctuator) => punctuator_pattern(depth, punctuator, from),
        Lexeme::Keyword(_) | Lexeme::Foreign => Err(from.wrong()),
    }
}

/// A constructor with the patterns of its arguments, and the cursor after it.
#[cycle(patterns)]
fn constructor_pattern<'a, 'b>(
    alloc: Global,
    symbols: &mut Symbols<'a>,
    depth: u32,
    from: Cursor<'a, 'b>,
) -> Result<(Pattern, Cursor<'a, 'b>), ParseError>
    requires begins { fits UpperName (next (left_at (spot from))) ≡ true }
    requires names { HasRoom symbols.old (spot from) }
    requires depth { depth ≤ limit }
    ensures { Parses result (parse_of (One PatternSymbol) depth symbols.old symbols.new (spot from.entry)
        (λ found. spot found.1) (λ found names inside. pattern_tree names found.0 ≡ pattern_in inside)) }
{
    let (name, open) = from.take(Lexeme::UpperName, depth + 1)?;
    let constructor = symbols.intern(name.slice)?;
    let (arguments, end) = pattern_arguments(alloc, symbols, depth + 1, open)?;
    let built = Pattern::Built {
        place: name.place,
        constructor,
        arguments,
    };
    Ok((built, end))
}

/// `_`, or a number after a minus, and the cursor after it.
fn punctuator_pattern<'a, 'b>(
    depth: u32,
    punctuator: Punctuator,
    from: Cursor<'a, 'b>,
) -> Result<(Pattern, Cursor<'a, 'b>), ParseError>
    requires begins { next (left_at (spot from)) ≡ PunctuatorKind punctuator }
    requires depth { depth ≤ limit }
    ensures found { IfOk result (λ found. (table : List Name) → FoundAs (One PatternSymbol) depth table table
        (spot from.entry) (spot found.1)
        (λ names inside. pattern_tree names found.0 ≡ pattern_in inside)) }
    ensures refused { IfErr result (λ error. IsRefused (Subgoal (One PatternSymbol) depth)
        (spot from.entry) error) }
{
    if punctuator == Punctuator::Underscore {
        let (any, end) = from.take(Lexeme::Punctuator(Punctuator::Underscore), depth + 1)?;
        return Ok((Pattern::Any(any.place), end));
    }
    let (minus, digits_at) = from.take(Lexeme::Punctuator(Punctuator::Minus), depth + 1)?;
    let (digits, end) = digits_at.take(Lexeme::Number, depth + 1)?;
    Ok((Pattern::Number(minus.place, -numeral(digits.slice)), end))
}

/// The patterns between `(` and `)`, where there are parentheses, and the cursor after them.
#[cycle(patterns)]
fn pattern_arguments<'a, 'b>(
    alloc: Global,
    symbols: &mut Symbols<'a>,
    depth: u32,
    from: Cursor<'a, 'b>,
) -> Result<(Vec<Pattern>, Cursor<'a, 'b>), ParseError>
    requires names { HasRoom symbols.old (spot from) }
    requires depth { depth ≤ limit }
    ensures { Parses result (parse_of (Optional PatternArguments) depth symbols.old symbols.new (spot from.entry)
        (λ found. spot found.1) (λ found names inside. pattern_trees names found.0.items ≡ arguments_in inside)) }
{
    let Some((_, after)) = from.accept(Lexeme::Punctuator(Punctuator::OpenParen)) else {
        return Ok((Vec::new(alloc), from));
    };
    if let Some((_, end)) = after.accept(Lexeme::Punctuator(Punctuator::CloseParen)) {
        return Ok((Vec::new(alloc), end));
    }
    let (patterns, close) = patterns(alloc, symbols, depth, after)?;
    let (_, end) = close.take(Lexeme::Punctuator(Punctuator::CloseParen), depth)?;
    Ok((patterns, end))
}

/// A pattern, and others after commas, and the cursor after them.
#[cycle(patterns)]
fn patterns<'a, 'b>(
    alloc: Global,
    symbols: &mut Symbols<'a>,
    depth: u32,
    from: Cursor<'a, 'b>,
) -> Result<(Vec<Pattern>, Cursor<'a, 'b>), ParseError>
    requires names { HasRoom symbols.old (spot from) }
    requires depth { depth ≤ limit }
    ensures { Parses result (parse_of (One Patterns) depth symbols.old symbols.new (spot from.entry)
        (λ found. spot found.1) (λ found names inside. pattern_trees names found.0.items ≡ patterns_in inside)) }
{
    let (first, mut here) = pattern(alloc, symbols, depth, from)?;
    let mut patterns = vec![in alloc; first]?;
    while let Some((_, after)) = here.accept(Lexeme::Punctuator(Punctuator::Comma)) {
        let (next, end) = pattern(alloc, symbols, depth, after)?;
        patterns.push(next)?;
        here = end;
    }
    Ok((patterns, here))
}
