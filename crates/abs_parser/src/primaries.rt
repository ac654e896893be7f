//! Reads unaries and primaries: prefix operators, numbers, strings, names with their arguments, `this` with what
//! follows it, and expressions in parentheses.
ghost use Rattle.std.specs.Prelude.{◌≡◌, List, true, ◌+◌, ◌≤◌, IfOk, IfSome, IfNone};
ghost use Rattle.abs_lexer.specs.declared.lexeme.Keyword.TheVariants as keyword;
ghost use Rattle.abs_lexer.specs.declared.lexeme.Lexeme.TheVariants as lexeme;
ghost use Rattle.abs_tree.specs.declared.syntax.expression.Prefix as prefix_type;
ghost use Rattle.abs_tree.specs.Syntax.{Name};
ghost use Rattle.abs_tree.specs.SyntaxViews.{expr_tree};
ghost use Rattle.abs_tree.specs.Names.{name_of};
ghost use Rattle.abs_parser.specs.TokenKinds.{LowerName, UpperName, KeywordKind, PunctuatorKind, fits, next, token_kind_of};
ghost use Rattle.abs_parser.specs.Precedences.{prefix_punctuator};
ghost use Rattle.abs_parser.specs.Productions.{begins, Unary, Primary};
ghost use Rattle.abs_parser.specs.Readings.{One};
ghost use Rattle.abs_parser.specs.ReaderAnswers.{Parses, parse_of, HasRoom, left_at, maybe_exprs};
ghost use Rattle.abs_parser.specs.Stops.{limit};
ghost use Rattle.abs_parser.specs.TreesOf.{unary_in, primary_in, named as named_tree, member as member_tree};
ghost use Rattle.abs_parser.specs.Views.{spot};

use crate::ParseError;
use crate::arguments::arguments_maybe;
use crate::cases::case_primary;
use crate::cursor::Cursor;
use crate::expressions::expression;
use crate::literals::{numeral, text};
use abs_lexer::{Keyword, Lexeme, Punctuator};
use abs_tree::syntax::{Expr, Prefix, Variable};
use abs_tree::{Place, Symbol, Symbols};
use std::alloc::{AllocError, Global};
use std::sync::Arc;

/// The prefix operator of a lexeme, if it is one.
fn prefix_of(kind: Lexeme) -> Option<Prefix>
    ensures some { IfSome result (λ prefix. kind ≡ lexeme.Punctuator (prefix_punctuator prefix)) }
    ensures none { IfNone result ((prefix : prefix_type.Prefix)
        → kind ≡ lexeme.Punctuator (prefix_punctuator prefix) → ⊥) }
{
    let Lexeme::Punctuator(punctuator) = kind else {
        return None;
    };
    match punctuator {
        Punctuator::Not => Some(Prefix::Not),
        Punctuator::Tilde => Some(Prefix::Tilde),
        Punctuator::Minus => Some(Prefix::Minus),
        _ => None,
    }
}

/// A unary nested in `depth` counted nonterminals, and the cursor after it.
///
/// # Errors
/// The refusal of the first token that is a syntax error or too deeply nested.
#[cycle(expressions)]
pub(crate) fn unary<'a, 'b>(
    alloc: Global,
    symbols: &mut Symbols<'a>,
    depth: u32,
    from: Cursor<'a, 'b>,
) -> Result<(Expr, Cursor<'a, 'b>), ParseError>
    requires names { HasRoom symbols.old (spot from) }
    requires depth { depth ≤ limit + 2 }
    ensures { Parses result (parse_of (One Unary) depth symbols.old symbols.new (spot from.entry)
        (λ found. spot found.1) (λ found names inside. expr_tree names found.0 ≡ unary_in inside)) }
{
    let Some((first, _)) = from.next() else {
        return Err(from.wrong());
    };
    let Some(prefix) = prefix_of(first.kind) else {
        return primary(alloc, symbols, depth + 1, from);
    };
    let (token, after) = from.take(first.kind, depth + 1)?;
    let (operand, end) = unary(alloc, symbols, depth + 1, after)?;
    let operand = Box::new(alloc, operand)?;
    let prefixed = Expr::Prefixed {
        place: token.place,
        prefix,
        operand,
    };
    Ok((prefixed, end))
}

/// A primary nested in `depth` counted nonterminals, and the cursor after it.
#[cycle(expressions)]
fn primary<'a, 'b>(
    alloc: Global,
    symbols: &mut Symbols<'a>,
    depth: u32,
    from: Cursor<'a, 'b>,
) -> Result<(Expr, Cursor<'a, 'b>), ParseError>
    requires names { HasRoom symbols.old (spot from) }
    requires depth { depth ≤ limit + 3 }
    ensures { Parses result (parse_of (One Primary) depth symbols.old symbols.new (spot from.entry)
        (λ found. spot found.1) (λ found names inside. expr_tree names found.0 ≡ primary_in inside)) }
{
    let Some((first, _)) = from.next() else {
        return Err(from.wrong());
    };
    match first.kind {
        Lexeme::Number => {
            let (token, end) = from.take(Lexeme::Number, depth)?;
            Ok((Expr::Number(token.place, numeral(token.slice)), end))
        }
        Lexeme::Text => {
            let (token, end) = from.take(Lexeme::Text, depth)?;
            Ok((Expr::Text(token.place, text(alloc, token.slice)?), end))
        }
        Lexeme::LowerName => name_primary(alloc, symbols, depth, from),
        Lexeme::UpperName => constructor_primary(alloc, symbols, depth, from),
        Lexeme::Keyword(keyword) => keyword_primary(alloc, symbols, depth, keyword, from),
        Lexeme::Punctuator(punctuator) => parenthesized(alloc, symbols, depth, punctuator, from),
        Lexeme::Foreign => Err(from.wrong()),
    }
}

/// A variable, or a function with its arguments, and the cursor after it.
#[cycle(expressions)]
fn name_primary<'a, 'b>(
    alloc: Global,
    symbols: &mut Symbols<'a>,
    depth: u32,
    from: Cursor<'a, 'b>,
) -> Result<(Expr, Cursor<'a, 'b>), ParseError>
    requires begins { fits LowerName (next (left_at (spot from))) ≡ true }
    requires names { HasRoom symbols.old (spot from) }
    requires depth { depth ≤ limit + 3 }
    ensures { Parses result (parse_of (One Primary) depth symbols.old symbols.new (spot from.entry)
        (λ found. spot found.1) (λ found names inside. expr_tree names found.0 ≡ primary_in inside)) }
{
    let (name, after) = from.take(Lexeme::LowerName, depth)?;
    let symbol = symbols.intern(name.slice)?;
    let (arguments, end) = arguments_maybe(alloc, symbols, depth, after)?;
    Ok((named(name.place, symbol, arguments), end))
}

/// `x`, or with arguments `f(es)`.
pub(crate) fn named(place: Place, name: Symbol, arguments: Option<Vec<Expr>>) -> Expr
    ensures { (names : List Name)
        → expr_tree names result ≡ named_tree place (name_of names name) (maybe_exprs names arguments) }
{
    match arguments {
        Some(arguments) => Expr::Apply {
            place,
            function: name,
            arguments,
        },
        None => Expr::Variable(place, Variable::Unresolved(name)),
    }
}

/// A constructor with its arguments, if it has any, and the cursor after it.
#[cycle(expressions)]
fn constructor_primary<'a, 'b>(
    alloc: Global,
    symbols: &mut Symbols<'a>,
    depth: u32,
    from: Cursor<'a, 'b>,
) -> Result<(Expr, Cursor<'a, 'b>), ParseError>
    requires begins { fits UpperName (next (left_at (spot from))) ≡ true }
    requires names { HasRoom symbols.old (spot from) }
    requires depth { depth ≤ limit + 3 }
    ensures { Parses result (parse_of (One Primary) depth symbols.old symbols.new (spot from.entry)
        (λ found. spot found.1) (λ found names inside. expr_tree names found.0 ≡ primary_in inside)) }
{
    let (name, after) = from.take(Lexeme::UpperName, depth)?;
    let symbol = symbols.intern(name.slice)?;
    let (arguments, end) = arguments_maybe(alloc, symbols, depth, after)?;
    let arguments = match arguments {
        Some(arguments) => arguments,
        None => Vec::new(alloc),
    };
    let build = Expr::Build {
        place: name.place,
        constructor: symbol,
        arguments,
    };
    Ok((build, end))
}

/// A primary that begins with a keyword, and the cursor after it.
#[cycle(expressions)]
fn keyword_primary<'a, 'b>(
    alloc: Global,
    symbols: &mut Symbols<'a>,
    depth: u32,
    keyword: Keyword,
    from: Cursor<'a, 'b>,
) -> Result<(Expr, Cursor<'a, 'b>), ParseError>
    requires begins { next (left_at (spot from)) ≡ KeywordKind keyword }
    requires names { HasRoom symbols.old (spot from) }
    requires depth { depth ≤ limit + 3 }
    ensures { Parses result (parse_of (One Primary) depth symbols.old symbols.new (spot from.entry)
        (λ found. spot found.1) (λ found names inside. expr_tree names found.0 ≡ primary_in inside)) }
{
    match keyword {
        Keyword::Null => {
            let (token, end) = from.take(Lexeme::Keyword(Keyword::Null), depth)?;
            Ok((Expr::Null(token.place), end))
        }
        Keyword::Destiny => {
            let (token, end) = from.take(Lexeme::Keyword(Keyword::Destiny), depth)?;
            Ok((Expr::Destiny(token.place), end))
        }
        Keyword::This => this_primary(alloc, symbols, depth, from),
        Keyword::Case => case_primary(alloc, symbols, depth, from),
        _ => Err(from.wrong()),
    }
}

/// `this`, a field of it, or a call on it, and the cursor after it.
#[cycle(expressions)]
fn this_primary<'a, 'b>(
    alloc: Global,
    symbols: &mut Symbols<'a>,
    depth: u32,
    from: Cursor<'a, 'b>,
) -> Result<(Expr, Cursor<'a, 'b>), ParseError>
    requires begins { fits (KeywordKind keyword.This) (next (left_at (spot from))) ≡ true }
    requires names { HasRoom symbols.old (spot from) }
    requires depth { depth ≤ limit + 3 }
    ensures { Parses result (parse_of (One Primary) depth symbols.old symbols.new (spot from.entry)
        (λ found. spot found.1) (λ found names inside. expr_tree names found.0 ≡ primary_in inside)) }
{
    let (this, after) = from.take(Lexeme::Keyword(Keyword::This), depth)?;
    let Some((_, name_at)) = after.accept(Lexeme::Punctuator(Punctuator::Dot)) else {
        return Ok((Expr::This(this.place), after));
    };
    let (name, open) = name_at.take(Lexeme::LowerName, depth)?;
    let symbol = symbols.intern(name.slice)?;
    let (arguments, end) = arguments_maybe(alloc, symbols, depth, open)?;
    let expr = member(alloc, this.place, name.place, symbol, arguments)?;
    Ok((expr, end))
}

/// `this.x`, or with arguments `this.m(es)`.
pub(crate) fn member(
    alloc: Global,
    place: Place,
    name_place: Place,
    name: Symbol,
    arguments: Option<Vec<Expr>>,
) -> Result<Expr, AllocError>
    ensures { IfOk result (λ expr. (names : List Name)
        → expr_tree names expr ≡ member_tree place name_place (name_of names name) (maybe_exprs names arguments)) }
{
    match arguments {
        Some(arguments) => Ok(Expr::OwnCall {
            place,
            method: name,
            arguments: Arc::new(alloc, arguments)?,
        }),
        None => Ok(Expr::Field {
            place,
            name_place,
            name,
        }),
    }
}

/// An expression in parentheses, which leave no node in the tree, and the cursor after it.
#[cycle(expressions)]
fn parenthesized<'a, 'b>(
    alloc: Global,
    symbols: &mut Symbols<'a>,
    depth: u32,
    punctuator: Punctuator,
    from: Cursor<'a, 'b>,
) -> Result<(Expr, Cursor<'a, 'b>), ParseError>
    requires begins { next (left_at (spot from)) ≡ PunctuatorKind punctuator }
    requires names { HasRoom symbols.old (spot from) }
    requires depth { depth ≤ limit + 3 }
    ensures { Parses result (parse_of (One Primary) depth symbols.old symbols.new (spot from.entry)
        (λ found. spot found.1) (λ found names inside. expr_tree names found.0 ≡ primary_in inside)) }
{
    let (_, inside) = from.take(Lexeme::Punctuator(Punctuator::OpenParen), depth)?;
    let (expr, close) = expression(alloc, symbols, depth, inside)?;
    let (_, end) = close.take(Lexeme::Punctuator(Punctuator::CloseParen), depth)?;
    Ok((expr, end))
}
