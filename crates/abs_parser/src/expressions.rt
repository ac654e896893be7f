//! Reads expressions: `let`, `if`, and operator lists by the precedences of their operators.
ghost use Rattle.std.specs.Prelude.{◌≡◌, true, ◌+◌, ◌≤◌, IfOk, IfErr};
ghost use Rattle.abs_lexer.specs.declared.lexeme.Keyword.TheVariants as keyword;
ghost use Rattle.abs_tree.specs.SyntaxViews.{expr_tree};
ghost use Rattle.abs_parser.specs.TokenKinds.{KeywordKind, fits, next};
ghost use Rattle.abs_parser.specs.Productions.{Expr as ExprSymbol};
ghost use Rattle.abs_parser.specs.Readings.{One};
ghost use Rattle.abs_parser.specs.ReaderAnswers.{Parses, parse_of, HasRoom, FoundInParentheses, AreRefused, in_parentheses_at, left_at};
ghost use Rattle.abs_parser.specs.Stops.{limit};
ghost use Rattle.abs_parser.specs.TreesOf.{expr_in};
ghost use Rattle.abs_parser.specs.Views.{spot};

use crate::ParseError;
use crate::cursor::Cursor;
use crate::operators::{Precedence, operators};
use crate::types::type_term;
use abs_lexer::{Keyword, Lexeme, Punctuator};
use abs_tree::Symbols;
use abs_tree::syntax::{Expr, Variable};
use std::alloc::Global;

/// An expression nested in `depth` counted nonterminals, and the cursor after it.
///
/// # Errors
/// The refusal of the first token that is a syntax error or too deeply nested.
#[cycle(expressions)]
pub(crate) fn expression<'a, 'b>(
    alloc: Global,
    symbols: &mut Symbols<'a>,
    depth: u32,
    from: Cursor<'a, 'b>,
) -> Result<(Expr, Cursor<'a, 'b>), ParseError>
    requires names { HasRoom symbols.old (spot from) }
    requires depth { depth ≤ limit + 1 }
    ensures { Parses result (parse_of (One ExprSymbol) depth symbols.old symbols.new (spot from.entry)
        (λ found. spot found.1) (λ found names inside. expr_tree names found.0 ≡ expr_in inside)) }
{
    if from.is(Lexeme::Keyword(Keyword::Let)) {
        return let_expression(alloc, symbols, depth, from);
    }
    if from.is(Lexeme::Keyword(Keyword::If)) {
        return if_expression(alloc, symbols, depth, from);
    }
    operators(alloc, symbols, Precedence::Or, depth + 1, from)
}

/// `(e)`, nested in `depth` counted nonterminals: the expression, and the cursor after the closing parenthesis.
///
/// # Errors
/// The refusal of the first token that is a syntax error or too deeply nested.
pub(crate) fn in_parentheses<'a, 'b>(
    alloc: Global,
    symbols: &mut Symbols<'a>,
    depth: u32,
    from: Cursor<'a, 'b>,
) -> Result<(Expr, Cursor<'a, 'b>), ParseError>
    requires names { HasRoom symbols.old (spot from) }
    requires depth { depth ≤ limit + 1 }
    ensures found { IfOk result (λ found. FoundInParentheses depth symbols.old symbols.new (spot from.entry)
        (spot found.1)
        (λ names inside. expr_tree names found.0 ≡ expr_in inside)) }
    ensures refused { IfErr result (λ error. AreRefused (in_parentheses_at depth) (spot from.entry) error) }
{
    let (_, expr_at) = from.take(Lexeme::Punctuator(Punctuator::OpenParen), depth)?;
    let (expr, close) = expression(alloc, symbols, depth, expr_at)?;
    let (_, end) = close.take(Lexeme::Punctuator(Punctuator::CloseParen), depth)?;
    Ok((expr, end))
}

/// `let (T x) = e in e`, and the cursor after it.
#[cycle(expressions)]
fn let_expression<'a, 'b>(
    alloc: Global,
    symbols: &mut Symbols<'a>,
    depth: u32,
    from: Cursor<'a, 'b>,
) -> Result<(Expr, Cursor<'a, 'b>), ParseError>
    requires begins { fits (KeywordKind keyword.Let) (next (left_at (spot from))) ≡ true }
    requires names { HasRoom symbols.old (spot from) }
    requires depth { depth ≤ limit + 1 }
    ensures { Parses result (parse_of (One ExprSymbol) depth symbols.old symbols.new (spot from.entry)
        (λ found. spot found.1) (λ found names inside. expr_tree names found.0 ≡ expr_in inside)) }
{
    let (token, open) = from.take(Lexeme::Keyword(Keyword::Let), depth + 1)?;
    let (_, type_at) = open.take(Lexeme::Punctuator(Punctuator::OpenParen), depth + 1)?;
    let (type_of, name_at) = type_term(alloc, symbols, depth + 1, type_at)?;
    let (name, close) = name_at.take(Lexeme::LowerName, depth + 1)?;
    let variable = Variable::Unresolved(symbols.intern(name.slice)?);
    let (_, equals) = close.take(Lexeme::Punctuator(Punctuator::CloseParen), depth + 1)?;
    let (_, value_at) = equals.take(Lexeme::Punctuator(Punctuator::Assign), depth + 1)?;
    let (value, in_at) = expression(alloc, symbols, depth + 1, value_at)?;
    let (_, body_at) = in_at.take(Lexeme::Keyword(Keyword::In), depth + 1)?;
    let (body, end) = expression(alloc, symbols, depth + 1, body_at)?;
    let type_of = Box::new(alloc, type_of)?;
    let value = Box::new(alloc, value)?;
    let body = Box::new(alloc, body)?;
    let expr = Expr::Let {
        place: token.place,
        type_of,
        variable_place: name.place,
        variable,
        value,
        body,
    };
    Ok((expr, end))
}

/// `if e then e else e`, and the cursor after it.
#[cycle(expressions)]
fn if_expression<'a, 'b>(
    alloc: Global,
    symbols: &mut Symbols<'a>,
    depth: u32,
    from: Cursor<'a, 'b>,
) -> Result<(Expr, Cursor<'a, 'b>), ParseError>
    requires begins { fits (KeywordKind keyword.If) (next (left_at (spot from))) ≡ true }
    requires names { HasRoom symbols.old (spot from) }
    requires depth { depth ≤ limit + 1 }
    ensures { Parses result (parse_of (One ExprSymbol) depth symbols.old symbols.new (spot from.entry)
        (λ found. spot found.1) (λ found names inside. expr_tree names found.0 ≡ expr_in inside)) }
{
    let (token, test_at) = from.take(Lexeme::Keyword(Keyword::If), depth + 1)?;
    let (test, then_at) = expression(alloc, symbols, depth + 1, test_at)?;
    let (_, first_at) = then_at.take(Lexeme::Keyword(Keyword::Then), depth + 1)?;
    let (first, else_at) = expression(alloc, symbols, depth + 1, first_at)?;
    let (_, second_at) = else_at.take(Lexeme::Keyword(Keyword::Else), depth + 1)?;
    let (second, end) = expression(alloc, symbols, depth + 1, second_at)?;
    let condition = Box::new(alloc, test)?;
    let first = Box::new(alloc, first)?;
    let second = Box::new(alloc, second)?;
    let expr = Expr::If {
        place: token.place,
        condition,
        first,
        second,
    };
    Ok((expr, end))
}
