//! Reads right sides: a new object, or an expression with what follows it.
ghost use Rattle.std.specs.Prelude.{◌≡◌, ℕ, List, true, ◌+◌, ◌≤◌, IfOk};
ghost use Rattle.abs_lexer.specs.declared.lexeme.Keyword.TheVariants as keyword;
ghost use Rattle.abs_tree.specs.Syntax.{Name, NextExpr};
ghost use Rattle.abs_tree.specs.SyntaxViews.{expr_tree, expr_trees, side_tree};
ghost use Rattle.abs_parser.specs.TokenKinds.{KeywordKind, fits, next};
ghost use Rattle.abs_parser.specs.Productions.{Rhs, RhsTail, Selected, Where};
ghost use Rattle.abs_parser.specs.Readings.{One, Optional};
ghost use Rattle.abs_parser.specs.ReaderAnswers.{Parses, parse_of, HasRoom, FoundAs, left_at};
ghost use Rattle.abs_parser.specs.Stops.{limit};
ghost use Rattle.abs_parser.specs.TreesOf.{rhs_in, tail_in, selected_in, mode_in};
ghost use Rattle.abs_parser.specs.Views.{spot};

use crate::ParseError;
use crate::arguments::arguments;
use crate::cursor::{Cursor, FixedName};
use crate::expressions::expression;
use abs_lexer::{Keyword, Lexeme, Punctuator};
use abs_tree::syntax::{Expr, Mode, RightSide};
use abs_tree::{Place, Symbols};
use std::alloc::{AllocError, Global};
use std::sync::Arc;

/// A right side nested in `depth` counted nonterminals, and the cursor after it.
///
/// # Errors
/// The refusal of the first token that is a syntax error or too deeply nested.
pub(crate) fn right_side<'a, 'b>(
    alloc: Global,
    symbols: &mut Symbols<'a>,
    depth: u32,
    from: Cursor<'a, 'b>,
) -> Result<(RightSide, Cursor<'a, 'b>), ParseError>
    requires names { HasRoom symbols.old (spot from) }
    requires depth { depth ≤ limit + 1 }
    ensures { Parses result (parse_of (One Rhs) depth symbols.old symbols.new (spot from.entry)
        (λ found. spot found.1) (λ found names inside. side_tree names found.0 ≡ rhs_in inside)) }
{
    if from.is(Lexeme::Keyword(Keyword::New)) {
        return new_object(alloc, symbols, depth, from);
    }
    let (first, after) = expression(alloc, symbols, depth, from)?;
    right_side_tail(alloc, symbols, depth, from.place(), first, after)
}

/// `new C(es)`, perhaps with `cog` or `local`, and the cursor after it.
fn new_object<'a, 'b>(
    alloc: Global,
    symbols: &mut Symbols<'a>,
    depth: u32,
    from: Cursor<'a, 'b>,
) -> Result<(RightSide, Cursor<'a, 'b>), ParseError>
    requires begins { fits (KeywordKind keyword.New) (next (left_at (spot from))) ≡ true }
    requires names { HasRoom symbols.old (spot from) }
    requires depth { depth ≤ limit + 1 }
    ensures { Parses result (parse_of (One Rhs) depth symbols.old symbols.new (spot from.entry)
        (λ found. spot found.1) (λ found names inside. side_tree names found.0 ≡ rhs_in inside)) }
{
    let (token, here) = from.take(Lexeme::Keyword(Keyword::New), depth)?;
    let (mode, name_at) = mode(symbols, here)?;
    let (name, open) = name_at.take(Lexeme::UpperName, depth)?;
    let class = symbols.intern(name.slice)?;
    let (arguments, end) = arguments(alloc, symbols, depth, open)?;
    let side = RightSide::New {
        place: token.place,
        mode,
        class_place: name.place,
        class,
        arguments: Arc::new(alloc, arguments)?,
    };
    Ok((side, end))
}

/// Where a new object is to live, by `cog` or `local` after `new`, and the cursor after it. `local` is a name like
/// others, so it is added to the table.
fn mode<'a, 'b>(
    symbols: &mut Symbols<'a>,
    from: Cursor<'a, 'b>,
) -> Result<(Mode, Cursor<'a, 'b>), AllocError>
    requires names { HasRoom symbols.old (spot from) }
    ensures found { IfOk result (λ found. (depth : ℕ) → depth ≤ limit
        → FoundAs (Optional Where) depth symbols.old symbols.new (spot from.entry) (spot found.1)
        (λ names inside. found.0 ≡ mode_in inside)) }
{
    if let Some((_, after)) = from.accept(Lexeme::Keyword(Keyword::Cog)) {
        return Ok((Mode::Cog, after));
    }
    if let Some((name, after)) = from.accept_name(FixedName::Local) {
        symbols.intern(name.slice)?;
        return Ok((Mode::Local(name.place), after));
    }
    Ok((Mode::Plain, from))
}

/// An expression, which begins at `place`, with what follows it: `!` and a call, `.get`, `.` and a call, or nothing;
/// and the cursor after that.
///
/// # Errors
/// The refusal of the first token that is a syntax error or too deeply nested.
pub(crate) fn right_side_tail<'a, 'b>(
    alloc: Global,
    symbols: &mut Symbols<'a>,
    depth: u32,
    place: Place,
    first: Expr,
    from: Cursor<'a, 'b>,
) -> Result<(RightSide, Cursor<'a, 'b>), ParseError>
    requires names { HasRoom symbols.old (spot from) }
    requires depth { depth ≤ limit }
    ensures { Parses result (parse_of (Optional RhsTail) depth symbols.old symbols.new (spot from.entry)
        (λ found. spot found.1)
        (λ found names inside. side_tree names found.0 ≡ tail_in place (expr_tree names first) inside)) }
{
    if let Some((_, after)) = from.accept(Lexeme::Punctuator(Punctuator::Not)) {
        let (name, open) = after.take(Lexeme::LowerName, depth)?;
        let method = symbols.intern(name.slice)?;
        let (arguments, end) = arguments(alloc, symbols, depth, open)?;
        let operands = operands_of(alloc, first, arguments)?;
        return Ok((
            RightSide::Send {
                place,
                method,
                operands,
            },
            end,
        ));
    }
    let Some((_, after)) = from.accept(Lexeme::Punctuator(Punctuator::Dot)) else {
        return Ok((RightSide::Value(place, Arc::new(alloc, first)?), from));
    };
    selected(alloc, symbols, depth, place, first, after)
}

/// What follows an expression and `.`: `get`, or a method with its arguments; and the cursor after it.
fn selected<'a, 'b>(
    alloc: Global,
    symbols: &mut Symbols<'a>,
    depth: u32,
    place: Place,
    first: Expr,
    from: Cursor<'a, 'b>,
) -> Result<(RightSide, Cursor<'a, 'b>), ParseError>
    requires names { HasRoom symbols.old (spot from) }
    requires depth { depth ≤ limit }
    ensures { Parses result (parse_of (One Selected) depth symbols.old symbols.new (spot from.entry)
        (λ found. spot found.1)
        (λ found names inside. side_tree names found.0 ≡ selected_in place (expr_tree names first) inside)) }
{
    if let Some((token, end)) = from.accept(Lexeme::Keyword(Keyword::Get)) {
        let side = RightSide::Get {
            place,
            get_place: token.place,
            future: Arc::new(alloc, first)?,
        };
        return Ok((side, end));
    }
    let (name, open) = from.take(Lexeme::LowerName, depth)?;
    let method = symbols.intern(name.slice)?;
    let (arguments, end) = arguments(alloc, symbols, depth, open)?;
    let side = RightSide::Call {
        place,
        method,
        operands: operands_of(alloc, first, arguments)?,
        slot: None,
    };
    Ok((side, end))
}

/// The receiver of a call, followed by its arguments.
fn operands_of(
    alloc: Global,
    receiver: Expr,
    arguments: Vec<Expr>,
) -> Result<Arc<Vec<Expr>>, AllocError>
    ensures { IfOk result (λ operands. (names : List Name) → expr_trees names operands.value.items
        ≡ NextExpr (expr_tree names receiver) (expr_trees names arguments.items)) }
{
    let mut operands = arguments;
    operands.insert(0, receiver)?;
    Ok(Arc::new(alloc, operands)?)
}
