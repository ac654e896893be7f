//! Reads the statements that hold no others.
ghost use Rattle.std.specs.Prelude.{◌≡◌, List, true, false, ◌+◌, ◌≤◌, IfOk, IfErr};
ghost use Rattle.abs_lexer.specs.declared.lexeme.Keyword.TheVariants as keyword;
ghost use Rattle.abs_lexer.specs.declared.lexeme.Lexeme.TheVariants as lexeme;
ghost use Rattle.abs_lexer.specs.declared.lexeme.Punctuator.TheVariants as punctuator;
ghost use Rattle.abs_tree.specs.Syntax.{Name};
ghost use Rattle.abs_tree.specs.SyntaxSizes.{count_of};
ghost use Rattle.abs_tree.specs.SyntaxViews.{expr_tree, side_tree, target_tree, statement as statement_tree, maybe_side};
ghost use Rattle.abs_parser.specs.TokenKinds.{LowerName, UpperName, KeywordKind, PunctuatorKind, fits, next};
ghost use Rattle.abs_parser.specs.Productions.{begins, Stmt as StmtSymbol, Initial, Rest, AfterName};
ghost use Rattle.abs_parser.specs.Readings.{One, Optional, Terminal};
ghost use Rattle.abs_parser.specs.ReaderAnswers.{Parses, parse_of, Passes, IsRefused, HasRoom, left_at, maybe_exprs};
ghost use Rattle.abs_parser.specs.Stops.{limit};
ghost use Rattle.abs_parser.specs.Firsts.{place_of_first, target_of, expr_of, after_first, begins_another, is_simple};
ghost use Rattle.abs_parser.specs.TreesOf.{statement_in, initial_in, rest_in};
ghost use Rattle.abs_parser.specs.Views.{spot};

use crate::ParseError;
use crate::arguments::arguments_maybe;
use crate::cursor::Cursor;
use crate::expressions::{expression, in_parentheses};
use crate::guards::guard;
use crate::operators::{Precedence, climb};
use crate::primaries::{member, named};
use crate::right_sides::{right_side, right_side_tail};
use crate::types::type_term;
use abs_lexer::{Keyword, Lexeme, Punctuator};
use abs_tree::syntax::{Expr, RightSide, Stmt, Target, Variable};
use abs_tree::{Place, Symbol, Symbols};
use std::alloc::{AllocError, Global};
use std::sync::Arc;

/// A variable or a field with which a statement begins, with the place where it begins.
#[derive(Clone, Copy, Debug, PartialEq, Eq)]
pub(crate) enum First {
    /// `x`
    Variable(Place, Symbol),
    /// `this.x`, with the place of the name.
    Field(Place, Place, Symbol),
}

impl First {
    /// Where it begins.
    fn place(self) -> Place
        ensures { result ≡ place_of_first self }
    {
        match self {
            First::Variable(place, _) | First::Field(place, ..) => place,
        }
    }

    /// The variable or the field as the target of an assignment.
    fn target(self) -> Target
        ensures { (names : List Name) → target_tree names result ≡ target_of names self }
    {
        match self {
            First::Variable(place, symbol) => Target::Variable(place, Variable::Unresolved(symbol)),
            First::Field(place, name_place, name) => Target::Field {
                place,
                name_place,
                name,
            },
        }
    }

    /// The variable or the field as an expression, with or without arguments after it.
    ///
    /// # Errors
    /// [`AllocError`] if an allocation fails.
    fn expr(self, alloc: Global, arguments: Option<Vec<Expr>>) -> Result<Expr, AllocError>
        ensures { IfOk result (λ expr. (names : List Name)
            → expr_tree names expr ≡ expr_of names self (maybe_exprs names arguments)) }
    {
        match self {
            First::Variable(place, symbol) => Ok(named(place, symbol, arguments)),
            First::Field(place, name_place, symbol) => {
                member(alloc, place, name_place, symbol, arguments)
            }
        }
    }
}

/// `skip;`, `suspend;`, `await g;`, `return e;` or `println(e);`, and the cursor after it.
pub(crate) fn simple_statement<'a, 'b>(
    alloc: Global,
    symbols: &mut Symbols<'a>,
    index: u32,
    depth: u32,
    keyword: Keyword,
    from: Cursor<'a, 'b>,
) -> Result<(Stmt, Cursor<'a, 'b>), ParseError>
    requires simple { is_simple keyword ≡ true }
    requires begins { next (left_at (spot from)) ≡ KeywordKind keyword }
    requires names { HasRoom symbols.old (spot from) }
    requires depth { depth ≤ limit }
    ensures parses { Parses result (parse_of (One StmtSymbol) depth symbols.old symbols.new (spot from.entry)
        (λ found. spot found.1) (λ found names inside. statement_tree names found.0 ≡ statement_in index inside)) }
    ensures one { IfOk result (λ found. (names : List Name) → count_of (statement_tree names found.0) ≡ 1) }
{
    let (token, after) = from.take(Lexeme::Keyword(keyword), depth + 1)?;
    let place = token.place;
    match keyword {
        Keyword::Skip => closed(Stmt::Skip { index, place }, depth + 1, after),
        Keyword::Suspend => closed(Stmt::Suspend { index, place }, depth + 1, after),
        Keyword::Await => {
            let (guard, last) = guard(alloc, symbols, depth + 1, after)?;
            let stmt = Stmt::Await {
                index,
                place,
                guard,
            };
            closed(stmt, depth + 1, last)
        }
        Keyword::Return => {
            let (returned, last) = expression(alloc, symbols, depth + 1, after)?;
            let value = Arc::new(alloc, returned)?;
            let stmt = Stmt::Return {
                index,
                place,
                value,
            };
            closed(stmt, depth + 1, last)
        }
        Keyword::Println => {
            let (printed, last) = in_parentheses(alloc, symbols, depth + 1, after)?;
            let value = Arc::new(alloc, printed)?;
            let stmt = Stmt::Print {
                index,
                place,
                value,
            };
            closed(stmt, depth + 1, last)
        }
        _ => unreachable!(),
    }
}

/// A statement of which only the semicolon is left to read, and the cursor after the semicolon.
fn closed<'a, 'b>(
    stmt: Stmt,
    depth: u32,
    from: Cursor<'a, 'b>,
) -> Result<(Stmt, Cursor<'a, 'b>), ParseError>
    ensures same { IfOk result (λ found. found.0 ≡ stmt) }
    ensures found { IfOk result (λ found. Passes (lexeme.Punctuator punctuator.Semicolon) (spot from.entry)
        (spot found.1)) }
    ensures refused { IfErr result (λ error. IsRefused (Terminal (PunctuatorKind punctuator.Semicolon) depth)
        (spot from.entry) error) }
{
    let (_, end) = from.take(Lexeme::Punctuator(Punctuator::Semicolon), depth)?;
    Ok((stmt, end))
}

/// `T x;` or `T x = r;`, and the cursor after it.
pub(crate) fn variable_declaration<'a, 'b>(
    alloc: Global,
    symbols: &mut Symbols<'a>,
    index: u32,
    depth: u32,
    from: Cursor<'a, 'b>,
) -> Result<(Stmt, Cursor<'a, 'b>), ParseError>
    requires begins { fits UpperName (next (left_at (spot from))) ≡ true }
    requires names { HasRoom symbols.old (spot from) }
    requires depth { depth ≤ limit }
    ensures parses { Parses result (parse_of (One StmtSymbol) depth symbols.old symbols.new (spot from.entry)
        (λ found. spot found.1) (λ found names inside. statement_tree names found.0 ≡ statement_in index inside)) }
    ensures one { IfOk result (λ found. (names : List Name) → count_of (statement_tree names found.0) ≡ 1) }
{
    let (type_of, name_at) = type_term(alloc, symbols, depth + 1, from)?;
    let (name, after) = name_at.take(Lexeme::LowerName, depth + 1)?;
    let variable = Variable::Unresolved(symbols.intern(name.slice)?);
    let (initial, last) = initial(alloc, symbols, depth + 1, after)?;
    let (_, end) = last.take(Lexeme::Punctuator(Punctuator::Semicolon), depth + 1)?;
    let stmt = Stmt::Declare {
        index,
        place: from.place(),
        type_of,
        variable_place: name.place,
        variable,
        initial,
    };
    Ok((stmt, end))
}

/// `= r`, if it is next, and the cursor after it.
fn initial<'a, 'b>(
    alloc: Global,
    symbols: &mut Symbols<'a>,
    depth: u32,
    from: Cursor<'a, 'b>,
) -> Result<(Option<RightSide>, Cursor<'a, 'b>), ParseError>
    requires names { HasRoom symbols.old (spot from) }
    requires depth { depth ≤ limit }
    ensures { Parses result (parse_of (Optional Initial) depth symbols.old symbols.new (spot from.entry)
        (λ found. spot found.1) (λ found names inside. maybe_side names found.0 ≡ initial_in inside)) }
{
    let Some((_, after)) = from.accept(Lexeme::Punctuator(Punctuator::Assign)) else {
        return Ok((None, from));
    };
    let (side, end) = right_side(alloc, symbols, depth, after)?;
    Ok((Some(side), end))
}

/// A statement that begins with a name: `x = r;`, or a right side; and the cursor after it.
pub(crate) fn variable_statement<'a, 'b>(
    alloc: Global,
    symbols: &mut Symbols<'a>,
    index: u32,
    depth: u32,
    from: Cursor<'a, 'b>,
) -> Result<(Stmt, Cursor<'a, 'b>), ParseError>
    requires begins { fits LowerName (next (left_at (spot from))) ≡ true }
    requires names { HasRoom symbols.old (spot from) }
    requires depth { depth ≤ limit }
    ensures parses { Parses result (parse_of (One StmtSymbol) depth symbols.old symbols.new (spot from.entry)
        (λ found. spot found.1) (λ found names inside. statement_tree names found.0 ≡ statement_in index inside)) }
    ensures one { IfOk result (λ found. (names : List Name) → count_of (statement_tree names found.0) ≡ 1) }
{
    // the name is part of a right side, and so nested in an expression and a unary too
    let side = depth + 1;
    let (name, after) = from.take(Lexeme::LowerName, side + 2)?;
    let symbol = symbols.intern(name.slice)?;
    let first = First::Variable(name.place, symbol);
    after_name(alloc, symbols, index, side, first, after)
}

/// A statement that begins with `this`: `this.x = r;`, or a right side; and the cursor after it.
pub(crate) fn this_statement<'a, 'b>(
    alloc: Global,
    symbols: &mut Symbols<'a>,
    index: u32,
    depth: u32,
    from: Cursor<'a, 'b>,
) -> Result<(Stmt, Cursor<'a, 'b>), ParseError>
    requires begins { fits (KeywordKind keyword.This) (next (left_at (spot from))) ≡ true }
    requires names { HasRoom symbols.old (spot from) }
    requires depth { depth ≤ limit }
    ensures parses { Parses result (parse_of (One StmtSymbol) depth symbols.old symbols.new (spot from.entry)
        (λ found. spot found.1) (λ found names inside. statement_tree names found.0 ≡ statement_in index inside)) }
    ensures one { IfOk result (λ found. (names : List Name) → count_of (statement_tree names found.0) ≡ 1) }
{
    // `this` is part of a right side, and so nested in an expression and a unary too
    let side = depth + 1;
    let (this, after) = from.take(Lexeme::Keyword(Keyword::This), side + 2)?;
    let Some((_, name_at)) = after.accept(Lexeme::Punctuator(Punctuator::Dot)) else {
        let expr = Expr::This(this.place);
        let (side, end) = rest(alloc, symbols, side, this.place, expr, after)?;
        let stmt = Stmt::Do {
            index,
            place: this.place,
            side,
        };
        return Ok((stmt, end));
    };
    let (name, last) = name_at.take(Lexeme::LowerName, side + 2)?;
    let symbol = symbols.intern(name.slice)?;
    let first = First::Field(this.place, name.place, symbol);
    after_name(alloc, symbols, index, side, first, last)
}

/// What follows the variable or the field with which a statement begins: `= r;`, or the rest of a right side; and the
/// cursor after it.
fn after_name<'a, 'b>(
    alloc: Global,
    symbols: &mut Symbols<'a>,
    index: u32,
    depth: u32,
    first: First,
    from: Cursor<'a, 'b>,
) -> Result<(Stmt, Cursor<'a, 'b>), ParseError>
    requires within { depth + 2 ≤ limit }
    requires names { HasRoom symbols.old (spot from) }
    ensures parses { Parses result (parse_of (One AfterName) depth symbols.old symbols.new (spot from.entry)
        (λ found. spot found.1)
        (λ found names inside. statement_tree names found.0 ≡ after_first index names first inside)) }
    ensures one { IfOk result (λ found. (names : List Name) → count_of (statement_tree names found.0) ≡ 1) }
{
    let place = first.place();
    if let Some((_, side_at)) = from.accept(Lexeme::Punctuator(Punctuator::Assign)) {
        let (side, last) = right_side(alloc, symbols, depth, side_at)?;
        let (_, end) = last.take(Lexeme::Punctuator(Punctuator::Semicolon), depth)?;
        let stmt = Stmt::Assign {
            index,
            place,
            target: first.target(),
            side,
        };
        return Ok((stmt, end));
    }
    let (arguments, after) = arguments_maybe(alloc, symbols, depth + 2, from)?;
    let operand = first.expr(alloc, arguments)?;
    let (side, end) = rest(alloc, symbols, depth, place, operand, after)?;
    Ok((Stmt::Do { index, place, side }, end))
}

/// The rest of a right side, after its first operand, which begins at `place`; `;`; and the cursor after it.
fn rest<'a, 'b>(
    alloc: Global,
    symbols: &mut Symbols<'a>,
    depth: u32,
    place: Place,
    first: Expr,
    from: Cursor<'a, 'b>,
) -> Result<(RightSide, Cursor<'a, 'b>), ParseError>
    requires within { depth + 2 ≤ limit }
    requires names { HasRoom symbols.old (spot from) }
    ensures { Parses result (parse_of (One Rest) depth symbols.old symbols.new (spot from.entry)
        (λ found. spot found.1)
        (λ found names inside. side_tree names found.0 ≡ rest_in place (expr_tree names first) inside)) }
{
    let (value, here) = climb(
        alloc,
        symbols,
        Precedence::Mul,
        Precedence::Or,
        depth + 1,
        place,
        first,
        from,
    )?;
    let (side, last) = right_side_tail(alloc, symbols, depth, place, value, here)?;
    let (_, end) = last.take(Lexeme::Punctuator(Punctuator::Semicolon), depth)?;
    Ok((side, end))
}

/// A right side as a statement, `r;`, where the next token begins no other statement; and the cursor after it.
pub(crate) fn right_side_statement<'a, 'b>(
    alloc: Global,
    symbols: &mut Symbols<'a>,
    index: u32,
    depth: u32,
    from: Cursor<'a, 'b>,
) -> Result<(Stmt, Cursor<'a, 'b>), ParseError>
    requires plain { begins_another (next (left_at (spot from))) ≡ false }
    requires names { HasRoom symbols.old (spot from) }
    requires depth { depth ≤ limit }
    ensures parses { Parses result (parse_of (One StmtSymbol) depth symbols.old symbols.new (spot from.entry)
        (λ found. spot found.1) (λ found names inside. statement_tree names found.0 ≡ statement_in index inside)) }
    ensures one { IfOk result (λ found. (names : List Name) → count_of (statement_tree names found.0) ≡ 1) }
{
    let (side, last) = right_side(alloc, symbols, depth + 1, from)?;
    let (_, end) = last.take(Lexeme::Punctuator(Punctuator::Semicolon), depth + 1)?;
    let stmt = Stmt::Do {
        index,
        place: from.place(),
        side,
    };
    Ok((stmt, end))
}
