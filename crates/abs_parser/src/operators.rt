//! Reads operator lists. A unary is read once, and then the operators after it, one precedence after another, from the
//! one that binds most.
ghost use Rattle.std.specs.Prelude.{◌≡◌, ℕ, List, false, ◌+◌, ◌≤◌, IfOk, IfErr, IfSome, IfNone};
ghost use Rattle.abs_tree.specs.SyntaxViews.{expr_tree, operand_trees};
ghost use Rattle.abs_lexer.specs.declared.lexeme.Lexeme.TheVariants as lexeme;
ghost use Rattle.abs_tree.specs.declared.syntax.expression.Operator as operator_type;
ghost use Rattle.abs_parser.specs.TokenKinds.{PunctuatorKind, fits, next};
ghost use Rattle.abs_parser.specs.Precedences.{rank, looser as looser_of, nonterminal_of, operand_nonterminal, rest_of, precedence_in, operand_in, operands_in, precedence_of as on_precedence, punctuator_of, repeats as may_repeat};
ghost use Rattle.abs_parser.specs.Climbing.{Climbs, FailsToClimb};
ghost use Rattle.abs_parser.specs.Readings.{One};
ghost use Rattle.abs_parser.specs.ReaderAnswers.{Parses, parse_of, HasRoom, Passes, left_at};
ghost use Rattle.abs_parser.specs.Stops.{limit};
ghost use Rattle.abs_parser.specs.TreesOf.{with_operators};
ghost use Rattle.abs_parser.specs.Views.{spot};

use crate::ParseError;
use crate::cursor::Cursor;
use crate::primaries::unary;
use abs_lexer::{Lexeme, Punctuator};
use abs_tree::syntax::{Expr, Operand, Operator};
use abs_tree::{Place, Symbols};
use std::alloc::{AllocError, Global};

/// The precedences of operators, from the one that binds least.
#[derive(Clone, Copy, Debug, PartialEq, Eq)]
pub(crate) enum Precedence {
    /// `||`
    Or,
    /// `&&`
    And,
    /// `==` and `!=`
    Equal,
    /// `<`, `<=`, `>` and `>=`
    Compare,
    /// `+` and `-`
    Sum,
    /// `*`, `/` and `%`
    Mul,
}

impl Precedence {
    /// Whether a further operator of the precedence may follow.
    fn repeats(self) -> bool
        ensures { result ≡ may_repeat self }
    {
        match self {
            Precedence::Equal | Precedence::Compare => false,
            Precedence::Or | Precedence::And | Precedence::Sum | Precedence::Mul => true,
        }
    }

    /// The next precedence that binds less; `||`, for which there is none, gives itself.
    fn looser(self) -> Precedence
        ensures { result ≡ looser_of self }
    {
        match self {
            Precedence::Or | Precedence::And => Precedence::Or,
            Precedence::Equal => Precedence::And,
            Precedence::Compare => Precedence::Equal,
            Precedence::Sum => Precedence::Compare,
            Precedence::Mul => Precedence::Sum,
        }
    }
}

/// The precedence of an operator.
fn precedence_of(operator: Operator) -> Precedence
    ensures { result ≡ on_precedence operator }
{
    match operator {
        Operator::Or => Precedence::Or,
        Operator::And => Precedence::And,
        Operator::Equal | Operator::NotEqual => Precedence::Equal,
        Operator::Less | Operator::LessEqual | Operator::Greater | Operator::GreaterEqual => {
            Precedence::Compare
        }
        Operator::Plus | Operator::Minus => Precedence::Sum,
        Operator::Times | Operator::Divide | Operator::Remainder => Precedence::Mul,
    }
}

/// The operator of a punctuator, if it is one.
fn operator_of(punctuator: Punctuator) -> Option<Operator>
    ensures some { IfSome result (λ operator. punctuator ≡ punctuator_of operator) }
    ensures none { IfNone result ((operator : operator_type.Operator) → punctuator ≡ punctuator_of operator → ⊥) }
{
    match punctuator {
        Punctuator::Or => Some(Operator::Or),
        Punctuator::And => Some(Operator::And),
        Punctuator::Equal => Some(Operator::Equal),
        Punctuator::NotEqual => Some(Operator::NotEqual),
        Punctuator::Less => Some(Operator::Less),
        Punctuator::LessEqual => Some(Operator::LessEqual),
        Punctuator::Greater => Some(Operator::Greater),
        Punctuator::GreaterEqual => Some(Operator::GreaterEqual),
        Punctuator::Plus => Some(Operator::Plus),
        Punctuator::Minus => Some(Operator::Minus),
        Punctuator::Star => Some(Operator::Times),
        Punctuator::Slash => Some(Operator::Divide),
        Punctuator::Percent => Some(Operator::Remainder),
        _ => None,
    }
}

/// The next token as an operator of a precedence, if it is one, and the cursor after it.
fn operator_at<'a, 'b>(
    precedence: Precedence,
    from: Cursor<'a, 'b>,
) -> Option<(Operator, Cursor<'a, 'b>)>
    ensures precedence { IfSome result (λ found. on_precedence found.0 ≡ precedence) }
    ensures some { IfSome result (λ found. Passes (lexeme.Punctuator (punctuator_of found.0)) (spot from.entry)
        (spot found.1)) }
    ensures none { IfNone result ((operator : operator_type.Operator) → on_precedence operator ≡ precedence
        → fits (PunctuatorKind (punctuator_of operator)) (next (left_at (spot from.entry))) ≡ false) }
{
    let (token, after) = from.next()?;
    let Lexeme::Punctuator(punctuator) = token.kind else {
        return None;
    };
    let operator = operator_of(punctuator)?;
    if precedence_of(operator) != precedence {
        return None;
    }
    Some((operator, after))
}

/// Whether the next token is an operator between operands.
fn operator_follows(from: Cursor<'_, '_>) -> bool
    ensures { result ≡ false → (operator : operator_type.Operator)
        → fits (PunctuatorKind (punctuator_of operator)) (next (left_at (spot from.entry))) ≡ false }
{
    let Some((token, _)) = from.next() else {
        return false;
    };
    let Lexeme::Punctuator(punctuator) = token.kind else {
        return false;
    };
    operator_of(punctuator).is_some()
}

/// An operator list of a precedence, and the cursor after it. Its first unary is read once, and then the operators
/// after it, one precedence after another.
///
/// # Errors
/// The refusal of the first token that is a syntax error or too deeply nested.
#[cycle(expressions)]
pub(crate) fn operators<'a, 'b>(
    alloc: Global,
    symbols: &mut Symbols<'a>,
    precedence: Precedence,
    depth: u32,
    from: Cursor<'a, 'b>,
) -> Result<(Expr, Cursor<'a, 'b>), ParseError>
    requires names { HasRoom symbols.old (spot from) }
    requires depth { depth ≤ limit + 2 }
    ensures { Parses result (parse_of (One (nonterminal_of precedence)) depth symbols.old symbols.new (spot from.entry)
        (λ found. spot found.1) (λ found names inside. expr_tree names found.0 ≡ precedence_in precedence inside)) }
{
    let (first, here) = unary(alloc, symbols, depth, from)?;
    climb(
        alloc,
        symbols,
        Precedence::Mul,
        precedence,
        depth,
        from.place(),
        first,
        here,
    )
}

/// A first operand, which begins at `place`, with the operators of each precedence from `at` up to `to`, each with the
/// operand after it; and the cursor after that. Where the first is an operand of `at`, they are an expression of `to`.
///
/// # Errors
/// The refusal of the first token that is a syntax error or too deeply nested.
#[cycle(expressions)]
pub(crate) fn climb<'a, 'b>(
    alloc: Global,
    symbols: &mut Symbols<'a>,
    at: Precedence,
    to: Precedence,
    depth: u32,
    place: Place,
    first: Expr,
    from: Cursor<'a, 'b>,
) -> Result<(Expr, Cursor<'a, 'b>), ParseError>
    requires order { rank at ≤ rank to }
    requires names { HasRoom symbols.old (spot from) }
    requires depth { depth ≤ limit }
    ensures found { IfOk result (λ found. Climbs at to depth symbols.old symbols.new place first found.0
        (spot from.entry) (spot found.1)) }
    ensures refused { IfErr result (λ error. FailsToClimb at to depth symbols.old place first (spot from.entry) error) }
{
    if !operator_follows(from) {
        return Ok((first, from));
    }
    let (left, here) = operators_after(alloc, symbols, at, depth, place, first, from)?;
    if at == to {
        return Ok((left, here));
    }
    climb(alloc, symbols, at.looser(), to, depth, place, left, here)
}

/// A first operand, which begins at `place`, with the operators of a precedence and the operands after it; and the
/// cursor after them.
#[cycle(expressions)]
fn operators_after<'a, 'b>(
    alloc: Global,
    symbols: &mut Symbols<'a>,
    precedence: Precedence,
    depth: u32,
    place: Place,
    first: Expr,
    from: Cursor<'a, 'b>,
) -> Result<(Expr, Cursor<'a, 'b>), ParseError>
    requires names { HasRoom symbols.old (spot from) }
    requires depth { depth ≤ limit }
    ensures { Parses result (parse_of (rest_of precedence) depth symbols.old symbols.new (spot from.entry)
        (λ found. spot found.1)
        (λ found names inside. expr_tree names found.0
        ≡ with_operators place (expr_tree names first) (operands_in precedence inside))) }
{
    let mut operands = Vec::new(alloc);
    let mut here = from;
    while let Some((operator, after)) = operator_at(precedence, here) {
        let (right, end) = operand(alloc, symbols, precedence, depth, after)?;
        operands.push(Operand { operator, right })?;
        here = end;
        if !precedence.repeats() {
            break;
        }
    }
    Ok((node(alloc, place, first, operands)?, here))
}

/// An operand of a precedence, and the cursor after it.
#[cycle(expressions)]
fn operand<'a, 'b>(
    alloc: Global,
    symbols: &mut Symbols<'a>,
    precedence: Precedence,
    depth: u32,
    from: Cursor<'a, 'b>,
) -> Result<(Expr, Cursor<'a, 'b>), ParseError>
    requires names { HasRoom symbols.old (spot from) }
    requires depth { depth ≤ limit + 2 }
    ensures { Parses result (parse_of (One (operand_nonterminal precedence)) depth symbols.old symbols.new
        (spot from.entry) (λ found. spot found.1)
        (λ found names inside. expr_tree names found.0 ≡ operand_in precedence inside)) }
{
    match precedence {
        Precedence::Or => operators(alloc, symbols, Precedence::And, depth, from),
        Precedence::And => operators(alloc, symbols, Precedence::Equal, depth, from),
        Precedence::Equal => operators(alloc, symbols, Precedence::Compare, depth, from),
        Precedence::Compare => operators(alloc, symbols, Precedence::Sum, depth, from),
        Precedence::Sum => operators(alloc, symbols, Precedence::Mul, depth, from),
        Precedence::Mul => unary(alloc, symbols, depth, from),
    }
}

/// The tree of operands with operators between them: without an operator, the first operand itself.
fn node(
    alloc: Global,
    place: Place,
    first: Expr,
    operands: Vec<Operand>,
) -> Result<Expr, AllocError>
    ensures { IfOk result (λ expr. (names : List (List ℕ))
        → expr_tree names expr ≡ with_operators place (expr_tree names first) (operand_trees names operands.items)) }
{
    if operands.is_empty() {
        return Ok(first);
    }
    Ok(Expr::Operators {
        place,
        first: Box::new(alloc, first)?,
        operands,
    })
}
