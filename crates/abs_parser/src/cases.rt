//! Reads `case` with its branches.
ghost use Rattle.std.specs.Prelude.{◌≡◌, true, ◌+◌, ◌≤◌};
ghost use Rattle.abs_lexer.specs.declared.lexeme.Keyword.TheVariants as keyword;
ghost use Rattle.abs_tree.specs.Syntax.{Branches, NextBranch};
ghost use Rattle.abs_tree.specs.SyntaxViews.{expr_tree, pattern_tree};
ghost use Rattle.abs_parser.specs.TokenKinds.{KeywordKind, fits, next};
ghost use Rattle.abs_parser.specs.Productions.{Primary, Branch as BranchSymbol};
ghost use Rattle.abs_parser.specs.Readings.{One};
ghost use Rattle.abs_parser.specs.ReaderAnswers.{Parses, parse_of, HasRoom, left_at};
ghost use Rattle.abs_parser.specs.Stops.{limit};
ghost use Rattle.abs_parser.specs.TreesOf.{primary_in, branch_in};
ghost use Rattle.abs_parser.specs.Views.{spot};

use crate::ParseError;
use crate::cursor::Cursor;
use crate::expressions::expression;
use crate::patterns::pattern;
use abs_lexer::{Keyword, Lexeme, Punctuator};
use abs_tree::Symbols;
use abs_tree::syntax::{Branch, Expr};
use std::alloc::Global;

/// `case e { p => e; .. }`, and the cursor after it.
///
/// # Errors
/// The refusal of the first token that is a syntax error or too deeply nested.
#[cycle(expressions)]
pub(crate) fn case_primary<'a, 'b>(
    alloc: Global,
    symbols: &mut Symbols<'a>,
    depth: u32,
    from: Cursor<'a, 'b>,
) -> Result<(Expr, Cursor<'a, 'b>), ParseError>
    requires begins { fits (KeywordKind keyword.Case) (next (left_at (spot from))) ≡ true }
    requires names { HasRoom symbols.old (spot from) }
    requires depth { depth ≤ limit + 3 }
    ensures { Parses result (parse_of (One Primary) depth symbols.old symbols.new (spot from.entry)
        (λ found. spot found.1) (λ found names inside. expr_tree names found.0 ≡ primary_in inside)) }
{
    let (token, subject_at) = from.take(Lexeme::Keyword(Keyword::Case), depth)?;
    let (subject, open) = expression(alloc, symbols, depth, subject_at)?;
    let (_, first_at) = open.take(Lexeme::Punctuator(Punctuator::OpenBrace), depth)?;
    let (first, mut here) = branch(alloc, symbols, depth, first_at)?;
    let mut branches = vec![in alloc; first]?;
    while !here.is(Lexeme::Punctuator(Punctuator::CloseBrace)) {
        let (next, end) = branch(alloc, symbols, depth, here)?;
        branches.push(next)?;
        here = end;
    }
    let (_, end) = here.take(Lexeme::Punctuator(Punctuator::CloseBrace), depth)?;
    let subject = Box::new(alloc, subject)?;
    let expr = Expr::Case {
        place: token.place,
        subject,
        branches,
    };
    Ok((expr, end))
}

/// `p => e;`, and the cursor after it.
#[cycle(expressions)]
fn branch<'a, 'b>(
    alloc: Global,
    symbols: &mut Symbols<'a>,
    depth: u32,
    from: Cursor<'a, 'b>,
) -> Result<(Branch, Cursor<'a, 'b>), ParseError>
    requires names { HasRoom symbols.old (spot from) }
    requires depth { depth ≤ limit }
    ensures { Parses result (parse_of (One BranchSymbol) depth symbols.old symbols.new (spot from.entry)
        (λ found. spot found.1)
        (λ found names inside. (others : Branches) → NextBranch (pattern_tree names found.0.pattern)
        (expr_tree names found.0.value) others ≡ branch_in inside others)) }
{
    let (pattern, arrow) = pattern(alloc, symbols, depth, from)?;
    let (_, value_at) = arrow.take(Lexeme::Punctuator(Punctuator::Arrow), depth)?;
    let (value, close) = expression(alloc, symbols, depth, value_at)?;
    let (_, end) = close.take(Lexeme::Punctuator(Punctuator::Semicolon), depth)?;
    Ok((Branch { pattern, value }, end))
}
