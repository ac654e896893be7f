//! Reads statements and blocks.
ghost use Rattle.std.specs.Prelude.{◌≡◌, List, true, ◌+◌, ◌≤◌, length, IfOk};
ghost use Rattle.abs_lexer.specs.declared.lexeme.Keyword.TheVariants as keyword;
ghost use Rattle.abs_lexer.specs.declared.lexeme.Punctuator.TheVariants as punctuator;
ghost use Rattle.abs_tree.specs.Syntax.{Name};
ghost use Rattle.abs_tree.specs.SyntaxSizes.{count_of, count_of_else, statement_count};
ghost use Rattle.abs_tree.specs.SyntaxViews.{statement as statement_tree, statements as statement_trees, maybe_statements};
ghost use Rattle.abs_parser.specs.TokenKinds.{PunctuatorKind, KeywordKind, fits, next};
ghost use Rattle.abs_parser.specs.Productions.{Stmt as StmtSymbol, Block as BlockSymbol, Else};
ghost use Rattle.abs_parser.specs.Readings.{One, Optional};
ghost use Rattle.abs_parser.specs.ReaderAnswers.{Parses, parse_of, HasRoom, HasIndexes, left_at};
ghost use Rattle.abs_parser.specs.Stops.{limit};
ghost use Rattle.abs_parser.specs.Firsts.{IsBlock};
ghost use Rattle.abs_parser.specs.TreesOf.{statement_in, branch_of, else_in};
ghost use Rattle.abs_parser.specs.Views.{spot};

use crate::ParseError;
use crate::cursor::Cursor;
use crate::expressions::in_parentheses;
use crate::simple_statements::{
    right_side_statement, simple_statement, this_statement, variable_declaration,
    variable_statement,
};
use abs_lexer::{Keyword, Lexeme, Punctuator};
use abs_tree::Symbols;
use abs_tree::syntax::{Body, Stmt};
use std::alloc::{AllocError, Global};
use std::sync::Arc;

/// A statement nested in `depth` counted nonterminals, with `index` as its first index; the index that is
/// free after it; and the cursor after it.
///
/// # Errors
/// The refusal of the first token that is a syntax error or too deeply nested.
#[cycle(statements)]
pub(crate) fn statement<'a, 'b>(
    alloc: Global,
    symbols: &mut Symbols<'a>,
    index: u32,
    depth: u32,
    from: Cursor<'a, 'b>,
) -> Result<(Stmt, u32, Cursor<'a, 'b>), ParseError>
    requires names { HasRoom symbols.old (spot from) }
    requires few { HasIndexes index (spot from) }
    requires depth { depth ≤ limit }
    ensures parses { Parses result (parse_of (One StmtSymbol) depth symbols.old symbols.new (spot from.entry)
        (λ found. spot found.2) (λ found names inside. statement_tree names found.0 ≡ statement_in index inside)) }
    ensures free { IfOk result (λ found. (names : List Name)
        → found.1 ≡ index + count_of (statement_tree names found.0)) }
    ensures few { IfOk result (λ found. found.1 + length (spot found.2).rest ≤ index + length (spot from.entry).rest) }
{
    let Some((token, _)) = from.next() else {
        return Err(from.wrong());
    };
    let (stmt, end) = match token.kind {
        Lexeme::Keyword(keyword) => return keyword_statement(
            alloc, symbols, index, depth, keyword, from,
        ),
        Lexeme::UpperName => variable_declaration(alloc, symbols, index, depth, from)?,
        Lexeme::LowerName => variable_statement(alloc, symbols, index, depth, from)?,
        Lexeme::Punctuator(punctuator) => {
            if punctuator == Punctuator::OpenBrace {
                return block_statement(alloc, symbols, index, depth, from);
            }
            right_side_statement(alloc, symbols, index, depth, from)?
        }
        Lexeme::Number | Lexeme::Text | Lexeme::Foreign => {
            right_side_statement(alloc, symbols, index, depth, from)?
        }
    };
    Ok((stmt, index + 1, end))
}

/// A statement that begins with a keyword.
#[cycle(statements)]
fn keyword_statement<'a, 'b>(
    alloc: Global,
    symbols: &mut Symbols<'a>,
    index: u32,
    depth: u32,
    keyword: Keyword,
    from: Cursor<'a, 'b>,
) -> Result<(Stmt, u32, Cursor<'a, 'b>), ParseError>
    requires begins { next (left_at (spot from)) ≡ KeywordKind keyword }
    requires names { HasRoom symbols.old (spot from) }
    requires few { HasIndexes index (spot from) }
    requires depth { depth ≤ limit }
    ensures parses { Parses result (parse_of (One StmtSymbol) depth symbols.old symbols.new (spot from.entry)
        (λ found. spot found.2) (λ found names inside. statement_tree names found.0 ≡ statement_in index inside)) }
    ensures free { IfOk result (λ found. (names : List Name)
        → found.1 ≡ index + count_of (statement_tree names found.0)) }
    ensures few { IfOk result (λ found. found.1 + length (spot found.2).rest ≤ index + length (spot from.entry).rest) }
{
    let (stmt, end) = match keyword {
        Keyword::If => return if_statement(alloc, symbols, index, depth, from),
        Keyword::While => return while_statement(alloc, symbols, index, depth, from),
        Keyword::This => this_statement(alloc, symbols, index, depth, from)?,
        Keyword::Skip | Keyword::Suspend | Keyword::Await | Keyword::Return | Keyword::Println =>
            simple_statement(alloc, symbols, index, depth, keyword, from)?,
        _ => right_side_statement(alloc, symbols, index, depth, from)?,
    };
    Ok((stmt, index + 1, end))
}

/// A block as a statement.
#[cycle(statements)]
fn block_statement<'a, 'b>(
    alloc: Global,
    symbols: &mut Symbols<'a>,
    index: u32,
    depth: u32,
    from: Cursor<'a, 'b>,
) -> Result<(Stmt, u32, Cursor<'a, 'b>), ParseError>
    requires begins { fits (PunctuatorKind punctuator.OpenBrace) (next (left_at (spot from))) ≡ true }
    requires names { HasRoom symbols.old (spot from) }
    requires few { HasIndexes index (spot from) }
    requires depth { depth ≤ limit }
    ensures parses { Parses result (parse_of (One StmtSymbol) depth symbols.old symbols.new (spot from.entry)
        (λ found. spot found.2) (λ found names inside. statement_tree names found.0 ≡ statement_in index inside)) }
    ensures free { IfOk result (λ found. (names : List Name)
        → found.1 ≡ index + count_of (statement_tree names found.0)) }
    ensures few { IfOk result (λ found. found.1 + length (spot found.2).rest ≤ index + length (spot from.entry).rest) }
{
    let place = from.place();
    let (body, after, end) = block(alloc, symbols, index, depth + 1, from)?;
    Ok((Stmt::Block(place, body.statements), after, end))
}

/// `if (e) s`, perhaps with `else s`.
#[cycle(statements)]
fn if_statement<'a, 'b>(
    alloc: Global,
    symbols: &mut Symbols<'a>,
    index: u32,
    depth: u32,
    from: Cursor<'a, 'b>,
) -> Result<(Stmt, u32, Cursor<'a, 'b>), ParseError>
    requires begins { fits (KeywordKind keyword.If) (next (left_at (spot from))) ≡ true }
    requires names { HasRoom symbols.old (spot from) }
    requires few { HasIndexes index (spot from) }
    requires depth { depth ≤ limit }
    ensures parses { Parses result (parse_of (One StmtSymbol) depth symbols.old symbols.new (spot from.entry)
        (λ found. spot found.2) (λ found names inside. statement_tree names found.0 ≡ statement_in index inside)) }
    ensures free { IfOk result (λ found. (names : List Name)
        → found.1 ≡ index + count_of (statement_tree names found.0)) }
    ensures few { IfOk result (λ found. found.1 + length (spot found.2).rest ≤ index + length (spot from.entry).rest) }
{
    let (token, test_at) = from.take(Lexeme::Keyword(Keyword::If), depth + 1)?;
    let (test, first_at) = in_parentheses(alloc, symbols, depth + 1, test_at)?;
    let (first, middle, here) = statement(alloc, symbols, index + 1, depth + 1, first_at)?;
    let condition = Arc::new(alloc, test)?;
    let first = branch(alloc, first)?;
    let (second, after, end) = else_branch(alloc, symbols, middle, depth + 1, here)?;
    let stmt = Stmt::If {
        index,
        place: token.place,
        condition,
        first,
        second,
    };
    Ok((stmt, after, end))
}

/// `else s`, if it is next.
#[cycle(statements)]
fn else_branch<'a, 'b>(
    alloc: Global,
    symbols: &mut Symbols<'a>,
    index: u32,
    depth: u32,
    from: Cursor<'a, 'b>,
) -> Result<(Option<Vec<Stmt>>, u32, Cursor<'a, 'b>), ParseError>
    requires names { HasRoom symbols.old (spot from) }
    requires few { HasIndexes index (spot from) }
    requires depth { depth ≤ limit }
    ensures parses { Parses result (parse_of (Optional Else) depth symbols.old symbols.new (spot from.entry)
        (λ found. spot found.2) (λ found names inside. maybe_statements names found.0 ≡ else_in index inside)) }
    ensures free { IfOk result (λ found. (names : List Name)
        → found.1 ≡ index + count_of_else (maybe_statements names found.0)) }
    ensures few { IfOk result (λ found. found.1 + length (spot found.2).rest ≤ index + length (spot from.entry).rest) }
{
    let Some((_, other_at)) = from.accept(Lexeme::Keyword(Keyword::Else)) else {
        return Ok((None, index, from));
    };
    let (other, after, end) = statement(alloc, symbols, index, depth, other_at)?;
    Ok((Some(branch(alloc, other)?), after, end))
}

/// `while (e) s`.
#[cycle(statements)]
fn while_statement<'a, 'b>(
    alloc: Global,
    symbols: &mut Symbols<'a>,
    index: u32,
    depth: u32,
    from: Cursor<'a, 'b>,
) -> Result<(Stmt, u32, Cursor<'a, 'b>), ParseError>
    requires begins { fits (KeywordKind keyword.While) (next (left_at (spot from))) ≡ true }
    requires names { HasRoom symbols.old (spot from) }
    requires few { HasIndexes index (spot from) }
    requires depth { depth ≤ limit }
    ensures parses { Parses result (parse_of (One StmtSymbol) depth symbols.old symbols.new (spot from.entry)
        (λ found. spot found.2) (λ found names inside. statement_tree names found.0 ≡ statement_in index inside)) }
    ensures free { IfOk result (λ found. (names : List Name)
        → found.1 ≡ index + count_of (statement_tree names found.0)) }
    ensures few { IfOk result (λ found. found.1 + length (spot found.2).rest ≤ index + length (spot from.entry).rest) }
{
    let (token, test_at) = from.take(Lexeme::Keyword(Keyword::While), depth + 1)?;
    let (test, body_at) = in_parentheses(alloc, symbols, depth + 1, test_at)?;
    let (body, after, end) = statement(alloc, symbols, index + 1, depth + 1, body_at)?;
    let condition = Arc::new(alloc, test)?;
    let body = branch(alloc, body)?;
    let stmt = Stmt::While {
        index,
        place: token.place,
        condition,
        body,
    };
    Ok((stmt, after, end))
}

/// The statements between `{` and `}`, with the place of the `}`; the index that is free after them; and the cursor
/// after it.
///
/// # Errors
/// The refusal of the first token that is a syntax error or too deeply nested.
#[cycle(statements)]
pub(crate) fn block<'a, 'b>(
    alloc: Global,
    symbols: &mut Symbols<'a>,
    index: u32,
    depth: u32,
    from: Cursor<'a, 'b>,
) -> Result<(Body, u32, Cursor<'a, 'b>), ParseError>
    requires names { HasRoom symbols.old (spot from) }
    requires few { HasIndexes index (spot from) }
    requires depth { depth ≤ limit + 1 }
    ensures parses { Parses result (parse_of (One BlockSymbol) depth symbols.old symbols.new (spot from.entry)
        (λ found. spot found.2) (λ found names inside. IsBlock index names found.0 inside)) }
    ensures free { IfOk result (λ found. (names : List Name)
        → found.1 ≡ index + statement_count (statement_trees names found.0.statements.items)) }
    ensures few { IfOk result (λ found. found.1 + length (spot found.2).rest ≤ index + length (spot from.entry).rest) }
{
    let (_, mut here) = from.take(Lexeme::Punctuator(Punctuator::OpenBrace), depth)?;
    let mut statements = Vec::new(alloc);
    let mut free = index;
    while !here.is(Lexeme::Punctuator(Punctuator::CloseBrace)) {
        let (next, after, end) = statement(alloc, symbols, free, depth, here)?;
        statements.push(next)?;
        free = after;
        here = end;
    }
    let (close, end) = here.take(Lexeme::Punctuator(Punctuator::CloseBrace), depth)?;
    let body = Body {
        statements,
        end: close.place,
        slots: Vec::new(alloc),
    };
    Ok((body, free, end))
}

/// The statements of a branch: those of its block, or the one statement itself.
fn branch(alloc: Global, stmt: Stmt) -> Result<Vec<Stmt>, AllocError>
    ensures found { IfOk result (λ branch. (names : List Name)
        → statement_trees names branch.items ≡ branch_of (statement_tree names stmt)) }
    ensures count { IfOk result (λ branch. (names : List Name)
        → statement_count (statement_trees names branch.items) ≡ count_of (statement_tree names stmt)) }
{
    match stmt {
        Stmt::Block(_, statements) => Ok(statements),
        other => {
            let one = vec![in alloc; other]?;
            Ok(one)
        }
    }
}
