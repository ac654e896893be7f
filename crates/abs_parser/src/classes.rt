//! Reads classes and their members.
ghost use Rattle.std.specs.Prelude.{◌≡◌, true, List, [], ◌∷◌, ◌+◌, ◌≤◌, length, IfOk};
ghost use Rattle.abs_lexer.specs.declared.lexeme.Keyword.TheVariants as keyword;
ghost use Rattle.abs_tree.specs.Syntax.{Name, MemberTree, DeclTree};
ghost use Rattle.abs_tree.specs.SyntaxSizes.{member_statements, decl_statements};
ghost use Rattle.abs_tree.specs.SyntaxViews.{type_tree, declared as declared_tree, member_tree, decl_tree};
ghost use Rattle.abs_parser.specs.TokenKinds.{KeywordKind, fits, next};
ghost use Rattle.abs_parser.specs.Productions.{Decl as DeclSymbol, Member as MemberSymbol, MemberTail};
ghost use Rattle.abs_parser.specs.Readings.{One};
ghost use Rattle.abs_parser.specs.ReaderAnswers.{Parses, parse_of, HasRoom, HasIndexes, left_at};
ghost use Rattle.abs_parser.specs.TreesOf.{decl_in, member_in, member_by};
ghost use Rattle.abs_parser.specs.Views.{spot};

use crate::ParseError;
use crate::cursor::Cursor;
use crate::expressions::expression;
use crate::names::{Heading, interface_names};
use crate::parameters::{class_parameters, params_maybe};
use crate::statements::block;
use crate::types::type_term;
use abs_lexer::{Keyword, Lexeme, Punctuator};
use abs_tree::Symbols;
use abs_tree::syntax::{Decl, Declared, Member, Signature, TypeTerm};
use std::alloc::Global;
use std::sync::Arc;

/// A declaration of a class, whose first statement has the free index; the index that is free after it; and the cursor
/// after it.
///
/// # Errors
/// The refusal of the first token that is a syntax error or too deeply nested.
pub(crate) fn class<'a, 'b>(
    alloc: Global,
    symbols: &mut Symbols<'a>,
    index: u32,
    from: Cursor<'a, 'b>,
) -> Result<(Decl, u32, Cursor<'a, 'b>), ParseError>
    requires begins { fits (KeywordKind keyword.Class) (next (left_at (spot from))) ≡ true }
    requires names { HasRoom symbols.old (spot from) }
    requires few { HasIndexes index (spot from) }
    ensures parses { Parses result (parse_of (One DeclSymbol) 0 symbols.old symbols.new (spot from.entry)
        (λ found. spot found.2)
        (λ found names inside. (others : List DeclTree)
        → decl_tree names found.0 ∷ others ≡ decl_in index inside others)) }
    ensures free { IfOk result (λ found. (names : List Name)
        → found.1 ≡ index + decl_statements (decl_tree names found.0 ∷ [])) }
    ensures few { IfOk result (λ found. found.1 + length (spot found.2).rest ≤ index + length (spot from.entry).rest) }
{
    let (token, name_at) = from.take(Lexeme::Keyword(Keyword::Class), 0)?;
    let (name, after) = name_at.take(Lexeme::UpperName, 0)?;
    let declared = Declared {
        place: name.place,
        name: symbols.intern(name.slice)?,
    };
    let (params, heading) = class_parameters(alloc, symbols, after)?;
    let (implemented, open) = interface_names(alloc, symbols, Heading::Implements, heading)?;
    let (_, mut here) = open.take(Lexeme::Punctuator(Punctuator::OpenBrace), 0)?;
    let mut members = Vec::new(alloc);
    let mut free = index;
    while !here.is(Lexeme::Punctuator(Punctuator::CloseBrace)) {
        let (next, after, end) = member(alloc, symbols, free, here)?;
        members.push(next)?;
        free = after;
        here = end;
    }
    let (_, end) = here.take(Lexeme::Punctuator(Punctuator::CloseBrace), 0)?;
    let decl = Decl::Class {
        place: token.place,
        name: declared,
        params,
        implemented,
        members,
    };
    Ok((decl, free, end))
}

/// A member of a class, whose first statement has the free index; the index that is free after it; and the cursor
/// after it.
fn member<'a, 'b>(
    alloc: Global,
    symbols: &mut Symbols<'a>,
    index: u32,
    from: Cursor<'a, 'b>,
) -> Result<(Member, u32, Cursor<'a, 'b>), ParseError>
    requires names { HasRoom symbols.old (spot from) }
    requires few { HasIndexes index (spot from) }
    ensures parses { Parses result (parse_of (One MemberSymbol) 0 symbols.old symbols.new (spot from.entry)
        (λ found. spot found.2)
        (λ found names inside. (others : List MemberTree)
        → member_tree names found.0 ∷ others ≡ member_in index inside others)) }
    ensures free { IfOk result (λ found. (names : List Name)
        → found.1 ≡ index + member_statements (member_tree names found.0 ∷ [])) }
    ensures few { IfOk result (λ found. found.1 + length (spot found.2).rest ≤ index + length (spot from.entry).rest) }
{
    let (type_of, name_at) = type_term(alloc, symbols, 0, from)?;
    let (name, after) = name_at.take(Lexeme::LowerName, 0)?;
    let declared = Declared {
        place: name.place,
        name: symbols.intern(name.slice)?,
    };
    member_tail(alloc, symbols, index, type_of, declared, after)
}

/// What follows the type and the name of a member: `;`, a value, or parameters and a block.
fn member_tail<'a, 'b>(
    alloc: Global,
    symbols: &mut Symbols<'a>,
    index: u32,
    type_of: TypeTerm,
    name: Declared,
    from: Cursor<'a, 'b>,
) -> Result<(Member, u32, Cursor<'a, 'b>), ParseError>
    requires names { HasRoom symbols.old (spot from) }
    requires few { HasIndexes index (spot from) }
    ensures parses { Parses result (parse_of (One MemberTail) 0 symbols.old symbols.new (spot from.entry)
        (λ found. spot found.2)
        (λ found names inside. member_tree names found.0 ≡ member_by index (type_tree names type_of)
        (declared_tree names name) inside)) }
    ensures free { IfOk result (λ found. (names : List Name)
        → found.1 ≡ index + member_statements (member_tree names found.0 ∷ [])) }
    ensures few { IfOk result (λ found. found.1 + length (spot found.2).rest ≤ index + length (spot from.entry).rest) }
{
    if let Some((_, end)) = from.accept(Lexeme::Punctuator(Punctuator::Semicolon)) {
        let field = Member::Field {
            type_of,
            name,
            initial: None,
        };
        return Ok((field, index, end));
    }
    if let Some((_, value_at)) = from.accept(Lexeme::Punctuator(Punctuator::Assign)) {
        let (value, last) = expression(alloc, symbols, 0, value_at)?;
        let (_, end) = last.take(Lexeme::Punctuator(Punctuator::Semicolon), 0)?;
        let initial = Some(Arc::new(alloc, value)?);
        let field = Member::Field {
            type_of,
            name,
            initial,
        };
        return Ok((field, index, end));
    }
    let (_, inside) = from.take(Lexeme::Punctuator(Punctuator::OpenParen), 0)?;
    let (params, close) = params_maybe(alloc, symbols, inside)?;
    let (_, block_at) = close.take(Lexeme::Punctuator(Punctuator::CloseParen), 0)?;
    let (body, after, end) = block(alloc, symbols, index, 0, block_at)?;
    let signature = Signature {
        result: type_of,
        name,
        params,
    };
    Ok((Member::Method(signature, body), after, end))
}
