//! Reads declarations of data types, functions and interfaces.
ghost use Rattle.std.specs.Prelude.{◌≡◌, true, ℕ, List, [], ◌∷◌, IfOk};
ghost use Rattle.abs_lexer.specs.declared.lexeme.Keyword.TheVariants as keyword;
ghost use Rattle.abs_tree.specs.Syntax.{Name, ConstructorTree, SignatureTree, DeclTree};
ghost use Rattle.abs_tree.specs.SyntaxSizes.{decl_statements};
ghost use Rattle.abs_tree.specs.SyntaxViews.{constructor_tree, signature_tree, decl_tree};
ghost use Rattle.abs_parser.specs.TokenKinds.{KeywordKind, fits, next};
ghost use Rattle.abs_parser.specs.Productions.{Decl as DeclSymbol, Constructor as ConstructorSymbol, Signature as SignatureSymbol};
ghost use Rattle.abs_parser.specs.Readings.{One};
ghost use Rattle.abs_parser.specs.ReaderAnswers.{Parses, parse_of, HasRoom, left_at};
ghost use Rattle.abs_parser.specs.TreesOf.{decl_in, constructor_in, signature_in};
ghost use Rattle.abs_parser.specs.Views.{spot};

use crate::ParseError;
use crate::cursor::Cursor;
use crate::expressions::expression;
use crate::names::{Heading, interface_names, type_parameters};
use crate::parameters::{constructor_types, params_maybe};
use crate::types::type_term;
use abs_lexer::{Keyword, Lexeme, Punctuator};
use abs_tree::Symbols;
use abs_tree::syntax::{Constructor, Decl, Declared, Signature};
use std::alloc::Global;
use std::sync::Arc;

/// A constructor with the types of its arguments, and the cursor after it.
fn constructor<'a, 'b>(
    alloc: Global,
    symbols: &mut Symbols<'a>,
    from: Cursor<'a, 'b>,
) -> Result<(Constructor, Cursor<'a, 'b>), ParseError>
    requires names { HasRoom symbols.old (spot from) }
    ensures { Parses result (parse_of (One ConstructorSymbol) 0 symbols.old symbols.new (spot from.entry)
        (λ found. spot found.1)
        (λ found names inside. (others : List ConstructorTree)
        → constructor_tree names found.0 ∷ others ≡ constructor_in inside others)) }
{
    let (name, open) = from.take(Lexeme::UpperName, 0)?;
    let place = name.place;
    let name = symbols.intern(name.slice)?;
    let (types, end) = constructor_types(alloc, symbols, open)?;
    let name = Declared { place, name };
    Ok((Constructor { name, types }, end))
}

/// A declaration of a data type, and the cursor after it.
///
/// # Errors
/// The refusal of the first token that is a syntax error or too deeply nested.
pub(crate) fn data<'a, 'b>(
    alloc: Global,
    symbols: &mut Symbols<'a>,
    from: Cursor<'a, 'b>,
) -> Result<(Decl, Cursor<'a, 'b>), ParseError>
    requires begins { fits (KeywordKind keyword.Data) (next (left_at (spot from))) ≡ true }
    requires names { HasRoom symbols.old (spot from) }
    ensures parses { Parses result (parse_of (One DeclSymbol) 0 symbols.old symbols.new (spot from.entry)
        (λ found. spot found.1)
        (λ found names inside. (index : ℕ) (others : List DeclTree)
        → decl_tree names found.0 ∷ others ≡ decl_in index inside others)) }
    ensures none { IfOk result (λ found. (names : List Name) → decl_statements (decl_tree names found.0 ∷ []) ≡ 0) }
{
    let (token, name_at) = from.take(Lexeme::Keyword(Keyword::Data), 0)?;
    let (name, after) = name_at.take(Lexeme::UpperName, 0)?;
    let declared = Declared {
        place: name.place,
        name: symbols.intern(name.slice)?,
    };
    let (parameters, equals) = type_parameters(alloc, symbols, after)?;
    let (_, first_at) = equals.take(Lexeme::Punctuator(Punctuator::Assign), 0)?;
    let (first, mut here) = constructor(alloc, symbols, first_at)?;
    let mut constructors = vec![in alloc; first]?;
    while let Some((_, next_at)) = here.accept(Lexeme::Punctuator(Punctuator::Bar)) {
        let (next, after) = constructor(alloc, symbols, next_at)?;
        constructors.push(next)?;
        here = after;
    }
    let (_, end) = here.take(Lexeme::Punctuator(Punctuator::Semicolon), 0)?;
    let decl = Decl::Data {
        place: token.place,
        name: declared,
        type_params: parameters,
        constructors,
    };
    Ok((decl, end))
}

/// A declaration of a function, and the cursor after it.
///
/// # Errors
/// The refusal of the first token that is a syntax error or too deeply nested.
pub(crate) fn function<'a, 'b>(
    alloc: Global,
    symbols: &mut Symbols<'a>,
    from: Cursor<'a, 'b>,
) -> Result<(Decl, Cursor<'a, 'b>), ParseError>
    requires begins { fits (KeywordKind keyword.Def) (next (left_at (spot from))) ≡ true }
    requires names { HasRoom symbols.old (spot from) }
    ensures parses { Parses result (parse_of (One DeclSymbol) 0 symbols.old symbols.new (spot from.entry)
        (λ found. spot found.1)
        (λ found names inside. (index : ℕ) (others : List DeclTree)
        → decl_tree names found.0 ∷ others ≡ decl_in index inside others)) }
    ensures none { IfOk result (λ found. (names : List Name) → decl_statements (decl_tree names found.0 ∷ []) ≡ 0) }
{
    let (token, type_at) = from.take(Lexeme::Keyword(Keyword::Def), 0)?;
    let (result, name_at) = type_term(alloc, symbols, 0, type_at)?;
    let (name, after) = name_at.take(Lexeme::LowerName, 0)?;
    let declared = Declared {
        place: name.place,
        name: symbols.intern(name.slice)?,
    };
    let (parameters, open) = type_parameters(alloc, symbols, after)?;
    let (_, inside) = open.take(Lexeme::Punctuator(Punctuator::OpenParen), 0)?;
    let (params, close) = params_maybe(alloc, symbols, inside)?;
    let (_, equals) = close.take(Lexeme::Punctuator(Punctuator::CloseParen), 0)?;
    let (_, value_at) = equals.take(Lexeme::Punctuator(Punctuator::Assign), 0)?;
    let (value, last) = expression(alloc, symbols, 0, value_at)?;
    let (_, end) = last.take(Lexeme::Punctuator(Punctuator::Semicolon), 0)?;
    let value = Arc::new(alloc, value)?;
    let decl = Decl::Function {
        place: token.place,
        result,
        name: declared,
        type_params: parameters,
        params,
        value,
    };
    Ok((decl, end))
}

/// A declaration of an interface, and the cursor after it.
///
/// # Errors
/// The refusal of the first token that is a syntax error or too deeply nested.
pub(crate) fn interface<'a, 'b>(
    alloc: Global,
    symbols: &mut Symbols<'a>,
    from: Cursor<'a, 'b>,
) -> Result<(Decl, Cursor<'a, 'b>), ParseError>
    requires begins { fits (KeywordKind keyword.Interface) (next (left_at (spot from))) ≡ true }
    requires names { HasRoom symbols.old (spot from) }
    ensures parses { Parses result (parse_of (One DeclSymbol) 0 symbols.old symbols.new (spot from.entry)
        (λ found. spot found.1)
        (λ found names inside. (index : ℕ) (others : List DeclTree)
        → decl_tree names found.0 ∷ others ≡ decl_in index inside others)) }
    ensures none { IfOk result (λ found. (names : List Name) → decl_statements (decl_tree names found.0 ∷ []) ≡ 0) }
{
    let (token, name_at) = from.take(Lexeme::Keyword(Keyword::Interface), 0)?;
    let (name, after) = name_at.take(Lexeme::UpperName, 0)?;
    let declared = Declared {
        place: name.place,
        name: symbols.intern(name.slice)?,
    };
    let (extended, open) = interface_names(alloc, symbols, Heading::Extends, after)?;
    let (_, mut here) = open.take(Lexeme::Punctuator(Punctuator::OpenBrace), 0)?;
    let mut signatures = Vec::new(alloc);
    while !here.is(Lexeme::Punctuator(Punctuator::CloseBrace)) {
        let (next, after) = signature(alloc, symbols, here)?;
        signatures.push(next)?;
        here = after;
    }
    let (_, end) = here.take(Lexeme::Punctuator(Punctuator::CloseBrace), 0)?;
    let decl = Decl::Interface {
        place: token.place,
        name: declared,
        extended,
        signatures,
    };
    Ok((decl, end))
}

/// A method of an interface, `T m(T x, ..);`, and the cursor after it.
fn signature<'a, 'b>(
    alloc: Global,
    symbols: &mut Symbols<'a>,
    from: Cursor<'a, 'b>,
) -> Result<(Signature, Cursor<'a, 'b>), ParseError>
    requires names { HasRoom symbols.old (spot from) }
    ensures { Parses result (parse_of (One SignatureSymbol) 0 symbols.old symbols.new (spot from.entry)
        (λ found. spot found.1)
        (λ found names inside. (others : List SignatureTree)
        → signature_tree names found.0 ∷ others ≡ signature_in inside others)) }
{
    let (result, name_at) = type_term(alloc, symbols, 0, from)?;
    let (name, open) = name_at.take(Lexeme::LowerName, 0)?;
    let place = name.place;
    let name = symbols.intern(name.slice)?;
    let (_, inside) = open.take(Lexeme::Punctuator(Punctuator::OpenParen), 0)?;
    let (params, close) = params_maybe(alloc, symbols, inside)?;
    let (_, last) = close.take(Lexeme::Punctuator(Punctuator::CloseParen), 0)?;
    let (_, end) = last.take(Lexeme::Punctuator(Punctuator::Semicolon), 0)?;
    let name = Declared { place, name };
    let signature = Signature {
        result,
        name,
        params,
    };
    Ok((signature, end))
}
