//! Reads parameters, and the types between the parentheses of a constructor.
ghost use Rattle.std.specs.Prelude.{◌≡◌, List, ◌∷◌, map};
ghost use Rattle.abs_tree.specs.Syntax.{ParamTree};
ghost use Rattle.abs_tree.specs.SyntaxViews.{param_tree, type_trees};
ghost use Rattle.abs_parser.specs.Productions.{Param as ParamSymbol, Params, ClassParameters, ConstructorTypes};
ghost use Rattle.abs_parser.specs.Readings.{One, Optional};
ghost use Rattle.abs_parser.specs.ReaderAnswers.{Parses, parse_of, HasRoom};
ghost use Rattle.abs_parser.specs.TreesOf.{param_in, params_in, params_maybe as maybe_params_in, class_params_maybe, constructor_types as types_of_constructor};
ghost use Rattle.abs_parser.specs.Views.{spot};

use crate::ParseError;
use crate::cursor::Cursor;
use crate::types::{type_term, types};
use abs_lexer::{Lexeme, Punctuator};
use abs_tree::Symbols;
use abs_tree::syntax::{Param, TypeTerm, Variable};
use std::alloc::Global;

/// A parameter, `T x`, and the cursor after it.
fn param<'a, 'b>(
    alloc: Global,
    symbols: &mut Symbols<'a>,
    from: Cursor<'a, 'b>,
) -> Result<(Param, Cursor<'a, 'b>), ParseError>
    requires names { HasRoom symbols.old (spot from) }
    ensures { Parses result (parse_of (One ParamSymbol) 0 symbols.old symbols.new (spot from.entry)
        (λ found. spot found.1)
        (λ found names inside. (others : List ParamTree)
        → param_tree names found.0 ∷ others ≡ param_in inside others)) }
{
    let (type_of, name_at) = type_term(alloc, symbols, 0, from)?;
    let (name, end) = name_at.take(Lexeme::LowerName, 0)?;
    let variable = Variable::Unresolved(symbols.intern(name.slice)?);
    let param = Param {
        type_of,
        place: name.place,
        variable,
    };
    Ok((param, end))
}

/// Parameters with commas between them, and the cursor after them.
fn params<'a, 'b>(
    alloc: Global,
    symbols: &mut Symbols<'a>,
    from: Cursor<'a, 'b>,
) -> Result<(Vec<Param>, Cursor<'a, 'b>), ParseError>
    requires names { HasRoom symbols.old (spot from) }
    ensures { Parses result (parse_of (One Params) 0 symbols.old symbols.new (spot from.entry)
        (λ found. spot found.1) (λ found names inside. map (param_tree names) found.0.items ≡ params_in inside)) }
{
    let (first, mut here) = param(alloc, symbols, from)?;
    let mut params = vec![in alloc; first]?;
    while let Some((_, after)) = here.accept(Lexeme::Punctuator(Punctuator::Comma)) {
        let (next, end) = param(alloc, symbols, after)?;
        params.push(next)?;
        here = end;
    }
    Ok((params, here))
}

/// Parameters, if there are any, and the cursor after them.
///
/// # Errors
/// The refusal of the first token that is a syntax error or too deeply nested.
pub(crate) fn params_maybe<'a, 'b>(
    alloc: Global,
    symbols: &mut Symbols<'a>,
    from: Cursor<'a, 'b>,
) -> Result<(Vec<Param>, Cursor<'a, 'b>), ParseError>
    requires names { HasRoom symbols.old (spot from) }
    ensures { Parses result (parse_of (Optional Params) 0 symbols.old symbols.new (spot from.entry)
        (λ found. spot found.1) (λ found names inside. map (param_tree names) found.0.items ≡ maybe_params_in inside)) }
{
    if !from.is(Lexeme::UpperName) {
        return Ok((Vec::new(alloc), from));
    }
    params(alloc, symbols, from)
}

/// The parameters of a class between parentheses, if these are next, and the cursor after them.
///
/// # Errors
/// The refusal of the first token that is a syntax error or too deeply nested.
pub(crate) fn class_parameters<'a, 'b>(
    alloc: Global,
    symbols: &mut Symbols<'a>,
    from: Cursor<'a, 'b>,
) -> Result<(Vec<Param>, Cursor<'a, 'b>), ParseError>
    requires names { HasRoom symbols.old (spot from) }
    ensures { Parses result (parse_of (Optional ClassParameters) 0 symbols.old symbols.new (spot from.entry)
        (λ found. spot found.1)
        (λ found names inside. map (param_tree names) found.0.items ≡ class_params_maybe inside)) }
{
    let Some((_, after)) = from.accept(Lexeme::Punctuator(Punctuator::OpenParen)) else {
        return Ok((Vec::new(alloc), from));
    };
    let (params, close) = params_maybe(alloc, symbols, after)?;
    let (_, end) = close.take(Lexeme::Punctuator(Punctuator::CloseParen), 0)?;
    Ok((params, end))
}

/// The types of a constructor's arguments between parentheses, if these are next, and the cursor after them.
///
/// # Errors
/// The refusal of the first token that is a syntax error or too deeply nested.
pub(crate) fn constructor_types<'a, 'b>(
    alloc: Global,
    symbols: &mut Symbols<'a>,
    from: Cursor<'a, 'b>,
) -> Result<(Vec<TypeTerm>, Cursor<'a, 'b>), ParseError>
    requires names { HasRoom symbols.old (spot from) }
    ensures { Parses result (parse_of (Optional ConstructorTypes) 0 symbols.old symbols.new (spot from.entry)
        (λ found. spot found.1) (λ found names inside. type_trees names found.0.items ≡ types_of_constructor inside)) }
{
    let Some((_, after)) = from.accept(Lexeme::Punctuator(Punctuator::OpenParen)) else {
        return Ok((Vec::new(alloc), from));
    };
    if let Some((_, end)) = after.accept(Lexeme::Punctuator(Punctuator::CloseParen)) {
        return Ok((Vec::new(alloc), end));
    }
    let (types, close) = types(alloc, symbols, 0, after)?;
    let (_, end) = close.take(Lexeme::Punctuator(Punctuator::CloseParen), 0)?;
    Ok((types, end))
}
