//! Reads lists of upper-case names: the parameters of a type, and the interfaces that an interface extends or a class
//! implements.
ghost use Rattle.std.specs.Prelude.{◌≡◌, ◌∷◌, map};
ghost use Rattle.abs_tree.specs.SyntaxViews.{declared as declared_tree};
ghost use Rattle.abs_parser.specs.Headings.{nonterminal_of};
ghost use Rattle.abs_parser.specs.Productions.{CommaUpper, TypeParameters};
ghost use Rattle.abs_parser.specs.Readings.{Optional, Repeated};
ghost use Rattle.abs_parser.specs.ReaderAnswers.{Parses, parse_of, HasRoom};
ghost use Rattle.abs_parser.specs.TreesOf.{names_maybe, more_names as more_names_in};
ghost use Rattle.abs_parser.specs.Views.{spot};

use crate::ParseError;
use crate::cursor::Cursor;
use abs_lexer::{Keyword, Lexeme, Punctuator};
use abs_tree::Symbols;
use abs_tree::syntax::Declared;
use std::alloc::Global;

/// The keyword before a list of interfaces.
#[derive(Clone, Copy, Debug, PartialEq, Eq)]
pub(crate) enum Heading {
    /// `extends`
    Extends,
    /// `implements`
    Implements,
}

/// Names after a keyword, if the keyword is next, and the cursor after them.
///
/// # Errors
/// The refusal of the first token that is a syntax error.
pub(crate) fn interface_names<'a, 'b>(
    alloc: Global,
    symbols: &mut Symbols<'a>,
    heading: Heading,
    from: Cursor<'a, 'b>,
) -> Result<(Vec<Declared>, Cursor<'a, 'b>), ParseError>
    requires names { HasRoom symbols.old (spot from) }
    ensures { Parses result (parse_of (Optional (nonterminal_of heading)) 0 symbols.old symbols.new (spot from.entry)
        (λ found. spot found.1) (λ found names inside. map (declared_tree names) found.0.items ≡ names_maybe inside)) }
{
    let keyword = match heading {
        Heading::Extends => Keyword::Extends,
        Heading::Implements => Keyword::Implements,
    };
    let Some((_, name_at)) = from.accept(Lexeme::Keyword(keyword)) else {
        return Ok((Vec::new(alloc), from));
    };
    let (name, after) = name_at.take(Lexeme::UpperName, 0)?;
    let first = Declared {
        place: name.place,
        name: symbols.intern(name.slice)?,
    };
    more_names(alloc, symbols, first, after)
}

/// The parameters of a type between `<` and `>`, where there are any, and the cursor after them.
///
/// # Errors
/// The refusal of the first token that is a syntax error.
pub(crate) fn type_parameters<'a, 'b>(
    alloc: Global,
    symbols: &mut Symbols<'a>,
    from: Cursor<'a, 'b>,
) -> Result<(Vec<Declared>, Cursor<'a, 'b>), ParseError>
    requires names { HasRoom symbols.old (spot from) }
    ensures { Parses result (parse_of (Optional TypeParameters) 0 symbols.old symbols.new (spot from.entry)
        (λ found. spot found.1) (λ found names inside. map (declared_tree names) found.0.items ≡ names_maybe inside)) }
{
    let Some((_, name_at)) = from.accept(Lexeme::Punctuator(Punctuator::Less)) else {
        return Ok((Vec::new(alloc), from));
    };
    let (name, after) = name_at.take(Lexeme::UpperName, 0)?;
    let first = Declared {
        place: name.place,
        name: symbols.intern(name.slice)?,
    };
    let (parameters, close) = more_names(alloc, symbols, first, after)?;
    let (_, end) = close.take(Lexeme::Punctuator(Punctuator::Greater), 0)?;
    Ok((parameters, end))
}

/// A first name with those after commas, from after the first one, and the cursor after them.
fn more_names<'a, 'b>(
    alloc: Global,
    symbols: &mut Symbols<'a>,
    first: Declared,
    from: Cursor<'a, 'b>,
) -> Result<(Vec<Declared>, Cursor<'a, 'b>), ParseError>
    requires names { HasRoom symbols.old (spot from) }
    ensures { Parses result (parse_of (Repeated CommaUpper) 0 symbols.old symbols.new (spot from.entry)
        (λ found. spot found.1)
        (λ found names inside. map (declared_tree names) found.0.items
        ≡ declared_tree names first ∷ more_names_in inside)) }
{
    let mut listed = vec![in alloc; first]?;
    let mut here = from;
    while let Some((_, name_at)) = here.accept(Lexeme::Punctuator(Punctuator::Comma)) {
        let (name, after) = name_at.take(Lexeme::UpperName, 0)?;
        let place = name.place;
        let name = symbols.intern(name.slice)?;
        listed.push(Declared { place, name })?;
        here = after;
    }
    Ok((listed, here))
}
