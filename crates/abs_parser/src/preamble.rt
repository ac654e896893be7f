//! Reads the `module` and the `import` line that may come before a program. They leave nothing in its tree.
ghost use Rattle.std.specs.Prelude.{⊤};
ghost use Rattle.abs_parser.specs.Productions.{Module, Import, Path};
ghost use Rattle.abs_parser.specs.Readings.{One, Optional};
ghost use Rattle.abs_parser.specs.ReaderAnswers.{Parses, parse_of, HasRoom};
ghost use Rattle.abs_parser.specs.Views.{spot};

use crate::ParseError;
use crate::cursor::{Cursor, FixedName};
use abs_lexer::{Keyword, Lexeme, Punctuator};
use abs_tree::Symbols;

/// The cursor after a `module` line, if one is next.
///
/// # Errors
/// The refusal of the first token that is a syntax error.
pub(crate) fn module_line<'a, 'b>(
    symbols: &mut Symbols<'a>,
    from: Cursor<'a, 'b>,
) -> Result<Cursor<'a, 'b>, ParseError>
    requires names { HasRoom symbols.old (spot from) }
    ensures { Parses result (parse_of (Optional Module) 0 symbols.old symbols.new (spot from.entry)
        (λ to. spot to) (λ to names inside. ⊤)) }
{
    let Some((_, path_at)) = from.accept(Lexeme::Keyword(Keyword::Module)) else {
        return Ok(from);
    };
    let last = path(symbols, path_at)?;
    let (_, end) = last.take(Lexeme::Punctuator(Punctuator::Semicolon), 0)?;
    Ok(end)
}

/// The cursor after names with dots between them.
fn path<'a, 'b>(
    symbols: &mut Symbols<'a>,
    from: Cursor<'a, 'b>,
) -> Result<Cursor<'a, 'b>, ParseError>
    requires names { HasRoom symbols.old (spot from) }
    ensures { Parses result (parse_of (One Path) 0 symbols.old symbols.new (spot from.entry)
        (λ to. spot to) (λ to names inside. ⊤)) }
{
    let (first, mut here) = from.take(Lexeme::UpperName, 0)?;
    symbols.intern(first.slice)?;
    while let Some((_, name_at)) = here.accept(Lexeme::Punctuator(Punctuator::Dot)) {
        let (name, after) = name_at.take(Lexeme::UpperName, 0)?;
        symbols.intern(name.slice)?;
        here = after;
    }
    Ok(here)
}

/// The cursor after the `import` line, if it is next.
///
/// # Errors
/// The refusal of the first token that is a syntax error.
pub(crate) fn import_line<'a, 'b>(
    symbols: &mut Symbols<'a>,
    from: Cursor<'a, 'b>,
) -> Result<Cursor<'a, 'b>, ParseError>
    requires names { HasRoom symbols.old (spot from) }
    ensures { Parses result (parse_of (Optional Import) 0 symbols.old symbols.new (spot from.entry)
        (λ to. spot to) (λ to names inside. ⊤)) }
{
    let Some((_, star)) = from.accept(Lexeme::Keyword(Keyword::Import)) else {
        return Ok(from);
    };
    let (_, from_at) = star.take(Lexeme::Punctuator(Punctuator::Star), 0)?;
    let (_, abs_at) = from_at.take(Lexeme::Keyword(Keyword::From), 0)?;
    let (abs, dot) = abs_at.take_name(FixedName::Abs)?;
    symbols.intern(abs.slice)?;
    let (_, library_at) = dot.take(Lexeme::Punctuator(Punctuator::Dot), 0)?;
    let (library, last) = library_at.take_name(FixedName::StdLib)?;
    symbols.intern(library.slice)?;
    let (_, end) = last.take(Lexeme::Punctuator(Punctuator::Semicolon), 0)?;
    Ok(end)
}
