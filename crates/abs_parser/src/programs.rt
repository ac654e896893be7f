//! Reads declarations of every kind, one after another.
ghost use Rattle.std.specs.Prelude.{◌≡◌, List, [], ◌∷◌, ◌+◌, ◌≤◌, length, map, IfOk, IfErr};
ghost use Rattle.abs_tree.specs.Syntax.{Name, DeclTree};
ghost use Rattle.abs_tree.specs.SyntaxViews.{decl_tree};
ghost use Rattle.abs_tree.specs.SyntaxSizes.{decl_statements};
ghost use Rattle.abs_parser.specs.Productions.{Block, Decl as DeclSymbol};
ghost use Rattle.abs_parser.specs.Readings.{One, Repeated, Subgoal};
ghost use Rattle.abs_parser.specs.ReaderAnswers.{Parses, parse_of, HasRoom, HasIndexes, FoundAs, AreRefused};
ghost use Rattle.abs_parser.specs.TreesOf.{decl_in, decls_in};
ghost use Rattle.abs_parser.specs.Views.{spot};

use crate::ParseError;
use crate::classes::class;
use crate::cursor::Cursor;
use crate::declarations::{data, function, interface};
use abs_lexer::{Keyword, Lexeme, Punctuator};
use abs_tree::Symbols;
use abs_tree::syntax::Decl;
use std::alloc::Global;

/// The declarations up to the main block, the first of whose statements gets `index`; the index that is free after
/// them; and the cursor after them.
///
/// # Errors
/// The refusal of the first token that is a syntax error or too deeply nested.
pub(crate) fn declarations<'a, 'b>(
    alloc: Global,
    symbols: &mut Symbols<'a>,
    index: u32,
    from: Cursor<'a, 'b>,
) -> Result<(Vec<Decl>, u32, Cursor<'a, 'b>), ParseError>
    requires names { HasRoom symbols.old (spot from) }
    requires few { HasIndexes index (spot from) }
    ensures found { IfOk result (λ found. FoundAs (Repeated DeclSymbol) 0 symbols.old symbols.new (spot from.entry)
        (spot found.2)
        (λ names inside. map (decl_tree names) found.0.items ≡ decls_in index inside)) }
    ensures free { IfOk result (λ found. (names : List Name)
        → found.1 ≡ index + decl_statements (map (decl_tree names) found.0.items)) }
    ensures few { IfOk result (λ found. found.1 + length (spot found.2).rest ≤ index + length (spot from.entry).rest) }
    ensures refused { IfErr result (λ error. AreRefused (Subgoal (Repeated DeclSymbol) 0
        ∷ Subgoal (One Block) 0 ∷ []) (spot from.entry) error) }
{
    let mut declarations = Vec::new(alloc);
    let mut free = index;
    let mut here = from;
    while !here.is(Lexeme::Punctuator(Punctuator::OpenBrace)) {
        let (next, after, end) = declaration(alloc, symbols, free, here)?;
        declarations.push(next)?;
        free = after;
        here = end;
    }
    Ok((declarations, free, here))
}

/// A declaration, whose first statement has the free index; the index that is free after it; and the cursor after it.
fn declaration<'a, 'b>(
    alloc: Global,
    symbols: &mut Symbols<'a>,
    index: u32,
    from: Cursor<'a, 'b>,
) -> Result<(Decl, u32, Cursor<'a, 'b>), ParseError>
    requires names { HasRoom symbols.old (spot from) }
    requires few { HasIndexes index (spot from) }
    ensures parses { Parses result (parse_of (One DeclSymbol) 0 symbols.old symbols.new (spot from.entry)
        (λ found. spot found.2)
        (λ found names inside. (others : List DeclTree)
        → decl_tree names found.0 ∷ others ≡ decl_in index inside others)) }
    ensures free { IfOk result (λ found. (names : List Name)
        → found.1 ≡ index + decl_statements (decl_tree names found.0 ∷ [])) }
    ensures few { IfOk result (λ found. found.1 + length (spot found.2).rest ≤ index + length (spot from.entry).rest) }
{
    let Some((token, _)) = from.next() else {
        return Err(from.wrong());
    };
    let Lexeme::Keyword(keyword) = token.kind else {
        return Err(from.wrong());
    };
    let (decl, end) = match keyword {
        Keyword::Data => data(alloc, symbols, from)?,
        Keyword::Def => function(alloc, symbols, from)?,
        Keyword::Interface => interface(alloc, symbols, from)?,
        Keyword::Class => return class(alloc, symbols, index, from),
        _ => return Err(from.wrong()),
    };
    Ok((decl, index, end))
}
