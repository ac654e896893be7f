//! Reads guards.
ghost use Rattle.std.specs.Prelude.{◌≡◌, ◌≤◌};
ghost use Rattle.abs_tree.specs.Syntax.{Tests, NextTest};
ghost use Rattle.abs_tree.specs.SyntaxViews.{expr_tree, tests as test_trees};
ghost use Rattle.abs_parser.specs.Productions.{Guard, Test as TestSymbol};
ghost use Rattle.abs_parser.specs.Readings.{One};
ghost use Rattle.abs_parser.specs.ReaderAnswers.{Parses, parse_of, HasRoom};
ghost use Rattle.abs_parser.specs.Stops.{limit};
ghost use Rattle.abs_parser.specs.TreesOf.{guard_in, test_in};
ghost use Rattle.abs_parser.specs.Views.{spot};

use crate::ParseError;
use crate::cursor::Cursor;
use crate::operators::{Precedence, operators};
use abs_lexer::{Lexeme, Punctuator};
use abs_tree::Symbols;
use abs_tree::syntax::Test;
use std::alloc::Global;
use std::sync::Arc;

/// Tests with `&&` between them, and the cursor after them.
///
/// # Errors
/// The refusal of the first token that is a syntax error or too deeply nested.
pub(crate) fn guard<'a, 'b>(
    alloc: Global,
    symbols: &mut Symbols<'a>,
    depth: u32,
    from: Cursor<'a, 'b>,
) -> Result<(Vec<Test>, Cursor<'a, 'b>), ParseError>
    requires names { HasRoom symbols.old (spot from) }
    requires depth { depth ≤ limit }
    ensures { Parses result (parse_of (One Guard) depth symbols.old symbols.new (spot from.entry)
        (λ found. spot found.1) (λ found names inside. test_trees names found.0.items ≡ guard_in inside)) }
{
    let (first, mut here) = test(alloc, symbols, depth, from)?;
    let mut tests = vec![in alloc; first]?;
    while let Some((_, after)) = here.accept(Lexeme::Punctuator(Punctuator::And)) {
        let (next, end) = test(alloc, symbols, depth, after)?;
        tests.push(next)?;
        here = end;
    }
    Ok((tests, here))
}

/// A test: an expression of the precedence of `==`, perhaps with `?` after it; and the cursor after it.
fn test<'a, 'b>(
    alloc: Global,
    symbols: &mut Symbols<'a>,
    depth: u32,
    from: Cursor<'a, 'b>,
) -> Result<(Test, Cursor<'a, 'b>), ParseError>
    requires names { HasRoom symbols.old (spot from) }
    requires depth { depth ≤ limit }
    ensures { Parses result (parse_of (One TestSymbol) depth symbols.old symbols.new (spot from.entry)
        (λ found. spot found.1)
        (λ found names inside. (others : Tests) → NextTest found.0.place
        (expr_tree names found.0.value.value) found.0.asks others ≡ test_in inside others)) }
{
    let place = from.place();
    let (value, after) = operators(alloc, symbols, Precedence::Equal, depth, from)?;
    let value = Arc::new(alloc, value)?;
    let mut test = Test {
        place,
        value,
        asks: false,
    };
    let Some((_, end)) = after.accept(Lexeme::Punctuator(Punctuator::Question)) else {
        return Ok((test, after));
    };
    test.asks = true;
    Ok((test, end))
}
