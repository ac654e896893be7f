//! Reads a whole source: its declarations and its main block, and nothing after it.
ghost use Rattle.std.specs.Prelude.{◌≤◌, length, All, IfOk, IfErr};
ghost use Rattle.abs_tree.specs.Limits.{parsed_table_limit};
ghost use Rattle.abs_tree.specs.SyntaxSizes.{all_statements};
ghost use Rattle.abs_tree.specs.SourceNumbers.{IsNumberedWhole};
ghost use Rattle.abs_tree.specs.SourceSizes.{all_variables};
ghost use Rattle.abs_tree.specs.SourceViews.{source_tree};
ghost use Rattle.abs_parser.specs.Answers.{IsWritten};
ghost use Rattle.abs_parser.specs.Texts.{IsTextOf, RefusesText};

use crate::ParseError;
use crate::cursor::Cursor;
use crate::preamble::{import_line, module_line};
use crate::programs::declarations;
use crate::statements::block;
use abs_lexer::token::Tokens;
use abs_tree::Symbols;
use abs_tree::syntax::Program;
use std::alloc::Global;

/// The tree of the source of these tokens, if the source is accepted. Its statements that are no blocks are numbered
/// from 0, in the order in which they begin.
///
/// # Errors
/// [`ParseError::Refused`] if the source has a syntax error or a token that is too deeply nested. It has the code and
/// the place of the first such token; the end of the source counts as a token. The code is S2 for a token that is
/// nested in more than 100 counted nonterminals, S3 for a foreign keyword, and S1 for any other token.
/// [`ParseError::Memory`] if an allocation fails.
pub fn parse<'a>(alloc: Global, list: &Tokens<'a>) -> Result<Program<'a>, ParseError>
    ensures found { IfOk result (λ program. IsTextOf list.now program.symbols (source_tree program)) }
    ensures numbered { IfOk result (λ program. IsNumberedWhole (source_tree program)) }
    ensures names { IfOk result (λ program. All (IsWritten list.now.tokens) program.symbols) }
    ensures few_symbols { IfOk result (λ program. length program.symbols ≤ parsed_table_limit) }
    ensures few_statements { IfOk result (λ program. all_statements (source_tree program) ≤ parsed_table_limit) }
    ensures few_variables { IfOk result (λ program. all_variables (source_tree program) ≤ parsed_table_limit) }
    ensures refused { IfErr result (λ error. RefusesText error list.now) }
{
    let mut symbols = Symbols::new(alloc);
    let import_at = module_line(&mut symbols, Cursor::new(list))?;
    let first = import_line(&mut symbols, import_at)?;
    let (declarations, free, main_at) = declarations(alloc, &mut symbols, 0, first)?;
    let (main, _, end) = block(alloc, &mut symbols, free, 0, main_at)?;
    end.finish()?;
    Ok(Program {
        symbols,
        declarations,
        main,
    })
}
