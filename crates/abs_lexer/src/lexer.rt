//! Splits a source into its tokens.
ghost use Rattle.std.specs.Prelude.{◌≡◌, ℕ, List, ◌≤◌, length, All, IfOk, IfErr};
ghost use Rattle.abs_tree.specs.Limits.{source_limit};
ghost use Rattle.abs_lexer.specs.Answers.{RefusesText};
ghost use Rattle.abs_lexer.specs.Laws.{HasOneLexing};
ghost use Rattle.abs_lexer.specs.Tokens.{TokensOf, IsPieceAt, Rise};

use crate::LexError;
use crate::cursor::Cursor;
use crate::piece::{Piece, next_piece};
use crate::token::{Token, Tokens};
use abs_tree::Offence;
use std::alloc::Global;

/// The tokens of a source, in order. Each borrows its bytes from the source, which has at most
/// [`SOURCE_LIMIT`](abs_tree::limits::SOURCE_LIMIT) bytes.
///
/// # Errors
/// [`LexError::Refused`] if the source has a lexical offence, for the first one:
/// - L1: a byte that begins no token, a `\` that begins no escape, or a byte that is not UTF-8;
/// - L2: a comment without its end;
/// - L3: a string without its end;
/// - L4: a number above 127 bits.
///
/// [`LexError::Memory`] if an allocation fails.
pub fn tokens<'a>(alloc: Global, source: &'a [u8]) -> Result<Tokens<'a>, LexError>
    requires { length source.now ≤ source_limit }
    ensures found { IfOk result (λ list. TokensOf source.now list) }
    ensures slices { IfOk result (λ list. All (IsPieceAt source.now) list.tokens) }
    ensures rising { IfOk result (λ list. Rise 0 list.tokens list.end.offset) }
    ensures refused { IfErr result (λ error. RefusesText error source.now) }
{
    let mut list = Vec::new(alloc);
    let mut here = Cursor::new(source);
    while !here.rest.is_empty() {
        match next_piece(here.rest) {
            Piece::Blank(count) => here = here.advance(count),
            Piece::Token(kind, count) => {
                let (slice, _) = here.rest.split_at(count);
                let place = here.place;
                list.push(Token { kind, place, slice })?;
                here = here.advance(count);
            }
            Piece::Offence(code, count) => {
                let place = here.advance(count).place;
                return Err(LexError::Refused(Offence { code, place }.refusal()));
            }
        }
    }
    Ok(Tokens {
        list,
        end: here.place,
    })
}

/// A source has one list of tokens and no offence, or one first offence and no tokens.
pub fn one_lexing()
    ensures { (source : List ℕ) → HasOneLexing source }
{}
