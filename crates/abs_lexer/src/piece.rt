//! The first piece of the bytes that are left: white space, a comment, a token, or an offence.
ghost use Rattle.std.specs.Prelude.{◌≡◌, ◌^◌, ◌<◌, ◌≤◌, length, take, nat_lt};
ghost use Rattle.std.specs.Char.{is_ascii_digit};
ghost use Rattle.std.specs.List.{AllPass, prefix_len};
ghost use Rattle.std.specs.Str.Parse.{digits_value};
ghost use Rattle.abs_lexer.specs.Scans.{string_checked, comment_checked, string_at, number_at, word_at, upper_at, line_at, block_at, long_punctuator as long_punctuator_of, punctuator_at, piece_at};

use crate::punctuator::{long_punctuator, short_punctuator};
use crate::word::word_kind;
use crate::{Lexeme, Punctuator, span};
use abs_tree::Code;
use std::cmp::min;

/// A number of at most this many digits is always small: ten to this power is below two to the 127th.
const SURELY_SMALL: usize = 38;

/// The first piece of some bytes.
#[derive(Clone, Copy, Debug, PartialEq, Eq)]
pub(crate) enum Piece {
    /// White space or a comment, with its length.
    Blank(usize),
    /// A token, with its length.
    Token(Lexeme, usize),
    /// An offence, with the number of bytes before it.
    Offence(Code, usize),
}

/// The first piece of some bytes.
#[tactic(auto, unfolding(crate::specs::Scans::piece_at, crate::specs::Scans::upper_at))]
pub(crate) fn next_piece(bytes: &[u8]) -> Piece
    requires { 0 < length bytes.now }
    ensures { result ≡ piece_at bytes.now }
{
    match bytes[0] {
        b' ' | b'\t' | b'\r' | b'\n' => Piece::Blank(1),
        b'"' => string(bytes),
        b'0'..=b'9' => number(bytes),
        b'a'..=b'z' => word(bytes),
        b'A'..=b'Z' => Piece::Token(Lexeme::UpperName, span::word(bytes)),
        _ if bytes.starts_with(b"//") => line(bytes),
        _ if bytes.starts_with(b"/*") => block(bytes),
        _ => punctuator(bytes),
    }
}

/// A keyword, a word outside the profile or a name, from bytes that begin with a lower-case letter.
#[tactic(auto, unfolding(crate::specs::Scans::word_at))]
fn word(bytes: &[u8]) -> Piece
    ensures { result ≡ word_at bytes.now }
{
    let (word, _) = bytes.split_at(span::word(bytes));
    Piece::Token(word_kind(word), word.len())
}

/// A number, from bytes that begin with a digit.
#[tactic(auto, unfolding(crate::specs::Scans::number_at))]
fn number(bytes: &[u8]) -> Piece
    requires { 0 < prefix_len is_ascii_digit bytes.now }
    ensures { result ≡ number_at bytes.now }
{
    let (digits, _) = bytes.split_at(span::digits(bytes));
    if is_small(digits) {
        Piece::Token(Lexeme::Number, digits.len())
    } else {
        Piece::Offence(Code::L4, 0)
    }
}

/// A string, from bytes that begin with its quote.
#[tactic(auto, unfolding(crate::specs::Scans::string_at))]
fn string(bytes: &[u8]) -> Piece
    requires { 0 < length bytes.now }
    ensures { result ≡ string_at bytes.now }
{
    match span::closing_quote(&bytes[1..]) {
        Some(count) => checked_string(bytes.split_at(count + 2).0),
        None => Piece::Offence(Code::L3, 0),
    }
}

/// A string with its quotes, or the first offence in it.
#[tactic(auto, unfolding(crate::specs::Scans::string_checked))]
fn checked_string(piece: &[u8]) -> Piece
    ensures { result ≡ string_checked piece.now }
{
    let at = min(span::bad_escape(piece), span::utf8(piece));
    if at < piece.len() {
        return Piece::Offence(Code::L1, at);
    }
    Piece::Token(Lexeme::Text, piece.len())
}

/// A comment up to the end of its line, from bytes that begin with `//`.
#[tactic(auto, unfolding(crate::specs::Scans::line_at))]
fn line(bytes: &[u8]) -> Piece
    ensures { result ≡ line_at bytes.now }
{
    checked_comment(bytes.split_at(span::line(bytes)).0)
}

/// A comment up to the next `*/`, from bytes that begin with `/*`.
#[tactic(auto, unfolding(crate::specs::Scans::block_at))]
fn block(bytes: &[u8]) -> Piece
    requires { 2 ≤ length bytes.now }
    ensures { result ≡ block_at bytes.now }
{
    match span::block(&bytes[2..]) {
        Some(count) => checked_comment(bytes.split_at(count + 4).0),
        None => Piece::Offence(Code::L2, 0),
    }
}

/// A comment, or the first offence in it.
#[tactic(auto, unfolding(crate::specs::Scans::comment_checked))]
fn checked_comment(piece: &[u8]) -> Piece
    ensures { result ≡ comment_checked piece.now }
{
    let at = span::utf8(piece);
    if at < piece.len() {
        return Piece::Offence(Code::L1, at);
    }
    Piece::Blank(piece.len())
}

/// A punctuator, from bytes that begin with no letter, digit, quote, white space or comment.
#[tactic(auto, unfolding(crate::specs::Scans::punctuator_at))]
fn punctuator(bytes: &[u8]) -> Piece
    requires { 0 < length bytes.now }
    ensures { result ≡ punctuator_at bytes.now }
{
    if let Some(long) = long_punctuator_at(bytes) {
        return Piece::Token(Lexeme::Punctuator(long), 2);
    }
    match short_punctuator(bytes[0]) {
        Some(short) => Piece::Token(Lexeme::Punctuator(short), 1),
        None => Piece::Offence(Code::L1, 0),
    }
}

/// The punctuator of two bytes that the bytes begin with, if they do.
#[tactic(auto, using(crate::proofs::WordLemmas::no_long_punctuator))]
fn long_punctuator_at(bytes: &[u8]) -> Option<Punctuator>
    ensures { result ≡ long_punctuator_of (take 2 bytes.now) }
{
    match bytes {
        [first, second, ..] => long_punctuator(*first, *second),
        _ => None,
    }
}

/// Whether the number with these digits has at most 127 bits.
fn is_small(digits: &[u8]) -> bool
    requires some { 0 < length digits.now }
    requires digits { AllPass is_ascii_digit digits.now }
    ensures { result ≡ nat_lt (digits_value 10 digits.now) (2 ^ 127) }
{
    if digits.len() <= SURELY_SMALL {
        return true;
    }
    match str::from_utf8(digits) {
        Ok(text) => text.parse::<i128>().is_ok(),
        Err(_) => false,
    }
}
