//! A cursor over the tokens of a source: which of them are left, and what the next one is.
ghost use Rattle.std.specs.Prelude.{◌≡◌, true, false, ◌≤◌, [], length, IfOk, OnOk, IfErr, IfSome, IfNone};
ghost use Rattle.abs_tree.specs.Limits.{source_limit};

use crate::ParseError;
use abs_lexer::token::Tokens;
use abs_lexer::{Lexeme, Token};
use abs_tree::limits::{NESTING_LIMIT, SOURCE_LIMIT};
use abs_tree::{Code, Offence, Place, Refusal};

/// The nesting limit: the number of counted nonterminals that may be open at once.
const LIMIT: u32 = NESTING_LIMIT;

/// A name with a spelling of its own, for which the grammar asks in one place.
#[derive(Clone, Copy, Debug, PartialEq, Eq)]
pub(crate) enum FixedName {
    /// `local`
    Local,
    /// `ABS`
    Abs,
    /// `StdLib`
    StdLib,
}

/// A place in a list of tokens: those from there on are left.
#[derive(Clone, Copy)]
pub(crate) struct Cursor<'a, 'b> {
    tokens: &'b Tokens<'a>,
    index: usize,
    ghost within: { index ≤ length tokens.now.tokens },
    ghost few: { length tokens.now.tokens ≤ source_limit },
}

impl<'a, 'b> Cursor<'a, 'b> {
    ghost use Rattle.abs_lexer.specs.Tokens.{IsWellFormed};
    ghost use Rattle.abs_lexer.specs.Views.{lexed};
    ghost use Rattle.abs_parser.specs.Tokens.{whole, place_of, TakesToken};
    ghost use Rattle.abs_parser.specs.Views.{spot};
    ghost use Rattle.abs_parser.specs.TokenKinds.{End, fits, next};
    ghost use Rattle.abs_parser.specs.Readings.{Terminal};
    ghost use Rattle.abs_parser.specs.Stops.{limit};
    ghost use Rattle.abs_parser.specs.ReaderAnswers.{asked, is_asked, fixed_kind, left_at, refusal_at, wrong_at, TakesKind, TakesFixed, IsRefused};
    ghost use Rattle.abs_tree.specs.declared.source_error.SourceError.TheVariants.{Refused};
    ghost use Rattle.abs_tree.specs.declared.refusal.Code.TheVariants.{S2};

    /// All the tokens.
    pub fn new(tokens: &'b Tokens<'a>) -> Cursor<'a, 'b>
        ensures { spot result ≡ whole tokens.now }
    {
        // the length is read only for its bound, which no clause of the list itself gives
        let few = tokens.len() <= SOURCE_LIMIT;
        prove!(few);
        Cursor { tokens, index: 0 }
    }

    /// The next token, and the cursor after it.
    pub fn next(self) -> Option<(Token<'a>, Cursor<'a, 'b>)>
        ensures some { IfSome result (λ found. TakesToken (lexed found.0) (spot self.entry) (spot found.1)) }
        ensures well_formed { IfSome result (λ found. IsWellFormed (lexed found.0)) }
        ensures none { IfNone result ((spot self.entry).rest ≡ []) }
    {
        if self.index >= self.tokens.len() {
            return None;
        }
        let token = self.tokens.at(self.index);
        let after = Cursor {
            tokens: self.tokens,
            index: self.index + 1,
        };
        Some((token, after))
    }

    /// The place of the next token; the end of the source counts as one.
    pub fn place(self) -> Place
        ensures { result ≡ place_of (spot self.entry) }
    {
        match self.next() {
            Some((token, _)) => token.place,
            None => self.tokens.end(),
        }
    }

    /// The refusal of the next token as a syntax error: a foreign keyword has a code of its own.
    pub fn wrong(self) -> ParseError
        ensures { result ≡ Refused (wrong_at (spot self.entry)) }
    {
        let code = match self.next() {
            Some((token, _)) if token.kind == Lexeme::Foreign => Code::S3,
            _ => Code::S1,
        };
        self.refused(code)
    }

    /// The refusal of the next token as too deeply nested.
    fn deep(self) -> ParseError
        ensures { result ≡ Refused (refusal_at S2 (spot self.entry)) }
    {
        self.refused(Code::S2)
    }

    /// The refusal of the next token with this code.
    fn refused(self, code: Code) -> ParseError
        ensures { result ≡ Refused (refusal_at code (spot self.entry)) }
    {
        let offence = Offence {
            code,
            place: self.place(),
        };
        ParseError::Refused(offence.refusal())
    }

    /// The next token and the cursor after it, if the token is of this lexeme.
    pub fn accept(self, kind: Lexeme) -> Option<(Token<'a>, Cursor<'a, 'b>)>
        ensures found { IfSome result (λ found. TakesKind kind (lexed found.0) (spot self.entry) (spot found.1)) }
        ensures well_formed { IfSome result (λ found. IsWellFormed (lexed found.0)) }
        ensures other { IfNone result (fits (asked kind) (next (left_at (spot self.entry))) ≡ false) }
    {
        match self.next() {
            Some((token, after)) if token.kind == kind => Some((token, after)),
            _ => None,
        }
    }

    /// Whether the next token is of this lexeme.
    pub fn is(self, kind: Lexeme) -> bool
        requires asked { is_asked kind ≡ true }
        ensures { result ≡ fits (asked kind) (next (left_at (spot self.entry))) }
    {
        self.accept(kind).is_some()
    }

    /// The next token, which has to be of this lexeme and within the nesting limit, and the cursor after it. It is
    /// nested in `depth` counted nonterminals.
    ///
    /// # Errors
    /// The refusal of the next token, if it is of another lexeme or too deeply nested.
    pub fn take(self, kind: Lexeme, depth: u32) -> Result<(Token<'a>, Cursor<'a, 'b>), ParseError>
        requires asked { is_asked kind ≡ true }
        ensures found { IfOk result (λ found. TakesKind kind (lexed found.0) (spot self.entry) (spot found.1)) }
        ensures well_formed { IfOk result (λ found. IsWellFormed (lexed found.0)) }
        ensures within { OnOk result (depth ≤ limit) }
        ensures refused { IfErr result (λ error. IsRefused (Terminal (asked kind) depth) (spot self.entry) error) }
    {
        let Some(found) = self.accept(kind) else {
            return Err(self.wrong());
        };
        if depth > LIMIT {
            return Err(self.deep());
        }
        Ok(found)
    }

    /// The next token and the cursor after it, if the token is the name with this spelling.
    pub fn accept_name(self, name: FixedName) -> Option<(Token<'a>, Cursor<'a, 'b>)>
        ensures found { IfSome result (λ found. TakesFixed name (lexed found.0) (spot self.entry) (spot found.1)) }
        ensures other { IfNone result (fits (fixed_kind name) (next (left_at (spot self.entry))) ≡ false) }
    {
        let text: &[u8] = match name {
            FixedName::Local => b"local",
            FixedName::Abs => b"ABS",
            FixedName::StdLib => b"StdLib",
        };
        let kind = match name {
            FixedName::Local => Lexeme::LowerName,
            FixedName::Abs | FixedName::StdLib => Lexeme::UpperName,
        };
        match self.next() {
            Some((token, after)) if token.kind == kind && token.slice == text => {
                Some((token, after))
            }
            _ => None,
        }
    }

    /// The next token, which has to be the name with this spelling, and the cursor after it.
    ///
    /// # Errors
    /// The refusal of the next token, if it is another one.
    pub fn take_name(self, name: FixedName) -> Result<(Token<'a>, Cursor<'a, 'b>), ParseError>
        ensures found { IfOk result (λ found. TakesFixed name (lexed found.0) (spot self.entry) (spot found.1)) }
        ensures refused { IfErr result (λ error. IsRefused (Terminal (fixed_kind name) 0) (spot self.entry) error) }
    {
        match self.accept_name(name) {
            Some(found) => Ok(found),
            None => Err(self.wrong()),
        }
    }

    /// Checks that no token is left.
    ///
    /// # Errors
    /// The refusal of the next token, if there is one.
    pub fn finish(self) -> Result<(), ParseError>
        ensures found { OnOk result ((spot self.entry).rest ≡ []) }
        ensures refused { IfErr result (λ error. IsRefused (Terminal End 0) (spot self.entry) error) }
    {
        match self.next() {
            Some(_) => Err(self.wrong()),
            None => Ok(()),
        }
    }
}
