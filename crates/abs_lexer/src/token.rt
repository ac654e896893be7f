//! Tokens, and lists of them.
ghost use Rattle.std.specs.Prelude.{◌≡◌, ◌≤◌, ◌<◌, Some, length, map, slice_get, All};
ghost use Rattle.abs_tree.specs.Limits.{source_limit};
ghost use Rattle.abs_lexer.specs.Tokens.{TokenList, IsWellFormed};
ghost use Rattle.abs_lexer.specs.Views.{lexed};

use crate::Lexeme;
use abs_tree::Place;
use std::marker::Model;

/// A token: its kind, the place of its first byte, and its bytes, which are those of the source at that place.
#[derive(Clone, Copy, Debug)]
pub struct Token<'a> {
    pub kind: Lexeme,
    pub place: Place,
    pub slice: &'a [u8],
}

/// The tokens of a source, in order, and the place after its last byte. There are at most as many as a source may have
/// bytes, and each is well formed. Contracts see a `TokenList`.
#[derive(Drop)]
pub struct Tokens<'a> {
    pub(crate) list: Vec<Token<'a>>,
    pub(crate) end: Place,
}

impl<'a> Model for Tokens<'a> {
    ghost use Rattle.std.specs.Prelude.{◌≤◌, length, map, All};
    ghost use Rattle.abs_tree.specs.Limits.{source_limit};
    ghost use Rattle.abs_lexer.specs.Tokens.{TokenList, IsWellFormed};
    ghost use Rattle.abs_lexer.specs.Views.{lexed};

    ghost Value = { TokenList };

    ghost view = { λ s. record { tokens = map lexed s.list.items; end = s.end } };

    ghost invariant = { λ s.
        (length s.list.items ≤ source_limit) × All (λ token. IsWellFormed (lexed token)) s.list.items };
}

impl<'a> Tokens<'a> {
    /// How many tokens there are.
    pub fn len(&self) -> usize
        ensures len { result ≡ length self.now.tokens }
        ensures few { result ≤ source_limit }
    {
        self.list.len()
    }

    /// The token at an index.
    pub fn at(&self, index: usize) -> Token<'a>
        requires { index < length self.now.tokens }
        ensures token { slice_get self.now.tokens index ≡ Some (lexed result) }
        ensures well_formed { IsWellFormed (lexed result) }
    {
        self.list[index]
    }

    /// The place after the last byte of the source.
    pub fn end(&self) -> Place
        ensures { result ≡ self.now.end }
    {
        self.end
    }
}
