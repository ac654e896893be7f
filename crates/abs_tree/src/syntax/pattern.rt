//! Patterns.
use crate::syntax::Variable;
use crate::{Place, Symbol, Text};

/// A pattern, with the place of its first token.
#[derive(PartialEq, Eq, Drop)]
#[cycle(patterns)]
pub enum Pattern {
    /// `_`
    Any(Place),
    /// A variable, which gets the value.
    Binds(Place, Variable),
    /// A number, perhaps after a minus.
    Number(Place, i128),
    /// A string.
    Text(Place, Text),
    /// A constructor with the patterns of its arguments.
    Built {
        place: Place,
        constructor: Symbol,
        arguments: Vec<Pattern>,
    },
}
