//! Types.
use crate::{Place, Symbol};

/// A type: as a source writes it, as it is once its name is resolved, or as checking finds it. A written one has the
/// place of its name. It is never larger than the source that writes it.
#[derive(PartialEq, Eq, Drop)]
#[cycle(types)]
pub enum TypeTerm {
    /// Unresolved: a name with its arguments.
    Unresolved {
        place: Place,
        name: Symbol,
        arguments: Vec<TypeTerm>,
    },
    /// `Int`
    Int(Place),
    /// `String`
    String(Place),
    /// `Fut<T>`
    Fut(Place, Box<TypeTerm>),
    /// Data with its arguments.
    Data {
        place: Place,
        name: Symbol,
        arguments: Vec<TypeTerm>,
    },
    /// An interface.
    Interface(Place, Symbol),
    /// A type parameter, by its index among those of its declaration.
    Parameter(Place, u32),
    /// The type of no value.
    Bottom,
    /// The type of `null`.
    Null,
    /// An object of a class.
    Class(Symbol),
}
