//! The table of the types of a program: each type once, found by its index. A type that is made of others has their
//! indices, so a type that stands in many places is there once, whatever its size as a tree. The table only grows.
ghost use Rattle.std.specs.Prelude.{◌≡◌, ◌^◌, ◌≤◌, length, map};
ghost use Rattle.abs_program.specs.NamedViews.{named_tree};
ghost use Rattle.abs_types.specs.Schemes.{has_parameter};
ghost use Rattle.abs_types.specs.TypeShapes.{types_of, AreFormed, AreFormed-prop, AreRemembered};

mod applying;
mod fitting;
mod joining;
mod making;
mod memory;
mod parts;
mod shape;
mod terms;

use abs_program::Named;
use indexmap::IndexMap;
use shape::TypePair;
pub use shape::{Shape, TypeIndex};
use std::alloc::Global;

/// The types of a program that its checkers have met, and the joins that they asked for.
#[derive(Drop)]
pub struct TypeTable<'a> {
    pub alloc: Global,
    pub program: &'a Named<'a>,
    /// The shape of each type, with whether a type parameter is in the type.
    shapes: IndexMap<Shape, bool>,
    joins: IndexMap<TypePair, Option<TypeIndex>>,
    ghost few_types: { length shapes.entries ≤ 2 ^ 31 },
    ghost are_formed: { AreFormed program.now.symbols
        (map (λ entry. entry.0) shapes.entries) } by { AreFormed-prop _ _ },
    ghost parameters_are: { map (λ entry. entry.1) shapes.entries
        ≡ map has_parameter (types_of program.now.symbols (map (λ entry. entry.0) shapes.entries)) },
    ghost are_remembered: { ∥ AreRemembered (named_tree program.now).declarations
        (types_of program.now.symbols (map (λ entry. entry.0) shapes.entries)) joins.entries ∥₁ },
}
