//! The parts of two types of a table that stand for each other.
ghost use Rattle.std.specs.Prelude.{◌≡◌, false, All, MatchOption};
ghost use Rattle.abs_types.specs.TypeParts.{have_parts_alike, AreParts, ArePairAmong};
ghost use Rattle.abs_types.specs.TypeShapes.{type_at, IsAmong};
ghost use Rattle.abs_types.specs.TypeTables.{types_in};

use crate::table::shape::TypePair;
use crate::table::{Shape, TypeIndex, TypeTable};
use std::alloc::AllocError;

/// The parts of two types of one form, in pairs.
#[derive(Clone, Copy)]
pub(crate) enum Parts {
    /// The parts of two `Fut` types.
    Futures(TypePair),
    /// The parts of two data types that are applied to one more argument.
    Applied {
        heads: TypePair,
        arguments: TypePair,
    },
}

impl TypeTable<'_> {
    /// The parts of two types in pairs, if both are `Fut`, or both are data that is applied to one more argument.
    pub(crate) fn parts(&self, one: TypeIndex, other: TypeIndex) -> Option<Parts>
        requires one { IsAmong (types_in self.now) one }
        requires other { IsAmong (types_in self.now) other }
        ensures { MatchOption result
            (have_parts_alike (type_at (types_in self.now) one) (type_at (types_in self.now) other) ≡ false)
            (AreParts (types_in self.now) one other) }
    {
        let facing = self.shape(other);
        match self.shape(one) {
            Shape::Fut(value) => match facing {
                Shape::Fut(other_value) => Some(Parts::Futures(TypePair {
                    one: value,
                    other: other_value,
                })),
                _ => None,
            },
            Shape::Applied { head, argument } => match facing {
                Shape::Applied {
                    head: other_head,
                    argument: other_argument,
                } => Some(Parts::Applied {
                    heads: TypePair {
                        one: head,
                        other: other_head,
                    },
                    arguments: TypePair {
                        one: argument,
                        other: other_argument,
                    },
                }),
                _ => None,
            },
            _ => None,
        }
    }

    /// Adds the parts of two types whose joins are not known yet, if that of the types is not.
    ///
    /// # Errors
    /// [`AllocError`] if an allocation fails.
    pub(crate) fn add_parts(
        &self,
        pair: TypePair,
        waiting: &mut Vec<TypePair>,
    ) -> Result<(), AllocError>
        requires pair { ArePairAmong (types_in self.now) pair }
        requires waiting { All (ArePairAmong (types_in self.now)) waiting.old.items }
        ensures { All (ArePairAmong (types_in self.now)) waiting.new.items }
    {
        if !self.is_open(pair) {
            return Ok(());
        }
        let mut whole = pair;
        while let Some(parts) = self.parts(whole.one, whole.other) {
            match parts {
                Parts::Futures(values) => return self.add_open(values, waiting),
                Parts::Applied { heads, arguments } => {
                    self.add_open(arguments, waiting)?;
                    whole = heads;
                }
            }
        }
        Ok(())
    }

    /// Adds two types, if their join is not known yet.
    ///
    /// # Errors
    /// [`AllocError`] if an allocation fails.
    fn add_open(&self, pair: TypePair, waiting: &mut Vec<TypePair>) -> Result<(), AllocError>
        requires pair { ArePairAmong (types_in self.now) pair }
        requires waiting { All (ArePairAmong (types_in self.now)) waiting.old.items }
        ensures { All (ArePairAmong (types_in self.now)) waiting.new.items }
    {
        if self.is_open(pair) {
            waiting.push(pair)?;
        }
        Ok(())
    }

    /// Whether the join of two types is not known yet, and is that of their parts.
    pub(crate) fn is_open(&self, pair: TypePair) -> bool
        requires { ArePairAmong (types_in self.now) pair }
    {
        !self.are_same(pair.one, pair.other)
            && self.parts(pair.one, pair.other).is_some()
            && self.remembered(pair.one, pair.other).is_none()
    }
}
