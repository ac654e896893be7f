//! The joins that a table remembers.
ghost use Rattle.std.specs.Prelude.{◌≡◌, option_map, IfSome};
ghost use Rattle.abs_types.specs.Joins.{join_of};
ghost use Rattle.abs_types.specs.TypeShapes.{type_at, IsAmong};
ghost use Rattle.abs_types.specs.TypeTables.{declarations_of, types_in, Keeps};

use crate::table::shape::TypePair;
use crate::table::{TypeIndex, TypeTable};
use std::alloc::AllocError;

impl TypeTable<'_> {
    /// What is remembered of the join of two types.
    pub(crate) fn remembered(&self, one: TypeIndex, other: TypeIndex) -> Option<Option<TypeIndex>>
        ensures is { IfSome result (λ found. option_map (type_at (types_in self.now)) found
            ≡ join_of (declarations_of self.now) (type_at (types_in self.now) one)
            (type_at (types_in self.now) other)) }
        ensures among { IfSome result (λ found. IfSome found (IsAmong (types_in self.now))) }
    {
        match self.joins.get(&TypePair { one, other }) {
            Some(found) => Some(*found),
            None => None,
        }
    }

    /// Remembers the join of two types.
    ///
    /// # Errors
    /// [`AllocError`] if an allocation fails.
    pub(crate) fn remember(
        &mut self,
        one: TypeIndex,
        other: TypeIndex,
        found: Option<TypeIndex>,
    ) -> Result<(), AllocError>
        requires one { IsAmong (types_in self.old) one }
        requires other { IsAmong (types_in self.old) other }
        requires among { IfSome found (IsAmong (types_in self.old)) }
        requires is { option_map (type_at (types_in self.old)) found
            ≡ join_of (declarations_of self.old) (type_at (types_in self.old) one)
            (type_at (types_in self.old) other) }
        ensures keeps { Keeps self.old self.new }
    {
        self.joins.insert(TypePair { one, other }, found)?;
        Ok(())
    }
}
