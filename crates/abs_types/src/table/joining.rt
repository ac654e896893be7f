//! Joins of types of a table. Each pair of types is joined once, and the join is remembered. Inside data and `Fut` the
//! joins of the parts alone decide: no test of fitting goes down into parts, since types that share parts would be
//! compared again and again.
ghost use Rattle.std.specs.Prelude.{◌≡◌, ◌≢◌, false, All, option_map, IfOk, IfSome};
ghost use Rattle.abs_types.specs.Joins.{both_applied, join_of};
ghost use Rattle.abs_types.specs.PlainTypes.{PlainFut};
ghost use Rattle.abs_types.specs.TypeParts.{have_parts_alike, pair_join, ArePairAmong, AreParts, AreSpines, IsFound};
ghost use Rattle.abs_types.specs.TypeShapes.{type_at, IsAmong};
ghost use Rattle.abs_types.specs.TypeTables.{declarations_of, types_in, Keeps};

use crate::table::parts::Parts;
use crate::table::shape::TypePair;
use crate::table::{TypeIndex, TypeTable};
use std::alloc::AllocError;

/// Two applied types taken apart.
#[derive(Drop)]
struct Spines {
    /// What is applied at the innermost place. These two are not both applied.
    innermost: TypePair,
    /// The arguments, from the last ones on.
    arguments: Vec<TypePair>,
}

impl TypeTable<'_> {
    /// The join of two types: the least type that both fit, if there is one.
    ///
    /// # Errors
    /// [`AllocError`] if an allocation fails, or if there are 2^31 types.
    pub fn join(
        &mut self,
        one: TypeIndex,
        other: TypeIndex,
    ) -> Result<Option<TypeIndex>, AllocError>
        requires one { IsAmong (types_in self.old) one }
        requires other { IsAmong (types_in self.old) other }
        ensures found { IfOk result (λ found. option_map (type_at (types_in self.new)) found
            ≡ join_of (declarations_of self.old) (type_at (types_in self.old) one)
            (type_at (types_in self.old) other)) }
        ensures among { IfOk result (λ found. IfSome found (IsAmong (types_in self.new))) }
        ensures keeps { Keeps self.old self.new }
    {
        self.join_inner(TypePair { one, other })?;
        self.join_once(one, other)
    }

    /// Joins the parts of two types, those inside first, so that each join finds the joins of its parts: inferred types
    /// can nest so deep that a recursion down them takes more stack than there is.
    ///
    /// # Errors
    /// [`AllocError`] if an allocation fails, or if there are 2^31 types.
    fn join_inner(&mut self, pair: TypePair) -> Result<(), AllocError>
        requires { ArePairAmong (types_in self.old) pair }
        ensures keeps { Keeps self.old self.new }
    {
        if !self.is_open(pair) {
            return Ok(());
        }
        let mut waiting = Vec::new(self.alloc);
        waiting.push(pair)?;
        // (nothing waits after far fewer turns: each pair is joined once, and a turn joins one or finds parts of it)
        for _ in 0..usize::MAX {
            let Some(pair) = waiting.pop() else {
                return Ok(());
            };
            self.join_next(pair, &mut waiting)?;
        }
        Ok(())
    }

    /// Joins two types, if the joins of their parts are known. Else they wait, and these parts after them.
    ///
    /// # Errors
    /// [`AllocError`] if an allocation fails, or if there are 2^31 types.
    fn join_next(&mut self, pair: TypePair, waiting: &mut Vec<TypePair>) -> Result<(), AllocError>
        requires pair { ArePairAmong (types_in self.old) pair }
        requires waiting { All (ArePairAmong (types_in self.old)) waiting.old.items }
        ensures waiting { All (ArePairAmong (types_in self.new)) waiting.new.items }
        ensures keeps { Keeps self.old self.new }
    {
        let count = waiting.len();
        waiting.push(pair)?;
        self.add_parts(pair, waiting)?;
        if waiting.len() > count + 1 {
            return Ok(());
        }
        self.join_once(pair.one, pair.other)?;
        waiting.truncate(count);
        Ok(())
    }

    /// The join of two types whose parts are joined already, or else are joined now, by recursion.
    ///
    /// # Errors
    /// [`AllocError`] if an allocation fails, or if there are 2^31 types.
    #[cycle(joining)]
    fn join_once(
        &mut self,
        one: TypeIndex,
        other: TypeIndex,
    ) -> Result<Option<TypeIndex>, AllocError>
        requires one { IsAmong (types_in self.old) one }
        requires other { IsAmong (types_in self.old) other }
        ensures found { IfOk result (λ found. option_map (type_at (types_in self.new)) found
            ≡ join_of (declarations_of self.old) (type_at (types_in self.old) one)
            (type_at (types_in self.old) other)) }
        ensures among { IfOk result (λ found. IfSome found (IsAmong (types_in self.new))) }
        ensures keeps { Keeps self.old self.new }
    {
        if self.are_same(one, other) {
            return Ok(Some(one));
        }
        if let Some(found) = self.remembered(one, other) {
            return Ok(found);
        }
        let Some(parts) = self.parts(one, other) else {
            return Ok(self.greater(one, other));
        };
        let found = self.join_parts(one, other, parts)?;
        self.remember(one, other, found)?;
        Ok(found)
    }

    /// The greater of two types, if one fits the other. They are not the same, and neither both `Fut` nor both applied.
    fn greater(&self, one: TypeIndex, other: TypeIndex) -> Option<TypeIndex>
        requires one { IsAmong (types_in self.now) one }
        requires other { IsAmong (types_in self.now) other }
        requires differ { type_at (types_in self.now) one ≢ type_at (types_in self.now) other }
        requires apart { have_parts_alike (type_at (types_in self.now) one) (type_at (types_in self.now) other)
            ≡ false }
        ensures { IsFound self.now result (join_of (declarations_of self.now) (type_at (types_in self.now) one)
            (type_at (types_in self.now) other)) }
    {
        if self.fits_apart(one, other) {
            return Some(other);
        }
        if self.fits_apart(other, one) {
            return Some(one);
        }
        None
    }

    /// The join of two types with parts that stand for each other.
    ///
    /// # Errors
    /// [`AllocError`] if an allocation fails, or if there are 2^31 types.
    #[cycle(joining)]
    fn join_parts(
        &mut self,
        one: TypeIndex,
        other: TypeIndex,
        parts: Parts,
    ) -> Result<Option<TypeIndex>, AllocError>
        requires one { IsAmong (types_in self.old) one }
        requires other { IsAmong (types_in self.old) other }
        requires parts { AreParts (types_in self.old) one other parts }
        ensures found { IfOk result (λ found. IsFound self.new found
            (join_of (declarations_of self.old) (type_at (types_in self.old) one)
            (type_at (types_in self.old) other))) }
        ensures keeps { Keeps self.old self.new }
    {
        match parts {
            Parts::Futures(values) => self.join_futures(values),
            Parts::Applied { heads, arguments } => self.join_applied(heads, arguments),
        }
    }

    /// `Fut` of the join of two types.
    ///
    /// # Errors
    /// [`AllocError`] if an allocation fails, or if there are 2^31 types.
    #[cycle(joining)]
    fn join_futures(&mut self, values: TypePair) -> Result<Option<TypeIndex>, AllocError>
        requires { ArePairAmong (types_in self.old) values }
        ensures found { IfOk result (λ found. IsFound self.new found
            (option_map PlainFut (pair_join (declarations_of self.old) (types_in self.old) values))) }
        ensures keeps { Keeps self.old self.new }
    {
        match self.join_once(values.one, values.other)? {
            Some(joined) => Ok(Some(self.future(joined)?)),
            None => Ok(None),
        }
    }

    /// The join of two heads, applied to the join of two arguments.
    ///
    /// # Errors
    /// [`AllocError`] if an allocation fails, or if there are 2^31 types.
    #[cycle(joining)]
    fn join_applied(
        &mut self,
        heads: TypePair,
        arguments: TypePair,
    ) -> Result<Option<TypeIndex>, AllocError>
        requires heads { ArePairAmong (types_in self.old) heads }
        requires arguments { ArePairAmong (types_in self.old) arguments }
        ensures found { IfOk result (λ found. IsFound self.new found
            (both_applied (pair_join (declarations_of self.old) (types_in self.old) heads)
            (pair_join (declarations_of self.old) (types_in self.old) arguments))) }
        ensures keeps { Keeps self.old self.new }
    {
        let Spines {
            innermost,
            arguments: mut rest,
        } = self.spines(heads, arguments)?;
        let Some(mut joined) = self.join_once(innermost.one, innermost.other)? else {
            return Ok(None);
        };
        while let Some(pair) = rest.pop() {
            let Some(argument) = self.join_once(pair.one, pair.other)? else {
                return Ok(None);
            };
            joined = self.applied(joined, argument)?;
        }
        Ok(Some(joined))
    }

    /// Two heads that are applied to two arguments, taken apart.
    ///
    /// # Errors
    /// [`AllocError`] if an allocation fails.
    fn spines(&self, heads: TypePair, arguments: TypePair) -> Result<Spines, AllocError>
        requires heads { ArePairAmong (types_in self.now) heads }
        requires arguments { ArePairAmong (types_in self.now) arguments }
        ensures { IfOk result (λ spines. AreSpines (declarations_of self.now) (types_in self.now) heads arguments
            spines.innermost spines.arguments.items) }
    {
        let mut innermost = heads;
        let mut all = Vec::new(self.alloc);
        all.push(arguments)?;
        while let Some(
            Parts::Applied {
                heads: next,
                arguments: more,
            },
        ) = self.parts(innermost.one, innermost.other)
        {
            all.push(more)?;
            innermost = next;
        }
        Ok(Spines {
            innermost,
            arguments: all,
        })
    }
}
