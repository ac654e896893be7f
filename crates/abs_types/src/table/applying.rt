//! Applications: what type parameters meet in arguments, and types in which they are replaced.
ghost use Rattle.std.specs.Prelude.{◌≡◌, true, false, All, option_map, IfOk, IfSome, MatchOption};
ghost use Rattle.abs_types.specs.Applications.{applied_type, meet, meet_all, replaced};
ghost use Rattle.abs_types.specs.Heads.{are_walked, is_walked, ArePairParts, AreMetSpines, HasParts, IsSpine};
ghost use Rattle.abs_types.specs.TypeParts.{ArePairAmong};
ghost use Rattle.abs_types.specs.PlainTypes.{PlainParameter};
ghost use Rattle.abs_types.specs.Schemes.{has_parameter};
ghost use Rattle.abs_types.specs.TypeShapes.{type_at, types_at, IsAmong};
ghost use Rattle.abs_types.specs.TypeTables.{declarations_of, met_if, types_in, Keeps, StandsFor};

use crate::table::shape::TypePair;
use crate::table::{Shape, TypeIndex, TypeTable};
use std::alloc::AllocError;

/// The head and the argument of an applied type.
#[derive(Clone, Copy)]
struct AppliedParts {
    head: TypeIndex,
    argument: TypeIndex,
}

/// A head, with the arguments to which it is applied, from the last one on.
#[derive(Drop)]
struct Spine {
    head: TypeIndex,
    arguments: Vec<TypeIndex>,
}

/// The heads and the arguments of two applied types.
#[derive(Clone, Copy)]
struct PairParts {
    heads: TypePair,
    arguments: TypePair,
}

/// Two heads, with the pairs of arguments to which they are applied, from the last pair on.
#[derive(Drop)]
struct PairSpine {
    heads: TypePair,
    arguments: Vec<TypePair>,
}

impl TypeTable<'_> {
    /// The type of an application of a function or a constructor to arguments, given the types that it takes, and that
    /// which it gives, with this many type parameters. There is none if the arguments cannot be met, or are not as
    /// many.
    ///
    /// # Errors
    /// [`AllocError`] if an allocation fails, or if there are 2^31 types.
    pub fn application(
        &mut self,
        parameters: u32,
        takes: &[TypeIndex],
        gives: TypeIndex,
        given: &[TypeIndex],
    ) -> Result<Option<TypeIndex>, AllocError>
        requires takes { All (IsAmong (types_in self.old)) takes.now }
        requires gives { IsAmong (types_in self.old) gives }
        requires given { All (IsAmong (types_in self.old)) given.now }
        ensures found { IfOk result (λ found. option_map (type_at (types_in self.new)) found
            ≡ applied_type (declarations_of self.old)
            (record {
              parameters = parameters;
              takes = types_at (types_in self.old) takes.now;
              gives = type_at (types_in self.old) gives;
            })
            (types_at (types_in self.old) given.now)) }
        ensures among { IfOk result (λ found. IfSome found (IsAmong (types_in self.new))) }
        ensures keeps { Keeps self.old self.new }
    {
        let bottom = self.bottom()?;
        let mut met = vec![in self.alloc; bottom; parameters as usize]?;
        if !self.meet_all(takes, given, &mut met)? {
            return Ok(None);
        }
        Ok(Some(self.replaced(&met, gives)?))
    }

    /// Whether arguments can be given for types, of which there must be as many. What type parameters have met is
    /// changed by what they meet in the arguments; it is unspecified if these cannot be given.
    ///
    /// # Errors
    /// [`AllocError`] if an allocation fails, or if there are 2^31 types.
    fn meet_all(
        &mut self,
        takes: &[TypeIndex],
        given: &[TypeIndex],
        met: &mut Vec<TypeIndex>,
    ) -> Result<bool, AllocError>
        requires takes { All (IsAmong (types_in self.old)) takes.now }
        requires given { All (IsAmong (types_in self.old)) given.now }
        requires met { All (IsAmong (types_in self.old)) met.old.items }
        ensures met { IfOk result (λ could. met_if could (types_at (types_in self.new) met.new.items)
            ≡ meet_all (declarations_of self.old) (types_at (types_in self.old) takes.now)
            (types_at (types_in self.old) given.now) (types_at (types_in self.old) met.old.items)) }
        ensures among { All (IsAmong (types_in self.new)) met.new.items }
        ensures keeps { Keeps self.old self.new }
    {
        if takes.len() != given.len() {
            return Ok(false);
        }
        for (index, one) in takes.iter().enumerate() {
            if !self.meet(*one, given[index], met)? {
                return Ok(false);
            }
        }
        Ok(true)
    }

    /// Whether an argument can be given for a type. What type parameters have met is changed by what they meet in it;
    /// it is unspecified if the argument cannot be given.
    ///
    /// # Errors
    /// [`AllocError`] if an allocation fails, or if there are 2^31 types.
    #[cycle(meeting)]
    pub fn meet(
        &mut self,
        takes: TypeIndex,
        given: TypeIndex,
        met: &mut Vec<TypeIndex>,
    ) -> Result<bool, AllocError>
        requires takes { IsAmong (types_in self.old) takes }
        requires given { IsAmong (types_in self.old) given }
        requires met { All (IsAmong (types_in self.old)) met.old.items }
        ensures met { IfOk result (λ could. met_if could (types_at (types_in self.new) met.new.items)
            ≡ meet (declarations_of self.old) (type_at (types_in self.old) takes) (type_at (types_in self.old) given)
            (types_at (types_in self.old) met.old.items)) }
        ensures among { All (IsAmong (types_in self.new)) met.new.items }
        ensures keeps { Keeps self.old self.new }
    {
        let PairSpine {
            heads,
            mut arguments,
        } = self.met_spine(TypePair {
            one: takes,
            other: given,
        })?;
        if !self.meet_heads(heads, met)? {
            return Ok(false);
        }
        while let Some(pair) = arguments.pop() {
            if !self.meet(pair.one, pair.other, met)? {
                return Ok(false);
            }
        }
        Ok(true)
    }

    /// Whether an argument can be given for a type, where the two are not both applied, or the type has no type
    /// parameter. What type parameters have met is changed as in [`TypeTable::meet`].
    ///
    /// # Errors
    /// [`AllocError`] if an allocation fails, or if there are 2^31 types.
    #[cycle(meeting)]
    fn meet_heads(&mut self, heads: TypePair, met: &mut Vec<TypeIndex>) -> Result<bool, AllocError>
        requires heads { ArePairAmong (types_in self.old) heads }
        requires last { are_walked (type_at (types_in self.old) heads.one) (type_at (types_in self.old) heads.other)
            ≡ false }
        requires met { All (IsAmong (types_in self.old)) met.old.items }
        ensures met { IfOk result (λ could. met_if could (types_at (types_in self.new) met.new.items)
            ≡ meet (declarations_of self.old) (type_at (types_in self.old) heads.one)
            (type_at (types_in self.old) heads.other) (types_at (types_in self.old) met.old.items)) }
        ensures among { All (IsAmong (types_in self.new)) met.new.items }
        ensures keeps { Keeps self.old self.new }
    {
        if !self.has_parameter(heads.one) {
            return Ok(self.fits(heads.other, heads.one));
        }
        match self.shape(heads.one) {
            Shape::Parameter(index) => self.meet_parameter(index, heads.other, met),
            Shape::Fut(value) => match self.shape(heads.other) {
                Shape::Bottom => Ok(true),
                Shape::Fut(given) => self.meet(value, given, met),
                _ => Ok(false),
            },
            // applied data, since nothing else has a type parameter
            _ => Ok(matches!(self.shape(heads.other), Shape::Bottom)),
        }
    }

    /// Whether an argument can be given for the type parameter with an index. What type parameters have met is changed
    /// as in [`TypeTable::meet`].
    ///
    /// # Errors
    /// [`AllocError`] if an allocation fails, or if there are 2^31 types.
    fn meet_parameter(
        &mut self,
        index: u32,
        given: TypeIndex,
        met: &mut Vec<TypeIndex>,
    ) -> Result<bool, AllocError>
        requires given { IsAmong (types_in self.old) given }
        requires met { All (IsAmong (types_in self.old)) met.old.items }
        ensures met { IfOk result (λ could. met_if could (types_at (types_in self.new) met.new.items)
            ≡ meet (declarations_of self.old) (PlainParameter index) (type_at (types_in self.old) given)
            (types_at (types_in self.old) met.old.items)) }
        ensures among { All (IsAmong (types_in self.new)) met.new.items }
        ensures keeps { Keeps self.old self.new }
    {
        let index = index as usize;
        let Some(before) = met.get(index) else {
            return Ok(true);
        };
        match self.join(*before, given)? {
            Some(joined) => {
                met[index] = joined;
                Ok(true)
            }
            None => Ok(false),
        }
    }

    /// Two types, walked down their heads as far as both are applied and the first one has a type parameter.
    ///
    /// # Errors
    /// [`AllocError`] if an allocation fails.
    fn met_spine(&self, pair: TypePair) -> Result<PairSpine, AllocError>
        requires { ArePairAmong (types_in self.now) pair }
        ensures are { IfOk result (λ found.
            AreMetSpines (declarations_of self.now) (types_in self.now) pair found.heads found.arguments.items) }
        ensures last { IfOk result (λ found. are_walked (type_at (types_in self.now) found.heads.one)
            (type_at (types_in self.now) found.heads.other) ≡ false) }
    {
        let mut heads = pair;
        let mut arguments = Vec::new(self.alloc);
        while let Some(parts) = self.met_parts(heads) {
            arguments.push(parts.arguments)?;
            heads = parts.heads;
        }
        Ok(PairSpine { heads, arguments })
    }

    /// The heads and the arguments of two types, if both are applied and the first one has a type parameter.
    fn met_parts(&self, pair: TypePair) -> Option<PairParts>
        requires { ArePairAmong (types_in self.now) pair }
        ensures { MatchOption result
            (are_walked (type_at (types_in self.now) pair.one) (type_at (types_in self.now) pair.other) ≡ false)
            (λ parts. ArePairParts (types_in self.now) pair parts.heads parts.arguments) }
    {
        let takes = self.open_parts(pair.one)?;
        let Shape::Applied { head, argument } = self.shape(pair.other) else {
            return None;
        };
        Some(PairParts {
            heads: TypePair {
                one: takes.head,
                other: head,
            },
            arguments: TypePair {
                one: takes.argument,
                other: argument,
            },
        })
    }

    /// A type in which each type parameter is replaced by the type of its index, if there is one.
    ///
    /// # Errors
    /// [`AllocError`] if an allocation fails, or if there are 2^31 types.
    #[cycle(replacing)]
    pub fn replaced(
        &mut self,
        types: &[TypeIndex],
        index: TypeIndex,
    ) -> Result<TypeIndex, AllocError>
        requires types { All (IsAmong (types_in self.old)) types.now }
        requires index { IsAmong (types_in self.old) index }
        ensures found { IfOk result (λ found. StandsFor self.new found
            (replaced (types_at (types_in self.old) types.now) (type_at (types_in self.old) index))) }
        ensures keeps { Keeps self.old self.new }
    {
        let Spine {
            head,
            mut arguments,
        } = self.open_spine(index)?;
        let mut found = self.replaced_head(types, head)?;
        while let Some(argument) = arguments.pop() {
            let argument = self.replaced(types, argument)?;
            found = self.applied(found, argument)?;
        }
        Ok(found)
    }

    /// A type that is not applied, or has no type parameter, in which each type parameter is replaced by the type of
    /// its index, if there is one.
    ///
    /// # Errors
    /// [`AllocError`] if an allocation fails, or if there are 2^31 types.
    #[cycle(replacing)]
    fn replaced_head(
        &mut self,
        types: &[TypeIndex],
        head: TypeIndex,
    ) -> Result<TypeIndex, AllocError>
        requires types { All (IsAmong (types_in self.old)) types.now }
        requires head { IsAmong (types_in self.old) head }
        requires last { is_walked (type_at (types_in self.old) head) ≡ false }
        ensures found { IfOk result (λ found. StandsFor self.new found
            (replaced (types_at (types_in self.old) types.now) (type_at (types_in self.old) head))) }
        ensures keeps { Keeps self.old self.new }
    {
        if !self.has_parameter(head) {
            return Ok(head);
        }
        match self.shape(head) {
            Shape::Parameter(index) => match types.get(index as usize) {
                Some(found) => Ok(*found),
                None => Ok(head),
            },
            Shape::Fut(value) => {
                let value = self.replaced(types, value)?;
                self.future(value)
            }
            // nothing comes here, since no other type has a type parameter
            _ => Ok(head),
        }
    }

    /// A type, walked down its heads as far as they are applied and have a type parameter.
    ///
    /// # Errors
    /// [`AllocError`] if an allocation fails.
    fn open_spine(&self, index: TypeIndex) -> Result<Spine, AllocError>
        requires { IsAmong (types_in self.now) index }
        ensures is { IfOk result (λ found. IsSpine (types_in self.now) index found.head found.arguments.items) }
        ensures last { IfOk result (λ found. is_walked (type_at (types_in self.now) found.head) ≡ false) }
    {
        let mut head = index;
        let mut arguments = Vec::new(self.alloc);
        while let Some(parts) = self.open_parts(head) {
            arguments.push(parts.argument)?;
            head = parts.head;
        }
        Ok(Spine { head, arguments })
    }

    /// The head and the argument of a type, if it is applied and has a type parameter.
    fn open_parts(&self, index: TypeIndex) -> Option<AppliedParts>
        requires { IsAmong (types_in self.now) index }
        ensures parts { MatchOption result (is_walked (type_at (types_in self.now) index) ≡ false)
            (λ parts. HasParts (types_in self.now) index parts.head parts.argument) }
        ensures open_type { IfSome result (λ parts. has_parameter (type_at (types_in self.now) index) ≡ true) }
    {
        if !self.has_parameter(index) {
            return None;
        }
        match self.shape(index) {
            Shape::Applied { head, argument } => Some(AppliedParts { head, argument }),
            _ => None,
        }
    }
}
