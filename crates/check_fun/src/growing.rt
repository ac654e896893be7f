//! Types that a checker makes. What it knows stays, and so does its first offence.
ghost use Rattle.std.specs.Prelude.{◌≡◌, List, Some, map, IfOk, OnOk};
ghost use Rattle.abs_tree.specs.Names.{name_of};
ghost use Rattle.abs_tree.specs.SyntaxViews.{type_tree};
ghost use Rattle.abs_types.specs.Applications.{applied_type, replaced};
ghost use Rattle.abs_types.specs.Joins.{join_of};
ghost use Rattle.abs_types.specs.OperatorTypes.{bool_type, unit_type};
ghost use Rattle.abs_types.specs.PlainTypes.{plain, PlainApplied, PlainClass, PlainData, PlainFut, PlainInt, PlainNull, PlainParameter, PlainString, PlainType};
ghost use Rattle.check_fun.specs.Contexts.{Context, FindsAll, Finds, FoundAll, Found, Knows, Stays};

use crate::checker::Checker;
use abs_tree::{Symbol, TypeTerm};
use abs_types::TypeIndex;
use std::alloc::AllocError;

#[tactic(auto, using(crate::proofs::GrowingLemmas::growth))]
impl Checker<'_> {
    /// `Int`.
    ///
    /// # Errors
    /// [`AllocError`] if an allocation fails, or if there are too many types. So it is for each type that is made.
    pub(crate) fn int(&mut self) -> Result<TypeIndex, AllocError>
        ensures found { IfOk result (λ found. Finds self.new (Some found) (Some PlainInt)) }
        ensures first { self.new.first ≡ self.old.first }
        ensures stays { Stays self.old self.new }
    {
        self.table.int()
    }

    /// `String`.
    pub fn string(&mut self) -> Result<TypeIndex, AllocError>
        ensures found { IfOk result (λ found. Finds self.new (Some found) (Some PlainString)) }
        ensures first { self.new.first ≡ self.old.first }
        ensures stays { Stays self.old self.new }
    {
        self.table.string()
    }

    /// `Bool`.
    pub fn bool(&mut self) -> Result<TypeIndex, AllocError>
        ensures found { IfOk result (λ found. Finds self.new (Some found) (Some bool_type)) }
        ensures first { self.new.first ≡ self.old.first }
        ensures stays { Stays self.old self.new }
    {
        self.table.bool()
    }

    /// `Unit`.
    pub fn unit(&mut self) -> Result<TypeIndex, AllocError>
        ensures found { IfOk result (λ found. Finds self.new (Some found) (Some unit_type)) }
        ensures first { self.new.first ≡ self.old.first }
        ensures stays { Stays self.old self.new }
    {
        self.table.unit()
    }

    /// The type of `null`.
    pub(crate) fn null(&mut self) -> Result<TypeIndex, AllocError>
        ensures found { IfOk result (λ found. Finds self.new (Some found) (Some PlainNull)) }
        ensures first { self.new.first ≡ self.old.first }
        ensures stays { Stays self.old self.new }
    {
        self.table.null()
    }

    /// `Fut` of a type.
    pub fn future(&mut self, value: TypeIndex) -> Result<TypeIndex, AllocError>
        requires { Found self.old (Some value) }
        ensures found { (type : PlainType) → Finds self.old (Some value) (Some type)
            → IfOk result (λ found. Finds self.new (Some found) (Some (PlainFut type))) }
        ensures first { self.new.first ≡ self.old.first }
        ensures stays { Stays self.old self.new }
    {
        self.table.future(value)
    }

    /// An object of the class with a name.
    pub fn class(&mut self, name: Symbol) -> Result<TypeIndex, AllocError>
        ensures found { (context : Context) → Knows self.old context
            → IfOk result (λ found. Finds self.new (Some found) (Some (PlainClass (name_of context.names name)))) }
        ensures first { self.new.first ≡ self.old.first }
        ensures stays { Stays self.old self.new }
    {
        self.table.class(name)
    }

    /// A type that the program writes.
    pub fn written(&mut self, term: &TypeTerm) -> Result<TypeIndex, AllocError>
        ensures found { (context : Context) → Knows self.old context → IfOk result
            (λ found. Finds self.new (Some found) (Some (plain (type_tree context.names term.now)))) }
        ensures first { self.new.first ≡ self.old.first }
        ensures stays { Stays self.old self.new }
    {
        self.table.of_term(term)
    }

    /// The join of two types, if there is one.
    pub(crate) fn join(
        &mut self,
        one: TypeIndex,
        other: TypeIndex,
    ) -> Result<Option<TypeIndex>, AllocError>
        requires one { Found self.old (Some one) }
        requires other { Found self.old (Some other) }
        ensures found { (context : Context) (left right : PlainType) → Knows self.old context
            → Finds self.old (Some one) (Some left) → Finds self.old (Some other) (Some right)
            → IfOk result (λ found. Finds self.new found (join_of context.declarations left right)) }
        ensures first { self.new.first ≡ self.old.first }
        ensures stays { Stays self.old self.new }
    {
        self.table.join(one, other)
    }

    /// A type in which each type parameter is replaced.
    pub(crate) fn replaced(
        &mut self,
        types: &[TypeIndex],
        index: TypeIndex,
    ) -> Result<TypeIndex, AllocError>
        requires types { FoundAll self.old (Some types.now) }
        requires index { Found self.old (Some index) }
        ensures found { (arguments : List PlainType) (type : PlainType)
            → FindsAll self.old (Some types.now) (Some arguments) → Finds self.old (Some index) (Some type)
            → IfOk result (λ found. Finds self.new (Some found) (Some (replaced arguments type))) }
        ensures first { self.new.first ≡ self.old.first }
        ensures stays { Stays self.old self.new }
    {
        self.table.replaced(types, index)
    }

    /// The type of an application of what takes types and gives another one, if the arguments can be met.
    pub(crate) fn application(
        &mut self,
        parameters: u32,
        takes: &[TypeIndex],
        gives: TypeIndex,
        given: &[TypeIndex],
    ) -> Result<Option<TypeIndex>, AllocError>
        requires takes { FoundAll self.old (Some takes.now) }
        requires gives { Found self.old (Some gives) }
        requires given { FoundAll self.old (Some given.now) }
        ensures found { (context : Context) (taken arguments : List PlainType) (type : PlainType)
            → Knows self.old context → FindsAll self.old (Some takes.now) (Some taken)
            → Finds self.old (Some gives) (Some type) → FindsAll self.old (Some given.now) (Some arguments)
            → IfOk result (λ found. Finds self.new found (applied_type context.declarations
            (record { parameters = parameters; takes = taken; gives = type }) arguments)) }
        ensures first { self.new.first ≡ self.old.first }
        ensures stays { Stays self.old self.new }
    {
        self.table.application(parameters, takes, gives, given)
    }

    /// The data type with a name, without arguments.
    pub(crate) fn data(&mut self, name: Symbol) -> Result<TypeIndex, AllocError>
        ensures found { (context : Context) → Knows self.old context
            → IfOk result (λ found. Finds self.new (Some found) (Some (PlainData (name_of context.names name)))) }
        ensures first { self.new.first ≡ self.old.first }
        ensures stays { Stays self.old self.new }
    {
        self.table.data(name)
    }

    /// A data type that is applied to one more argument.
    pub fn applied(&mut self, head: TypeIndex, argument: TypeIndex) -> Result<TypeIndex, AllocError>
        requires head { Found self.old (Some head) }
        requires argument { Found self.old (Some argument) }
        ensures found { (one other : PlainType) → Finds self.old (Some head) (Some one)
            → Finds self.old (Some argument) (Some other)
            → IfOk result (λ found. Finds self.new (Some found) (Some (PlainApplied one other))) }
        ensures first { self.new.first ≡ self.old.first }
        ensures stays { Stays self.old self.new }
    {
        self.table.applied(head, argument)
    }

    /// The type parameter with an index.
    pub(crate) fn parameter(&mut self, index: u32) -> Result<TypeIndex, AllocError>
        ensures found { IfOk result (λ found. Finds self.new (Some found) (Some (PlainParameter index))) }
        ensures first { self.new.first ≡ self.old.first }
        ensures stays { Stays self.old self.new }
    {
        self.table.parameter(index)
    }

    /// Types in each of which each type parameter is replaced, in their order.
    pub(crate) fn all_replaced(
        &mut self,
        types: &[TypeIndex],
        indices: &[TypeIndex],
    ) -> Result<Vec<TypeIndex>, AllocError>
        requires types { FoundAll self.old (Some types.now) }
        requires indices { FoundAll self.old (Some indices.now) }
        ensures found { (arguments parts : List PlainType) → FindsAll self.old (Some types.now) (Some arguments)
            → FindsAll self.old (Some indices.now) (Some parts) → IfOk result
            (λ found. FindsAll self.new (Some found.items) (Some (map (replaced arguments) parts))) }
        ensures first { self.new.first ≡ self.old.first }
        ensures stays { OnOk result (Stays self.old self.new) }
    {
        let mut found = Vec::with_capacity(self.table.alloc, indices.len())?;
        for index in indices {
            found.push(self.replaced(types, *index)?)?;
        }
        Ok(found)
    }
}
