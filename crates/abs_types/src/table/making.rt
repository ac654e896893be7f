//! Types of a table, made from their parts.
ghost use Rattle.std.specs.Prelude.{◌≡◌, ◌↔◌, true, [], length, IfOk};
ghost use Rattle.abs_tree.specs.Names.{name_of};
ghost use Rattle.abs_types.specs.OperatorTypes.{bool_type, unit_type};
ghost use Rattle.abs_types.specs.PlainTypes.{PlainApplied, PlainBottom, PlainClass, PlainData, PlainFut, PlainInt, PlainInterface, PlainNull, PlainParameter, PlainString};
ghost use Rattle.abs_types.specs.Schemes.{has_parameter};
ghost use Rattle.abs_types.specs.TypeShapes.{shape_type, type_at, HasOwnNames, HasPartsBelow, IsAmong};
ghost use Rattle.abs_types.specs.TypeTables.{types_in, Keeps, StandsFor};

use crate::table::{Shape, TypeIndex, TypeTable};
use abs_program::Named;
use abs_tree::Symbol;
use indexmap::IndexMap;
use std::alloc::{AllocError, Global};

/// How many types a table has at most.
const TYPE_LIMIT: usize = 1 << 31;

#[tactic(auto, unfolding(crate::specs::TypeShapes::shape_type))]
impl<'a> TypeTable<'a> {
    /// The table of the types of a program, without a type.
    pub fn new(alloc: Global, program: &'a Named<'a>) -> TypeTable<'a>
        ensures program { result.program.now ≡ program.now }
        ensures empty { types_in result ≡ [] }
    {
        TypeTable {
            alloc,
            program,
            shapes: IndexMap::new(alloc),
            joins: IndexMap::new(alloc),
        }
    }

    /// The shape of a type.
    pub fn shape(&self, index: TypeIndex) -> Shape
        requires { IsAmong (types_in self.now) index }
        ensures is { type_at (types_in self.now) index
            ≡ shape_type self.now.program.now.symbols (types_in self.now) result }
        ensures parts { HasPartsBelow index.0 result }
    {
        match self.shapes.get_index(index.0 as usize) {
            Some((shape, _)) => *shape,
            None => Shape::Bottom,
        }
    }

    /// Whether two types are the same.
    pub fn are_same(&self, one: TypeIndex, other: TypeIndex) -> bool
        requires one { IsAmong (types_in self.now) one }
        requires other { IsAmong (types_in self.now) other }
        ensures { (result ≡ true) ↔ (type_at (types_in self.now) one ≡ type_at (types_in self.now) other) }
    {
        // This call says that no two shapes are equal.
        let _count = self.shapes.len();
        one == other
    }

    /// Whether a type parameter is in a type.
    pub fn has_parameter(&self, index: TypeIndex) -> bool
        requires { IsAmong (types_in self.now) index }
        ensures { result ≡ has_parameter (type_at (types_in self.now) index) }
    {
        match self.shapes.get_index(index.0 as usize) {
            Some((_, has_parameter)) => *has_parameter,
            None => false,
        }
    }

    /// `Int`.
    ///
    /// # Errors
    /// [`AllocError`] if an allocation fails, or if there are 2^31 types.
    pub fn int(&mut self) -> Result<TypeIndex, AllocError>
        ensures found { IfOk result (λ index. StandsFor self.new index PlainInt) }
        ensures keeps { Keeps self.old self.new }
    {
        self.add(Shape::Int)
    }

    /// `String`.
    ///
    /// # Errors
    /// [`AllocError`] if an allocation fails, or if there are 2^31 types.
    pub fn string(&mut self) -> Result<TypeIndex, AllocError>
        ensures found { IfOk result (λ index. StandsFor self.new index PlainString) }
        ensures keeps { Keeps self.old self.new }
    {
        self.add(Shape::String)
    }

    /// The type of no value.
    ///
    /// # Errors
    /// [`AllocError`] if an allocation fails, or if there are 2^31 types.
    pub fn bottom(&mut self) -> Result<TypeIndex, AllocError>
        ensures found { IfOk result (λ index. StandsFor self.new index PlainBottom) }
        ensures keeps { Keeps self.old self.new }
    {
        self.add(Shape::Bottom)
    }

    /// The type of `null`.
    ///
    /// # Errors
    /// [`AllocError`] if an allocation fails, or if there are 2^31 types.
    pub fn null(&mut self) -> Result<TypeIndex, AllocError>
        ensures found { IfOk result (λ index. StandsFor self.new index PlainNull) }
        ensures keeps { Keeps self.old self.new }
    {
        self.add(Shape::Null)
    }

    /// `Bool`.
    ///
    /// # Errors
    /// [`AllocError`] if an allocation fails, or if there are 2^31 types.
    pub fn bool(&mut self) -> Result<TypeIndex, AllocError>
        ensures found { IfOk result (λ index. StandsFor self.new index bool_type) }
        ensures keeps { Keeps self.old self.new }
    {
        self.add(Shape::Bool)
    }

    /// `Unit`.
    ///
    /// # Errors
    /// [`AllocError`] if an allocation fails, or if there are 2^31 types.
    pub fn unit(&mut self) -> Result<TypeIndex, AllocError>
        ensures found { IfOk result (λ index. StandsFor self.new index unit_type) }
        ensures keeps { Keeps self.old self.new }
    {
        self.add(Shape::Unit)
    }

    /// `Fut` of a type.
    ///
    /// # Errors
    /// [`AllocError`] if an allocation fails, or if there are 2^31 types.
    pub fn future(&mut self, value: TypeIndex) -> Result<TypeIndex, AllocError>
        requires { IsAmong (types_in self.old) value }
        ensures found { IfOk result (λ index. StandsFor self.new index (PlainFut (type_at (types_in self.old) value))) }
        ensures keeps { Keeps self.old self.new }
    {
        self.add(Shape::Fut(value))
    }

    /// The data type with a name, without arguments.
    ///
    /// # Errors
    /// [`AllocError`] if an allocation fails, or if there are 2^31 types.
    pub fn data(&mut self, name: Symbol) -> Result<TypeIndex, AllocError>
        ensures found { IfOk result (λ index. StandsFor self.new index
            (PlainData (name_of self.old.program.now.symbols name))) }
        ensures keeps { Keeps self.old self.new }
    {
        let text = self.program.symbols.name(name);
        if text == b"Bool".as_slice() {
            return self.bool();
        }
        if text == b"Unit".as_slice() {
            return self.unit();
        }
        self.add(Shape::Data(self.program.symbols.number(name)))
    }

    /// A data type that is applied to one more argument.
    ///
    /// # Errors
    /// [`AllocError`] if an allocation fails, or if there are 2^31 types.
    pub fn applied(&mut self, head: TypeIndex, argument: TypeIndex) -> Result<TypeIndex, AllocError>
        requires head { IsAmong (types_in self.old) head }
        requires argument { IsAmong (types_in self.old) argument }
        ensures found { IfOk result (λ index. StandsFor self.new index (PlainApplied
            (type_at (types_in self.old) head) (type_at (types_in self.old) argument))) }
        ensures keeps { Keeps self.old self.new }
    {
        self.add(Shape::Applied { head, argument })
    }

    /// The interface with a name.
    ///
    /// # Errors
    /// [`AllocError`] if an allocation fails, or if there are 2^31 types.
    pub fn interface(&mut self, name: Symbol) -> Result<TypeIndex, AllocError>
        ensures found { IfOk result (λ found. StandsFor self.new found
            (PlainInterface (name_of self.old.program.now.symbols name))) }
        ensures keeps { Keeps self.old self.new }
    {
        self.add(Shape::Interface(self.program.symbols.number(name)))
    }

    /// An object of the class with a name.
    ///
    /// # Errors
    /// [`AllocError`] if an allocation fails, or if there are 2^31 types.
    pub fn class(&mut self, name: Symbol) -> Result<TypeIndex, AllocError>
        ensures found { IfOk result (λ found. StandsFor self.new found
            (PlainClass (name_of self.old.program.now.symbols name))) }
        ensures keeps { Keeps self.old self.new }
    {
        self.add(Shape::Class(self.program.symbols.number(name)))
    }

    /// The type parameter with an index.
    ///
    /// # Errors
    /// [`AllocError`] if an allocation fails, or if there are 2^31 types.
    pub fn parameter(&mut self, index: u32) -> Result<TypeIndex, AllocError>
        ensures found { IfOk result (λ found. StandsFor self.new found (PlainParameter index)) }
        ensures keeps { Keeps self.old self.new }
    {
        self.add(Shape::Parameter(index))
    }

    /// The index of a shape. A new one is added after the others.
    fn add(&mut self, shape: Shape) -> Result<TypeIndex, AllocError>
        requires parts { HasPartsBelow (length (types_in self.old)) shape }
        requires names { HasOwnNames self.old.program.now.symbols shape }
        ensures found { IfOk result (λ index. StandsFor self.new index
            (shape_type self.old.program.now.symbols (types_in self.old) shape)) }
        ensures keeps { Keeps self.old self.new }
    {
        if let Some(index) = self.shapes.get_index_of(&shape) {
            return Ok(TypeIndex(index as u32));
        }
        let count = self.shapes.len();
        if count >= TYPE_LIMIT {
            return Err(AllocError);
        }
        let with_parameter = self.is_with_parameter(shape);
        self.shapes.insert(shape, with_parameter)?;
        Ok(TypeIndex(count as u32))
    }

    /// Whether a type parameter is in the type of a shape.
    fn is_with_parameter(&self, shape: Shape) -> bool
        requires { HasPartsBelow (length (types_in self.now)) shape }
        ensures { result ≡ has_parameter
            (shape_type self.now.program.now.symbols (types_in self.now) shape) }
    {
        match shape {
            Shape::Parameter(_) => true,
            Shape::Fut(value) => self.has_parameter(value),
            Shape::Applied { head, argument } => self.has_parameter(head)
                || self.has_parameter(argument),
            _ => false,
        }
    }
}
