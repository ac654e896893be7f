//! What the names of a resolved source stand for, and what its statements do. No reader but [`Named::above`] takes
//! memory, and none walks over a list. A declaration is known by its index.
ghost use Rattle.std.specs.Prelude.{◌≡◌, ℕ, false, get_or, slice_get, IfOk};
ghost use Rattle.std.specs.Option.{option_map};
ghost use Rattle.abs_graph.specs.Graphs.{is_listed};
ghost use Rattle.abs_program.specs.Bodies.{class_entry as class_entry_of, main_entry, method_entry};
ghost use Rattle.abs_program.specs.Holdings.{holders};
ghost use Rattle.abs_program.specs.InstructionViews.{class_entry_tree, instruction_tree};
ghost use Rattle.abs_program.specs.Instructions.{instructions};
ghost use Rattle.abs_program.specs.Members.{field_of, method_of, signatures_of};
ghost use Rattle.abs_tree.specs.Names.{name_of};
ghost use Rattle.abs_program.specs.NameSpaces.{spaces_of};
ghost use Rattle.abs_program.specs.NamedViews.{named_tree};
ghost use Rattle.abs_program.specs.Supertypes.{is_below};
ghost use Rattle.abs_program.specs.Tables.{meaning_of};

use crate::tables::control::{BodyEntry, ClassEntry, Instruction};
use crate::tables::members::{FieldAt, SignatureAt};
use crate::{ConstructorMeaning, FunctionMeaning, Named, Taking, TypeMeaning};
use abs_graph::is_marked;
use abs_tree::Symbol;
use std::alloc::{AllocError, Global};

impl Named<'_> {
    /// What a name stands for as that of a type: a built-in type, data or an interface.
    pub fn type_named(&self, name: Symbol) -> Option<TypeMeaning>
        ensures { result ≡ meaning_of (spaces_of (named_tree self.now).declarations).types
            (name_of self.now.symbols name) }
    {
        self.tables.spaces.type_named(&self.symbols, name)
    }

    /// What a name stands for as that of a constructor.
    pub fn constructor(&self, name: Symbol) -> Option<ConstructorMeaning>
        ensures { result ≡ meaning_of (spaces_of (named_tree self.now).declarations).constructors
            (name_of self.now.symbols name) }
    {
        self.tables.spaces.constructor(&self.symbols, name)
    }

    /// What a name stands for as that of a function.
    pub fn function(&self, name: Symbol) -> Option<FunctionMeaning>
        ensures { result ≡ meaning_of (spaces_of (named_tree self.now).declarations).functions
            (name_of self.now.symbols name) }
    {
        self.tables.spaces.function(&self.symbols, name)
    }

    /// The class with a name, and how many parameters it has.
    pub fn class(&self, name: Symbol) -> Option<Taking>
        ensures { result ≡ meaning_of (spaces_of (named_tree self.now).declarations).classes
            (name_of self.now.symbols name) }
    {
        self.tables.spaces.class(&self.symbols, name)
    }

    /// Whether an interface extends another one, or a class implements it, in one step or in more. Each is the index of
    /// a declaration.
    pub fn is_below(&self, one: u32, other: u32) -> bool
        ensures { result ≡ is_below (named_tree self.now).declarations one other }
    {
        self.tables.supertypes.reaches(one, other)
    }

    /// The interfaces that an interface extends, or that a class implements, in one step or in more, in no set order.
    ///
    /// # Errors
    /// [`AllocError`] if an allocation fails.
    pub fn above(&self, alloc: Global, declaration: u32) -> Result<Vec<u32>, AllocError>
        ensures { IfOk result (λ found. (other : ℕ)
            → is_listed found.items other ≡ is_below (named_tree self.now).declarations declaration other) }
    {
        self.tables.supertypes.reached(alloc, declaration)
    }

    /// Whether the declaration with this index is that of an interface, or of data that leads to one: through the types
    /// of its constructors' arguments, outside of `Fut`, and through further data.
    pub fn holds_objects(&self, declaration: u32) -> bool
        ensures { result ≡ get_or (holders (named_tree self.now).declarations) declaration false }
    {
        is_marked(self.tables.holders.as_slice(), declaration as usize)
    }

    /// The method with a name of the class with this index, by its index among the members of the class.
    pub fn method(&self, class: u32, name: Symbol) -> Option<u32>
        ensures { result ≡ method_of (named_tree self.now).declarations class (name_of self.now.symbols name) }
    {
        self.tables.methods.find(class, self.symbols.number(name))
    }

    /// The interfaces that declare a method with a name, in the order of the declarations.
    pub fn signatures(&self, name: Symbol) -> &[SignatureAt]
        ensures { result.now ≡ signatures_of (named_tree self.now).declarations (name_of self.now.symbols name) }
    {
        self.tables.signatures.find(self.symbols.number(name))
    }

    /// Where the field with a number is, of the class with this index. Parameters of a class come first.
    pub fn field(&self, class: u32, number: u32) -> Option<FieldAt>
        ensures { result ≡ field_of (named_tree self.now).declarations class number }
    {
        self.tables.fields.find(class, number)
    }

    /// What the statement with an index does, and where control goes.
    pub fn instruction(&self, index: u32) -> Option<&Instruction>
        ensures { option_map (λ found. instruction_tree self.now.symbols found.now) result
            ≡ slice_get (instructions (named_tree self.now)) index }
    {
        self.tables.control.instruction(index)
    }

    /// Where the main block begins, and how many slots it has.
    pub fn main_body(&self) -> BodyEntry
        ensures { result ≡ main_entry (named_tree self.now) }
    {
        self.tables.control.main()
    }

    /// The body of the method at an index among the members of the class with this index.
    pub fn body(&self, class: u32, member: u32) -> Option<BodyEntry>
        ensures { result ≡ method_entry (named_tree self.now).declarations class member }
    {
        self.tables.control.method(class, member)
    }

    /// What a new object of the class with this index takes.
    pub fn class_entry(&self, class: u32) -> Option<&ClassEntry>
        ensures { option_map (λ found. class_entry_tree self.now.symbols found.now) result
            ≡ class_entry_of (named_tree self.now).declarations class }
    {
        self.tables.control.class(class)
    }
}
