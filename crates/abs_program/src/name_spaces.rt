//! What the names of a program stand for. Types, constructors, functions and classes have a name space each, and of
//! several declarations of a name in one of them the first counts.
ghost use Rattle.std.specs.Prelude.{◌≡◌};
ghost use Rattle.abs_program.specs.KeptSpaces.{spaces_by_name, AreProper};
ghost use Rattle.abs_tree.specs.Names.{name_of};
ghost use Rattle.abs_program.specs.Tables.{meaning_of};

use crate::Meanings;
use abs_tree::{Symbol, Symbols};

/// A declaration, by its index in the program, and how many arguments it takes.
#[derive(Clone, Copy, Debug, PartialEq, Eq)]
pub struct Taking {
    pub declaration: u32,
    pub arity: u32,
}

/// What the name of a type stands for.
#[derive(Clone, Copy, Debug, PartialEq, Eq)]
pub enum TypeMeaning {
    /// `Int`
    Int,
    /// `String`
    String,
    /// `Fut`, which takes one argument.
    Fut,
    /// Data, with its type parameters.
    Data(Taking),
    /// An interface, by the index of its declaration.
    Interface(u32),
}

/// What the name of a function stands for.
#[derive(Clone, Copy, Debug, PartialEq, Eq)]
pub enum FunctionMeaning {
    /// `toString`, which takes one argument.
    ToString,
    /// A function that is declared, with its parameters.
    Defined(Taking),
}

/// A constructor: the declaration of its data with the arguments that the constructor takes, and its index among the
/// constructors of the data.
#[derive(Clone, Copy, Debug, PartialEq, Eq)]
pub struct ConstructorMeaning {
    pub taking: Taking,
    pub index: u32,
}

/// The name spaces of a program: what each name in them stands for, by its number.
#[derive(Drop)]
pub struct NameSpaces {
    pub types: Meanings<TypeMeaning>,
    pub constructors: Meanings<ConstructorMeaning>,
    pub functions: Meanings<FunctionMeaning>,
    pub classes: Meanings<Taking>,
}

impl NameSpaces {
    /// What a name stands for as that of a type.
    pub fn type_named(&self, symbols: &Symbols<'_>, name: Symbol) -> Option<TypeMeaning>
        requires { AreProper symbols.now self.now }
        ensures { result ≡ meaning_of (spaces_by_name symbols.now self.now).types (name_of symbols.now name) }
    {
        self.types.look_up(symbols.number(name))
    }

    /// What a name stands for as that of a constructor.
    pub fn constructor(&self, symbols: &Symbols<'_>, name: Symbol) -> Option<ConstructorMeaning>
        requires { AreProper symbols.now self.now }
        ensures { result ≡ meaning_of (spaces_by_name symbols.now self.now).constructors (name_of symbols.now name) }
    {
        self.constructors.look_up(symbols.number(name))
    }

    /// What a name stands for as that of a function.
    pub fn function(&self, symbols: &Symbols<'_>, name: Symbol) -> Option<FunctionMeaning>
        requires { AreProper symbols.now self.now }
        ensures { result ≡ meaning_of (spaces_by_name symbols.now self.now).functions (name_of symbols.now name) }
    {
        self.functions.look_up(symbols.number(name))
    }

    /// The declaration that a name stands for as that of a class, and how many arguments the class takes.
    pub fn class(&self, symbols: &Symbols<'_>, name: Symbol) -> Option<Taking>
        requires { AreProper symbols.now self.now }
        ensures { result ≡ meaning_of (spaces_by_name symbols.now self.now).classes (name_of symbols.now name) }
    {
        self.classes.look_up(symbols.number(name))
    }
}
