//! Codes: a table of them stands for declarations, in postfix order. Each code makes a part, and takes the parts that
//! it consists of from those which earlier codes made.
use abs_tree::Operator;

/// A part that is made, with its line and its column in the prelude's text. If it has a name, that is given by its
/// index among the names of the prelude.
#[derive(Clone, Copy)]
pub enum Code {
    /// A declaration, at its name.
    Declaration(DeclarationForm, u8, u8, u8),
    /// A part of the head of a declaration.
    Head(HeadForm, u8, u8, u8),
    /// A part of a function's value that has a name.
    Named(NamedForm, u8, u8, u8),
    /// A part of a function's value that has none.
    Plain(PlainForm, u8, u8),
}

/// The forms of declarations.
#[derive(Clone, Copy)]
pub enum DeclarationForm {
    /// Data, of all type parameters and constructors since the declaration before it.
    Data,
    /// A function, of its type and its value, and of all type parameters and parameters since the declaration before
    /// it.
    Function,
}

/// The forms of parts of a declaration's head.
#[derive(Clone, Copy)]
pub enum HeadForm {
    /// A type, of so many arguments.
    Type(u8),
    /// A type parameter.
    TypeParameter,
    /// A constructor of data, of so many types.
    Constructor(u8),
    /// A parameter, of its type.
    Parameter,
}

/// The forms of parts of a function's value that have a name.
#[derive(Clone, Copy)]
pub enum NamedForm {
    /// A pattern that binds a variable.
    Binds,
    /// A pattern with a constructor, of so many patterns.
    Built(u8),
    /// A variable.
    Variable,
    /// The application of a function, of so many arguments.
    Apply(u8),
    /// The application of a constructor, of so many arguments.
    Build(u8),
}

/// The forms of parts of a function's value that have no name.
#[derive(Clone, Copy)]
pub enum PlainForm {
    /// A number.
    Number(u8),
    /// An operator with its two operands.
    Operators(Operator),
    /// `if`, of its condition and its two branches.
    If,
    /// A branch of a `case`, of its pattern and its value.
    Branch,
    /// A `case`, of its subject and of so many branches.
    Case(u8),
}
