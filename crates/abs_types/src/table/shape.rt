//! What a table of types has for each type: its form, with the indices of its parts.

/// A type in a table of types, by its index.
#[derive(Clone, Copy, Debug, PartialEq, Eq, Hash)]
pub struct TypeIndex(pub u32);

/// The form of a type, whose parts are types of the same table. Names are given by their numbers in the program's table
/// of names. The data types `Bool` and `Unit`, which rules ask for, have forms of their own.
#[derive(Clone, Copy, Debug, PartialEq, Eq, Hash)]
pub enum Shape {
    Int,
    String,
    /// The type of no value.
    Bottom,
    /// The type of `null`.
    Null,
    Bool,
    Unit,
    Fut(TypeIndex),
    /// Another data type, by the number of its name.
    Data(u32),
    /// A data type that is applied to one more argument.
    Applied {
        head: TypeIndex,
        argument: TypeIndex,
    },
    Interface(u32),
    /// An object of a class.
    Class(u32),
    /// A type parameter, by its index.
    Parameter(u32),
}

/// Two types of one table.
#[derive(Clone, Copy, Debug, PartialEq, Eq, Hash)]
pub(crate) struct TypePair {
    pub(crate) one: TypeIndex,
    pub(crate) other: TypeIndex,
}
