//! The slots of a body.

/// A slot of a body: what its value is the value of.
#[derive(Clone, Copy, Debug, PartialEq, Eq)]
pub enum Slot {
    /// A parameter, by its index.
    Parameter(u32),
    /// A local, by the index of the statement that declares it.
    Local(u32),
    /// Nothing that has a name: the result of a call by `.`, by the index of its statement.
    Hidden(u32),
}
