//! Variables.
use crate::Symbol;

/// What stands for a variable where it is declared and where it is used.
#[derive(Clone, Copy, Debug, PartialEq, Eq)]
pub enum Variable {
    /// Unresolved: its name.
    Unresolved(Symbol),
    /// A parameter or a local: its slot in the body.
    Slot(u32),
    /// A variable of a pattern or of `let`: how many of them are visible where it is bound.
    Bound(u32),
    /// A field of the own object, by its index. The class parameters are the first fields.
    Field(u32),
}
