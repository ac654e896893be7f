//! Places in a source.

/// A place in a source: the number of bytes before it, and its line and column, which count from 1. A column counts
/// bytes, and a line feed ends its line. Places are ordered as they follow one another.
#[derive(Clone, Copy, Debug, PartialEq, Eq, PartialOrd, Ord)]
pub struct Place {
    pub offset: u32,
    pub line: u32,
    pub column: u32,
}
