//! What a type lets in.
use abs_tree::Symbol;

/// The objects that a type lets in.
#[derive(Clone, Copy, Debug, PartialEq, Eq)]
pub enum Objects {
    /// No object.
    None,
    /// The objects of the class with this name.
    Of(Symbol),
    /// The objects of all classes that implement the interface with this name, directly or through `extends`.
    Implementing(Symbol),
    /// All objects.
    All,
}

/// What a type lets in.
#[derive(Clone, Copy, Debug, PartialEq, Eq)]
pub struct Accepts {
    /// The objects that it lets in.
    pub objects: Objects,
    /// Whether it lets in futures.
    pub futures: bool,
}

impl Accepts {
    /// No object and no future.
    pub const NOTHING: Accepts = Accepts {
        objects: Objects::None,
        futures: false,
    };
}
