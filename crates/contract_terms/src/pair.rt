//! Dependency pairs: which tasks may wait for which others.
ghost use Rattle.std.specs.Prelude.{◌≡◌};

use name_bounding::Kind;

/// How a statement waits for a future.
#[derive(Clone, Copy, Debug, PartialEq, Eq, PartialOrd, Ord, Hash)]
pub enum Mode {
    /// By a `get`, which holds the cog.
    Get,
    /// By an `await`, which lets it go.
    Await,
}

/// A task or a frame of a kind may wait for a task of another kind. Pairs are ordered by their fields, in this order.
#[derive(Drop, PartialEq, Eq, PartialOrd, Ord, Hash)]
pub struct Pair {
    /// The place of the statement that waits, as the number of bytes before it.
    pub place: u32,
    /// The place of the call that makes the task for which it waits.
    pub call: u32,
    /// How the statement waits.
    pub mode: Mode,
    /// The kind that waits.
    pub source: Kind,
    /// The kind for which it waits.
    pub target: Kind,
}

impl Pair {
    /// The same pair again. It takes no memory.
    pub fn copied(&self) -> Pair
        ensures { result ≡ self.now }
    {
        Pair {
            place: self.place,
            call: self.call,
            mode: self.mode,
            source: self.source.copied(),
            target: self.target.copied(),
        }
    }
}
