//! Facts: what tasks, locals, fields and results may hold.
ghost use Rattle.std.specs.Prelude.{◌≡◌};

use name_bounding::{Kind, Sign};

/// What stands for the objects or the futures of a program's runs.
#[derive(Drop, PartialEq, Eq, PartialOrd, Ord, Hash)]
pub enum Atom {
    /// The objects with a sign.
    Object(Sign),
    /// The futures of the tasks of a kind that a statement calls, by its place, which is the number of bytes before it.
    Future(u32, Kind),
}

impl Atom {
    /// The same atom again. It takes no memory.
    pub fn copied(&self) -> Atom
        ensures { result ≡ self.now }
    {
        match self {
            Atom::Object(sign) => Atom::Object(sign.copied()),
            Atom::Future(call, kind) => Atom::Future(*call, kind.copied()),
        }
    }
}

/// What may be in a run.
#[derive(Drop, PartialEq, Eq, PartialOrd, Ord, Hash)]
pub enum Fact {
    /// There may be tasks or frames of a kind.
    Live(Kind),
    /// A slot of a frame of a kind may hold an atom.
    Holds(Kind, u32, Atom),
    /// A field of an object with a sign may hold an atom.
    Field(Sign, u32, Atom),
    /// The result of a task or a frame of a kind may hold an atom.
    Gives(Kind, Atom),
}

impl Fact {
    /// The same fact again. It takes no memory.
    pub fn copied(&self) -> Fact
        ensures { result ≡ self.now }
    {
        match self {
            Fact::Live(kind) => Fact::Live(kind.copied()),
            Fact::Holds(kind, slot, atom) => Fact::Holds(kind.copied(), *slot, atom.copied()),
            Fact::Field(sign, field, atom) => Fact::Field(sign.copied(), *field, atom.copied()),
            Fact::Gives(kind, atom) => Fact::Gives(kind.copied(), atom.copied()),
        }
    }
}
