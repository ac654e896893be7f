//! Signs of objects, and kinds of tasks.
ghost use Rattle.std.specs.Prelude.{◌≡◌};
ghost use Rattle.name_bounding.specs.Names.{cog_of};

use crate::Name;
use abs_tree::Symbol;

/// The sign of an object: the place at which it is made, as the number of bytes before the statement, and the name of
/// its cog.
#[derive(Drop, PartialEq, Eq, PartialOrd, Ord, Hash)]
pub struct Sign {
    pub place: u32,
    pub cog: Name,
}

impl Sign {
    /// The same sign again. It takes no memory.
    pub fn copied(&self) -> Sign
        ensures { result ≡ self.now }
    {
        Sign {
            place: self.place,
            cog: self.cog.copied(),
        }
    }
}

/// The kind of a task or a frame.
#[derive(Drop, PartialEq, Eq, PartialOrd, Ord, Hash)]
pub enum Kind {
    /// That of main.
    Main,
    /// That of a method, by the sign of its object and the name of the method, which is its number in the table of the
    /// program's names.
    Method(Sign, Symbol),
}

impl Kind {
    /// The same kind again. It takes no memory.
    pub fn copied(&self) -> Kind
        ensures { result ≡ self.now }
    {
        match self {
            Kind::Main => Kind::Main,
            Kind::Method(sign, method) => Kind::Method(sign.copied(), *method),
        }
    }

    /// The name of the cog in which tasks of this kind are. It takes no memory.
    pub fn cog(&self) -> Name
        ensures { result ≡ cog_of self.now }
    {
        match self {
            Kind::Main => Name::of_main(),
            Kind::Method(sign, _) => sign.cog.copied(),
        }
    }
}
