//! Names of cogs.
ghost use Rattle.std.specs.Prelude.{◌≡◌, ◌≤◌, []};
ghost use Rattle.name_bounding.specs.Names.{bound_name};

use arrayvec::ArrayVec;
use std::marker::Model;

/// The name of a cog: the places at which it and the cogs that made it were made, the youngest first, and at most three
/// of them. A place is the number of bytes before a statement. Contracts see the list of the places. A name takes no
/// memory.
#[derive(Drop, PartialEq, Eq, PartialOrd, Ord, Hash)]
pub struct Name {
    offsets: ArrayVec<u32, 3>,
}

impl Model for Name {
    ghost use Rattle.std.specs.Prelude.{List, ℕ};

    ghost Value = { List ℕ };

    ghost view = { λ name. name.offsets.items };

    ghost inverse = { λ places. record { offsets = record { items = places } } };
}

impl Name {
    /// The name of the cog in which main is.
    pub fn of_main() -> Name
        ensures { result ≡ [] }
    {
        Name {
            offsets: ArrayVec::new(),
        }
    }

    /// The same name again.
    pub fn copied(&self) -> Name
        ensures { result ≡ self.now }
    {
        let mut offsets = ArrayVec::new();
        let _room = offsets.try_extend_from_slice(self.offsets.as_slice());
        Name { offsets }
    }

    /// The places, the youngest first.
    pub fn places(&self) -> &[u32]
        ensures { result.now ≡ self.now }
    {
        self.offsets.as_slice()
    }
}

/// The name of a cog that is made at a place by one of the cog with the name `parent`: the first `depth` of the place
/// and the places of the parent.
pub fn bound(place: u32, parent: &Name, depth: u8) -> Name
    requires at_least { 1 ≤ depth }
    requires at_most { depth ≤ 3 }
    ensures { result ≡ bound_name depth place parent.now }
{
    let mut name = parent.copied();
    name.offsets.truncate(depth as usize - 1);
    name.offsets.insert(0, place);
    name
}
