//! Keys, by which facts are found.
ghost use Rattle.std.specs.Prelude.{◌≡◌};
ghost use Rattle.saturation.specs.Keys.{future_key_of, key_of};

use contract_terms::{Atom, Fact};
use name_bounding::{Kind, Sign};

/// What facts are found by. Each fact has one key, and a fact that a slot holds a future has the key of that too.
#[derive(Drop, PartialEq, Eq, Hash)]
pub(crate) enum Key {
    /// Main is live.
    Main,
    /// A method of the objects with a sign is live.
    Object(Sign),
    /// A slot of a kind holds something.
    Slot(Kind, u32),
    /// A field of the objects with a sign holds something.
    Field(Sign, u32),
    /// The result of a kind holds something.
    Result(Kind),
    /// A slot holds a future of the tasks of a kind.
    Future(Kind),
}

impl Key {
    /// The key of a fact.
    pub(crate) fn of(fact: &Fact) -> Key
        ensures { result ≡ key_of fact.now }
    {
        match fact {
            Fact::Live(Kind::Main) => Key::Main,
            Fact::Live(Kind::Method(sign, _)) => Key::Object(sign.copied()),
            Fact::Holds(kind, slot, _) => Key::Slot(kind.copied(), *slot),
            Fact::Field(sign, field, _) => Key::Field(sign.copied(), *field),
            Fact::Gives(kind, _) => Key::Result(kind.copied()),
        }
    }

    /// The key of the future that a slot holds, if the fact says that one does.
    pub(crate) fn of_future(fact: &Fact) -> Option<Key>
        ensures { result ≡ future_key_of fact.now }
    {
        match fact {
            Fact::Holds(_, _, Atom::Future(_, task)) => Some(Key::Future(task.copied())),
            _ => None,
        }
    }
}
