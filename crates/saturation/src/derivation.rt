//! What was derived so far, and whether the work goes on.
ghost use Rattle.std.specs.Prelude.{◌≡◌, ◌≤◌, ◌⊎◌, [], true, false, Some, Contains, IfSome, IfNone};
ghost use Rattle.saturation.specs.Steps.{Adds, Finds, GoesOn, HasKey, Holding, Just, Nothing, atom_of as atom_held};

use crate::body::Body;
use crate::facts::Facts;
use crate::key::Key;
use contract_terms::{Atom, Fact};
use std::alloc::Global;

/// What was derived so far. The work has ended where an allocation failed, or where there are more facts than the
/// limit: then nothing more is added, and what is asked for is noted nowhere.
#[derive(Drop)]
pub(crate) struct Derivation {
    pub(crate) facts: Facts,
    /// How many facts there may be.
    pub(crate) limit: u32,
    /// Whether an allocation failed.
    pub(crate) failed: bool,
    alloc: Global,
}

impl Derivation {
    /// No facts.
    pub(crate) fn new(alloc: Global, limit: u32) -> Derivation
        ensures facts { result.facts ≡ [] }
        ensures limit { result.limit ≡ limit }
        ensures goes_on { result.failed ≡ false }
    {
        Derivation {
            facts: Facts::new(alloc),
            limit,
            failed: false,
            alloc,
        }
    }

    /// Whether the work goes on.
    pub(crate) fn goes_on(&self) -> bool
        ensures goes_on { result ≡ true → GoesOn self.now }
        ensures complete { GoesOn self.now → result ≡ true }
    {
        !self.failed && self.facts.len() <= self.limit as usize
    }

    /// Adds a fact, if it is not there and the work goes on.
    pub(crate) fn add(&mut self, fact: Fact)
        ensures { Adds (Just (Some fact)) self.old self.new }
    {
        let limit = self.limit as usize;
        if self.failed || self.facts.len() > limit {
            return;
        }
        match self.facts.add(fact) {
            Ok(()) => {}
            Err(_) => self.failed = true,
        }
    }

    /// Notes that the work has ended.
    pub(crate) fn fail(&mut self)
        ensures adds { Adds Nothing self.old self.new }
        ensures same { self.new.facts ≡ self.old.facts }
        ensures ended { GoesOn self.new → ⊥ }
    {
        self.failed = true;
    }

    /// Adds a fact, if there is one.
    pub(crate) fn add_some(&mut self, fact: Option<Fact>)
        ensures { Adds (Just fact) self.old self.new }
    {
        if let Some(fact) = fact {
            self.add(fact);
        }
    }

    /// The facts with a key. Where an allocation fails there are none, and the work has ended.
    pub(crate) fn with_key(&mut self, key: &Key) -> Vec<Fact>
        ensures { Finds (HasKey key.now) result.items self.old self.new }
    {
        match self.facts.with_key(self.alloc, key) {
            Ok(found) => found,
            Err(_) => {
                self.fail();
                Vec::new(self.alloc)
            }
        }
    }

    /// The atoms that the facts with the key of a slot, of a field or of results hold.
    pub(crate) fn atoms(&mut self, key: &Key) -> Vec<Atom>
        ensures { Finds (Holding key.now) result.items self.old self.new }
    {
        let mut atoms = Vec::new(self.alloc);
        self.add_atoms(&mut atoms, key);
        atoms
    }

    /// Adds the atoms that the facts with a key hold to others.
    pub(crate) fn add_atoms(&mut self, atoms: &mut Vec<Atom>, key: &Key)
        ensures { Finds (λ facts atom. Contains atoms.old.items atom ⊎ Holding key.now facts atom) atoms.new.items
            self.old self.new }
    {
        let found = self.with_key(key);
        for fact in found.iter() {
            self.add_atom_of(atoms, fact);
        }
    }

    /// Adds the atom that a fact says to be held to others.
    fn add_atom_of(&mut self, atoms: &mut Vec<Atom>, fact: &Fact)
        ensures { Finds (λ facts atom. Contains atoms.old.items atom ⊎ (atom_held fact.now ≡ Some atom)) atoms.new.items
            self.old self.new }
    {
        if let Some(atom) = atom_of(fact) {
            self.push(atoms, atom);
        }
    }

    /// An index in 32 bits. Where it takes more, the work has ended.
    pub(crate) fn number(&mut self, index: usize) -> Option<u32>
        ensures adds { Adds Nothing self.old self.new }
        ensures same { self.new.facts ≡ self.old.facts }
        ensures number { IfSome result (λ number. number ≡ index) }
        ensures ended { IfNone result (GoesOn self.new → ⊥) }
    {
        match u32::try_from(index) {
            Ok(number) => Some(number),
            Err(_) => {
                self.fail();
                None
            }
        }
    }

    /// No atoms.
    pub(crate) fn no_atoms(&self) -> Vec<Atom>
        ensures { result.items ≡ [] }
    {
        Vec::new(self.alloc)
    }

    /// No bodies.
    pub(crate) fn no_bodies(&self) -> Vec<Body>
        ensures { result.items ≡ [] }
    {
        Vec::new(self.alloc)
    }

    /// Adds a body to others. Where an allocation fails the work has ended.
    pub(crate) fn push_body(&mut self, bodies: &mut Vec<Body>, body: Body)
        ensures { Finds (λ facts one. Contains bodies.old.items one ⊎ (body ≡ one)) bodies.new.items self.old self.new }
    {
        match bodies.push(body) {
            Ok(()) => {}
            Err(_) => self.fail(),
        }
    }

    /// Adds an atom to others. Where an allocation fails the work has ended.
    pub(crate) fn push(&mut self, atoms: &mut Vec<Atom>, atom: Atom)
        ensures { Finds (λ facts one. Contains atoms.old.items one ⊎ (atom ≡ one)) atoms.new.items self.old self.new }
    {
        match atoms.push(atom) {
            Ok(()) => {}
            Err(_) => self.fail(),
        }
    }
}

/// The atom that a fact says to be held.
fn atom_of(fact: &Fact) -> Option<Atom>
    ensures { result ≡ atom_held fact.now }
{
    match fact {
        Fact::Live(_) => None,
        Fact::Holds(_, _, atom) | Fact::Field(_, _, atom) | Fact::Gives(_, atom) => Some(
            atom.copied(),
        ),
    }
}
