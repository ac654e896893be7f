//! Facts, each once, and how they are found by their keys.
ghost use Rattle.std.specs.Prelude.{◌≡◌, ◌<◌, ◌≤◌, ◌+◌, ◌∷◌, ◌++◌, ◌⊎◌, ℕ, if◌then◌else◌, [], true, length, slice_get, take, vec_capacity, List, Some, IsSomeAnd, Contains, IfOk, MatchBool, OnOk, OnErr};
ghost use Rattle.indexmap.specs.IndexMap.{get, spare as spare_entries};
ghost use Rattle.indexmap.specs.IndexSet.{spare};
ghost use Rattle.contract_terms.specs.Derived.{AreDistinct};
ghost use Rattle.contract_terms.specs.declared.fact.Atom.{Atom as AnAtom};
ghost use Rattle.contract_terms.specs.declared.fact.Fact.{Fact as One};
ghost use Rattle.contract_terms.specs.declared.fact.Fact.TheVariants.{Holds};
ghost use Rattle.name_bounding.specs.declared.kind.Kind.{Kind as AKind};
ghost use Rattle.saturation.specs.Keys.{IsLatest, IsOf, IsOfSlot};
ghost use Rattle.saturation.specs.Links.{key_eq, latest, link_of, has_key, AreNewest};
ghost use Rattle.saturation.specs.declared.key.Key.{Key as OneKey};

use crate::key::Key;
use contract_terms::Fact;
use indexmap::{IndexMap, IndexSet};
use name_bounding::Kind;
use std::alloc::{AllocError, Global};
use std::marker::Model;

/// The newest facts before one that have its keys, by their indices.
#[derive(Clone, Copy)]
struct Earlier {
    same_key: Option<u32>,
    same_future: Option<u32>,
}

/// Facts, each once, in the order in which they were added.
#[derive(Drop)]
pub struct Facts {
    facts: IndexSet<Fact>,
    /// The index of the newest fact with a key.
    newest: IndexMap<Key, u32>,
    /// For each fact those before it.
    earlier: Vec<Earlier>,
}

impl Model for Facts {
    ghost use Rattle.std.specs.Prelude.{List};
    ghost use Rattle.contract_terms.specs.declared.fact.Fact.{Fact as One};

    ghost Value = { List One };

    ghost use Rattle.saturation.specs.Links.{AreLinked};

    ghost view = { λ facts. facts.facts.keys };

    ghost invariant = { λ facts. AreLinked facts.facts.keys facts.newest facts.earlier.items };
}

impl Facts {
    /// No facts.
    pub(crate) fn new(alloc: Global) -> Facts
        ensures { result ≡ [] }
    {
        Facts {
            facts: IndexSet::new(alloc),
            newest: IndexMap::new(alloc),
            earlier: Vec::new(alloc),
        }
    }

    /// How many there are.
    pub fn len(&self) -> usize
        ensures count { result ≡ length self.now }
        ensures distinct { AreDistinct self.now }
    {
        self.facts.len()
    }

    /// The fact at an index.
    pub fn at(&self, index: usize) -> &Fact
        requires { index < length self.now }
        ensures { slice_get self.now index ≡ Some result.now }
    {
        self.facts.get_index(index).unwrap()
    }

    /// The newest fact that a slot of a kind holds something, by its index.
    pub fn newest_of_slot(&self, kind: &Kind, slot: u32) -> Option<u32>
        ensures { IsLatest (IsOfSlot kind.now slot) self.now (length self.now) result }
    {
        self.newest(&Key::Slot(kind.copied(), slot))
    }

    /// For a fact that a slot of a kind holds something, the next earlier one. Each is an index.
    pub fn earlier_of_slot(&self, index: u32) -> Option<u32>
        requires { index < length self.now }
        ensures { (kind : AKind) (slot : ℕ) (atom : AnAtom) → slice_get self.now index ≡ Some (Holds kind slot atom)
            → IsLatest (IsOfSlot kind slot) self.now index result }
    {
        self.earlier[index as usize].same_key
    }

    /// Whether a fact is there.
    pub(crate) fn has(&self, fact: &Fact) -> bool
        ensures there { result ≡ true → Contains self.now fact.now }
        ensures complete { Contains self.now fact.now → result ≡ true }
    {
        self.facts.contains(fact)
    }

    /// The newest fact with a key.
    fn newest(&self, key: &Key) -> Option<u32>
        ensures { result ≡ latest (has_key key.now) self.now }
    {
        self.newest.get(key).copied()
    }

    /// The next earlier fact with a key of the one at an index.
    fn before(&self, key: &Key, index: u32) -> Option<u32>
        requires { IsSomeAnd (slice_get self.now index) (IsOf key.now) }
        ensures { result ≡ latest (has_key key.now) (take index self.now) }
    {
        let earlier = self.earlier[index as usize];
        match key {
            Key::Future(_) => earlier.same_future,
            _ => earlier.same_key,
        }
    }

    /// The facts with a key, the newest first.
    ///
    /// # Errors
    /// [`AllocError`] if an allocation fails.
    pub(crate) fn with_key(&self, alloc: Global, key: &Key) -> Result<Vec<Fact>, AllocError>
        ensures only { IfOk result (λ found. (fact : One) → Contains found.items fact
            → Contains self.now fact × IsOf key.now fact) }
        ensures all { IfOk result (λ found. (fact : One) → Contains self.now fact → IsOf key.now fact
            → Contains found.items fact) }
    {
        let mut found = Vec::new(alloc);
        let mut next = self.newest(key);
        while let Some(index) = next {
            found.push(self.at(index as usize).copied())?;
            next = self.before(key, index);
        }
        Ok(found)
    }

    /// Adds a fact where it is not there.
    ///
    /// # Errors
    /// [`AllocError`] if an allocation fails. Then the facts are as before.
    pub(crate) fn add(&mut self, fact: Fact) -> Result<(), AllocError>
        requires { length self.old ≤ 4294967295 }
        ensures added { OnOk result ((Contains self.old fact × (self.new ≡ self.old))
            ⊎ (self.new ≡ self.old ++ fact ∷ [])) }
        ensures err { OnErr result (self.new ≡ self.old) }
    {
        make_room(&mut self.facts, &mut self.newest, &mut self.earlier)?;
        let index = self.facts.len();
        if put(&mut self.facts, fact) {
            let links = link(
                &mut self.newest,
                self.facts.get_index(index).unwrap(),
                index as u32,
            );
            self.earlier.push(links).unwrap();
        }
        Ok(())
    }
}

/// Makes room for one more fact, with two keys and its links.
///
/// # Errors
/// [`AllocError`] if an allocation fails.
fn make_room(
    facts: &mut IndexSet<Fact>,
    newest: &mut IndexMap<Key, u32>,
    earlier: &mut Vec<Earlier>,
) -> Result<(), AllocError>
    ensures facts { facts.new.keys ≡ facts.old.keys }
    ensures newest { newest.new.entries ≡ newest.old.entries }
    ensures earlier { earlier.new.items ≡ earlier.old.items }
    ensures fact_fits { OnOk result (0 < spare facts.new) }
    ensures keys_fit { OnOk result (1 < spare_entries newest.new) }
    ensures links_fit { OnOk result (length earlier.new.items < vec_capacity earlier.new) }
{
    facts.reserve(1)?;
    newest.reserve(2)?;
    earlier.reserve(1)?;
    Ok(())
}

/// Puts a fact at the end where it is not there, and says whether it was not.
fn put(facts: &mut IndexSet<Fact>, fact: Fact) -> bool
    requires { 0 < spare facts.old }
    ensures { MatchBool result (facts.new.keys ≡ facts.old.keys ++ fact ∷ [])
        ((facts.new.keys ≡ facts.old.keys) × Contains facts.old.keys fact) }
{
    facts.insert(fact).unwrap()
}

/// Notes the index of the newest fact with a key, and gives that of the one before.
fn note(newest: &mut IndexMap<Key, u32>, key: Key, index: u32) -> Option<u32>
    requires { 0 < spare_entries newest.old }
    ensures before { result ≡ get key_eq newest.old key }
    ensures now { (other : OneKey) → get key_eq newest.new other
        ≡ (if key_eq key other then Some index else get key_eq newest.old other) }
    ensures room { spare_entries newest.old ≤ spare_entries newest.new + 1 }
{
    newest.insert(key, index).unwrap()
}

/// Notes the index of the newest fact with the keys of that one, and gives its links.
fn link(newest: &mut IndexMap<Key, u32>, fact: &Fact, index: u32) -> Earlier
    requires { 1 < spare_entries newest.old }
    ensures links { (facts : List One) → AreNewest facts newest.old → result ≡ link_of facts fact.now }
    ensures newest { (facts : List One) → index ≡ length facts → AreNewest facts newest.old
        → AreNewest (facts ++ fact.now ∷ []) newest.new }
{
    let same_key = note(newest, Key::of(fact), index);
    let same_future = match Key::of_future(fact) {
        Some(key) => note(newest, key, index),
        None => None,
    };
    Earlier {
        same_key,
        same_future,
    }
}
