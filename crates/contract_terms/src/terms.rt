//! The contracts of a whole program. No reader takes memory, and none walks over a list.
ghost use Rattle.std.specs.Prelude.{◌≡◌, List, map};
ghost use Rattle.std.specs.Option.{option_map};
ghost use Rattle.abs_tree.specs.Names.{name_of};
ghost use Rattle.abs_tree.specs.Syntax.{Name};
ghost use Rattle.contract_terms.specs.Views.{class_in, class_tree, made_in, main_in, method_in, method_tree, reached_in, term_tree};

use crate::{ClassTerms, MethodTerms, Term};
use abs_tree::Symbol;
use indexmap::IndexMap;

/// The contracts of a program: those of main and of its classes, by their indices among the declarations, and the
/// classes of which objects are made at each place.
#[derive(Drop)]
pub struct Terms {
    /// The terms of main.
    pub main: Vec<Term>,
    /// The contracts of each declaration that is a class.
    pub classes: Vec<Option<ClassTerms>>,
    /// For each place the classes of which statements there make objects.
    pub made: IndexMap<u32, Vec<Symbol>>,
}

impl Terms {
    /// The terms of main.
    #[tactic(auto, unfolding(crate::specs::Views::main_in))]
    pub fn main(&self) -> &[Term]
        ensures { (names : List Name) → map (term_tree names) result.now ≡ main_in names self.now }
    {
        self.main.as_slice()
    }

    /// The contracts of the class with this index among the declarations.
    #[tactic(auto, unfolding(crate::specs::Views::class_in))]
    pub fn class(&self, class: u32) -> Option<&ClassTerms>
        ensures { (names : List Name) → option_map (λ found. class_tree names found.now) result
            ≡ class_in names self.now class }
    {
        match self.classes.get(class as usize) {
            Some(Some(found)) => Some(found),
            Some(None) | None => None,
        }
    }

    /// The contract of the method at an index among the members of the class with this index.
    #[tactic(auto, unfolding(crate::specs::Views::method_in, crate::specs::Views::class_in))]
    pub fn method(&self, class: u32, member: u32) -> Option<&MethodTerms>
        ensures { (names : List Name) → option_map (λ found. method_tree names found.now) result
            ≡ method_in names self.now class member }
    {
        match self.classes.get(class as usize) {
            Some(Some(found)) => found.method(member),
            Some(None) | None => None,
        }
    }

    /// Whether a method of a class is another one, or calls on `this` lead from that to it. Each is an index among the
    /// members of the class.
    #[tactic(auto, unfolding(crate::specs::Views::reached_in, crate::specs::Views::class_in))]
    pub fn is_reached(&self, class: u32, one: u32, other: u32) -> bool
        ensures { result ≡ reached_in self.now class one other }
    {
        if one == other {
            return true;
        }
        match self.classes.get(class as usize) {
            Some(Some(found)) => found.leads_to(one, other),
            Some(None) | None => false,
        }
    }

    /// The classes of which statements at a place make objects, in the order of the statements. The place is the number
    /// of bytes before the statement.
    #[tactic(auto, unfolding(crate::specs::Views::made_in))]
    pub fn classes_made(&self, place: u32) -> &[Symbol]
        ensures { (names : List Name) → map (name_of names) result.now ≡ made_in names self.now place }
    {
        match self.made.get(&place) {
            Some(classes) => classes.as_slice(),
            None => &[],
        }
    }
}
