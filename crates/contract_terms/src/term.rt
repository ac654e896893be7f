//! Contract terms, and those of methods and classes.
ghost use Rattle.std.specs.Prelude.{◌≡◌, List, slice_get};
ghost use Rattle.std.specs.Option.{option_map};
ghost use Rattle.abs_tree.specs.Syntax.{Name};
ghost use Rattle.contract_terms.specs.Views.{leads_to as calls_lead_to, method_if, method_tree};

use crate::{Accepts, Objects};
use abs_graph::Reach;

/// What an expression reads: the slots and the fields, each in ascending order and once, and whether it has `this` as a
/// value.
#[derive(Drop)]
pub struct Reads {
    pub slots: Vec<u32>,
    pub fields: Vec<u32>,
    pub this: bool,
}

/// A contract term: what a statement passes on, beside its instruction.
#[derive(Drop)]
pub struct Term {
    /// The index of the statement.
    pub index: u32,
    /// What each expression of the instruction reads.
    pub reads: Vec<Reads>,
    /// What the target lets in; for `return` what the result type does. Without a target it is nothing.
    pub accepts: Accepts,
    /// For a message the objects that can be its receiver, by the type of that.
    pub receiver: Option<Objects>,
    /// For `get` and `await` the named slots that are settled there, each once, in the order of the source.
    pub settled: Vec<u32>,
}

/// The contract of a method.
#[derive(Drop)]
pub struct MethodTerms {
    /// What each parameter lets in.
    pub params: Vec<Accepts>,
    /// What the result type lets in.
    pub result: Accepts,
    /// The terms of its body, in the order of its statements.
    pub terms: Vec<Term>,
}

/// The contracts of a class.
#[derive(Drop)]
pub struct ClassTerms {
    /// What each field lets in. The parameters of the class are its first fields.
    pub fields: Vec<Accepts>,
    /// What the initial value of each other field reads. It reads earlier fields as slots.
    pub initials: Vec<Reads>,
    /// The contract of each member that is a method.
    pub methods: Vec<Option<MethodTerms>>,
    /// Which members call which on `this`, if one does.
    pub calls: Option<Reach>,
}

impl ClassTerms {
    /// The contract of the member with this index, if it is a method.
    pub fn method(&self, member: u32) -> Option<&MethodTerms>
        ensures { (names : List Name) → option_map (λ found. method_tree names found.now) result
            ≡ method_if names (slice_get self.now.methods.items member) }
    {
        match self.methods.get(member as usize) {
            Some(Some(method)) => Some(method),
            Some(None) | None => None,
        }
    }

    /// Whether calls on `this` lead from one member to another.
    pub(crate) fn leads_to(&self, one: u32, other: u32) -> bool
        ensures { result ≡ calls_lead_to one other self.now.calls }
    {
        match &self.calls {
            Some(calls) => calls.reaches(one, other),
            None => false,
        }
    }
}
