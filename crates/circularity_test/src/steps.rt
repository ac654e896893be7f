//! The edges of the graph of parts: that of each pair, and those that lead on from parts, for which the program alone
//! is asked.
ghost use Rattle.std.specs.Prelude.{◌≡◌, ◌↔◌, ⊤, true, [], Contains, IfOk, OnOk};
ghost use Rattle.abs_program.specs.NamedViews.{program_tree};
ghost use Rattle.circularity_test.specs.Parts.{AreOwn, Gets};
ghost use Rattle.circularity_test.specs.Steps.{AreFollowed, AreParts, Awaits, AwaitingSigns, CallStep, ClassStep, IsAwaited, KeepsSigns, MethodStep, StepsFrom, TargetStep, TermStep, called_at, program_of};
ghost use Rattle.circularity_test.specs.declared.parts.Part.TheVariants.{Target};

use crate::pair_list::Pairs;
use crate::parts::{Part, Parts};
use abs_program::Effect;
use abs_tree::Symbol;
use contract_terms::{Contracted, Mode, Pair, Term};
use indexmap::IndexSet;
use name_bounding::{Kind, Sign};
use saturation::Body;
use std::alloc::{AllocError, Global};

/// What tells which edges lead on from a part.
#[derive(Drop)]
struct Steps<'s, 'a> {
    program: &'s Contracted<'a>,
    /// The signs of the sources of each `await`.
    awaiting: &'s IndexSet<Sign>,
}

/// The graph of the parts of some pairs. The edges of the pairs come first, in their order.
///
/// # Errors
/// [`AllocError`] if an allocation fails, or if a number takes more than 32 bits. So it is for each function here.
pub(crate) fn parts_of(
    alloc: Global,
    program: &Contracted<'_>,
    pairs: &Pairs,
) -> Result<Parts, AllocError>
    ensures { IfOk result (AreParts (program_tree program.now.checked.named) pairs.now) }
{
    let awaiting = awaiting_signs(alloc, pairs)?;
    let steps = Steps {
        program,
        awaiting: &awaiting,
    };
    let mut parts = Parts::new(alloc);
    parts.enter(pairs)?;
    steps.follow_all(&mut parts)?;
    Ok(parts)
}

/// The signs of the sources of each `await`.
fn awaiting_signs(alloc: Global, pairs: &Pairs) -> Result<IndexSet<Sign>, AllocError>
    ensures { IfOk result (λ signs. AwaitingSigns pairs.now signs.keys) }
{
    let mut signs = IndexSet::new(alloc);
    for index in 0..pairs.len() {
        add_sign(pairs.at(index), &mut signs)?;
    }
    Ok(signs)
}

/// Adds the sign of the source of a pair, if that is an `await`.
fn add_sign(pair: &Pair, signs: &mut IndexSet<Sign>) -> Result<(), AllocError>
    ensures { OnOk result (KeepsSigns pair.now signs.old.keys signs.new.keys) }
{
    match (pair.mode, &pair.source) {
        (Mode::Await, Kind::Method(sign, _)) => {
            signs.insert(sign.copied())?;
            Ok(())
        }
        _ => Ok(()),
    }
}

impl Parts {
    /// Adds the edges of some pairs.
    fn enter(&mut self, pairs: &Pairs) -> Result<(), AllocError>
        requires { self.old.edges.items ≡ [] }
        ensures { OnOk result (AreOwn self.new pairs.now) }
    {
        for index in 0..pairs.len() {
            let pair = pairs.at(index);
            self.lead(Part::entry(pair), Part::Target(pair.target.copied()))?;
        }
        Ok(())
    }
}

impl<'s, 'a> Steps<'s, 'a> {
    /// Adds the edges that lead on from each part, those from parts that this adds among them.
    fn follow_all(&self, parts: &mut Parts) -> Result<(), AllocError>
        ensures { OnOk result (AreFollowed (program_of self.now) (Awaits self.now) parts.old parts.new) }
    {
        for number in 0..usize::MAX {
            let Some(part) = parts.at(number) else {
                return Ok(());
            };
            self.follow(parts, &part)?;
        }
        // No list of parts is so long.
        Err(AllocError)
    }

    /// Adds the edges that lead on from a part.
    fn follow(&self, parts: &mut Parts, part: &Part) -> Result<(), AllocError>
        ensures { OnOk result (Gets (StepsFrom (program_of self.now) (Awaits self.now) part.now) parts.old parts.new) }
    {
        match part {
            Part::Target(kind) => self.follow_target(parts, part, kind),
            Part::Running(kind) => self.join_methods(parts, part, kind),
            Part::Method(sign, class, member) => self.follow_calls(parts, sign, *class, *member),
            Part::Cog(_) => Ok(()),
        }
    }

    /// Adds the edges from a target.
    fn follow_target(&self, parts: &mut Parts, target: &Part, kind: &Kind) -> Result<(), AllocError>
        requires { target.now ≡ Target kind.now }
        ensures { OnOk result (Gets (TargetStep (program_of self.now) (Awaits self.now) kind.now)
            parts.old parts.new) }
    {
        parts.lead(target.copied(), Part::Cog(kind.cog()))?;
        if self.is_awaited(kind) {
            parts.lead(target.copied(), Part::Running(kind.copied()))?;
            self.join_methods(parts, target, kind)?;
        }
        Ok(())
    }

    /// Whether an `await` may be reached from a kind by calls on `this`.
    fn is_awaited(&self, kind: &Kind) -> bool
        ensures { (result ≡ true) ↔ IsAwaited (Awaits self.now) kind.now }
    {
        match kind {
            Kind::Main => true,
            Kind::Method(sign, _) => self.awaiting.contains(sign),
        }
    }

    /// Adds the edges between a kind, as a target or as what runs, and its methods.
    fn join_methods(&self, parts: &mut Parts, end: &Part, kind: &Kind) -> Result<(), AllocError>
        ensures { OnOk result (Gets (MethodStep (program_of self.now) end.now kind.now) parts.old parts.new) }
    {
        match kind {
            Kind::Main => Ok(()),
            Kind::Method(sign, method) => {
                for class in self.program.terms().classes_made(sign.place) {
                    self.join_class(parts, end, sign, *method, *class)?;
                }
                Ok(())
            }
        }
    }

    /// Adds the edge between a kind and its method in a class.
    fn join_class(
        &self,
        parts: &mut Parts,
        end: &Part,
        sign: &Sign,
        method: Symbol,
        class: Symbol,
    ) -> Result<(), AllocError>
        ensures { OnOk result (Gets (ClassStep (program_of self.now) end.now sign.now method class)
            parts.old parts.new) }
    {
        let Some(own) = Body::of_method(self.program.checked().named(), class, method) else {
            return Ok(());
        };
        match own {
            Body::Method { class, member } => {
                parts.join(end, Part::Method(sign.copied(), class, member))
            }
            Body::Main | Body::Initials { .. } => Ok(()),
        }
    }

    /// Adds the edges from a method to those that it calls on `this`.
    fn follow_calls(
        &self,
        parts: &mut Parts,
        sign: &Sign,
        class: u32,
        member: u32,
    ) -> Result<(), AllocError>
        ensures { OnOk result (Gets (CallStep (program_of self.now) sign.now class member) parts.old parts.new) }
    {
        for term in (Body::Method { class, member }).terms(self.program.terms()) {
            self.follow_term(parts, sign, class, member, term)?;
        }
        Ok(())
    }

    /// Adds the edge from a method by a term of it, if that is of a call on `this`.
    fn follow_term(
        &self,
        parts: &mut Parts,
        sign: &Sign,
        class: u32,
        member: u32,
        term: &Term,
    ) -> Result<(), AllocError>
        ensures { OnOk result (Gets (TermStep (program_of self.now) sign.now class member term.now)
            parts.old parts.new) }
    {
        match self.called(class, term) {
            Some(other) => {
                parts.lead(
                    Part::Method(sign.copied(), class, member),
                    Part::Method(sign.copied(), class, other),
                )
            }
            None => Ok(()),
        }
    }

    /// The method of a class that the statement of a term calls on `this`, by its index among the members.
    fn called(&self, class: u32, term: &Term) -> Option<u32>
        ensures { result ≡ called_at (program_of self.now) class term.now.index }
    {
        let named = self.program.checked().named();
        match &named.instruction(term.index)?.effect {
            Effect::CallOwn { method, .. } => named.method(class, *method),
            _ => None,
        }
    }
}
