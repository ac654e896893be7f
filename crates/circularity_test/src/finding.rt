//! How pairs are found: for each live kind, at each statement of its bodies that waits, by the futures that the slots
//! may hold which the statement names.
ghost use Rattle.std.specs.Prelude.{◌≡◌, [], ℕ, List, map, Contains, IfOk, OnOk, Option, option_map};
ghost use Rattle.abs_program.specs.InstructionViews.{instruction_tree};
ghost use Rattle.abs_program.specs.NamedViews.{program_tree};
ghost use Rattle.circularity_test.specs.Adding.{Adds, OfEach};
ghost use Rattle.circularity_test.specs.Finding.{ClassWaits, FutureHeld, IsPairOf, KindWaits, LiveWaits, SlotWaits, StatementWaits, TermWaits, names_in, program_in, task_in, term_in};
ghost use Rattle.contract_terms.specs.Pairs.{ArePairs};

use crate::pair_list::Pairs;
use abs_program::{Effect, Instruction, Named};
use abs_tree::Symbol;
use contract_terms::{Atom, Contracted, Fact, Mode, Pair, Term, Terms};
use name_bounding::Kind;
use saturation::{Body, Facts};
use std::alloc::{AllocError, Global};

/// What pairs are made from.
#[derive(Drop)]
struct Finder<'p, 'a> {
    program: &'p Named<'a>,
    terms: &'p Terms,
    facts: &'p Facts,
}

/// A statement of a kind that waits.
#[derive(Drop)]
struct Waiting<'k> {
    kind: &'k Kind,
    place: u32,
    mode: Mode,
}

/// The dependency pairs of a program by some facts.
///
/// # Errors
/// [`AllocError`] if an allocation fails.
pub fn pairs(alloc: Global, program: &Contracted<'_>, facts: &Facts) -> Result<Pairs, AllocError>
    ensures { IfOk result (λ pairs. ArePairs (program_tree program.now.checked.named) facts.now pairs) }
{
    let finder = Finder {
        program: program.checked().named(),
        terms: program.terms(),
        facts,
    };
    let mut pairs = finder.pairs(alloc)?;
    pairs.sort_unstable();
    pairs.dedup();
    Ok(Pairs { pairs })
}

impl<'p, 'a> Finder<'p, 'a> {
    /// The pairs, in no set order.
    ///
    /// # Errors
    /// [`AllocError`] if an allocation fails. So it is for each function here.
    fn pairs(&self, alloc: Global) -> Result<Vec<Pair>, AllocError>
        ensures { IfOk result (λ found. Adds (OfEach (LiveWaits (program_in self.now) self.now.terms.now
            self.now.facts.now) self.now.facts.now) [] found.items) }
    {
        let mut found = Vec::new(alloc);
        for index in 0..self.facts.len() {
            self.add_fact(self.facts.at(index), &mut found)?;
        }
        Ok(found)
    }

    /// Adds the pairs of a kind, if a fact says that it is live.
    fn add_fact(&self, fact: &Fact, found: &mut Vec<Pair>) -> Result<(), AllocError>
        ensures { OnOk result (Adds (LiveWaits (program_in self.now) self.now.terms.now self.now.facts.now fact.now)
            found.old.items found.new.items) }
    {
        match fact {
            Fact::Live(kind) => self.add_kind(kind, found),
            _ => Ok(()),
        }
    }

    /// Adds the pairs of a kind.
    fn add_kind(&self, kind: &Kind, found: &mut Vec<Pair>) -> Result<(), AllocError>
        ensures { OnOk result (Adds (KindWaits (program_in self.now) self.now.terms.now self.now.facts.now kind.now)
            found.old.items found.new.items) }
    {
        match kind {
            Kind::Main => self.add_terms(kind, Body::Main.terms(self.terms), found),
            Kind::Method(sign, method) => {
                self.add_classes(kind, *method, self.terms.classes_made(sign.place), found)
            }
        }
    }

    /// Adds the pairs of a kind in the method with a name of some classes.
    fn add_classes(
        &self,
        kind: &Kind,
        method: Symbol,
        classes: &[Symbol],
        found: &mut Vec<Pair>,
    ) -> Result<(), AllocError>
        ensures { OnOk result (Adds (OfEach (ClassWaits (program_in self.now) self.now.terms.now self.now.facts.now
            kind.now method) classes.now) found.old.items found.new.items) }
    {
        for class in classes {
            self.add_class(kind, method, *class, found)?;
        }
        Ok(())
    }

    /// Adds the pairs of a kind in the method with a name of a class.
    fn add_class(
        &self,
        kind: &Kind,
        method: Symbol,
        class: Symbol,
        found: &mut Vec<Pair>,
    ) -> Result<(), AllocError>
        ensures { OnOk result (Adds (ClassWaits (program_in self.now) self.now.terms.now self.now.facts.now kind.now
            method class) found.old.items found.new.items) }
    {
        match Body::of_method(self.program, class, method) {
            Some(body) => self.add_terms(kind, body.terms(self.terms), found),
            None => Ok(()),
        }
    }

    /// Adds the pairs of a kind at the statements of some terms.
    fn add_terms(
        &self,
        kind: &Kind,
        terms: &[Term],
        found: &mut Vec<Pair>,
    ) -> Result<(), AllocError>
        ensures { OnOk result (Adds (OfEach (TermWaits (program_in self.now) self.now.facts.now kind.now)
            (map (term_in self.now) terms.now)) found.old.items found.new.items) }
    {
        for term in terms {
            self.add_term(kind, term, found)?;
        }
        Ok(())
    }

    /// Adds the pairs of a kind at the statement of a term.
    fn add_term(&self, kind: &Kind, term: &Term, found: &mut Vec<Pair>) -> Result<(), AllocError>
        ensures { OnOk result (Adds (TermWaits (program_in self.now) self.now.facts.now kind.now
            (term_in self.now term.now)) found.old.items found.new.items) }
    {
        match self.program.instruction(term.index) {
            Some(instruction) => self.add_statement(
                kind,
                instruction,
                term.settled.as_slice(),
                found,
            ),
            None => Ok(()),
        }
    }

    /// Adds the pairs of a kind at a statement, where some slots are settled.
    fn add_statement(
        &self,
        kind: &Kind,
        instruction: &Instruction,
        settled: &[u32],
        found: &mut Vec<Pair>,
    ) -> Result<(), AllocError>
        ensures { OnOk result (Adds (StatementWaits self.now.facts.now kind.now
            (instruction_tree (names_in self.now) instruction.now) settled.now) found.old.items found.new.items) }
    {
        let place = instruction.place;
        match &instruction.effect {
            Effect::Get { slot, .. } => {
                let waiting = Waiting {
                    kind,
                    place,
                    mode: Mode::Get,
                };
                self.add_slot(&waiting, *slot, settled, found)
            }
            Effect::Await(slots) => {
                let waiting = Waiting {
                    kind,
                    place,
                    mode: Mode::Await,
                };
                self.add_slots(&waiting, slots.as_slice(), settled, found)
            }
            _ => Ok(()),
        }
    }

    /// Adds the pairs of a statement for the slots that it names.
    fn add_slots(
        &self,
        waiting: &Waiting<'_>,
        slots: &[Option<u32>],
        settled: &[u32],
        found: &mut Vec<Pair>,
    ) -> Result<(), AllocError>
        ensures { OnOk result (Adds (OfEach (SlotWaits self.now.facts.now waiting.now settled.now) slots.now)
            found.old.items found.new.items) }
    {
        for slot in slots {
            self.add_slot(waiting, *slot, settled, found)?;
        }
        Ok(())
    }

    /// Adds the pairs of a statement for a slot, if that is not settled.
    fn add_slot(
        &self,
        waiting: &Waiting<'_>,
        slot: Option<u32>,
        settled: &[u32],
        found: &mut Vec<Pair>,
    ) -> Result<(), AllocError>
        ensures { OnOk result (Adds (SlotWaits self.now.facts.now waiting.now settled.now slot)
            found.old.items found.new.items) }
    {
        let Some(slot) = slot else {
            return Ok(());
        };
        if settled.contains(&slot) {
            return Ok(());
        }
        self.add_futures(waiting, slot, found)
    }

    /// Adds the pairs of a statement for the futures that a slot may hold.
    fn add_futures(
        &self,
        waiting: &Waiting<'_>,
        slot: u32,
        found: &mut Vec<Pair>,
    ) -> Result<(), AllocError>
        ensures { OnOk result (Adds (FutureHeld self.now.facts.now waiting.now slot) found.old.items found.new.items) }
    {
        let mut next = self.facts.newest_of_slot(waiting.kind, slot);
        while let Some(index) = next {
            waiting.add_future(self.facts.at(index as usize), found)?;
            next = self.facts.earlier_of_slot(index);
        }
        Ok(())
    }
}

impl Waiting<'_> {
    /// Adds the pair for the future that a slot holds, if a fact says that one does.
    fn add_future(&self, fact: &Fact, found: &mut Vec<Pair>) -> Result<(), AllocError>
        ensures { OnOk result (Adds (IsPairOf self.now fact.now) found.old.items found.new.items) }
    {
        match task_of(fact) {
            Some((call, target)) => {
                found.push(self.pair(call, target))?;
                Ok(())
            }
            None => Ok(()),
        }
    }

    /// The pair for a task that is called at a place.
    fn pair(&self, call: u32, target: Kind) -> Pair
        ensures place { result.place ≡ self.now.place }
        ensures mode { result.mode ≡ self.now.mode }
        ensures source { result.source ≡ self.now.kind.now }
        ensures call { result.call ≡ call }
        ensures target { result.target ≡ target }
    {
        Pair {
            place: self.place,
            call,
            mode: self.mode,
            source: self.kind.copied(),
            target,
        }
    }
}

/// The place at which a task is called, and its kind, if a fact says that a slot holds its future.
fn task_of(fact: &Fact) -> Option<(u32, Kind)>
    ensures { result ≡ task_in fact.now }
{
    match fact {
        Fact::Holds(_, _, Atom::Future(call, task)) => Some((*call, task.copied())),
        _ => None,
    }
}
