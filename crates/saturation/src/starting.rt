//! What rests on it that a kind is live.
ghost use Rattle.std.specs.Prelude.{◌<◌, length};
ghost use Rattle.saturation.specs.Handling.{ArrivesAny, ArrivesAt, BodyMakes, BodyStarts, GetsAll, KindMakes, KindStarts, MakesHere, SlotResolves, StartsBy, TermMakes, TermStarts};
ghost use Rattle.saturation.specs.MakeSteps.{Makes};
ghost use Rattle.saturation.specs.Rows.{Starts};
ghost use Rattle.saturation.specs.RuleViews.{instruction_of, program_of, term_of, terms_of};
ghost use Rattle.saturation.specs.Steps.{Adds};

use crate::body::Body;
use crate::derivation::Derivation;
use crate::key::Key;
use crate::objects::Made;
use crate::rules::Rules;
use abs_program::{Effect, Instruction};
use contract_terms::Term;
use name_bounding::Kind;

impl<'p, 'a> Rules<'p, 'a> {
    /// Adds what rests on it that a kind is live.
    pub(crate) fn start(&self, derivation: &mut Derivation, made: &mut Made, kind: &Kind)
        ensures { Makes (program_of self.now) (terms_of self.now) self.now.depth
            (KindStarts (program_of self.now) (terms_of self.now) self.now.depth kind.now)
            (KindMakes (program_of self.now) (terms_of self.now) self.now.depth kind.now)
            made.old.keys made.new.keys derivation.old derivation.new }
    {
        let bodies = self.bodies_of(derivation, kind);
        for body in bodies.iter() {
            self.start_body(derivation, made, kind, *body);
        }
    }

    /// Adds what the statements of a body ask for.
    fn start_body(&self, derivation: &mut Derivation, made: &mut Made, kind: &Kind, body: Body)
        ensures { Makes (program_of self.now) (terms_of self.now) self.now.depth
            (BodyStarts (program_of self.now) (terms_of self.now) self.now.depth kind.now body)
            (BodyMakes (program_of self.now) (terms_of self.now) self.now.depth kind.now body)
            made.old.keys made.new.keys derivation.old derivation.new }
    {
        for term in self.terms_of(body).iter() {
            self.start_term(derivation, made, kind, term);
        }
    }

    /// Adds what the statement of a term asks for.
    fn start_term(&self, derivation: &mut Derivation, made: &mut Made, kind: &Kind, term: &Term)
        ensures { Makes (program_of self.now) (terms_of self.now) self.now.depth
            (TermStarts (program_of self.now) (terms_of self.now) self.now.depth kind.now (term_of self.now term.now))
            (TermMakes (program_of self.now) (terms_of self.now) self.now.depth kind.now (term_of self.now term.now))
            made.old.keys made.new.keys derivation.old derivation.new }
    {
        match self.program.instruction(term.index) {
            Some(instruction) => { self.start_statement(derivation, made, kind, instruction, term) }
            None => {}
        }
    }

    /// Adds what a statement of a live kind asks for.
    fn start_statement(
        &self,
        derivation: &mut Derivation,
        made: &mut Made,
        kind: &Kind,
        instruction: &Instruction,
        term: &Term,
    )
        ensures { Makes (program_of self.now) (terms_of self.now) self.now.depth
            (Starts (program_of self.now) (terms_of self.now) self.now.depth kind.now
            (instruction_of self.now instruction.now) (term_of self.now term.now))
            (MakesHere (program_of self.now) (terms_of self.now) self.now.depth kind.now
            (instruction_of self.now instruction.now)) made.old.keys made.new.keys derivation.old derivation.new }
    {
        self.start_effect(derivation, made, kind, instruction, term);
        self.arrive_all(derivation, kind, instruction, term);
    }

    /// Adds what the effect of a statement asks for, beside the atoms of its expressions.
    fn start_effect(
        &self,
        derivation: &mut Derivation,
        made: &mut Made,
        kind: &Kind,
        instruction: &Instruction,
        term: &Term,
    )
        ensures { Makes (program_of self.now) (terms_of self.now) self.now.depth
            (StartsBy (program_of self.now) kind.now (instruction_of self.now instruction.now)
            (term_of self.now term.now) self.now.depth (instruction_of self.now instruction.now).effect)
            (MakesHere (program_of self.now) (terms_of self.now) self.now.depth kind.now
            (instruction_of self.now instruction.now)) made.old.keys made.new.keys derivation.old derivation.new }
    {
        match &instruction.effect {
            Effect::Make {
                mode,
                class,
                target,
            } => {
                let sign = self.new_sign(kind, instruction.place, *mode);
                self.make(derivation, made, kind, &sign, *class, *target);
            }
            Effect::CallOwn { method, .. } => {
                self.call_own(derivation, kind, instruction, term, *method)
            }
            Effect::Get { slot, .. } => self.get_all(derivation, kind, instruction, term, *slot),
            _ => {}
        }
    }

    /// Adds what a `get` takes from the futures that its slot holds, if it has one.
    fn get_all(
        &self,
        derivation: &mut Derivation,
        kind: &Kind,
        instruction: &Instruction,
        term: &Term,
        slot: Option<u32>,
    )
        ensures { Adds (GetsAll (program_of self.now) kind.now (instruction_of self.now instruction.now)
            (term_of self.now term.now) slot) derivation.old derivation.new }
    {
        match slot {
            Some(slot) => self.get_from(derivation, kind, instruction, term, slot),
            None => {}
        }
    }

    /// Adds what a `get` takes from the futures that a slot holds.
    fn get_from(
        &self,
        derivation: &mut Derivation,
        kind: &Kind,
        instruction: &Instruction,
        term: &Term,
        slot: u32,
    )
        ensures { Adds (SlotResolves (program_of self.now) kind.now (instruction_of self.now instruction.now)
            (term_of self.now term.now) slot) derivation.old derivation.new }
    {
        let futures = derivation.atoms(&Key::Slot(kind.copied(), slot));
        for future in futures.iter() {
            self.resolve(derivation, kind, instruction, term, future);
        }
    }

    /// Adds what rests on the atoms of the expressions of a statement.
    fn arrive_all(
        &self,
        derivation: &mut Derivation,
        kind: &Kind,
        instruction: &Instruction,
        term: &Term,
    )
        ensures { Adds (ArrivesAny (program_of self.now) (terms_of self.now) self.now.depth kind.now
            (instruction_of self.now instruction.now) (term_of self.now term.now)) derivation.old derivation.new }
    {
        for expr in 0..term.reads.len() {
            self.arrive_each(derivation, kind, instruction, term, expr);
        }
    }

    /// Adds what rests on the atoms of the expression with an index of a statement.
    fn arrive_each(
        &self,
        derivation: &mut Derivation,
        kind: &Kind,
        instruction: &Instruction,
        term: &Term,
        expr: usize,
    )
        requires { expr < length term.now.reads.items }
        ensures { Adds (ArrivesAt (program_of self.now) (terms_of self.now) self.now.depth kind.now
            (instruction_of self.now instruction.now) (term_of self.now term.now) expr) derivation.old derivation.new }
    {
        let atoms = self.atoms_of(derivation, kind, &term.reads[expr]);
        for atom in atoms.iter() {
            self.arrive(derivation, kind, instruction, term, expr, atom);
        }
    }
}
