//! What rests on a fact, handled once for each.
ghost use Rattle.std.specs.Prelude.{◌≡◌, ◌⊎◌, List, map, Contains, Some, IfSome, IfNone};
ghost use Rattle.abs_program.specs.Instructions.{InstructionTree};
ghost use Rattle.abs_tree.specs.Names.{name_of};
ghost use Rattle.contract_terms.specs.Terms.{TermTree};
ghost use Rattle.contract_terms.specs.Views.{accepts_tree, term_tree};
ghost use Rattle.name_bounding.specs.declared.kind.Kind.TheVariants as kinds;
ghost use Rattle.contract_terms.specs.declared.fact.Fact.TheVariants as facts;
ghost use Rattle.name_bounding.specs.declared.kind.Kind.{Kind as AKind};
ghost use Rattle.saturation.specs.Handling.{AnswerPasses, BodyPasses, GettersPass, HolderPasses, KindFactPasses, LivePasses, ObjectPasses, UsePasses};
ghost use Rattle.saturation.specs.MakeSteps.{Makes};
ghost use Rattle.saturation.specs.Rows.{Handles, HasBody, MakesObject, MethodIs, PassesIn, PassesTo};
ghost use Rattle.saturation.specs.RuleViews.{instruction_of, names_of, program_of, term_of, terms_of};
ghost use Rattle.saturation.specs.Steps.{Adds, Finds};
ghost use Rattle.saturation.specs.Uses.{AreUses, TermAt, body_params, body_terms};

use crate::body::Body;
use crate::derivation::Derivation;
use crate::key::Key;
use crate::objects::Made;
use crate::rules::Rules;
use crate::uses::{Location, Part, Use};
use abs_program::Instruction;
use abs_tree::Symbol;
use contract_terms::{Accepts, Atom, Fact, Term};
use name_bounding::{Kind, Sign};

impl<'p, 'a> Rules<'p, 'a> {
    /// Adds what rests on a fact and on others that are there.
    pub(crate) fn handle(&self, derivation: &mut Derivation, made: &mut Made, fact: &Fact)
        requires { AreUses (program_of self.now) (terms_of self.now) self.now.uses }
        ensures { Makes (program_of self.now) (terms_of self.now) self.now.depth
            (λ known. Handles (program_of self.now) (terms_of self.now) self.now.depth made.old.keys known fact.now)
            (λ sign class. (kind : AKind) × (fact.now ≡ facts.Live kind)
            × MakesObject (program_of self.now) (terms_of self.now) self.now.depth kind sign class)
            made.old.keys made.new.keys derivation.old derivation.new }
    {
        match fact {
            Fact::Live(kind) => self.start(derivation, made, kind),
            Fact::Holds(kind, slot, atom) => {
                self.pass_in_live(derivation, kind, Location::Slot(*slot), atom)
            }
            Fact::Field(sign, field, atom) => {
                self.pass_in_object(derivation, sign, Location::Field(*field), atom);
                self.begin_from(derivation, made, sign, *field, atom);
            }
            Fact::Gives(task, atom) => {
                self.pass_answer(derivation, task, atom);
                self.pass_to_getters(derivation, task, atom);
            }
        }
    }

    /// Adds what rests on it that the frames of a kind give an atom, where they are called on `this`.
    fn pass_answer(&self, derivation: &mut Derivation, task: &Kind, atom: &Atom)
        requires { AreUses (program_of self.now) (terms_of self.now) self.now.uses }
        ensures { Adds (AnswerPasses (program_of self.now) (terms_of self.now) self.now.depth task.now atom.now)
            derivation.old derivation.new }
    {
        match task {
            Kind::Main => {}
            Kind::Method(sign, method) => {
                self.pass_in_object(derivation, sign, Location::Answer(method.0), atom)
            }
        }
    }

    /// Adds what rests on it that an atom comes to a location of all live kinds of a sign.
    fn pass_in_object(
        &self,
        derivation: &mut Derivation,
        sign: &Sign,
        location: Location,
        atom: &Atom,
    )
        requires { AreUses (program_of self.now) (terms_of self.now) self.now.uses }
        ensures { Adds (ObjectPasses (program_of self.now) (terms_of self.now) self.now.depth
            sign.now location atom.now) derivation.old derivation.new }
    {
        let live = derivation.with_key(&Key::Object(sign.copied()));
        for fact in live.iter() {
            self.pass_in_kind(derivation, fact, location, atom);
        }
    }

    /// Adds what rests on it that an atom comes to a location of the kind of which a fact says that it is live.
    fn pass_in_kind(
        &self,
        derivation: &mut Derivation,
        live: &Fact,
        location: Location,
        atom: &Atom,
    )
        requires { AreUses (program_of self.now) (terms_of self.now) self.now.uses }
        ensures { Adds (KindFactPasses (program_of self.now) (terms_of self.now) self.now.depth
            live.now location atom.now) derivation.old derivation.new }
    {
        match live {
            Fact::Live(kind) => self.pass_in(derivation, kind, location, atom),
            _ => {}
        }
    }

    /// Adds what rests on it that an atom is the result of the tasks of a kind, where those are got.
    fn pass_to_getters(&self, derivation: &mut Derivation, task: &Kind, atom: &Atom)
        requires { AreUses (program_of self.now) (terms_of self.now) self.now.uses }
        ensures { Adds (GettersPass (program_of self.now) (terms_of self.now) self.now.depth task.now atom.now)
            derivation.old derivation.new }
    {
        let holders = derivation.with_key(&Key::Future(task.copied()));
        for fact in holders.iter() {
            self.pass_to_holder(derivation, fact, atom);
        }
    }

    /// Adds what rests on it where the slot is got of which a fact says that it holds something.
    fn pass_to_holder(&self, derivation: &mut Derivation, holds: &Fact, atom: &Atom)
        requires { AreUses (program_of self.now) (terms_of self.now) self.now.uses }
        ensures { Adds (HolderPasses (program_of self.now) (terms_of self.now) self.now.depth holds.now atom.now)
            derivation.old derivation.new }
    {
        match holds {
            Fact::Holds(kind, slot, _) => {
                self.pass_in_live(derivation, kind, Location::Got(*slot), atom)
            }
            _ => {}
        }
    }

    /// Adds what rests on it that an atom comes to a location of a kind, if that is live.
    fn pass_in_live(
        &self,
        derivation: &mut Derivation,
        kind: &Kind,
        location: Location,
        atom: &Atom,
    )
        requires { AreUses (program_of self.now) (terms_of self.now) self.now.uses }
        ensures { Adds (LivePasses (program_of self.now) (terms_of self.now) self.now.depth kind.now location atom.now)
            derivation.old derivation.new }
    {
        if derivation.facts.has(&Fact::Live(kind.copied())) {
            self.pass_in(derivation, kind, location, atom);
        }
    }

    /// Adds what rests on it that an atom comes to a location of a kind.
    fn pass_in(&self, derivation: &mut Derivation, kind: &Kind, location: Location, atom: &Atom)
        requires { AreUses (program_of self.now) (terms_of self.now) self.now.uses }
        ensures { Adds (PassesIn (program_of self.now) (terms_of self.now) self.now.depth kind.now location atom.now)
            derivation.old derivation.new }
    {
        let bodies = self.bodies_of(derivation, kind);
        for body in bodies.iter() {
            self.pass_in_body(derivation, kind, *body, location, atom);
        }
    }

    /// Adds what rests on it that an atom comes to a location of a body.
    fn pass_in_body(
        &self,
        derivation: &mut Derivation,
        kind: &Kind,
        body: Body,
        location: Location,
        atom: &Atom,
    )
        requires { AreUses (program_of self.now) (terms_of self.now) self.now.uses }
        ensures { Adds (BodyPasses (program_of self.now) (terms_of self.now) self.now.depth
            kind.now body location atom.now) derivation.old derivation.new }
    {
        for found in self.uses.of(body, location).iter() {
            self.pass_to_use(derivation, kind, body, *found, atom);
        }
    }

    /// Adds what rests on it that an atom comes to a use of a body.
    fn pass_to_use(
        &self,
        derivation: &mut Derivation,
        kind: &Kind,
        body: Body,
        found: Use,
        atom: &Atom,
    )
        ensures { Adds (UsePasses (program_of self.now) (terms_of self.now) self.now.depth kind.now body found atom.now)
            derivation.old derivation.new }
    {
        if let Some((instruction, term)) = self.statement(body, found.term) {
            self.pass_to(derivation, kind, instruction, term, found.part, atom);
        }
    }

    /// Adds what rests on it that an atom comes to a part of a statement.
    fn pass_to(
        &self,
        derivation: &mut Derivation,
        kind: &Kind,
        instruction: &Instruction,
        term: &Term,
        part: Part,
        atom: &Atom,
    )
        ensures { Adds (λ known. PassesTo (program_of self.now) (terms_of self.now) self.now.depth kind.now
            (instruction_of self.now instruction.now) (term_of self.now term.now) atom.now known part)
            derivation.old derivation.new }
    {
        match part {
            Part::Expr(expr) => self.arrive(derivation, kind, instruction, term, expr, atom),
            Part::Future => self.resolve(derivation, kind, instruction, term, atom),
            Part::Target => self.answer(derivation, kind, instruction, term, atom),
        }
    }

    /// The statement of a term of a body, and the term.
    fn statement(&self, body: Body, index: usize) -> Option<(&'p Instruction, &'p Term)>
        ensures found { IfSome result (λ found. TermAt (program_of self.now) (terms_of self.now) body index
            (instruction_of self.now found.0.now) (term_of self.now found.1.now)) }
        ensures none { IfNone result ((instruction : InstructionTree) (term : TermTree)
            → TermAt (program_of self.now) (terms_of self.now) body index instruction term → ⊥) }
    {
        match self.terms_of(body).get(index) {
            Some(term) => match self.program.instruction(term.index) {
                Some(instruction) => Some((instruction, term)),
                None => None,
            },
            None => None,
        }
    }

    /// The terms of a body. Initial values have none.
    pub(crate) fn terms_of(&self, body: Body) -> &'p [Term]
        ensures { map (term_tree (names_of self.now)) result.now
            ≡ body_terms (names_of self.now) (terms_of self.now) body }
    {
        body.terms(self.terms)
    }

    /// What the parameters of a body let in.
    #[tactic(auto, unfolding(crate::specs::Uses::body_params))]
    pub(crate) fn params_of(&self, body: Body) -> &'p [Accepts]
        ensures { map (accepts_tree (names_of self.now)) result.now
            ≡ body_params (names_of self.now) (terms_of self.now) body }
    {
        match body {
            Body::Method { class, member } => match self.terms.method(class, member) {
                Some(method) => method.params.as_slice(),
                None => &[],
            },
            Body::Main | Body::Initials { .. } => &[],
        }
    }

    /// The bodies of a kind. Where an allocation fails some are missing, and the work has ended.
    pub(crate) fn bodies_of(&self, derivation: &mut Derivation, kind: &Kind) -> Vec<Body>
        ensures { Finds (λ known body. HasBody (program_of self.now) kind.now body) result.items
            derivation.old derivation.new }
    {
        match kind {
            Kind::Main => {
                let mut bodies = derivation.no_bodies();
                derivation.push_body(&mut bodies, Body::Main);
                bodies
            }
            Kind::Method(sign, method) => self.method_bodies(derivation, sign, *method),
        }
    }

    /// The methods with a name of the classes whose objects may have a sign.
    fn method_bodies(&self, derivation: &mut Derivation, sign: &Sign, method: Symbol) -> Vec<Body>
        ensures { Finds (λ known. HasBody (program_of self.now) (kinds.Method sign.now method)) result.items
            derivation.old derivation.new }
    {
        let mut bodies = derivation.no_bodies();
        let classes = self.terms.classes_made(sign.place);
        for class in classes.iter() {
            self.add_body(derivation, &mut bodies, *class, method);
        }
        bodies
    }

    /// Adds the method with a name of the class with a name to others, if there is one.
    fn add_body(
        &self,
        derivation: &mut Derivation,
        bodies: &mut Vec<Body>,
        class: Symbol,
        method: Symbol,
    )
        ensures { Finds (λ known own. Contains bodies.old.items own ⊎ MethodIs (program_of self.now)
            (name_of (names_of self.now) class) (name_of (names_of self.now) method) own) bodies.new.items
            derivation.old derivation.new }
    {
        match Body::of_method(self.program, class, method) {
            Some(body) => derivation.push_body(bodies, body),
            None => {}
        }
    }
}
