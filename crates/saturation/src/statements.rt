//! What the statements of a live kind do with the atoms that come to them.
ghost use Rattle.std.specs.List.{list_any};
ghost use Rattle.std.specs.Prelude.{◌≡◌, ◌⊎◌, true, List, Contains, Some, IfSome, IfNone};
ghost use Rattle.abs_program.specs.InstructionViews.{effect_tree};
ghost use Rattle.abs_tree.specs.Names.{name_of};
ghost use Rattle.abs_tree.specs.Syntax.{Name};
ghost use Rattle.contract_terms.specs.Accepts.{ObjectsTree};
ghost use Rattle.contract_terms.specs.Atoms.{held_by as held, is_admitted, is_let_in, is_object_let_in};
ghost use Rattle.contract_terms.specs.KindBodies.{called as called_kind};
ghost use Rattle.contract_terms.specs.Made.{classes_made};
ghost use Rattle.contract_terms.specs.Terms.{target_of as target_tree};
ghost use Rattle.contract_terms.specs.Views.{objects_tree, reads_tree};
ghost use Rattle.contract_terms.specs.declared.fact.Atom.{Atom as AnAtom};
ghost use Rattle.contract_terms.specs.declared.fact.Atom.TheVariants as atoms;
ghost use Rattle.contract_terms.specs.declared.fact.Fact.TheVariants as facts;
ghost use Rattle.saturation.specs.Rows.{Answers, Arrives, CallsOwnMethod, GivesAtom, PassesOwn, PassesParam, PassesToReceivers, Received, ReceivesAtom, Receives, Resolves, SendsAtom, TakesResults};
ghost use Rattle.name_bounding.specs.declared.kind.Sign.{Sign as ASign};
ghost use Rattle.saturation.specs.RuleViews.{accepts_of, instruction_of, names_of, program_of, target_in, term_of, terms_of};
ghost use Rattle.saturation.specs.Passing.{FromEach, HoldsIn, HoldsInField, OwnGives, PassesArgument, PassesAtoms, PassesToReceiver, lets_in_param};
ghost use Rattle.saturation.specs.Steps.{Adds, Finds, Just};

use crate::body::Body;
use crate::derivation::Derivation;
use crate::key::Key;
use crate::rules::Rules;
use abs_program::{Effect, Instruction};
use abs_tree::{Symbol, Variable};
use abs_types::{implements, same_name};
use contract_terms::{Accepts, Atom, Fact, Objects, Reads, Term};
use name_bounding::{Kind, Sign};

impl<'p, 'a> Rules<'p, 'a> {
    /// Adds what rests on it that the expression with an index gives an atom.
    pub(crate) fn arrive(
        &self,
        derivation: &mut Derivation,
        kind: &Kind,
        instruction: &Instruction,
        term: &Term,
        expr: usize,
        atom: &Atom,
    )
        ensures { Adds (Arrives (program_of self.now) (terms_of self.now) self.now.depth kind.now
            (instruction_of self.now instruction.now) (term_of self.now term.now) expr atom.now)
            derivation.old derivation.new }
    {
        match &instruction.effect {
            Effect::Store(_) => self.answer(derivation, kind, instruction, term, atom),
            Effect::Return => self.give(derivation, kind, term, atom),
            Effect::Make { mode, class, .. } => {
                let sign = self.new_sign(kind, instruction.place, *mode);
                self.fill(derivation, &sign, *class, expr, atom);
            }
            Effect::CallOwn { method, .. } => self.pass_own(derivation, kind, *method, expr, atom),
            Effect::Send { method, target } => {
                self.send(
                    derivation,
                    kind,
                    instruction,
                    term,
                    *method,
                    *target,
                    expr,
                    atom,
                )
            }
            _ => {}
        }
    }

    /// Adds that a parameter of a method that is called on `this` holds an atom, if that is let in.
    fn pass_own(
        &self,
        derivation: &mut Derivation,
        kind: &Kind,
        method: Symbol,
        param: usize,
        atom: &Atom,
    )
        ensures { Adds (λ known. PassesOwn (program_of self.now) (terms_of self.now) kind.now
            (name_of (names_of self.now) method) param atom.now) derivation.old derivation.new }
    {
        match kind {
            Kind::Main => {}
            Kind::Method(sign, _) => self.pass(derivation, &self.called(sign, method), param, atom),
        }
    }

    /// Adds what rests on it that the expression with an index of a message gives an atom: the first one gives the
    /// receiver, and each other one an argument.
    fn send(
        &self,
        derivation: &mut Derivation,
        kind: &Kind,
        instruction: &Instruction,
        term: &Term,
        method: Symbol,
        target: Option<Variable>,
        expr: usize,
        atom: &Atom,
    )
        ensures { Adds (SendsAtom (program_of self.now) (terms_of self.now) self.now.depth kind.now
            (instruction_of self.now instruction.now) (term_of self.now term.now) (name_of (names_of self.now) method)
            (target_in (names_of self.now) target) expr atom.now) derivation.old derivation.new }
    {
        if expr == 0 {
            self.receive(derivation, kind, instruction, term, method, target, atom);
        } else {
            self.pass_to_receivers(derivation, kind, term, method, expr - 1, atom);
        }
    }

    /// Adds that the target of a statement holds an atom, if that is let in.
    pub(crate) fn answer(
        &self,
        derivation: &mut Derivation,
        kind: &Kind,
        instruction: &Instruction,
        term: &Term,
        atom: &Atom,
    )
        ensures { Adds (λ known fact. Answers (program_of self.now) kind.now (instruction_of self.now instruction.now)
            (term_of self.now term.now) atom.now fact) derivation.old derivation.new }
    {
        if self.lets_in(&term.accepts, atom) {
            derivation.add_some(held_by(kind, target_of(&instruction.effect), atom));
        }
    }

    /// Adds that a kind gives an atom, if its result lets it in.
    fn give(&self, derivation: &mut Derivation, kind: &Kind, term: &Term, atom: &Atom)
        ensures { Adds (λ known fact. (is_let_in (program_of self.now).source
            (accepts_of self.now term.now.accepts) atom.now ≡ true) × (fact ≡ facts.Gives kind.now atom.now))
            derivation.old derivation.new }
    {
        if self.lets_in(&term.accepts, atom) {
            derivation.add(Fact::Gives(kind.copied(), atom.copied()));
        }
    }

    /// Adds what a `get` takes from the tasks of a future.
    pub(crate) fn resolve(
        &self,
        derivation: &mut Derivation,
        kind: &Kind,
        instruction: &Instruction,
        term: &Term,
        atom: &Atom,
    )
        ensures { Adds (Resolves (program_of self.now) kind.now (instruction_of self.now instruction.now)
            (term_of self.now term.now) atom.now) derivation.old derivation.new }
    {
        match atom {
            Atom::Object(_) => {}
            Atom::Future(_, task) => self.take_results(derivation, kind, instruction, term, task),
        }
    }

    /// Adds that the target of a statement holds what the tasks or frames of a kind give.
    fn take_results(
        &self,
        derivation: &mut Derivation,
        kind: &Kind,
        instruction: &Instruction,
        term: &Term,
        task: &Kind,
    )
        ensures { Adds (TakesResults (program_of self.now) kind.now (instruction_of self.now instruction.now)
            (term_of self.now term.now) task.now) derivation.old derivation.new }
    {
        let results = derivation.atoms(&Key::Result(task.copied()));
        for result in results.iter() {
            self.answer(derivation, kind, instruction, term, result);
        }
    }

    /// Adds that a method is called on `this`, and what it gives.
    pub(crate) fn call_own(
        &self,
        derivation: &mut Derivation,
        kind: &Kind,
        instruction: &Instruction,
        term: &Term,
        method: Symbol,
    )
        ensures { Adds (CallsOwnMethod (program_of self.now) kind.now (instruction_of self.now instruction.now)
            (term_of self.now term.now) (name_of (names_of self.now) method)) derivation.old derivation.new }
    {
        match kind {
            Kind::Main => {}
            Kind::Method(sign, _) => {
                let callee = self.called(sign, method);
                derivation.add(Fact::Live(callee.copied()));
                self.take_results(derivation, kind, instruction, term, &callee);
            }
        }
    }

    /// Adds what rests on it that an atom is the receiver of a message.
    fn receive(
        &self,
        derivation: &mut Derivation,
        kind: &Kind,
        instruction: &Instruction,
        term: &Term,
        method: Symbol,
        target: Option<Variable>,
        atom: &Atom,
    )
        ensures { Adds (ReceivesAtom (program_of self.now) (terms_of self.now) self.now.depth kind.now
            (instruction_of self.now instruction.now) (term_of self.now term.now) (name_of (names_of self.now) method)
            (target_in (names_of self.now) target) atom.now) derivation.old derivation.new }
    {
        match self.receiver(term, atom) {
            Some(sign) => self.call(derivation, kind, instruction, term, method, target, sign),
            None => {}
        }
    }

    /// Adds what rests on it that an object with a sign receives a message.
    fn call(
        &self,
        derivation: &mut Derivation,
        kind: &Kind,
        instruction: &Instruction,
        term: &Term,
        method: Symbol,
        target: Option<Variable>,
        sign: &Sign,
    )
        ensures { Adds (Received (program_of self.now) (terms_of self.now) self.now.depth kind.now
            (instruction_of self.now instruction.now) (term_of self.now term.now) (name_of (names_of self.now) method)
            (target_in (names_of self.now) target) sign.now) derivation.old derivation.new }
    {
        let callee = self.called(sign, method);
        derivation.add(Fact::Live(callee.copied()));
        let future = Atom::Future(instruction.place, callee.copied());
        derivation.add_some(held_by(kind, target, &future));
        self.pass_arguments(derivation, kind, term, &callee);
    }

    /// Passes the atoms of the arguments of a message to the parameters of a kind.
    fn pass_arguments(&self, derivation: &mut Derivation, kind: &Kind, term: &Term, callee: &Kind)
        ensures { Adds (PassesArgument (program_of self.now) (terms_of self.now) kind.now (term_of self.now term.now)
            callee.now) derivation.old derivation.new }
    {
        for index in 1..term.reads.len() {
            self.pass_atoms(derivation, kind, &term.reads[index], callee, index - 1);
        }
    }

    /// Passes the atoms of an expression to a parameter of a kind.
    fn pass_atoms(
        &self,
        derivation: &mut Derivation,
        kind: &Kind,
        reads: &Reads,
        callee: &Kind,
        param: usize,
    )
        ensures { Adds (PassesAtoms (program_of self.now) (terms_of self.now) kind.now (reads_tree reads.now)
            callee.now param) derivation.old derivation.new }
    {
        let atoms = self.atoms_of(derivation, kind, reads);
        for atom in atoms.iter() {
            self.pass(derivation, callee, param, atom);
        }
    }

    /// Passes an atom to the receivers of a message.
    fn pass_to_receivers(
        &self,
        derivation: &mut Derivation,
        kind: &Kind,
        term: &Term,
        method: Symbol,
        argument: usize,
        atom: &Atom,
    )
        ensures { Adds (PassesToReceivers (program_of self.now) (terms_of self.now) kind.now (term_of self.now term.now)
            (name_of (names_of self.now) method) argument atom.now) derivation.old derivation.new }
    {
        match term.reads.get(0) {
            Some(reads) => {
                let receivers = self.atoms_of(derivation, kind, reads);
                for receiver in receivers.iter() {
                    self.pass_to_receiver(derivation, term, method, receiver, argument, atom);
                }
            }
            None => {}
        }
    }

    /// Passes an atom to the method of another one, if that may be the receiver of a message.
    fn pass_to_receiver(
        &self,
        derivation: &mut Derivation,
        term: &Term,
        method: Symbol,
        receiver: &Atom,
        argument: usize,
        atom: &Atom,
    )
        ensures { Adds (λ known. PassesToReceiver (program_of self.now) (terms_of self.now) (term_of self.now term.now)
            (name_of (names_of self.now) method) receiver.now argument atom.now) derivation.old derivation.new }
    {
        match self.receiver(term, receiver) {
            Some(sign) => self.pass(derivation, &self.called(sign, method), argument, atom),
            None => {}
        }
    }

    /// Adds that a parameter of a kind holds an atom, if that is let in.
    fn pass(&self, derivation: &mut Derivation, callee: &Kind, param: usize, atom: &Atom)
        ensures { Adds (λ known. PassesParam (program_of self.now) (terms_of self.now) callee.now param atom.now)
            derivation.old derivation.new }
    {
        let bodies = self.bodies_of(derivation, callee);
        for body in bodies.iter() {
            self.pass_to_body(derivation, callee, *body, param, atom);
        }
    }

    /// Adds that a parameter of a kind holds an atom, if that of a body lets it in.
    fn pass_to_body(
        &self,
        derivation: &mut Derivation,
        callee: &Kind,
        body: Body,
        param: usize,
        atom: &Atom,
    )
        ensures { Adds (λ known fact. (lets_in_param (program_of self.now) (terms_of self.now) body param atom.now
            ≡ true) × (fact ≡ facts.Holds callee.now param atom.now)) derivation.old derivation.new }
    {
        if self.lets_in_param(body, param, atom) {
            hold_param(derivation, callee, param, atom);
        }
    }

    /// Whether a parameter of a body lets in an atom.
    fn lets_in_param(&self, body: Body, param: usize, atom: &Atom) -> bool
        ensures { result ≡ lets_in_param (program_of self.now) (terms_of self.now) body param atom.now }
    {
        match self.params_of(body).get(param) {
            Some(accepts) => self.lets_in(accepts, atom),
            None => false,
        }
    }

    /// The sign of an atom, if that may be the receiver of a message.
    fn receiver<'b>(&self, term: &Term, atom: &'b Atom) -> Option<&'b Sign>
        ensures found { IfSome result (λ sign. (atom.now ≡ atoms.Object sign.now)
            × Receives (program_of self.now) (term_of self.now term.now) sign.now) }
        ensures none { IfNone result ((sign : ASign) → atom.now ≡ atoms.Object sign
            → Receives (program_of self.now) (term_of self.now term.now) sign → ⊥) }
    {
        match (&term.receiver, atom) {
            (Some(objects), Atom::Object(sign)) => {
                if self.lets_in_object(*objects, sign.place) {
                    Some(sign)
                } else {
                    None
                }
            }
            _ => None,
        }
    }

    /// The kind of a method that is called by its name on an object with a sign.
    pub(crate) fn called(&self, sign: &Sign, method: Symbol) -> Kind
        ensures { result ≡ called_kind (names_of self.now) sign.now (name_of (names_of self.now) method) }
    {
        Kind::Method(sign.copied(), Symbol(self.program.symbols.number(method)))
    }

    /// Whether an atom is let in.
    #[tactic(auto, unfolding(contract_terms::specs::Atoms::is_let_in))]
    pub(crate) fn lets_in(&self, accepts: &Accepts, atom: &Atom) -> bool
        ensures { result ≡ is_let_in (program_of self.now).source (accepts_of self.now accepts.now) atom.now }
    {
        match atom {
            Atom::Object(sign) => self.lets_in_object(accepts.objects, sign.place),
            Atom::Future(..) => accepts.futures,
        }
    }

    /// Whether an object that is made at a place may be among those that are let in.
    fn lets_in_object(&self, objects: Objects, place: u32) -> bool
        ensures { result ≡ is_object_let_in (program_of self.now).source (objects_tree (names_of self.now) objects)
            place }
    {
        match objects {
            Objects::All => true,
            Objects::None | Objects::Of(_) | Objects::Implementing(_) => {
                self.admits_some(objects, place)
            }
        }
    }

    /// Whether the objects of a class that are made at a place are among those that are let in.
    fn admits_some(&self, objects: Objects, place: u32) -> bool
        ensures { result ≡ list_any (is_admitted (program_of self.now).source.declarations
            (objects_tree (names_of self.now) objects)) (classes_made (program_of self.now).source place) }
    {
        let classes = self.terms.classes_made(place);
        classes.iter().any(|class| self.admits(objects, *class))
    }

    /// Whether the objects of a class are among those that are let in.
    fn admits(&self, objects: Objects, class: Symbol) -> bool
        ensures { result ≡ is_admitted (program_of self.now).source.declarations
            (objects_tree (names_of self.now) objects) (name_of (names_of self.now) class) }
    {
        match objects {
            Objects::None => false,
            Objects::Of(own) => same_name(self.program, class, own),
            Objects::Implementing(interface) => implements(self.program, class, interface),
            Objects::All => true,
        }
    }

    /// The atoms of an expression in a kind.
    pub(crate) fn atoms_of(
        &self,
        derivation: &mut Derivation,
        kind: &Kind,
        reads: &Reads,
    ) -> Vec<Atom>
        ensures { Finds (GivesAtom kind.now (reads_tree reads.now)) result.items derivation.old derivation.new }
    {
        let mut atoms = derivation.no_atoms();
        add_slots(derivation, &mut atoms, kind, reads.slots.as_slice());
        match kind {
            Kind::Main => {}
            Kind::Method(sign, _) => add_own(derivation, &mut atoms, sign, reads),
        }
        atoms
    }
}

/// Adds the atoms that slots of a kind hold to others.
fn add_slots(derivation: &mut Derivation, atoms: &mut Vec<Atom>, kind: &Kind, slots: &[u32])
    ensures { Finds (λ known atom. Contains atoms.old.items atom ⊎ FromEach (HoldsIn kind.now) slots.now known atom)
        atoms.new.items derivation.old derivation.new }
{
    for slot in slots.iter() {
        derivation.add_atoms(atoms, &Key::Slot(kind.copied(), *slot));
    }
}

/// Adds the atoms that fields of the objects with a sign hold to others.
fn add_fields(derivation: &mut Derivation, atoms: &mut Vec<Atom>, sign: &Sign, fields: &[u32])
    ensures { Finds (λ known atom. Contains atoms.old.items atom
        ⊎ FromEach (HoldsInField sign.now) fields.now known atom) atoms.new.items derivation.old derivation.new }
{
    for field in fields.iter() {
        derivation.add_atoms(atoms, &Key::Field(sign.copied(), *field));
    }
}

/// Adds the atoms to others that an expression gives of an object with a sign.
fn add_own(derivation: &mut Derivation, atoms: &mut Vec<Atom>, sign: &Sign, reads: &Reads)
    ensures { Finds (λ known atom. Contains atoms.old.items atom ⊎ OwnGives sign.now (reads_tree reads.now) known atom)
        atoms.new.items derivation.old derivation.new }
{
    add_fields(derivation, atoms, sign, reads.fields.as_slice());
    if reads.this {
        derivation.push(atoms, Atom::Object(sign.copied()));
    }
}

/// Adds that a parameter of a kind holds an atom.
fn hold_param(derivation: &mut Derivation, callee: &Kind, param: usize, atom: &Atom)
    ensures { Adds (Just (Some (facts.Holds callee.now param atom.now))) derivation.old derivation.new }
{
    match derivation.number(param) {
        Some(slot) => derivation.add(Fact::Holds(callee.copied(), slot, atom.copied())),
        None => {}
    }
}

/// The fact that a variable of a kind holds an atom.
pub(crate) fn held_by(kind: &Kind, target: Option<Variable>, atom: &Atom) -> Option<Fact>
    ensures { (names : List Name) → result ≡ held kind.now (target_in names target) atom.now }
{
    match (target, kind) {
        (Some(Variable::Slot(slot)), _) => Some(Fact::Holds(kind.copied(), slot, atom.copied())),
        (Some(Variable::Field(field)), Kind::Method(sign, _)) => {
            Some(Fact::Field(sign.copied(), field, atom.copied()))
        }
        _ => None,
    }
}

/// The variable to which an effect gives a value.
fn target_of(effect: &Effect) -> Option<Variable>
    ensures { (names : List Name) → target_in names result ≡ target_tree (effect_tree names effect.now) }
{
    match effect {
        Effect::Store(target) => *target,
        Effect::Make { target, .. }
        | Effect::Send { target, .. }
        | Effect::CallOwn { target, .. }
        | Effect::Get { target, .. } => *target,
        _ => None,
    }
}
