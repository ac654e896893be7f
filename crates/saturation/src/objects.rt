//! New objects: their signs, their fields, and the objects of which the initial values were gone through.
ghost use Rattle.std.specs.Prelude.{◌≡◌, ◌+◌, true, option_map};
ghost use Rattle.abs_tree.specs.Names.{name_of};
ghost use Rattle.contract_terms.specs.KindBodies.{new_sign as sign_made};
ghost use Rattle.saturation.specs.Initials.{BeginsNamed, FillsFromSlot, FillsWith, RunsIfActive, field_in};
ghost use Rattle.saturation.specs.MakeSteps.{Makes};
ghost use Rattle.saturation.specs.Rows.{Begins, BeginsFrom, ClassIs, FillsField, InitialGives, IsActiveClass, MakesStep, class_params};
ghost use Rattle.saturation.specs.RuleViews.{accepts_of, names_of, program_of, target_in, terms_of};
ghost use Rattle.saturation.specs.Steps.{Adds, Each, Nothing};
ghost use Rattle.saturation.specs.Uses.{AreUses};

use crate::body::Body;
use crate::derivation::Derivation;
use crate::key::Key;
use crate::rules::Rules;
use crate::statements::held_by;
use crate::uses::Location;
use abs_tree::{Mode, Symbol, Variable};
use contract_terms::{Accepts, Atom, Fact, Reads};
use indexmap::IndexSet;
use name_bounding::{Kind, Sign, bound};

/// The signs of objects that are made, each with the index of the class of the object.
pub(crate) type Made = IndexSet<(Sign, u32)>;

impl<'p, 'a> Rules<'p, 'a> {
    /// The sign of an object that a statement at a place makes in a task of a kind.
    pub(crate) fn new_sign(&self, kind: &Kind, place: u32, mode: Mode) -> Sign
        ensures { result ≡ sign_made self.now.depth place mode kind.now }
    {
        let cog = match mode {
            Mode::Cog => bound(place, &kind.cog(), self.depth),
            Mode::Plain | Mode::Local(_) => kind.cog(),
        };
        Sign { place, cog }
    }

    /// Adds what rests on it that an object with a sign is made in a kind, beside what its arguments hold.
    pub(crate) fn make(
        &self,
        derivation: &mut Derivation,
        made: &mut Made,
        kind: &Kind,
        sign: &Sign,
        class: Symbol,
        target: Option<Variable>,
    )
        ensures { Makes (program_of self.now) (terms_of self.now) self.now.depth
            (λ known. MakesStep (program_of self.now) kind.now sign.now (name_of (names_of self.now) class)
            (target_in (names_of self.now) target)) (λ other index. (other ≡ sign.now)
            × ClassIs (program_of self.now) (name_of (names_of self.now) class) index) made.old.keys made.new.keys
            derivation.old derivation.new }
    {
        let object = Atom::Object(sign.copied());
        derivation.add_some(held_by(kind, target, &object));
        match self.program.class(class) {
            Some(taking) => {
                self.run_if_active(derivation, sign, taking.declaration);
                self.begin(derivation, made, sign, taking.declaration);
            }
            None => {}
        }
    }

    /// Adds that `run` of an object of a class is live, if the class is active.
    fn run_if_active(&self, derivation: &mut Derivation, sign: &Sign, class: u32)
        ensures { Adds (λ known. RunsIfActive (program_of self.now) sign.now class) derivation.old derivation.new }
    {
        if self.is_active(class) {
            derivation.add(Fact::Live(Kind::Method(sign.copied(), self.run)));
        }
    }

    /// Whether a class is active.
    fn is_active(&self, class: u32) -> bool
        ensures active { result ≡ true → IsActiveClass (program_of self.now) class }
        ensures complete { IsActiveClass (program_of self.now) class → result ≡ true }
    {
        match self.program.class_entry(class) {
            Some(entry) => entry.run.is_some(),
            None => false,
        }
    }

    /// Adds that a field of a new object holds an atom of an argument, if that is let in.
    pub(crate) fn fill(
        &self,
        derivation: &mut Derivation,
        sign: &Sign,
        class: Symbol,
        argument: usize,
        atom: &Atom,
    )
        ensures { Adds (λ known. FillsField (program_of self.now) (terms_of self.now)
            (name_of (names_of self.now) class) sign.now argument atom.now) derivation.old derivation.new }
    {
        match self.program.class(class) {
            Some(taking) => {
                self.fill_field(derivation, sign, taking.declaration, argument, atom)
            }
            None => {}
        }
    }

    /// Adds that a field of an object of a class holds an atom, if that is let in.
    fn fill_field(
        &self,
        derivation: &mut Derivation,
        sign: &Sign,
        class: u32,
        field: usize,
        atom: &Atom,
    )
        ensures { Adds (FillsWith (program_of self.now) (terms_of self.now) class sign.now field atom.now)
            derivation.old derivation.new }
    {
        let Some(accepts) = self.field_accepts(class, field) else {
            return;
        };
        if self.lets_in(accepts, atom) {
            match derivation.number(field) {
                Some(number) => derivation.add(Fact::Field(sign.copied(), number, atom.copied())),
                None => {}
            }
        }
    }

    /// What a field of a class lets in.
    #[tactic(auto, unfolding(crate::specs::Initials::field_in))]
    fn field_accepts(&self, class: u32, field: usize) -> Option<&Accepts>
        ensures { option_map (λ accepts. accepts_of self.now accepts.now) result
            ≡ field_in (names_of self.now) (terms_of self.now) class field }
    {
        match self.terms.class(class) {
            Some(terms) => terms.fields.get(field),
            None => None,
        }
    }

    /// Goes through the initial values of an object of a class, unless that was done before.
    fn begin(&self, derivation: &mut Derivation, made: &mut Made, sign: &Sign, class: u32)
        ensures { Makes (program_of self.now) (terms_of self.now) self.now.depth Nothing
            (λ other index. (other ≡ sign.now) × (index ≡ class)) made.old.keys made.new.keys
            derivation.old derivation.new }
    {
        match made.insert((sign.copied(), class)) {
            Ok(added) => {
                if added {
                    self.begin_all(derivation, sign, class);
                }
            }
            Err(_) => derivation.fail(),
        }
    }

    /// Adds what the initial values of an object of a class give.
    fn begin_all(&self, derivation: &mut Derivation, sign: &Sign, class: u32)
        ensures { Adds (Begins (program_of self.now) (terms_of self.now) self.now.depth class sign.now)
            derivation.old derivation.new }
    {
        let Some(terms) = self.terms.class(class) else {
            return;
        };
        let params = self.params_of_class(class);
        for index in 0..terms.initials.len() {
            self.begin_initial(
                derivation,
                sign,
                class,
                params,
                index,
                &terms.initials[index],
            );
        }
    }

    /// Adds that the field of an initial value holds the atoms that it reads, if those are let in. The index of the
    /// field is a sum.
    fn begin_initial(
        &self,
        derivation: &mut Derivation,
        sign: &Sign,
        class: u32,
        params: usize,
        index: usize,
        reads: &Reads,
    )
        ensures { Adds (Each (FillsFromSlot (program_of self.now) (terms_of self.now) class sign.now (params + index))
            reads.now.slots.items) derivation.old derivation.new }
    {
        for slot in reads.slots.iter() {
            self.begin_slot(derivation, sign, class, params, index, *slot);
        }
    }

    /// Adds that a field holds the atoms that another field of the same object holds, if those are let in. The index of
    /// the field is a sum.
    fn begin_slot(
        &self,
        derivation: &mut Derivation,
        sign: &Sign,
        class: u32,
        params: usize,
        index: usize,
        slot: u32,
    )
        ensures { Adds (FillsFromSlot (program_of self.now) (terms_of self.now) class sign.now (params + index) slot)
            derivation.old derivation.new }
    {
        let atoms = derivation.atoms(&Key::Field(sign.copied(), slot));
        for atom in atoms.iter() {
            self.fill_sum(derivation, sign, class, params, index, atom);
        }
    }

    /// Adds that a field of an object of a class holds an atom, if that is let in. The index of the field is a sum.
    fn fill_sum(
        &self,
        derivation: &mut Derivation,
        sign: &Sign,
        class: u32,
        params: usize,
        index: usize,
        atom: &Atom,
    )
        ensures { Adds (FillsWith (program_of self.now) (terms_of self.now) class sign.now (params + index) atom.now)
            derivation.old derivation.new }
    {
        match params.checked_add(index) {
            Some(field) => self.fill_field(derivation, sign, class, field, atom),
            None => derivation.fail(),
        }
    }

    /// Adds what the initial values give that read a field, where an object with its sign was made.
    pub(crate) fn begin_from(
        &self,
        derivation: &mut Derivation,
        made: &Made,
        sign: &Sign,
        field: u32,
        atom: &Atom,
    )
        requires { AreUses (program_of self.now) (terms_of self.now) self.now.uses }
        ensures { Adds (λ known. BeginsFrom (program_of self.now) (terms_of self.now) self.now.depth made.now.keys
            sign.now field atom.now) derivation.old derivation.new }
    {
        for class in self.terms.classes_made(sign.place).iter() {
            self.begin_named(derivation, made, sign, *class, field, atom);
        }
    }

    /// Adds what the initial values of the class with a name give that read a field, where an object of that class
    /// with the sign was made.
    fn begin_named(
        &self,
        derivation: &mut Derivation,
        made: &Made,
        sign: &Sign,
        class: Symbol,
        field: u32,
        atom: &Atom,
    )
        requires { AreUses (program_of self.now) (terms_of self.now) self.now.uses }
        ensures { Adds (λ known. BeginsNamed (program_of self.now) (terms_of self.now) self.now.depth made.now.keys
            sign.now field atom.now (name_of (names_of self.now) class)) derivation.old derivation.new }
    {
        match self.program.class(class) {
            Some(taking) => {
                if made.contains(&(sign.copied(), taking.declaration)) {
                    self.begin_class_from(derivation, sign, taking.declaration, field, atom);
                }
            }
            None => {}
        }
    }

    /// Adds what the initial values of a class give that read a field.
    fn begin_class_from(
        &self,
        derivation: &mut Derivation,
        sign: &Sign,
        class: u32,
        field: u32,
        atom: &Atom,
    )
        requires { AreUses (program_of self.now) (terms_of self.now) self.now.uses }
        ensures { Adds (λ known. InitialGives (program_of self.now) (terms_of self.now) self.now.depth class sign.now
            field atom.now) derivation.old derivation.new }
    {
        let params = self.params_of_class(class);
        for found in self
            .uses
            .of(Body::Initials { class }, Location::Slot(field))
            .iter()
        {
            self.fill_sum(derivation, sign, class, params, found.term, atom);
        }
    }

    /// How many parameters a class has, which are its first fields.
    fn params_of_class(&self, class: u32) -> usize
        ensures { result ≡ class_params (program_of self.now) class }
    {
        match self.program.class_entry(class) {
            Some(entry) => entry.params as usize,
            None => 0,
        }
    }
}
