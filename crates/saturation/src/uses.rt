//! Who uses what: for each location of a body the statements that read it.
ghost use Rattle.std.specs.Prelude.{◌≡◌, List, map, OnOk, IfOk};
ghost use Rattle.abs_program.specs.InstructionViews.{effect_tree};
ghost use Rattle.abs_program.specs.NamedViews.{program_tree};
ghost use Rattle.abs_tree.specs.Syntax.{Name};
ghost use Rattle.contract_terms.specs.Accepts.{AcceptsTree};
ghost use Rattle.contract_terms.specs.Views.{accepts_tree, reads_tree, term_tree};
ghost use Rattle.saturation.specs.Uses.{AreUses, lets_in_something, reads_matter, uses_at};
ghost use Rattle.saturation.specs.UsesAdded.{Added, Just, SlotsRead, FieldsRead, TermReads, Where, Got, Taken, EffectUses, TermUses, BodyUses, InitialUses, MethodUses, MethodsUse, ClassUses, ClassesUse};

use crate::body::Body;
use abs_program::{Effect, Named};
use contract_terms::{Accepts, ClassTerms, MethodTerms, Objects, Reads, Term, Terms};
use indexmap::IndexMap;
use std::alloc::{AllocError, Global};

/// What a statement of a body may read, as facts tell it apart.
#[derive(Clone, Copy, Debug, PartialEq, Eq, Hash)]
pub(crate) enum Location {
    /// A slot of the body.
    Slot(u32),
    /// A field of `this`.
    Field(u32),
    /// The result of a method that is called on `this`, by the number of its name.
    Answer(u32),
    /// The result of the task whose future a slot holds.
    Got(u32),
}

/// What a statement does with what it reads.
#[derive(Clone, Copy, Debug, PartialEq, Eq)]
pub(crate) enum Part {
    /// The expression with this index reads it.
    Expr(usize),
    /// It is the future of a `get`.
    Future,
    /// It goes to the target as it is.
    Target,
}

/// A use: the index of a term among those of its body, or of an initial value, and what happens there.
#[derive(Clone, Copy, Debug, PartialEq, Eq)]
pub(crate) struct Use {
    pub(crate) term: usize,
    pub(crate) part: Part,
}

/// The uses of each location of each body.
#[derive(Drop)]
pub(crate) struct Uses {
    uses: IndexMap<(Body, Location), Vec<Use>>,
    alloc: Global,
}

impl Uses {
    /// The uses of a location of a body.
    pub(crate) fn of(&self, body: Body, location: Location) -> &[Use]
        ensures { result.now ≡ uses_at self.now body location }
    {
        match self.uses.get(&(body, location)) {
            Some(uses) => uses.as_slice(),
            None => &[],
        }
    }

    /// Adds a use.
    fn add(
        &mut self,
        body: Body,
        location: Location,
        term: usize,
        part: Part,
    ) -> Result<(), AllocError>
        ensures { OnOk result (Added (Just body location (record { term = term; part = part })) self.old self.new) }
    {
        self.uses
            .entry((body, location))?
            .or_insert(Vec::new(self.alloc))
            .push(Use { term, part })?;
        Ok(())
    }

    /// Adds the slots that an expression reads.
    fn add_slots(
        &mut self,
        body: Body,
        term: usize,
        expr: usize,
        slots: &[u32],
    ) -> Result<(), AllocError>
        ensures { OnOk result (Added (SlotsRead body term expr slots.now) self.old self.new) }
    {
        for slot in slots.iter() {
            self.add(body, Location::Slot(*slot), term, Part::Expr(expr))?;
        }
        Ok(())
    }

    /// Adds the fields that an expression reads.
    fn add_fields(
        &mut self,
        body: Body,
        term: usize,
        expr: usize,
        fields: &[u32],
    ) -> Result<(), AllocError>
        ensures { OnOk result (Added (FieldsRead body term expr fields.now) self.old self.new) }
    {
        for field in fields.iter() {
            self.add(body, Location::Field(*field), term, Part::Expr(expr))?;
        }
        Ok(())
    }

    /// Adds the slots and fields that the expressions of a term read.
    fn add_reads(&mut self, body: Body, index: usize, reads: &[Reads]) -> Result<(), AllocError>
        ensures { OnOk result (Added (TermReads body index (map reads_tree reads.now)) self.old self.new) }
    {
        for expr in 0..reads.len() {
            let read = &reads[expr];
            self.add_slots(body, index, expr, read.slots.as_slice())?;
            self.add_fields(body, index, expr, read.fields.as_slice())?;
        }
        Ok(())
    }

    /// Adds the slots and fields that the expressions of a term read, if that matters.
    fn add_reads_if(
        &mut self,
        matters: bool,
        body: Body,
        index: usize,
        reads: &[Reads],
    ) -> Result<(), AllocError>
        ensures { OnOk result
            (Added (Where matters (TermReads body index (map reads_tree reads.now))) self.old self.new) }
    {
        if matters {
            self.add_reads(body, index, reads)
        } else {
            Ok(())
        }
    }

    /// Adds the uses of a future in a slot and of its result, which goes to a target.
    fn add_got(&mut self, body: Body, index: usize, slot: Option<u32>) -> Result<(), AllocError>
        ensures { OnOk result (Added (Got body index slot) self.old self.new) }
    {
        match slot {
            Some(slot) => {
                self.add(body, Location::Slot(slot), index, Part::Future)?;
                self.add(body, Location::Got(slot), index, Part::Target)
            }
            None => Ok(()),
        }
    }

    /// Adds the uses of what a statement with this effect passes to its target as it is.
    fn add_taken(
        &mut self,
        program: &Named<'_>,
        body: Body,
        index: usize,
        effect: &Effect,
    ) -> Result<(), AllocError>
        ensures { let names = program.now.symbols in
            OnOk result (Added (Taken names body index (effect_tree names effect.now)) self.old self.new) }
    {
        match effect {
            Effect::Get { slot, .. } => self.add_got(body, index, *slot),
            Effect::CallOwn { method, .. } => {
                let method = program.symbols.number(*method);
                self.add(body, Location::Answer(method), index, Part::Target)
            }
            _ => Ok(()),
        }
    }

    /// Adds the uses of a term of a statement with this effect.
    fn add_effect(
        &mut self,
        program: &Named<'_>,
        body: Body,
        index: usize,
        term: &Term,
        effect: &Effect,
    ) -> Result<(), AllocError>
        ensures { let names = program.now.symbols in let effect_is = effect_tree names effect.now in OnOk result
            (Added (EffectUses names body index effect_is (term_tree names term.now)) self.old self.new) }
    {
        let is_open = lets_in(&term.accepts);
        self.add_reads_if(matters(effect, is_open), body, index, term.reads.as_slice())?;
        if is_open {
            self.add_taken(program, body, index, effect)
        } else {
            Ok(())
        }
    }

    /// Adds the uses of a term of a body.
    fn add_term(
        &mut self,
        program: &Named<'_>,
        body: Body,
        index: usize,
        term: &Term,
    ) -> Result<(), AllocError>
        ensures { OnOk result (Added (TermUses (program_tree program.now) body index
            (term_tree program.now.symbols term.now)) self.old self.new) }
    {
        match program.instruction(term.index) {
            Some(instruction) => self.add_effect(program, body, index, term, &instruction.effect),
            None => Ok(()),
        }
    }

    /// Adds the uses of the terms of a body.
    fn add_terms(
        &mut self,
        program: &Named<'_>,
        body: Body,
        terms: &[Term],
    ) -> Result<(), AllocError>
        ensures { OnOk result (Added (BodyUses (program_tree program.now) body
            (map (term_tree program.now.symbols) terms.now)) self.old self.new) }
    {
        for index in 0..terms.len() {
            self.add_term(program, body, index, &terms[index])?;
        }
        Ok(())
    }

    /// Adds the uses of the initial values of the class with an index.
    fn add_initials(&mut self, class: u32, initials: &[Reads]) -> Result<(), AllocError>
        ensures { OnOk result (Added (InitialUses class (map reads_tree initials.now)) self.old self.new) }
    {
        for index in 0..initials.len() {
            let initial = &initials[index];
            self.add_slots(Body::Initials { class }, index, 0, initial.slots.as_slice())?;
        }
        Ok(())
    }

    /// Adds the uses of the member of a class at an index, if it is a method.
    fn add_method(
        &mut self,
        program: &Named<'_>,
        class: u32,
        index: usize,
        method: &Option<MethodTerms>,
    ) -> Result<(), AllocError>
        ensures { OnOk result (Added (MethodUses (program_tree program.now) class index method.now) self.old self.new) }
    {
        match method {
            Some(method) => {
                let member = number(index)?;
                self.add_terms(
                    program,
                    Body::Method { class, member },
                    method.terms.as_slice(),
                )
            }
            None => Ok(()),
        }
    }

    /// Adds the uses of the methods of the class with an index.
    fn add_methods(
        &mut self,
        program: &Named<'_>,
        class: u32,
        methods: &[Option<MethodTerms>],
    ) -> Result<(), AllocError>
        ensures { OnOk result (Added (MethodsUse (program_tree program.now) class methods.now) self.old self.new) }
    {
        for index in 0..methods.len() {
            self.add_method(program, class, index, &methods[index])?;
        }
        Ok(())
    }

    /// Adds the uses of the declaration at an index, if it is a class.
    fn add_class(
        &mut self,
        program: &Named<'_>,
        index: usize,
        class: &Option<ClassTerms>,
    ) -> Result<(), AllocError>
        ensures { OnOk result (Added (ClassUses (program_tree program.now) index class.now) self.old self.new) }
    {
        match class {
            Some(terms) => {
                let class = number(index)?;
                self.add_initials(class, terms.initials.as_slice())?;
                self.add_methods(program, class, terms.methods.as_slice())
            }
            None => Ok(()),
        }
    }

    /// Adds the uses of the classes among the declarations.
    fn add_classes(
        &mut self,
        program: &Named<'_>,
        classes: &[Option<ClassTerms>],
    ) -> Result<(), AllocError>
        ensures { OnOk result (Added (ClassesUse (program_tree program.now) classes.now) self.old self.new) }
    {
        for index in 0..classes.len() {
            self.add_class(program, index, &classes[index])?;
        }
        Ok(())
    }
}

/// Whether an object or a future is let in.
fn lets_in(accepts: &Accepts) -> bool
    ensures { (names : List Name) → result ≡ lets_in_something (accepts_tree names accepts.now) }
{
    accepts.futures || accepts.objects != Objects::None
}

/// Whether what a statement with this effect reads goes somewhere, given whether its target lets something in.
fn matters(effect: &Effect, is_open: bool) -> bool
    ensures { (names : List Name) (accepts : AcceptsTree) → is_open ≡ lets_in_something accepts
        → result ≡ reads_matter (effect_tree names effect.now) accepts }
{
    match effect {
        Effect::Store(_) | Effect::Return => is_open,
        _ => true,
    }
}

/// An index in 32 bits.
///
/// # Errors
/// [`AllocError`] if it takes more bits.
fn number(index: usize) -> Result<u32, AllocError>
    ensures { IfOk result (λ kept. kept ≡ index) }
{
    match u32::try_from(index) {
        Ok(kept) => Ok(kept),
        Err(_) => Err(AllocError),
    }
}

/// The uses of each location of each body of a program.
///
/// # Errors
/// [`AllocError`] if an allocation fails, or an index takes more than 32 bits. So it is for each function here.
pub(crate) fn uses_of(alloc: Global, program: &Named<'_>, terms: &Terms) -> Result<Uses, AllocError>
    ensures { IfOk result (λ uses. AreUses (program_tree program.now) terms.now uses) }
{
    let mut uses = Uses {
        uses: IndexMap::new(alloc),
        alloc,
    };
    uses.add_terms(program, Body::Main, terms.main())?;
    uses.add_classes(program, terms.classes.as_slice())?;
    Ok(uses)
}
