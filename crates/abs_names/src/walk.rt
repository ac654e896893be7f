//! The walk over a source, which resolves its names and notes its first name offence.
ghost use Rattle.std.specs.Prelude.{◌≡◌, [], fold, map, IfOk, OnOk};
ghost use Rattle.abs_tree.specs.Offences.{earlier, offence_if};
ghost use Rattle.abs_tree.specs.SyntaxViews.{variable_tree, declared as declared_tree};
ghost use Rattle.abs_tree.specs.Names.{name_of};
ghost use Rattle.abs_names.specs.Single.{unknown};
ghost use Rattle.abs_names.specs.TypeNames.{applied};
ghost use Rattle.abs_names.specs.NameOffences.{use_offences, bind_offences, field_offences};
ghost use Rattle.abs_names.specs.Resolution.{resolved_use};
ghost use Rattle.abs_names.specs.Scopes.{next_bound, with_bound};
ghost use Rattle.abs_names.specs.declared.scope.Routine.TheVariants.{Main as InMain};

use crate::around::Around;
use crate::scope::Scope;
use abs_tree::{Code, Declared, Offence, Place, Symbol, Variable};
use std::alloc::{AllocError, Global};

/// The scope of the place that the walk has come to, and the first offence so far.
#[derive(Drop)]
pub(crate) struct Walk<'s> {
    pub alloc: Global,
    pub scope: Scope<'s>,
    pub first: Option<Offence>,
}

/// Notes an offence with this code at this place, if there is one.
pub(crate) fn note_if(first: &mut Option<Offence>, offends: bool, place: Place, code: Code)
    ensures { first.new ≡ fold earlier first.old (offence_if offends code place) }
{
    if offends {
        Offence { place, code }.note(first);
    }
}

impl<'s> Walk<'s> {
    /// The walk at the beginning of the main block, after this first offence.
    pub fn new(alloc: Global, around: Around<'s>, first: Option<Offence>) -> Walk<'s>
        ensures names { result.scope.names ≡ around.entry.names }
        ensures scope { result.scope.scope
            ≡ record { around = around.entry.around; routine = InMain; fields = []; variables = [] } }
        ensures first { result.first ≡ first }
    {
        Walk {
            alloc,
            scope: Scope::new(alloc, around),
            first,
        }
    }

    /// Gives a declared name its symbol among the names of what is made.
    pub fn keep(&self, declared: &mut Declared)
        ensures { declared_tree self.now.scope.names.after declared.new
            ≡ declared_tree self.now.scope.names.before declared.old }
    {
        declared.name = self.scope.around().kept(declared.name);
    }

    /// Gives declared names their symbols among the names of what is made.
    pub fn keep_all(&self, declared: &mut Vec<Declared>)
        ensures { map (declared_tree self.now.scope.names.after) declared.new.items
            ≡ map (declared_tree self.now.scope.names.before) declared.old.items }
    {
        for one in declared.iter_mut() {
            self.keep(one);
        }
    }

    /// Notes a name at this place that is unknown, unless it is known.
    pub fn note_unless(&mut self, known: bool, place: Place)
        ensures noted { self.new.first ≡ fold earlier self.old.first (unknown known place) }
        ensures scope { self.new.scope ≡ self.old.scope }
    {
        if !known {
            let code = Code::N2;
            Offence { place, code }.note(&mut self.first);
        }
    }

    /// Notes a name at this place that is given so many arguments, unless it takes so many; one that is unknown takes
    /// none.
    pub fn note_applied(&mut self, taken: Option<u32>, given: usize, place: Place)
        ensures noted { self.new.first ≡ fold earlier self.old.first (applied taken given place) }
        ensures scope { self.new.scope ≡ self.old.scope }
    {
        match taken {
            Some(taken) if taken as usize == given => {}
            Some(_) => {
                let code = Code::N3;
                Offence { place, code }.note(&mut self.first);
            }
            None => self.note_unless(false, place),
        }
    }

    /// The use of a variable. One that is unknown is noted, and stays as it is. So is one that is resolved already,
    /// which a source does not write.
    pub fn used(&mut self, place: Place, variable: Variable) -> Variable
        ensures found { variable_tree self.old.scope.names.after result
            ≡ resolved_use self.old.scope.scope (variable_tree self.old.scope.names.before variable) }
        ensures noted { self.new.first ≡ fold earlier self.old.first
            (use_offences self.old.scope.scope place (variable_tree self.old.scope.names.before variable)) }
        ensures scope { self.new.scope ≡ self.old.scope }
    {
        let Variable::Unresolved(name) = variable else {
            self.note_unless(false, place);
            return variable;
        };
        let found = self.scope.use_of(name);
        self.note_unless(found.is_some(), place);
        match found {
            Some(meaning) => meaning,
            None => Variable::Unresolved(self.scope.around().kept(name)),
        }
    }

    /// Notes a field of `this` that is unknown, or a `this` where there is none.
    pub fn note_field(&mut self, place: Place, name_place: Place, name: Symbol)
        ensures noted { self.new.first ≡ fold earlier self.old.first
            (field_offences self.old.scope.scope place name_place (name_of self.old.scope.names.before name)) }
        ensures scope { self.new.scope ≡ self.old.scope }
    {
        if self.scope.has_this() {
            let known = self.scope.field_of(name).is_some();
            self.note_unless(known, name_place);
        } else {
            self.note_unless(false, place);
        }
    }

    /// Binds a variable of a pattern or of a `let`. A name that may not be bound is noted, and so is a variable that is
    /// resolved already, which a source does not write.
    ///
    /// # Errors
    /// [`AllocError`] if an allocation fails.
    pub fn bind(&mut self, place: Place, variable: Variable) -> Result<Variable, AllocError>
        ensures found { IfOk result
            (λ found. variable_tree self.old.scope.names.after found ≡ next_bound self.old.scope.scope) }
        ensures noted { OnOk result (self.new.first ≡ fold earlier self.old.first
            (bind_offences self.old.scope.scope place (variable_tree self.old.scope.names.before variable))) }
        ensures names { OnOk result (self.new.scope.names ≡ self.old.scope.names) }
        ensures bound { OnOk result (self.new.scope.scope
            ≡ with_bound self.old.scope.scope (variable_tree self.old.scope.names.before variable)) }
    {
        let Variable::Unresolved(name) = variable else {
            self.note_unless(false, place);
            return Ok(self.scope.next_bound());
        };
        let taken = self.scope.is_taken(name);
        note_if(&mut self.first, taken, place, Code::N1);
        self.scope.bind(name)
    }
}
