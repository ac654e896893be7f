//! The scope of a place: what is visible there, by name.
ghost use Rattle.std.specs.Prelude.{◌≡◌, [], List, length, take, map, is_some, option_map, OnOk, IfOk};
ghost use Rattle.abs_tree.specs.Syntax.{Name, Unresolved};
ghost use Rattle.abs_tree.specs.SyntaxViews.{variable_tree, declared as declared_tree};
ghost use Rattle.abs_tree.specs.Names.{name_of};
ghost use Rattle.abs_program.specs.Tables.{meaning_of};
ghost use Rattle.abs_names.specs.Numbered.{is_bound as count_of_bound, bound_up_to, EndsIn};
ghost use Rattle.abs_names.specs.Scopes.{Meanings as MeaningList, visible_field as field_seen, use_of, field_of, is_taken, has_this as is_with_this, has_task as is_with_task, next_bound, with_bound, with_variable, with_field};
ghost use Rattle.abs_names.specs.TypeNames.{around_of};
ghost use Rattle.abs_program.specs.KeptSpaces.{named, spaces_by_name, AreProper, ProperNumbers};
ghost use Rattle.abs_names.specs.declared.scope.Routine.TheVariants.{Main as InMain};

use crate::around::Around;
use abs_program::{Meanings, NameSpaces};
use abs_tree::{Declared, Symbol, Variable};
use std::alloc::{AllocError, Global};
use std::marker::Model;

/// Where a part of a program is.
#[derive(Clone, Copy, Debug, PartialEq, Eq)]
pub enum Routine {
    /// The main block.
    Main,
    /// A method of a class.
    Method,
    /// A function.
    Function,
    /// The initial value of a field, after this many fields.
    Initial(u32),
}

impl Routine {
    /// Whether there is `this`.
    pub fn has_this(self) -> bool
        ensures { result ≡ is_with_this self }
    {
        matches!(self, Routine::Method)
    }

    /// Whether there is a task, so that `destiny` has a meaning.
    pub fn has_task(self) -> bool
        ensures { result ≡ is_with_task self }
    {
        matches!(self, Routine::Main | Routine::Method)
    }
}

/// A variable that is visible, and how many variables of patterns and of `let` there are up to it.
#[derive(Clone, Copy)]
struct Binding {
    variable: Variable,
    bound: u32,
}

/// What is visible at a place. Contracts see two tables of names, those of what is read and those of what is made, and
/// the scope of the definitions.
#[derive(Drop)]
pub(crate) struct Scope<'s> {
    around: Around<'s>,
    routine: Routine,
    fields: Meanings<Variable>,
    variables: Meanings<Binding>,
}

impl<'s> Model for Scope<'s> {
    ghost use Rattle.abs_tree.specs.SyntaxViews.{variable_tree};
    ghost use Rattle.abs_names.specs.Numbered.{AreCounted};
    ghost use Rattle.abs_program.specs.KeptSpaces.{named, ProperNumbers};
    ghost use Rattle.abs_names.specs.Visible.{Visible, binding_tree};

    ghost Value = { Visible };

    ghost view = { λ s. record {
      names = s.around.names;
      scope = record {
        around = s.around.around;
        routine = s.routine;
        fields = named s.around.names.after (variable_tree s.around.names.after) s.fields;
        variables = named s.around.names.after (binding_tree s.around.names.after) s.variables;
      };
    } };

    ghost invariant = { λ s. ProperNumbers s.around.names.after s.fields
        × ProperNumbers s.around.names.after s.variables × AreCounted s.variables };
}

impl<'s> Scope<'s> {
    /// The scope of the main block at its beginning, with this around it.
    pub fn new(alloc: Global, around: Around<'s>) -> Scope<'s>
        ensures names { result.names ≡ around.entry.names }
        ensures scope { result.scope
            ≡ record { around = around.entry.around; routine = InMain; fields = []; variables = [] } }
    {
        Scope {
            around,
            routine: Routine::Main,
            fields: Meanings::new(alloc),
            variables: Meanings::new(alloc),
        }
    }

    /// What is around.
    pub fn around(&self) -> &Around<'s>
        ensures names { result.now.names ≡ self.now.names }
        ensures around { result.now.around ≡ self.now.scope.around }
    {
        &self.around
    }

    /// The name spaces around, by the numbers of names.
    pub fn into_spaces(self) -> NameSpaces
        ensures spaces { spaces_by_name self.entry.names.after result ≡ self.entry.scope.around.spaces }
        ensures proper { AreProper self.entry.names.after result }
    {
        let Scope { around, .. } = self;
        around.into_spaces()
    }

    /// From now on what is read may have this many names of the table, the first ones.
    pub fn read(&mut self, readable: u32)
        ensures before { self.new.names.before ≡ take readable self.old.names.after }
        ensures after { self.new.names.after ≡ self.old.names.after }
        ensures scope { self.new.scope ≡ self.old.scope }
    {
        self.around.read(readable);
    }

    /// From now on what is read may have all names of the table.
    pub fn read_all(&mut self)
        ensures before { self.new.names.before ≡ self.old.names.after }
        ensures after { self.new.names.after ≡ self.old.names.after }
        ensures scope { self.new.scope ≡ self.old.scope }
    {
        self.around.read_all();
    }

    /// Makes these the type parameters.
    ///
    /// # Errors
    /// [`AllocError`] if an allocation fails, or if there are too many of them.
    pub fn set_type_params(&mut self, params: &[Declared]) -> Result<(), AllocError>
        ensures names { OnOk result (self.new.names ≡ self.old.names) }
        ensures scope { OnOk result (self.new.scope ≡ record self.old.scope {
          around = around_of self.old.scope.around.spaces (map (declared_tree self.old.names.before) params.now);
        }) }
    {
        self.around.set_type_params(params)
    }

    /// What the use of a name stands for, if it is visible.
    pub fn use_of(&self, name: Symbol) -> Option<Variable>
        ensures { option_map (variable_tree self.now.names.after) result
            ≡ use_of self.now.scope (name_of self.now.names.before name) }
    {
        match self.variable(name) {
            Some(variable) => Some(variable),
            None => visible_field(self.routine, self.field_of(name)),
        }
    }

    /// The parameter, local or bound variable with this name, if one is visible.
    fn variable(&self, name: Symbol) -> Option<Variable>
        ensures { option_map (variable_tree self.now.names.after) result
            ≡ meaning_of self.now.scope.variables (name_of self.now.names.before name) }
    {
        let name = self.around.kept(name);
        match self.variables.look_up(self.around.number(name)) {
            Some(binding) => Some(binding.variable),
            None => None,
        }
    }

    /// The field of the class with this name.
    pub fn field_of(&self, name: Symbol) -> Option<Variable>
        ensures { option_map (variable_tree self.now.names.after) result
            ≡ field_of self.now.scope (name_of self.now.names.before name) }
    {
        let name = self.around.kept(name);
        self.fields.look_up(self.around.number(name))
    }

    /// Whether a name is that of a parameter, a local or a bound variable that is visible.
    pub fn is_variable(&self, name: Symbol) -> bool
        ensures { result ≡ is_some (meaning_of self.now.scope.variables (name_of self.now.names.before name)) }
    {
        self.variable(name).is_some()
    }

    /// Whether a pattern or a `let` may not bind a name.
    pub fn is_taken(&self, name: Symbol) -> bool
        ensures { result ≡ is_taken self.now.scope (name_of self.now.names.before name) }
    {
        self.is_variable(name) || self.field_of(name).is_some()
    }

    /// Whether there is `this`.
    pub fn has_this(&self) -> bool
        ensures { result ≡ is_with_this self.now.scope.routine }
    {
        self.routine.has_this()
    }

    /// Whether there is a task.
    pub fn has_task(&self) -> bool
        ensures { result ≡ is_with_task self.now.scope.routine }
    {
        self.routine.has_task()
    }

    /// The variable that a pattern or a `let` binds next.
    pub fn next_bound(&self) -> Variable
        ensures { variable_tree self.now.names.after result ≡ next_bound self.now.scope }
    {
        Variable::Bound(bound_in(&self.variables))
    }

    /// Binds a name in a pattern or a `let`, and returns its variable.
    ///
    /// # Errors
    /// [`AllocError`] if an allocation fails, or if too many names are visible.
    pub fn bind(&mut self, name: Symbol) -> Result<Variable, AllocError>
        ensures names { OnOk result (self.new.names ≡ self.old.names) }
        ensures scope { OnOk result
            (self.new.scope ≡ with_bound self.old.scope (Unresolved (name_of self.old.names.before name))) }
        ensures found { IfOk result (λ found. variable_tree self.old.names.after found ≡ next_bound self.old.scope) }
    {
        let variable = self.next_bound();
        self.declare(name, variable)?;
        Ok(variable)
    }

    /// Declares a name, as that of a slot.
    ///
    /// # Errors
    /// [`AllocError`] if an allocation fails, or if too many names are visible.
    pub fn declare(&mut self, name: Symbol, variable: Variable) -> Result<(), AllocError>
        ensures names { OnOk result (self.new.names ≡ self.old.names) }
        ensures scope { OnOk result (self.new.scope ≡ with_variable self.old.scope
            (Unresolved (name_of self.old.names.before name)) (variable_tree self.old.names.after variable)) }
    {
        let Some(bound) = bound_in(&self.variables).checked_add(is_bound(variable)) else {
            return Err(AllocError);
        };
        let name = self.around.kept(name);
        self.variables
            .push(self.around.number(name), Binding { variable, bound })
    }

    /// Begins a body, in which only the fields are visible so far.
    pub fn begin(&mut self, routine: Routine)
        ensures names { self.new.names ≡ self.old.names }
        ensures scope { self.new.scope ≡ record self.old.scope { routine = routine; variables = [] } }
    {
        self.routine = routine;
        self.variables.shorten(0);
    }

    /// Adds a field of the class, unless it has one of that name already.
    ///
    /// # Errors
    /// [`AllocError`] if an allocation fails, or if there are too many fields.
    pub fn add_field(&mut self, name: Symbol, index: u32) -> Result<(), AllocError>
        ensures names { OnOk result (self.new.names ≡ self.old.names) }
        ensures scope { OnOk result (self.new.scope ≡ record self.old.scope {
          fields = with_field self.old.scope.fields (Unresolved (name_of self.old.names.before name)) index;
        }) }
    {
        let name = self.around.kept(name);
        self.fields
            .push_first(self.around.number(name), Variable::Field(index))?;
        Ok(())
    }

    /// Ends a class: none of its fields is visible any more.
    pub fn end_class(&mut self)
        ensures names { self.new.names ≡ self.old.names }
        ensures scope { self.new.scope ≡ record self.old.scope { fields = [] } }
    {
        self.fields.shorten(0);
    }

    /// How many parameters, locals and bound variables are visible.
    pub fn len(&self) -> usize
        ensures { result ≡ length self.now.scope.variables }
    {
        self.variables.len()
    }

    /// Takes the newest variables away, so that this many are left.
    pub fn leave(&mut self, count: usize)
        ensures names { self.new.names ≡ self.old.names }
        ensures scope { (older : MeaningList) → EndsIn self.old.scope.variables older → length older ≡ count
            → self.new.scope ≡ record self.old.scope { variables = older } }
    {
        self.variables.shorten(count);
    }
}

/// 1 for a bound variable, and else 0.
fn is_bound(variable: Variable) -> u32
    ensures { result ≡ count_of_bound variable }
{
    match variable {
        Variable::Bound(_) => 1,
        _ => 0,
    }
}

/// How many of these are variables of patterns and of `let`.
fn bound_in(known: &Meanings<Binding>) -> u32
    ensures { result ≡ bound_up_to known.now }
{
    match known.newest() {
        Some(binding) => binding.bound,
        None => 0,
    }
}

/// What a field of the class is to a routine that uses its name alone.
fn visible_field(routine: Routine, field: Option<Variable>) -> Option<Variable>
    ensures { (names : List Name) → option_map (variable_tree names) result
        ≡ field_seen routine (option_map (variable_tree names) field) }
{
    match (routine, field) {
        (Routine::Method, field) => field,
        (Routine::Initial(earlier), Some(Variable::Field(field))) if field < earlier => {
            Some(Variable::Slot(field))
        }
        _ => None,
    }
}
