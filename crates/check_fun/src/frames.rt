//! What is around an expression: a checker is made for a program, enters a body, and binds variables.
ghost use Rattle.std.specs.Prelude.{◌≡◌, All, List, [], ◌∷◌, ◌++◌, Option, Some, None, not, length, map, set, OnOk};
ghost use Rattle.abs_tree.specs.Names.{name_of};
ghost use Rattle.abs_program.specs.NamedViews.{named_tree};
ghost use Rattle.abs_tree.specs.Syntax.{Name};
ghost use Rattle.abs_tree.specs.SyntaxViews.{decl_tree, member_tree, param_tree};
ghost use Rattle.abs_types.specs.ExpressionOffences.{this_lacks_method};
ghost use Rattle.abs_types.specs.Methods.{has_method};
ghost use Rattle.abs_types.specs.PlainTypes.{PlainClass, PlainType};
ghost use Rattle.abs_types.specs.Schemes.{param_types};
ghost use Rattle.abs_types.specs.TypeOffences.{value_frame};
ghost use Rattle.abs_types.specs.TypeTables.{types_in, Keeps};
ghost use Rattle.abs_types.specs.Typing.{known_at, Frame};
ghost use Rattle.check_fun.specs.Contexts.{types_known, with_bound, with_frame, with_slots, Context, Finds, FoundAll, Found, IsFrameOf, Knows};
ghost use Rattle.check_fun.specs.OwnMethods.{declaration_takes, member_takes, takes_count};

use crate::checker::Checker;
use abs_program::Named;
use abs_tree::{Decl, Member, Param, Symbol, Variable};
use abs_types::{TypeIndex, TypeTable};
use std::alloc::{AllocError, Global};

impl<'a> Checker<'a> {
    /// A checker of a program, outside of all bodies.
    pub fn new(alloc: Global, program: &'a Named<'a>) -> Checker<'a>
        ensures knows { Knows result (record {
          names = program.now.symbols;
          declarations = (named_tree program.now).declarations;
          frame = value_frame [];
          bound = [];
        }) }
        ensures program { result.table.program.now ≡ program.now }
        ensures first { result.first ≡ None }
    {
        Checker {
            table: TypeTable::new(alloc, program),
            first: None,
            slots: Vec::new(alloc),
            fields: Vec::new(alloc),
            this: None,
            task: None,
            bound: Vec::new(alloc),
        }
    }

    /// Enters the value of a function, where its parameters are visible.
    ///
    /// # Errors
    /// [`AllocError`] if an allocation fails, or if there are too many types.
    pub fn enter_value(&mut self, params: &[Param]) -> Result<(), AllocError>
        ensures knows { (context : Context) → Knows self.old context → OnOk result (Knows self.new
            (with_frame context (value_frame (param_types (map (param_tree context.names) params.now))))) }
        ensures first { self.new.first ≡ self.old.first }
        ensures keeps { OnOk result (Keeps self.old.table self.new.table) }
    {
        let mut slots = Vec::with_capacity(self.table.alloc, params.len())?;
        for param in params {
            slots.push(Some(self.written(&param.type_of)?))?;
        }
        self.slots = slots;
        self.fields.clear();
        self.this = None;
        self.task = None;
        self.bound.clear();
        Ok(())
    }

    /// Enters a body: these are the types of its slots, if they are visible, and of the fields of `this`, the class of
    /// `this`, and the result type of the task. No variable is bound.
    pub fn enter_body(
        &mut self,
        slots: Vec<Option<TypeIndex>>,
        fields: Vec<TypeIndex>,
        this: Option<Symbol>,
        task: Option<TypeIndex>,
    )
        requires slots { All (Found self.old) slots.items }
        requires fields { FoundAll self.old (Some fields.items) }
        requires task { Found self.old task }
        ensures knows { (context : Context) (frame : Frame) → Knows self.old context
            → IsFrameOf self.old slots.items fields.items this task frame
            → Knows self.new (with_frame context frame) }
        ensures first { self.new.first ≡ self.old.first }
        ensures table { self.new.table ≡ self.old.table }
    {
        self.slots = slots;
        self.fields = fields;
        self.this = this;
        self.task = task;
        self.bound.clear();
    }

    /// Enters another body with the same `this` and the same fields: these are the types of its slots, if they are
    /// visible, and the result type of the task. No variable is bound.
    pub fn enter_method(&mut self, slots: Vec<Option<TypeIndex>>, task: Option<TypeIndex>)
        requires slots { All (Found self.old) slots.items }
        requires task { Found self.old task }
        ensures knows { (context : Context) (types : List (Option PlainType)) (result : Option PlainType)
            → Knows self.old context → Finds self.old task result
            → types_known (types_in self.old.table) slots.items ≡ types
            → Knows self.new (with_frame context (record context.frame { slots = types; task = result })) }
        ensures first { self.new.first ≡ self.old.first }
        ensures table { self.new.table ≡ self.old.table }
    {
        self.slots = slots;
        self.task = task;
        self.bound.clear();
    }

    /// Puts a type in the slot with an index, or makes it invisible, if there is such a slot. The answer is what was
    /// there.
    pub fn set_slot(&mut self, slot: u32, found: Option<TypeIndex>) -> Option<TypeIndex>
        requires { Found self.old found }
        ensures knows { (context : Context) (type : Option PlainType) → Knows self.old context
            → Finds self.old found type → Knows self.new (with_slots context (set context.frame.slots slot type)) }
        ensures was { (context : Context) → Knows self.old context
            → Finds self.new result (known_at context.frame.slots slot) }
        ensures first { self.new.first ≡ self.old.first }
        ensures table { self.new.table ≡ self.old.table }
    {
        let was = self.variable_type(Variable::Slot(slot));
        if slot as usize >= self.slots.len() {
            return was;
        }
        self.slots[slot as usize] = found;
        was
    }

    /// Adds a slot that is visible.
    ///
    /// # Errors
    /// [`AllocError`] if an allocation fails.
    pub fn add_slot(&mut self, found: TypeIndex) -> Result<(), AllocError>
        requires { Found self.old (Some found) }
        ensures knows { (context : Context) (type : PlainType) → Knows self.old context
            → Finds self.old (Some found) (Some type)
            → OnOk result (Knows self.new (with_slots context (context.frame.slots ++ Some type ∷ []))) }
        ensures first { self.new.first ≡ self.old.first }
        ensures table { self.new.table ≡ self.old.table }
    {
        self.slots.push(Some(found))?;
        Ok(())
    }

    /// Binds a variable, whose type may be missing.
    ///
    /// # Errors
    /// [`AllocError`] if an allocation fails.
    pub(crate) fn bind(&mut self, found: Option<TypeIndex>) -> Result<(), AllocError>
        requires { Found self.old found }
        ensures knows { (context : Context) (type : Option PlainType) → Knows self.old context
            → Finds self.old found type → OnOk result (Knows self.new (with_bound context (type ∷ []))) }
        ensures first { self.new.first ≡ self.old.first }
        ensures table { self.new.table ≡ self.old.table }
    {
        self.bound.push(found)?;
        Ok(())
    }

    /// Leaves the variables that were bound after this many.
    pub(crate) fn leave(&mut self, count: usize)
        ensures knows { (context : Context) (types : List (Option PlainType))
            → Knows self.old (with_bound context types) → count ≡ length context.bound → Knows self.new context }
        ensures first { self.new.first ≡ self.old.first }
        ensures table { self.new.table ≡ self.old.table }
    {
        self.bound.truncate(count);
    }

    /// The result type of the task, if there is one.
    pub fn task(&self) -> Option<TypeIndex>
        ensures { (context : Context) → Knows self.now context → Finds self.now result context.frame.task }
    {
        self.task
    }

    /// Whether the class of `this` has a method with a name and this many parameters. Outside of a class there is none.
    pub fn this_has_method(&self, method: Symbol, count: usize) -> bool
        ensures { (context : Context) → Knows self.now context → result
            ≡ not (this_lacks_method context.declarations context.frame (name_of context.names method) count) }
    {
        match self.this {
            Some(class) => self.class_has_method(class, method, count),
            None => false,
        }
    }

    /// Whether the class with a name has a method with a name and this many parameters.
    fn class_has_method(&self, class: Symbol, method: Symbol, count: usize) -> bool
        ensures { (context : Context) → Knows self.now context → result
            ≡ has_method context.declarations (PlainClass (name_of context.names class))
            (name_of context.names method) count }
    {
        let program = self.table.program;
        let Some(taking) = program.class(class) else {
            return false;
        };
        match program.method(taking.declaration, method) {
            Some(index) => takes_count(program, taking.declaration, index, count),
            None => false,
        }
    }
}

/// Whether the declaration with an index is a class, and its member with an index a method with this many parameters.
#[tactic(auto, unfolding(crate::specs::OwnMethods::takes_count))]
fn takes_count(program: &Named<'_>, class: u32, index: u32, count: usize) -> bool
    ensures { result ≡ takes_count (named_tree program.now).declarations class index count }
{
    match program.declarations.get(class as usize) {
        Some(declaration) => declaration_takes(declaration, index, count),
        None => false,
    }
}

/// Whether a declaration is a class, and its member with an index a method with this many parameters.
fn declaration_takes(declaration: &Decl, index: u32, count: usize) -> bool
    ensures { (names : List Name) → result
        ≡ declaration_takes index count (Some (decl_tree names declaration.now)) }
{
    match declaration {
        Decl::Class { members, .. } => match members.get(index as usize) {
            Some(member) => member_takes(member, count),
            None => false,
        },
        _ => false,
    }
}

/// Whether a member is a method with this many parameters.
fn member_takes(member: &Member, count: usize) -> bool
    ensures { (names : List Name) → result ≡ member_takes count (Some (member_tree names member.now)) }
{
    match member {
        Member::Method(signature, _) => signature.params.len() == count,
        Member::Field { .. } => false,
    }
}
