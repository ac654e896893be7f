//! Expressions without parts: `destiny`, `this`, variables, and fields that are not resolved.
ghost use Rattle.std.specs.Prelude.{◌≡◌, true, Option, None, option_map, IfOk, OnOk};
ghost use Rattle.abs_tree.specs.Syntax.{DestinyOf, ThisOf, VariableOf};
ghost use Rattle.abs_tree.specs.SyntaxViews.{variable_tree};
ghost use Rattle.abs_types.specs.Mistyped.{mistyped_if};
ghost use Rattle.abs_types.specs.PlainTypes.{PlainClass, PlainFut};
ghost use Rattle.check_fun.specs.Contexts.{Context, Finds, Knows, Noted, Stays};
ghost use Rattle.check_fun.specs.Parts.{tree_offends, tree_typed};

use crate::checker::Checker;
use abs_tree::{Code, Place, Variable};
use abs_types::TypeIndex;
use std::alloc::AllocError;

impl Checker<'_> {
    /// The type of `destiny`. It is noted where there is no task.
    ///
    /// # Errors
    /// [`AllocError`] if an allocation fails, or if there are too many types. So it is for each function here.
    #[tactic(auto, using(crate::proofs::ContextLemmas::stays_transitive))]
    pub(crate) fn destiny(&mut self, place: Place) -> Result<Option<TypeIndex>, AllocError>
        ensures found { (context : Context) → Knows self.old context
            → IfOk result (λ found. Finds self.new found (tree_typed context (DestinyOf place))) }
        ensures noted { (context : Context) → Knows self.old context
            → OnOk result (Noted self.old.first (tree_offends context (DestinyOf place)) self.new.first) }
        ensures stays { OnOk result (Stays self.old self.new) }
    {
        let found = self.task_future()?;
        self.note_untyped(true, found, place);
        Ok(found)
    }

    /// `Fut` of the result type of the task, if there is one.
    fn task_future(&mut self) -> Result<Option<TypeIndex>, AllocError>
        ensures found { (context : Context) → Knows self.old context
            → IfOk result (λ found. Finds self.new found (option_map PlainFut context.frame.task)) }
        ensures first { self.new.first ≡ self.old.first }
        ensures stays { Stays self.old self.new }
    {
        match self.task {
            Some(result) => Ok(Some(self.future(result)?)),
            None => Ok(None),
        }
    }

    /// The type of `this`. It is noted where there is no class.
    #[tactic(auto, using(crate::proofs::ContextLemmas::stays_transitive))]
    pub(crate) fn this(&mut self, place: Place) -> Result<Option<TypeIndex>, AllocError>
        ensures found { (context : Context) → Knows self.old context
            → IfOk result (λ found. Finds self.new found (tree_typed context (ThisOf place))) }
        ensures noted { (context : Context) → Knows self.old context
            → OnOk result (Noted self.old.first (tree_offends context (ThisOf place)) self.new.first) }
        ensures stays { OnOk result (Stays self.old self.new) }
    {
        let found = self.this_class()?;
        self.note_untyped(true, found, place);
        Ok(found)
    }

    /// An object of the class of `this`, if there is one.
    pub fn this_class(&mut self) -> Result<Option<TypeIndex>, AllocError>
        ensures found { (context : Context) → Knows self.old context
            → IfOk result (λ found. Finds self.new found (option_map PlainClass context.frame.this)) }
        ensures first { self.new.first ≡ self.old.first }
        ensures stays { Stays self.old self.new }
    {
        match self.this {
            Some(class) => Ok(Some(self.class(class)?)),
            None => Ok(None),
        }
    }

    /// The type of a variable. One that is not there is noted.
    pub(crate) fn variable(&mut self, place: Place, variable: Variable) -> Option<TypeIndex>
        ensures found { (context : Context) → Knows self.old context
            → Finds self.new result (tree_typed context (VariableOf place (variable_tree context.names variable))) }
        ensures noted { (context : Context) → Knows self.old context → Noted self.old.first
            (tree_offends context (VariableOf place (variable_tree context.names variable))) self.new.first }
        ensures stays { Stays self.old self.new }
    {
        let visible = self.is_visible(variable);
        self.note_if(!visible, Code::T1, place);
        self.variable_type(variable)
    }

    /// A field of `this`, which has no type: it is a variable once names are resolved.
    pub(crate) fn field(&mut self, place: Place) -> Option<TypeIndex>
        ensures found { result ≡ None }
        ensures noted { Noted self.old.first (mistyped_if true place) self.new.first }
        ensures stays { Stays self.old self.new }
    {
        self.note_if(true, Code::T1, place);
        None
    }
}
