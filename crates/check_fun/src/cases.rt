//! `case`: the types of its branches, each of which sees the variables of its pattern.
ghost use Rattle.std.specs.Prelude.{Option, IfOk, OnOk};
ghost use Rattle.abs_tree.specs.Syntax.{CaseOf};
ghost use Rattle.abs_tree.specs.SyntaxViews.{branches as branch_trees, expr_tree};
ghost use Rattle.abs_types.specs.PlainTypes.{PlainType};
ghost use Rattle.check_fun.specs.Contexts.{branches_offend, branches_typed, items_of, Context, FindsAll, Finds, Found, Knows, Noted, Stays};
ghost use Rattle.check_fun.specs.Parts.{branch_offends, branch_typed, tree_offends, tree_typed};

use crate::checked_rules::{value_if, with_last};
use crate::checker::Checker;
use abs_tree::{Branch, Expr, Place};
use abs_types::TypeIndex;
use std::alloc::AllocError;

impl Checker<'_> {
    /// The type of a `case`.
    ///
    /// # Errors
    /// [`AllocError`] if an allocation fails, or if there are too many types. So it is for each function here.
    #[cycle(expressions)]
    pub(crate) fn case(
        &mut self,
        place: Place,
        subject: &Expr,
        branches: &[Branch],
    ) -> Result<Option<TypeIndex>, AllocError>
        ensures found { (context : Context) → Knows self.old context → IfOk result (λ found. Finds self.new found
            (tree_typed context (CaseOf place (expr_tree context.names subject.now)
            (branch_trees context.names branches.now)))) }
        ensures noted { (context : Context) → Knows self.old context → OnOk result (Noted self.old.first
            (tree_offends context (CaseOf place (expr_tree context.names subject.now)
            (branch_trees context.names branches.now))) self.new.first) }
        ensures stays { OnOk result (Stays self.old self.new) }
    {
        let given = self.expression(subject)?;
        let types = self.branches(given, branches)?;
        self.checked_case(place, given, types)
    }

    /// The types of branches, if all patterns fit the subject and all values have types.
    #[cycle(expressions)]
    fn branches(
        &mut self,
        subject: Option<TypeIndex>,
        branches: &[Branch],
    ) -> Result<Option<Vec<TypeIndex>>, AllocError>
        requires { Found self.old subject }
        ensures found { (context : Context) (type : Option PlainType) → Knows self.old context
            → Finds self.old subject type → IfOk result
            (λ found. FindsAll self.new (items_of found) (branches_typed context type branches.now)) }
        ensures noted { (context : Context) (type : Option PlainType) → Knows self.old context
            → Finds self.old subject type → OnOk result
            (Noted self.old.first (branches_offend context type branches.now) self.new.first) }
        ensures stays { OnOk result (Stays self.old self.new) }
    {
        let mut found = Some(Vec::with_capacity(self.table.alloc, branches.len())?);
        for branch in branches {
            let value = self.branch(subject, branch)?;
            found = with_last(found, value)?;
        }
        Ok(found)
    }

    /// The type of the value of a branch, if its pattern fits the subject.
    #[cycle(expressions)]
    fn branch(
        &mut self,
        subject: Option<TypeIndex>,
        branch: &Branch,
    ) -> Result<Option<TypeIndex>, AllocError>
        requires { Found self.old subject }
        ensures found { (context : Context) (type : Option PlainType) → Knows self.old context
            → Finds self.old subject type
            → IfOk result (λ found. Finds self.new found (branch_typed context type branch.now)) }
        ensures noted { (context : Context) (type : Option PlainType) → Knows self.old context
            → Finds self.old subject type
            → OnOk result (Noted self.old.first (branch_offends context type branch.now) self.new.first) }
        ensures stays { OnOk result (Stays self.old self.new) }
    {
        let outside = self.bound.len();
        let fits = self.pattern(subject, &branch.pattern)?;
        let value = self.expression(&branch.value)?;
        self.leave(outside);
        Ok(value_if(fits, value))
    }
}
