//! Expressions that take several others: operators of one precedence, and applications to arguments.
ghost use Rattle.std.specs.Prelude.{IfOk, OnOk};
ghost use Rattle.abs_tree.specs.Names.{name_of};
ghost use Rattle.abs_tree.specs.Syntax.{ApplyOf, BuildOf, OperatorsOf, OwnCallOf};
ghost use Rattle.abs_tree.specs.SyntaxViews.{operand_trees, expr_tree, expr_trees};
ghost use Rattle.check_fun.specs.Contexts.{all_offend, all_typed, items_of, operands_offend, Context, FindsAll, Finds, Knows, Noted, Stays};
ghost use Rattle.check_fun.specs.Parts.{rights_of, tree_offends, tree_typed};

use crate::checked_rules::with_last;
use crate::checker::Checker;
use abs_tree::{Expr, Operand, Place, Symbol};
use abs_types::TypeIndex;
use std::alloc::AllocError;

impl Checker<'_> {
    /// The type of operators of one precedence.
    ///
    /// # Errors
    /// [`AllocError`] if an allocation fails, or if there are too many types. So it is for each function here.
    #[cycle(expressions)]
    pub(crate) fn operators(
        &mut self,
        place: Place,
        first: &Expr,
        operands: &[Operand],
    ) -> Result<Option<TypeIndex>, AllocError>
        ensures found { (context : Context) → Knows self.old context → IfOk result (λ found. Finds self.new found
            (tree_typed context (OperatorsOf place (expr_tree context.names first.now)
            (operand_trees context.names operands.now)))) }
        ensures noted { (context : Context) → Knows self.old context → OnOk result (Noted self.old.first
            (tree_offends context (OperatorsOf place (expr_tree context.names first.now)
            (operand_trees context.names operands.now))) self.new.first) }
        ensures stays { OnOk result (Stays self.old self.new) }
    {
        let left = self.expression(first)?;
        let rights = self.operands(operands)?;
        self.checked_operators(place, left, operands, rights)
    }

    /// The types of the operands after the first one, if all have types.
    #[cycle(expressions)]
    fn operands(&mut self, operands: &[Operand]) -> Result<Option<Vec<TypeIndex>>, AllocError>
        ensures found { (context : Context) → Knows self.old context → IfOk result
            (λ found. FindsAll self.new (items_of found) (all_typed context (rights_of operands.now))) }
        ensures noted { (context : Context) → Knows self.old context
            → OnOk result (Noted self.old.first (operands_offend context operands.now) self.new.first) }
        ensures stays { OnOk result (Stays self.old self.new) }
    {
        let mut found = Some(Vec::with_capacity(self.table.alloc, operands.len())?);
        for operand in operands {
            let right = self.expression(&operand.right)?;
            found = with_last(found, right)?;
        }
        Ok(found)
    }

    /// The types of arguments, if all have types.
    #[cycle(expressions)]
    pub fn arguments(&mut self, exprs: &[Expr]) -> Result<Option<Vec<TypeIndex>>, AllocError>
        ensures found { (context : Context) → Knows self.old context
            → IfOk result (λ found. FindsAll self.new (items_of found) (all_typed context exprs.now)) }
        ensures noted { (context : Context) → Knows self.old context
            → OnOk result (Noted self.old.first (all_offend context exprs.now) self.new.first) }
        ensures stays { OnOk result (Stays self.old self.new) }
    {
        let mut found = Some(Vec::with_capacity(self.table.alloc, exprs.len())?);
        for expr in exprs {
            let argument = self.expression(expr)?;
            found = with_last(found, argument)?;
        }
        Ok(found)
    }

    /// The type of an application of a function.
    #[cycle(expressions)]
    pub(crate) fn apply(
        &mut self,
        place: Place,
        function: Symbol,
        arguments: &[Expr],
    ) -> Result<Option<TypeIndex>, AllocError>
        ensures found { (context : Context) → Knows self.old context → IfOk result (λ found. Finds self.new found
            (tree_typed context (ApplyOf place (name_of context.names function)
            (expr_trees context.names arguments.now)))) }
        ensures noted { (context : Context) → Knows self.old context → OnOk result (Noted self.old.first
            (tree_offends context (ApplyOf place (name_of context.names function)
            (expr_trees context.names arguments.now))) self.new.first) }
        ensures stays { OnOk result (Stays self.old self.new) }
    {
        let given = self.arguments(arguments)?;
        let scheme = self.function_scheme(function)?;
        self.checked_application(place, scheme, given)
    }

    /// The type of an application of a constructor.
    #[cycle(expressions)]
    pub(crate) fn build(
        &mut self,
        place: Place,
        constructor: Symbol,
        arguments: &[Expr],
    ) -> Result<Option<TypeIndex>, AllocError>
        ensures found { (context : Context) → Knows self.old context → IfOk result (λ found. Finds self.new found
            (tree_typed context (BuildOf place (name_of context.names constructor)
            (expr_trees context.names arguments.now)))) }
        ensures noted { (context : Context) → Knows self.old context → OnOk result (Noted self.old.first
            (tree_offends context (BuildOf place (name_of context.names constructor)
            (expr_trees context.names arguments.now))) self.new.first) }
        ensures stays { OnOk result (Stays self.old self.new) }
    {
        let given = self.arguments(arguments)?;
        let scheme = self.constructor_scheme(constructor)?;
        self.checked_application(place, scheme, given)
    }

    /// A call on `this` inside an expression, which has no type. It is noted, if its arguments have types, and also if
    /// the class has no such method.
    #[cycle(expressions)]
    pub(crate) fn own_call(
        &mut self,
        place: Place,
        method: Symbol,
        arguments: &[Expr],
    ) -> Result<Option<TypeIndex>, AllocError>
        ensures found { (context : Context) → Knows self.old context → IfOk result (λ found. Finds self.new found
            (tree_typed context (OwnCallOf place (name_of context.names method)
            (expr_trees context.names arguments.now)))) }
        ensures noted { (context : Context) → Knows self.old context → OnOk result (Noted self.old.first
            (tree_offends context (OwnCallOf place (name_of context.names method)
            (expr_trees context.names arguments.now))) self.new.first) }
        ensures stays { OnOk result (Stays self.old self.new) }
    {
        let given = self.arguments(arguments)?;
        self.note_own_call(place, method, arguments.len(), given);
        Ok(None)
    }
}
