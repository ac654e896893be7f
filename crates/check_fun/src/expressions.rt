//! Expressions: each has its type, or what offends in it is noted.
ghost use Rattle.std.specs.Prelude.{◌∷◌, [], ⊤, Some, OnOk, IfOk};
ghost use Rattle.abs_tree.specs.Syntax.{CaseOf, IfElse, LetIn, OperatorsOf, Prefixed as PrefixedOf, VariableTree};
ghost use Rattle.abs_tree.specs.SyntaxViews.{expr_tree, type_tree};
ghost use Rattle.abs_types.specs.PlainTypes.{PlainType};
ghost use Rattle.check_fun.specs.Contexts.{offends, typed, with_bound, Context, Finds, Found, Knows, Noted, Stays};
ghost use Rattle.check_fun.specs.Parts.{tree_offends, tree_typed};

use crate::checker::Checker;
use abs_tree::{Expr, Place, Prefix, TypeTerm};
use abs_types::TypeIndex;
use std::alloc::AllocError;

impl Checker<'_> {
    /// The type of an expression, if it has one. What offends in it is noted.
    ///
    /// # Errors
    /// [`AllocError`] if an allocation fails, or if there are too many types. So it is for each function here.
    #[cycle(expressions)]
    pub fn expression(&mut self, expr: &Expr) -> Result<Option<TypeIndex>, AllocError>
        ensures found { (context : Context) → Knows self.old context
            → IfOk result (λ found. Finds self.new found (typed context expr.now)) }
        ensures noted { (context : Context) → Knows self.old context
            → OnOk result (Noted self.old.first (offends context expr.now) self.new.first) }
        ensures stays { OnOk result (Stays self.old self.new) }
    {
        match expr {
            Expr::Let {
                place,
                type_of,
                value,
                body,
                ..
            } => self.let_in(*place, type_of, value, body),
            Expr::If {
                place,
                condition,
                first,
                second,
            } => self.if_else(*place, condition, first, second),
            Expr::Operators {
                place,
                first,
                operands,
            } => self.operators(*place, first, operands),
            Expr::Prefixed {
                place,
                prefix,
                operand,
            } => self.prefixed(*place, *prefix, operand),
            Expr::Case {
                place,
                subject,
                branches,
            } => self.case(*place, subject, branches),
            _ => self.primary(expr),
        }
    }

    /// The type of an expression of the lowest level of the grammar, if it has one. What offends in it is noted.
    #[cycle(expressions)]
    fn primary(&mut self, expr: &Expr) -> Result<Option<TypeIndex>, AllocError>
        requires primary { elim (expr_tree self.old.table.program.now.symbols expr.now) [
          | LetIn _ _ _ _ _ _ ↦ ⊥
          | IfElse _ _ _ _ ↦ ⊥
          | OperatorsOf _ _ _ ↦ ⊥
          | PrefixedOf _ _ _ ↦ ⊥
          | CaseOf _ _ _ ↦ ⊥
          | _ ↦ ⊤
        ] }
        ensures found { (context : Context) → Knows self.old context
            → IfOk result (λ found. Finds self.new found (typed context expr.now)) }
        ensures noted { (context : Context) → Knows self.old context
            → OnOk result (Noted self.old.first (offends context expr.now) self.new.first) }
        ensures stays { OnOk result (Stays self.old self.new) }
    {
        match expr {
            Expr::Apply {
                place,
                function,
                arguments,
            } => self.apply(*place, *function, arguments),
            Expr::Build {
                place,
                constructor,
                arguments,
            } => self.build(*place, *constructor, arguments),
            Expr::OwnCall {
                place,
                method,
                arguments,
            } => self.own_call(*place, *method, arguments),
            Expr::Number(..) => Ok(Some(self.int()?)),
            Expr::Text(..) => Ok(Some(self.string()?)),
            Expr::Null(_) => Ok(Some(self.null()?)),
            Expr::Destiny(place) => self.destiny(*place),
            Expr::This(place) => self.this(*place),
            Expr::Variable(place, variable) => Ok(self.variable(*place, *variable)),
            Expr::Field { place, .. } => Ok(self.field(*place)),
            _ => unreachable!(),
        }
    }

    /// The type of a `let`.
    #[cycle(expressions)]
    fn let_in(
        &mut self,
        place: Place,
        type_of: &TypeTerm,
        value: &Expr,
        body: &Expr,
    ) -> Result<Option<TypeIndex>, AllocError>
        ensures found { (context : Context) (variable_place : Place) (variable : VariableTree) → Knows self.old context
            → IfOk result (λ found. Finds self.new found (tree_typed context
            (LetIn place (type_tree context.names type_of.now) variable_place variable
            (expr_tree context.names value.now) (expr_tree context.names body.now)))) }
        ensures noted { (context : Context) (variable_place : Place) (variable : VariableTree) → Knows self.old context
            → OnOk result (Noted self.old.first (tree_offends context
            (LetIn place (type_tree context.names type_of.now) variable_place variable
            (expr_tree context.names value.now) (expr_tree context.names body.now))) self.new.first) }
        ensures stays { OnOk result (Stays self.old self.new) }
    {
        let given = self.expression(value)?;
        let declared = self.written(type_of)?;
        let gives = self.let_body(declared, body)?;
        Ok(self.checked_let(place, given, declared, gives))
    }

    /// The type of the body of a `let`, where a variable of the declared type is bound.
    #[cycle(expressions)]
    fn let_body(
        &mut self,
        declared: TypeIndex,
        body: &Expr,
    ) -> Result<Option<TypeIndex>, AllocError>
        requires { Found self.old (Some declared) }
        ensures found { (context : Context) (type : PlainType) → Knows self.old context
            → Finds self.old (Some declared) (Some type) → IfOk result
            (λ found. Finds self.new found (typed (with_bound context (Some type ∷ [])) body.now)) }
        ensures noted { (context : Context) (type : PlainType) → Knows self.old context
            → Finds self.old (Some declared) (Some type) → OnOk result
            (Noted self.old.first (offends (with_bound context (Some type ∷ [])) body.now) self.new.first) }
        ensures stays { OnOk result (Stays self.old self.new) }
    {
        let outside = self.bound.len();
        self.bind(Some(declared))?;
        let found = self.expression(body)?;
        self.leave(outside);
        Ok(found)
    }

    /// The type of an `if`.
    #[cycle(expressions)]
    fn if_else(
        &mut self,
        place: Place,
        condition: &Expr,
        first: &Expr,
        second: &Expr,
    ) -> Result<Option<TypeIndex>, AllocError>
        ensures found { (context : Context) → Knows self.old context
            → IfOk result (λ found. Finds self.new found (tree_typed context
            (IfElse place (expr_tree context.names condition.now) (expr_tree context.names first.now)
            (expr_tree context.names second.now)))) }
        ensures noted { (context : Context) → Knows self.old context
            → OnOk result (Noted self.old.first (tree_offends context
            (IfElse place (expr_tree context.names condition.now) (expr_tree context.names first.now)
            (expr_tree context.names second.now))) self.new.first) }
        ensures stays { OnOk result (Stays self.old self.new) }
    {
        let given = self.expression(condition)?;
        let one = self.expression(first)?;
        let other = self.expression(second)?;
        self.checked_if(place, given, one, other)
    }

    /// The type of an operator before an operand.
    #[cycle(expressions)]
    fn prefixed(
        &mut self,
        place: Place,
        prefix: Prefix,
        operand: &Expr,
    ) -> Result<Option<TypeIndex>, AllocError>
        ensures found { (context : Context) → Knows self.old context → IfOk result (λ found. Finds self.new found
            (tree_typed context (PrefixedOf place prefix (expr_tree context.names operand.now)))) }
        ensures noted { (context : Context) → Knows self.old context → OnOk result (Noted self.old.first
            (tree_offends context (PrefixedOf place prefix (expr_tree context.names operand.now))) self.new.first) }
        ensures stays { OnOk result (Stays self.old self.new) }
    {
        let given = self.expression(operand)?;
        self.checked_prefix(place, prefix, given)
    }
}
