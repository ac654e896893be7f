//! Expressions: each use of a variable becomes what it stands for.
ghost use Rattle.std.specs.Prelude.{◌≡◌, ◌++◌, ⊤, fold, IfOk, OnOk};
ghost use Rattle.abs_tree.specs.Offences.{earlier};
ghost use Rattle.abs_tree.specs.SyntaxViews.{variable_tree, type_tree, pattern_tree, expr_tree, expr_trees, operand_trees, branches as branch_trees};
ghost use Rattle.abs_tree.specs.Syntax.{LetIn, IfElse, OperatorsOf, Prefixed as PrefixedOf, CaseOf, OwnCallOf, ApplyOf, BuildOf, FieldOf, DestinyOf, ThisOf};
ghost use Rattle.abs_tree.specs.Names.{name_of};
ghost use Rattle.abs_names.specs.NameOffences.{pattern_offences, expr_offences, exprs_offences, operands_offences, branches_offences};
ghost use Rattle.abs_names.specs.Resolution.{resolved_pattern, resolved_expr, resolved_exprs, resolved_operands, resolved_branches};
ghost use Rattle.abs_names.specs.Scopes.{pattern_scope};

use crate::walk::Walk;
use abs_tree::{Branch, Expr, Operand, Place, Symbol, TypeTerm, Variable};
use std::alloc::AllocError;
use std::sync::Arc;

impl Walk<'_> {
    /// Resolves an expression. The scope is as before.
    ///
    /// # Errors
    /// [`AllocError`] if an allocation fails.
    #[cycle(expressions)]
    pub fn expression(&mut self, expr: &Expr) -> Result<Expr, AllocError>
        ensures found { IfOk result (λ found. expr_tree self.old.scope.names.after found
            ≡ resolved_expr self.old.scope.scope (expr_tree self.old.scope.names.before expr.now)) }
        ensures noted { OnOk result (self.new.first ≡ fold earlier self.old.first
            (expr_offences self.old.scope.scope (expr_tree self.old.scope.names.before expr.now))) }
        ensures scope { OnOk result (self.new.scope ≡ self.old.scope) }
    {
        match expr {
            Expr::Let {
                place,
                type_of,
                variable_place,
                variable,
                value,
                body,
            } => self.let_in(*place, type_of, *variable_place, *variable, value, body),
            Expr::If {
                place,
                condition,
                first,
                second,
            } => self.if_else(*place, condition, first, second),
            Expr::Operators {
                place,
                first,
                operands,
            } => self.operators(*place, first, operands),
            Expr::Prefixed {
                place,
                prefix,
                operand,
            } => Ok(Expr::Prefixed {
                place: *place,
                prefix: *prefix,
                operand: self.boxed(operand)?,
            }),
            Expr::Case {
                place,
                subject,
                branches,
            } => self.case(*place, subject, branches),
            _ => self.primary(expr),
        }
    }

    /// Resolves a `let`, whose body sees the variable.
    #[cycle(expressions)]
    fn let_in(
        &mut self,
        place: Place,
        type_of: &TypeTerm,
        variable_place: Place,
        variable: Variable,
        value: &Expr,
        body: &Expr,
    ) -> Result<Expr, AllocError>
        ensures found { IfOk result (λ found. expr_tree self.old.scope.names.after found
            ≡ resolved_expr self.old.scope.scope (LetIn place (type_tree self.old.scope.names.before type_of.now)
            variable_place (variable_tree self.old.scope.names.before variable)
            (expr_tree self.old.scope.names.before value.now) (expr_tree self.old.scope.names.before body.now))) }
        ensures noted { OnOk result (self.new.first ≡ fold earlier self.old.first
            (expr_offences self.old.scope.scope (LetIn place (type_tree self.old.scope.names.before type_of.now)
            variable_place (variable_tree self.old.scope.names.before variable)
            (expr_tree self.old.scope.names.before value.now) (expr_tree self.old.scope.names.before body.now)))) }
        ensures scope { OnOk result (self.new.scope ≡ self.old.scope) }
    {
        let type_of = self.type_term(type_of)?;
        let value = self.boxed(value)?;
        let outside = self.scope.len();
        let variable = self.bind(variable_place, variable)?;
        let body = self.boxed(body)?;
        self.scope.leave(outside);
        Ok(Expr::Let {
            place,
            type_of: Box::new(self.alloc, type_of)?,
            variable_place,
            variable,
            value,
            body,
        })
    }

    /// Resolves an `if`.
    #[cycle(expressions)]
    fn if_else(
        &mut self,
        place: Place,
        condition: &Expr,
        first: &Expr,
        second: &Expr,
    ) -> Result<Expr, AllocError>
        ensures found { IfOk result (λ found. expr_tree self.old.scope.names.after found
            ≡ resolved_expr self.old.scope.scope (IfElse place (expr_tree self.old.scope.names.before condition.now)
            (expr_tree self.old.scope.names.before first.now) (expr_tree self.old.scope.names.before second.now))) }
        ensures noted { OnOk result (self.new.first ≡ fold earlier self.old.first
            (expr_offences self.old.scope.scope (IfElse place (expr_tree self.old.scope.names.before condition.now)
            (expr_tree self.old.scope.names.before first.now) (expr_tree self.old.scope.names.before second.now)))) }
        ensures scope { OnOk result (self.new.scope ≡ self.old.scope) }
    {
        Ok(Expr::If {
            place,
            condition: self.boxed(condition)?,
            first: self.boxed(first)?,
            second: self.boxed(second)?,
        })
    }

    /// Resolves operators of one precedence.
    #[cycle(expressions)]
    fn operators(
        &mut self,
        place: Place,
        first: &Expr,
        operands: &[Operand],
    ) -> Result<Expr, AllocError>
        ensures found { IfOk result (λ found. expr_tree self.old.scope.names.after found
            ≡ resolved_expr self.old.scope.scope (OperatorsOf place (expr_tree self.old.scope.names.before first.now)
            (operand_trees self.old.scope.names.before operands.now))) }
        ensures noted { OnOk result (self.new.first ≡ fold earlier self.old.first
            (expr_offences self.old.scope.scope (OperatorsOf place (expr_tree self.old.scope.names.before first.now)
            (operand_trees self.old.scope.names.before operands.now)))) }
        ensures scope { OnOk result (self.new.scope ≡ self.old.scope) }
    {
        Ok(Expr::Operators {
            place,
            first: self.boxed(first)?,
            operands: self.operands(operands)?,
        })
    }

    /// Resolves a `case`.
    #[cycle(expressions)]
    fn case(
        &mut self,
        place: Place,
        subject: &Expr,
        branches: &[Branch],
    ) -> Result<Expr, AllocError>
        ensures found { IfOk result (λ found. expr_tree self.old.scope.names.after found
            ≡ resolved_expr self.old.scope.scope (CaseOf place (expr_tree self.old.scope.names.before subject.now)
            (branch_trees self.old.scope.names.before branches.now))) }
        ensures noted { OnOk result (self.new.first ≡ fold earlier self.old.first
            (expr_offences self.old.scope.scope (CaseOf place (expr_tree self.old.scope.names.before subject.now)
            (branch_trees self.old.scope.names.before branches.now)))) }
        ensures scope { OnOk result (self.new.scope ≡ self.old.scope) }
    {
        Ok(Expr::Case {
            place,
            subject: self.boxed(subject)?,
            branches: self.branches(branches)?,
        })
    }

    /// Resolves an expression of the lowest level of the grammar.
    #[cycle(expressions)]
    fn primary(&mut self, expr: &Expr) -> Result<Expr, AllocError>
        requires primary { elim (expr_tree self.old.scope.names.before expr.now) [
          | LetIn _ _ _ _ _ _ ↦ ⊥
          | IfElse _ _ _ _ ↦ ⊥
          | OperatorsOf _ _ _ ↦ ⊥
          | PrefixedOf _ _ _ ↦ ⊥
          | CaseOf _ _ _ ↦ ⊥
          | _ ↦ ⊤
        ] }
        ensures found { IfOk result (λ found. expr_tree self.old.scope.names.after found
            ≡ resolved_expr self.old.scope.scope (expr_tree self.old.scope.names.before expr.now)) }
        ensures noted { OnOk result (self.new.first ≡ fold earlier self.old.first
            (expr_offences self.old.scope.scope (expr_tree self.old.scope.names.before expr.now))) }
        ensures scope { OnOk result (self.new.scope ≡ self.old.scope) }
    {
        match expr {
            Expr::OwnCall {
                place,
                method,
                arguments,
            } => self.own_call(*place, *method, arguments),
            Expr::Apply {
                place,
                function,
                arguments,
            } => self.apply(*place, *function, arguments),
            Expr::Build {
                place,
                constructor,
                arguments,
            } => self.build(*place, *constructor, arguments),
            Expr::Field {
                place,
                name_place,
                name,
            } => Ok(self.field(*place, *name_place, *name)),
            Expr::Variable(place, name) => Ok(Expr::Variable(*place, self.used(*place, *name))),
            Expr::Number(place, number) => Ok(Expr::Number(*place, *number)),
            Expr::Text(place, text) => Ok(Expr::Text(*place, text.share()?)),
            Expr::Null(place) => Ok(Expr::Null(*place)),
            Expr::Destiny(place) => Ok(self.destiny(*place)),
            Expr::This(place) => Ok(self.this(*place)),
            _ => unreachable!(),
        }
    }

    /// Resolves a call on `this`.
    #[cycle(expressions)]
    fn own_call(
        &mut self,
        place: Place,
        method: Symbol,
        arguments: &[Expr],
    ) -> Result<Expr, AllocError>
        ensures found { IfOk result (λ found. expr_tree self.old.scope.names.after found
            ≡ resolved_expr self.old.scope.scope (OwnCallOf place (name_of self.old.scope.names.before method)
            (expr_trees self.old.scope.names.before arguments.now))) }
        ensures noted { OnOk result (self.new.first ≡ fold earlier self.old.first
            (expr_offences self.old.scope.scope (OwnCallOf place (name_of self.old.scope.names.before method)
            (expr_trees self.old.scope.names.before arguments.now)))) }
        ensures scope { OnOk result (self.new.scope ≡ self.old.scope) }
    {
        let known = self.scope.has_this();
        self.note_unless(known, place);
        let arguments = self.expressions(arguments)?;
        Ok(Expr::OwnCall {
            place,
            method: self.scope.around().kept(method),
            arguments: Arc::new(self.alloc, arguments)?,
        })
    }

    /// Resolves an application of a function.
    #[cycle(expressions)]
    fn apply(
        &mut self,
        place: Place,
        function: Symbol,
        arguments: &[Expr],
    ) -> Result<Expr, AllocError>
        ensures found { IfOk result (λ found. expr_tree self.old.scope.names.after found
            ≡ resolved_expr self.old.scope.scope (ApplyOf place (name_of self.old.scope.names.before function)
            (expr_trees self.old.scope.names.before arguments.now))) }
        ensures noted { OnOk result (self.new.first ≡ fold earlier self.old.first
            (expr_offences self.old.scope.scope (ApplyOf place (name_of self.old.scope.names.before function)
            (expr_trees self.old.scope.names.before arguments.now)))) }
        ensures scope { OnOk result (self.new.scope ≡ self.old.scope) }
    {
        let taken = self.scope.around().function_taking(function);
        self.note_applied(taken, arguments.len(), place);
        let arguments = self.expressions(arguments)?;
        Ok(Expr::Apply {
            place,
            function: self.scope.around().kept(function),
            arguments,
        })
    }

    /// Resolves an application of a constructor.
    #[cycle(expressions)]
    fn build(
        &mut self,
        place: Place,
        constructor: Symbol,
        arguments: &[Expr],
    ) -> Result<Expr, AllocError>
        ensures found { IfOk result (λ found. expr_tree self.old.scope.names.after found
            ≡ resolved_expr self.old.scope.scope (BuildOf place (name_of self.old.scope.names.before constructor)
            (expr_trees self.old.scope.names.before arguments.now))) }
        ensures noted { OnOk result (self.new.first ≡ fold earlier self.old.first
            (expr_offences self.old.scope.scope (BuildOf place (name_of self.old.scope.names.before constructor)
            (expr_trees self.old.scope.names.before arguments.now)))) }
        ensures scope { OnOk result (self.new.scope ≡ self.old.scope) }
    {
        let taken = self.scope.around().constructor_taking(constructor);
        self.note_applied(taken, arguments.len(), place);
        let arguments = self.expressions(arguments)?;
        Ok(Expr::Build {
            place,
            constructor: self.scope.around().kept(constructor),
            arguments,
        })
    }

    /// A field of `this` as the variable that it is. One that is unknown is noted, and stays as it is.
    fn field(&mut self, place: Place, name_place: Place, name: Symbol) -> Expr
        ensures found { expr_tree self.old.scope.names.after result ≡ resolved_expr self.old.scope.scope
            (FieldOf place name_place (name_of self.old.scope.names.before name)) }
        ensures noted { self.new.first ≡ fold earlier self.old.first (expr_offences self.old.scope.scope
            (FieldOf place name_place (name_of self.old.scope.names.before name))) }
        ensures scope { self.new.scope ≡ self.old.scope }
    {
        self.note_field(place, name_place, name);
        match self.scope.field_of(name) {
            Some(variable) => Expr::Variable(place, variable),
            None => Expr::Field {
                place,
                name_place,
                name: self.scope.around().kept(name),
            },
        }
    }

    /// `destiny`. It is noted where there is no task.
    fn destiny(&mut self, place: Place) -> Expr
        ensures found { expr_tree self.old.scope.names.after result ≡ DestinyOf place }
        ensures noted { self.new.first
            ≡ fold earlier self.old.first (expr_offences self.old.scope.scope (DestinyOf place)) }
        ensures scope { self.new.scope ≡ self.old.scope }
    {
        let known = self.scope.has_task();
        self.note_unless(known, place);
        Expr::Destiny(place)
    }

    /// `this`. It is noted where there is none.
    fn this(&mut self, place: Place) -> Expr
        ensures found { expr_tree self.old.scope.names.after result ≡ ThisOf place }
        ensures noted { self.new.first
            ≡ fold earlier self.old.first (expr_offences self.old.scope.scope (ThisOf place)) }
        ensures scope { self.new.scope ≡ self.old.scope }
    {
        let known = self.scope.has_this();
        self.note_unless(known, place);
        Expr::This(place)
    }

    /// Resolves an expression into a box.
    #[cycle(expressions)]
    fn boxed(&mut self, expr: &Expr) -> Result<Box<Expr>, AllocError>
        ensures found { IfOk result (λ found. expr_tree self.old.scope.names.after found.value
            ≡ resolved_expr self.old.scope.scope (expr_tree self.old.scope.names.before expr.now)) }
        ensures noted { OnOk result (self.new.first ≡ fold earlier self.old.first
            (expr_offences self.old.scope.scope (expr_tree self.old.scope.names.before expr.now))) }
        ensures scope { OnOk result (self.new.scope ≡ self.old.scope) }
    {
        let found = self.expression(expr)?;
        Ok(Box::new(self.alloc, found)?)
    }

    /// Resolves the expressions of a list.
    #[cycle(expressions)]
    pub fn expressions(&mut self, exprs: &[Expr]) -> Result<Vec<Expr>, AllocError>
        ensures found { IfOk result (λ found. expr_trees self.old.scope.names.after found.items
            ≡ resolved_exprs self.old.scope.scope (expr_trees self.old.scope.names.before exprs.now)) }
        ensures noted { OnOk result (self.new.first ≡ fold earlier self.old.first
            (exprs_offences self.old.scope.scope (expr_trees self.old.scope.names.before exprs.now))) }
        ensures scope { OnOk result (self.new.scope ≡ self.old.scope) }
    {
        let mut found = Vec::with_capacity(self.alloc, exprs.len())?;
        for expr in exprs {
            found.push(self.expression(expr)?)?;
        }
        Ok(found)
    }

    /// Resolves the right operands of an operator list.
    #[cycle(expressions)]
    fn operands(&mut self, operands: &[Operand]) -> Result<Vec<Operand>, AllocError>
        ensures found { IfOk result (λ found. operand_trees self.old.scope.names.after found.items
            ≡ resolved_operands self.old.scope.scope (operand_trees self.old.scope.names.before operands.now)) }
        ensures noted { OnOk result (self.new.first ≡ fold earlier self.old.first
            (operands_offences self.old.scope.scope (operand_trees self.old.scope.names.before operands.now))) }
        ensures scope { OnOk result (self.new.scope ≡ self.old.scope) }
    {
        let mut found = Vec::with_capacity(self.alloc, operands.len())?;
        for operand in operands {
            let right = self.expression(&operand.right)?;
            found.push(Operand {
                operator: operand.operator,
                right,
            })?;
        }
        Ok(found)
    }

    /// Resolves the branches of a `case`.
    #[cycle(expressions)]
    fn branches(&mut self, branches: &[Branch]) -> Result<Vec<Branch>, AllocError>
        ensures found { IfOk result (λ found. branch_trees self.old.scope.names.after found.items
            ≡ resolved_branches self.old.scope.scope (branch_trees self.old.scope.names.before branches.now)) }
        ensures noted { OnOk result (self.new.first ≡ fold earlier self.old.first
            (branches_offences self.old.scope.scope (branch_trees self.old.scope.names.before branches.now))) }
        ensures scope { OnOk result (self.new.scope ≡ self.old.scope) }
    {
        let mut found = Vec::with_capacity(self.alloc, branches.len())?;
        for branch in branches {
            found.push(self.branch(branch)?)?;
        }
        Ok(found)
    }

    /// Resolves a branch, whose value sees the variables of its pattern.
    #[cycle(expressions)]
    fn branch(&mut self, branch: &Branch) -> Result<Branch, AllocError>
        ensures pattern { IfOk result (λ found. pattern_tree self.old.scope.names.after found.pattern
            ≡ resolved_pattern self.old.scope.scope (pattern_tree self.old.scope.names.before branch.now.pattern)) }
        ensures value { IfOk result (λ found. expr_tree self.old.scope.names.after found.value ≡ resolved_expr
            (pattern_scope self.old.scope.scope (pattern_tree self.old.scope.names.before branch.now.pattern))
            (expr_tree self.old.scope.names.before branch.now.value)) }
        ensures noted { OnOk result (self.new.first ≡ fold earlier self.old.first
            (pattern_offences self.old.scope.scope (pattern_tree self.old.scope.names.before branch.now.pattern)
            ++ expr_offences (pattern_scope self.old.scope.scope
            (pattern_tree self.old.scope.names.before branch.now.pattern))
            (expr_tree self.old.scope.names.before branch.now.value))) }
        ensures scope { OnOk result (self.new.scope ≡ self.old.scope) }
    {
        let outside = self.scope.len();
        let pattern = self.pattern(&branch.pattern)?;
        let value = self.expression(&branch.value)?;
        self.scope.leave(outside);
        Ok(Branch { pattern, value })
    }
}
