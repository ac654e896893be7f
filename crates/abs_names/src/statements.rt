//! Statements: each local of a body is numbered, and a block has a scope of its own.
ghost use Rattle.std.specs.Prelude.{◌≡◌, ◌++◌, ◌∷◌, [], ⊤, ℕ, fold, length, IfOk, OnOk};
ghost use Rattle.abs_tree.specs.Offences.{earlier};
ghost use Rattle.abs_program.specs.Slots.{statement_slots, statements_slots, else_slots};
ghost use Rattle.abs_tree.specs.Syntax.{AtSlot, BlockOf, SkipOf, SuspendOf, AwaitOf, ReturnOf, PrintOf, IfOf, WhileOf, DeclareOf};
ghost use Rattle.abs_tree.specs.declared.syntax.slot.Slot.TheVariants.{Local};
ghost use Rattle.abs_tree.specs.SyntaxViews.{variable_tree, type_tree, expr_tree, maybe_side, tests as test_trees, target_tree, statement as statement_tree, statements as statement_trees, maybe_statements};
ghost use Rattle.abs_names.specs.NameOffences.{expr_offences, tests_offences, target_offences, local_offences, statement_offences, statements_offences, else_offences};
ghost use Rattle.abs_names.specs.Resolution.{resolved_expr, resolved_tests, resolved_target, resolved_statement, resolved_statements, resolved_else};
ghost use Rattle.abs_names.specs.Scopes.{with_variable, statement_scope};

use crate::slots::Slots;
use crate::walk::{Walk, note_if};
use abs_tree::{Code, Expr, Place, RightSide, Slot, Stmt, Target, Test, TypeTerm, Variable};
use std::alloc::AllocError;
use std::sync::Arc;

impl Walk<'_> {
    /// Resolves the statements of a block. The scope is as before, since it ends with the block.
    ///
    /// # Errors
    /// [`AllocError`] if an allocation fails.
    #[cycle(statements)]
    pub fn block(&mut self, slots: &mut Slots, stmts: &[Stmt]) -> Result<Vec<Stmt>, AllocError>
        ensures found { IfOk result (λ found. statement_trees self.old.scope.names.after found.items
            ≡ resolved_statements self.old.scope.scope (length slots.old.items.items)
            (statement_trees self.old.scope.names.before stmts.now)) }
        ensures noted { OnOk result (self.new.first ≡ fold earlier self.old.first
            (statements_offences self.old.scope.scope (length slots.old.items.items)
            (statement_trees self.old.scope.names.before stmts.now))) }
        ensures slots { OnOk result (slots.new.items.items
            ≡ slots.old.items.items ++ statements_slots (statement_trees self.old.scope.names.before stmts.now)) }
        ensures scope { OnOk result (self.new.scope ≡ self.old.scope) }
    {
        let outside = self.scope.len();
        let mut found = Vec::with_capacity(self.alloc, stmts.len())?;
        for stmt in stmts {
            found.push(self.statement(slots, stmt)?)?;
        }
        self.scope.leave(outside);
        Ok(found)
    }

    /// Resolves a statement. The scope is then the one after it.
    #[cycle(statements)]
    fn statement(&mut self, slots: &mut Slots, stmt: &Stmt) -> Result<Stmt, AllocError>
        ensures found { IfOk result (λ found. statement_tree self.old.scope.names.after found
            ≡ resolved_statement self.old.scope.scope (length slots.old.items.items)
            (statement_tree self.old.scope.names.before stmt.now)) }
        ensures noted { OnOk result (self.new.first ≡ fold earlier self.old.first
            (statement_offences self.old.scope.scope (length slots.old.items.items)
            (statement_tree self.old.scope.names.before stmt.now))) }
        ensures slots { OnOk result (slots.new.items.items
            ≡ slots.old.items.items ++ statement_slots (statement_tree self.old.scope.names.before stmt.now)) }
        ensures names { OnOk result (self.new.scope.names ≡ self.old.scope.names) }
        ensures after { OnOk result (self.new.scope.scope
            ≡ statement_scope self.old.scope.scope (length slots.old.items.items)
            (statement_tree self.old.scope.names.before stmt.now)) }
    {
        match stmt {
            Stmt::Block(place, block) => Ok(Stmt::Block(*place, self.block(slots, block)?)),
            Stmt::If {
                index,
                place,
                condition,
                first,
                second,
            } => Ok(Stmt::If {
                index: *index,
                place: *place,
                condition: self.shared(condition)?,
                first: self.block(slots, first)?,
                second: self.maybe_block(slots, second)?,
            }),
            Stmt::While {
                index,
                place,
                condition,
                body,
            } => Ok(Stmt::While {
                index: *index,
                place: *place,
                condition: self.shared(condition)?,
                body: self.block(slots, body)?,
            }),
            _ => self.flat(slots, stmt),
        }
    }

    /// Resolves the statements of an `else`, if there is one.
    #[cycle(statements)]
    fn maybe_block(
        &mut self,
        slots: &mut Slots,
        stmts: &Option<Vec<Stmt>>,
    ) -> Result<Option<Vec<Stmt>>, AllocError>
        ensures found { IfOk result (λ found. maybe_statements self.old.scope.names.after found
            ≡ resolved_else self.old.scope.scope (length slots.old.items.items)
            (maybe_statements self.old.scope.names.before stmts.now)) }
        ensures noted { OnOk result (self.new.first ≡ fold earlier self.old.first
            (else_offences self.old.scope.scope (length slots.old.items.items)
            (maybe_statements self.old.scope.names.before stmts.now))) }
        ensures slots { OnOk result (slots.new.items.items
            ≡ slots.old.items.items ++ else_slots (maybe_statements self.old.scope.names.before stmts.now)) }
        ensures scope { OnOk result (self.new.scope ≡ self.old.scope) }
    {
        match stmts {
            Some(stmts) => Ok(Some(self.block(slots, stmts)?)),
            None => Ok(None),
        }
    }

    /// Resolves a statement that holds no other one. The scope is then the one after it.
    fn flat(&mut self, slots: &mut Slots, stmt: &Stmt) -> Result<Stmt, AllocError>
        requires flat { elim (statement_tree self.old.scope.names.before stmt.now) [
          | BlockOf _ _ ↦ ⊥
          | IfOf _ _ _ _ _ ↦ ⊥
          | WhileOf _ _ _ _ ↦ ⊥
          | _ ↦ ⊤
        ] }
        ensures found { IfOk result (λ found. statement_tree self.old.scope.names.after found
            ≡ resolved_statement self.old.scope.scope (length slots.old.items.items)
            (statement_tree self.old.scope.names.before stmt.now)) }
        ensures noted { OnOk result (self.new.first ≡ fold earlier self.old.first
            (statement_offences self.old.scope.scope (length slots.old.items.items)
            (statement_tree self.old.scope.names.before stmt.now))) }
        ensures slots { OnOk result (slots.new.items.items
            ≡ slots.old.items.items ++ statement_slots (statement_tree self.old.scope.names.before stmt.now)) }
        ensures names { OnOk result (self.new.scope.names ≡ self.old.scope.names) }
        ensures after { OnOk result (self.new.scope.scope
            ≡ statement_scope self.old.scope.scope (length slots.old.items.items)
            (statement_tree self.old.scope.names.before stmt.now)) }
    {
        match stmt {
            Stmt::Declare {
                index,
                place,
                type_of,
                variable_place,
                variable,
                initial,
            } => self.declare(
                slots,
                *index,
                *place,
                type_of,
                *variable_place,
                *variable,
                initial,
            ),
            Stmt::Assign {
                index,
                place,
                target,
                side,
            } => Ok(Stmt::Assign {
                index: *index,
                place: *place,
                target: self.target(*target),
                side: self.side(slots, *index, side)?,
            }),
            Stmt::Do { index, place, side } => Ok(Stmt::Do {
                index: *index,
                place: *place,
                side: self.side(slots, *index, side)?,
            }),
            _ => self.simple(stmt),
        }
    }

    /// Resolves a declaration of a local, which its initial value does not see.
    fn declare(
        &mut self,
        slots: &mut Slots,
        index: u32,
        place: Place,
        type_of: &TypeTerm,
        variable_place: Place,
        variable: Variable,
        initial: &Option<RightSide>,
    ) -> Result<Stmt, AllocError>
        ensures found { IfOk result (λ found. statement_tree self.old.scope.names.after found
            ≡ resolved_statement self.old.scope.scope (length slots.old.items.items)
            (DeclareOf index place (type_tree self.old.scope.names.before type_of.now) variable_place
            (variable_tree self.old.scope.names.before variable)
            (maybe_side self.old.scope.names.before initial.now))) }
        ensures noted { OnOk result (self.new.first ≡ fold earlier self.old.first
            (statement_offences self.old.scope.scope (length slots.old.items.items)
            (DeclareOf index place (type_tree self.old.scope.names.before type_of.now) variable_place
            (variable_tree self.old.scope.names.before variable)
            (maybe_side self.old.scope.names.before initial.now)))) }
        ensures slots { OnOk result (slots.new.items.items ≡ slots.old.items.items ++ statement_slots
            (DeclareOf index place (type_tree self.old.scope.names.before type_of.now) variable_place
            (variable_tree self.old.scope.names.before variable)
            (maybe_side self.old.scope.names.before initial.now))) }
        ensures names { OnOk result (self.new.scope.names ≡ self.old.scope.names) }
        ensures after { OnOk result (self.new.scope.scope
            ≡ statement_scope self.old.scope.scope (length slots.old.items.items)
            (DeclareOf index place (type_tree self.old.scope.names.before type_of.now) variable_place
            (variable_tree self.old.scope.names.before variable)
            (maybe_side self.old.scope.names.before initial.now))) }
    {
        let type_of = self.type_term(type_of)?;
        let initial = self.maybe_side(slots, index, initial)?;
        let variable = self.local(slots, index, variable_place, variable)?;
        Ok(Stmt::Declare {
            index,
            place,
            type_of,
            variable_place,
            variable,
            initial,
        })
    }

    /// Declares the local of the statement with this index, which gets the next slot. A name that is taken is noted.
    fn local(
        &mut self,
        slots: &mut Slots,
        index: u32,
        place: Place,
        variable: Variable,
    ) -> Result<Variable, AllocError>
        ensures found { IfOk result
            (λ found. variable_tree self.old.scope.names.after found ≡ AtSlot (length slots.old.items.items)) }
        ensures noted { OnOk result (self.new.first ≡ fold earlier self.old.first
            (local_offences self.old.scope.scope place (variable_tree self.old.scope.names.before variable))) }
        ensures slots { OnOk result (slots.new.items.items ≡ slots.old.items.items ++ Local index ∷ []) }
        ensures names { OnOk result (self.new.scope.names ≡ self.old.scope.names) }
        ensures declared { OnOk result (self.new.scope.scope ≡ with_variable self.old.scope.scope
            (variable_tree self.old.scope.names.before variable) (AtSlot (length slots.old.items.items))) }
    {
        let slot = Variable::Slot(slots.add(Slot::Local(index))?);
        if let Variable::Unresolved(name) = variable {
            let taken = self.scope.is_variable(name);
            note_if(&mut self.first, taken, place, Code::N1);
            self.scope.declare(name, slot)?;
        }
        Ok(slot)
    }

    /// Resolves a target. A field of `this` is a variable like others.
    fn target(&mut self, target: Target) -> Target
        ensures found { target_tree self.old.scope.names.after result
            ≡ resolved_target self.old.scope.scope (target_tree self.old.scope.names.before target) }
        ensures noted { self.new.first ≡ fold earlier self.old.first
            (target_offences self.old.scope.scope (target_tree self.old.scope.names.before target)) }
        ensures scope { self.new.scope ≡ self.old.scope }
    {
        match target {
            Target::Variable(place, variable) => Target::Variable(
                place,
                self.used(place, variable),
            ),
            Target::Field {
                place,
                name_place,
                name,
            } => {
                self.note_field(place, name_place, name);
                match self.scope.field_of(name) {
                    Some(variable) => Target::Variable(place, variable),
                    None => Target::Field {
                        place,
                        name_place,
                        name: self.scope.around().kept(name),
                    },
                }
            }
        }
    }

    /// Resolves a statement that holds neither another one nor a right side. The scope is as before.
    fn simple(&mut self, stmt: &Stmt) -> Result<Stmt, AllocError>
        requires simple { elim (statement_tree self.old.scope.names.before stmt.now) [
          | SkipOf _ _ ↦ ⊤
          | SuspendOf _ _ ↦ ⊤
          | AwaitOf _ _ _ ↦ ⊤
          | ReturnOf _ _ _ ↦ ⊤
          | PrintOf _ _ _ ↦ ⊤
          | _ ↦ ⊥
        ] }
        ensures found { (next : ℕ) → IfOk result (λ found. statement_tree self.old.scope.names.after found
            ≡ resolved_statement self.old.scope.scope next (statement_tree self.old.scope.names.before stmt.now)) }
        ensures noted { (next : ℕ) → OnOk result (self.new.first ≡ fold earlier self.old.first
            (statement_offences self.old.scope.scope next (statement_tree self.old.scope.names.before stmt.now))) }
        ensures scope { OnOk result (self.new.scope ≡ self.old.scope) }
    {
        match stmt {
            Stmt::Skip { index, place } => Ok(Stmt::Skip {
                index: *index,
                place: *place,
            }),
            Stmt::Suspend { index, place } => Ok(Stmt::Suspend {
                index: *index,
                place: *place,
            }),
            Stmt::Await {
                index,
                place,
                guard,
            } => Ok(Stmt::Await {
                index: *index,
                place: *place,
                guard: self.tests(guard)?,
            }),
            Stmt::Return {
                index,
                place,
                value,
            } => Ok(Stmt::Return {
                index: *index,
                place: *place,
                value: self.shared(value)?,
            }),
            Stmt::Print {
                index,
                place,
                value,
            } => Ok(Stmt::Print {
                index: *index,
                place: *place,
                value: self.shared(value)?,
            }),
            _ => unreachable!(),
        }
    }

    /// Resolves a guard.
    fn tests(&mut self, tests: &[Test]) -> Result<Vec<Test>, AllocError>
        ensures found { IfOk result (λ found. test_trees self.old.scope.names.after found.items
            ≡ resolved_tests self.old.scope.scope (test_trees self.old.scope.names.before tests.now)) }
        ensures noted { OnOk result (self.new.first ≡ fold earlier self.old.first
            (tests_offences self.old.scope.scope (test_trees self.old.scope.names.before tests.now))) }
        ensures scope { OnOk result (self.new.scope ≡ self.old.scope) }
    {
        let mut found = Vec::with_capacity(self.alloc, tests.len())?;
        for test in tests {
            let value = self.shared(&test.value)?;
            found.push(Test {
                place: test.place,
                value,
                asks: test.asks,
            })?;
        }
        Ok(found)
    }

    /// Resolves an expression that is shared.
    pub fn shared(&mut self, expr: &Expr) -> Result<Arc<Expr>, AllocError>
        ensures found { IfOk result (λ found. expr_tree self.old.scope.names.after found.value
            ≡ resolved_expr self.old.scope.scope (expr_tree self.old.scope.names.before expr.now)) }
        ensures noted { OnOk result (self.new.first ≡ fold earlier self.old.first
            (expr_offences self.old.scope.scope (expr_tree self.old.scope.names.before expr.now))) }
        ensures scope { OnOk result (self.new.scope ≡ self.old.scope) }
    {
        let found = self.expression(expr)?;
        Ok(Arc::new(self.alloc, found)?)
    }
}
