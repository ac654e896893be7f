//! The settled slots that each statement of a body names.
ghost use Rattle.std.specs.Prelude.{◌≡◌, ◌≤◌, ◌∷◌, ◌&&◌, ℕ, List, [], false, length, IfOk, Option, option_to_list, slice_index_or};
ghost use Rattle.abs_program.specs.Instructions.{effect_of, side_effect, slot_of as slot_of_expr, waits_of};
ghost use Rattle.abs_program.specs.MadeInstructions.{begins_with_this};
ghost use Rattle.abs_tree.specs.Syntax.{Name, VariableTree};
ghost use Rattle.abs_tree.specs.SyntaxViews.{expr_tree, expr_trees, maybe_statements, side_tree, statement as statement_tree, statements as statement_trees, tests as test_trees, variable_tree};
ghost use Rattle.contract_infer.specs.SettledRows.{rows_of, AreSettledRows};
ghost use Rattle.contract_infer.specs.SettledWalk.{added, among, awaited_by, cleared, done, future_of as future_by, hidden_of as hidden_by, kept, named_in, named_slots_in, passed, passed_one, passed_else, passed_if, passed_loop, slot_at as slot_as, target_of as target_by, with_row, Does, Takes};
ghost use Rattle.contract_terms.specs.Settled.{assigned_by, assigned_in, assigned_in_else, assigns, named_slots, settles};

use abs_tree::{Expr, RightSide, Stmt, Target, Test, Variable};
use std::alloc::{AllocError, Global};

/// The slot that an expression is, if it is one.
fn slot_of(expr: &Expr) -> Option<u32>
    ensures { (names : List Name) → result ≡ slot_of_expr (expr_tree names expr.now) }
{
    match expr {
        Expr::Variable(_, Variable::Slot(slot)) => Some(*slot),
        _ => None,
    }
}

/// Whether the receiver of a call, the first one of its operands, is `this`.
fn is_own(operands: &[Expr]) -> bool
    ensures { (names : List Name) → result ≡ begins_with_this (expr_trees names operands.now) }
{
    matches!(operands.first(), Some(Expr::This(_)))
}

/// The slot that a part of a guard names: that of its value, if a `?` follows.
fn named_by(test: &Test) -> Option<u32>
    ensures { (names : List Name) → result ≡ named_in test.now.asks (expr_tree names test.now.value.value) }
{
    if test.asks {
        slot_of(&test.value)
    } else {
        None
    }
}

/// The guard of an `await`. Other statements have none.
fn guard_of(stmt: &Stmt) -> &[Test]
    ensures { (names : List Name) → waits_of (test_trees names result.now)
        ≡ awaited_by (effect_of (statement_tree names stmt.now)) }
{
    match stmt {
        Stmt::Await { guard, .. } => guard.as_slice(),
        _ => &[],
    }
}

/// The slot that a `get` on a right side names.
fn future_in(side: &RightSide) -> Option<u32>
    ensures { (names : List Name) (target : Option VariableTree) → result
        ≡ future_by (side_effect (side_tree names side.now) target) }
{
    match side {
        RightSide::Get { future, .. } => slot_of(future),
        RightSide::New { .. }
        | RightSide::Value(..)
        | RightSide::Send { .. }
        | RightSide::Call { .. } => None,
    }
}

/// The hidden slot of a call by `.` on a right side. A call on `this` does not use it.
fn hidden_in(side: &RightSide) -> Option<u32>
    ensures { (names : List Name) (target : Option VariableTree) → result
        ≡ hidden_by (side_effect (side_tree names side.now) target) }
{
    match side {
        RightSide::Call { operands, .. } if is_own(operands.as_slice()) => None,
        RightSide::Call { slot, .. } => *slot,
        RightSide::New { .. }
        | RightSide::Value(..)
        | RightSide::Send { .. }
        | RightSide::Get { .. } => None,
    }
}

/// The slot that a statement names by a `get`.
fn future_of(stmt: &Stmt) -> Option<u32>
    ensures { (names : List Name) → result ≡ future_by (effect_of (statement_tree names stmt.now)) }
{
    match stmt {
        Stmt::Declare {
            initial: Some(side),
            ..
        } => future_in(side),
        Stmt::Assign { side, .. } => future_in(side),
        Stmt::Do { side, .. } => future_in(side),
        _ => None,
    }
}

/// The hidden slot that a statement assigns.
fn hidden_of(stmt: &Stmt) -> Option<u32>
    ensures { (names : List Name) → result ≡ hidden_by (effect_of (statement_tree names stmt.now)) }
{
    match stmt {
        Stmt::Declare {
            initial: Some(side),
            ..
        } => hidden_in(side),
        Stmt::Assign { side, .. } => hidden_in(side),
        Stmt::Do { side, .. } => hidden_in(side),
        _ => None,
    }
}

/// The slot that a variable is, if it is one.
fn slot_at(variable: Variable) -> Option<u32>
    ensures { (names : List Name) → result ≡ slot_as (Some (variable_tree names variable)) }
{
    match variable {
        Variable::Slot(slot) => Some(slot),
        Variable::Unresolved(_) | Variable::Bound(_) | Variable::Field(_) => None,
    }
}

/// The slot that is the target of a statement. A field that is not resolved is none.
fn target_of(stmt: &Stmt) -> Option<u32>
    ensures { (names : List Name) → result ≡ target_by (effect_of (statement_tree names stmt.now)) }
{
    match stmt {
        Stmt::Declare { variable, .. } => slot_at(*variable),
        Stmt::Assign {
            target: Target::Variable(_, variable),
            ..
        } => slot_at(*variable),
        _ => None,
    }
}

/// Makes each slot unsettled that is not among these.
fn narrow(settled: &mut [bool], others: &[bool])
    requires { length settled.old ≤ length others.now }
    ensures { (slot : ℕ) → slice_index_or settled.new slot false
        ≡ (slice_index_or others.now slot false && slice_index_or settled.old slot false) }
{
    for index in 0..settled.len() {
        settled[index] &= others[index];
    }
}

/// A walk over a body: which slots are settled where it is, and a row for each statement that it passed.
#[derive(Drop)]
struct Walk {
    alloc: Global,
    /// For each slot of the body, whether it is settled.
    settled: Vec<bool>,
    rows: Vec<Vec<u32>>,
    /// Whether an allocation failed, or a slot was none of the body's, which does not happen. The rest does not matter
    /// then.
    failed: bool,
}

impl Walk {
    /// Whether a slot is settled.
    fn is_settled(&self, slot: u32) -> bool
        ensures { result ≡ slice_index_or self.now.settled.items slot false }
    {
        matches!(self.settled.get(slot as usize), Some(true))
    }

    /// Makes a slot unsettled, if there is one.
    fn clear(&mut self, named: Option<u32>)
        ensures { Does (cleared (among (option_to_list named))) self.old self.new }
    {
        if let Some(slot) = named {
            let index = slot as usize;
            if index < self.settled.len() {
                self.settled[index] = false;
            }
        }
    }

    /// Makes a slot settled, if there is one.
    fn settle(&mut self, named: Option<u32>)
        ensures { Does (added (among (option_to_list named))) self.old self.new }
    {
        if let Some(slot) = named {
            let index = slot as usize;
            if index < self.settled.len() {
                self.settled[index] = true;
            } else {
                self.failed = true;
            }
        }
    }

    /// Adds a slot to a row, if it is settled, and makes it unsettled, so that it is not added twice.
    fn take_slot(&mut self, slot: u32, row: &mut Vec<u32>)
        ensures { Takes (slot ∷ []) self.old self.new row.old.items row.new.items }
    {
        if self.is_settled(slot) {
            self.clear(Some(slot));
            if row.push(slot).is_err() {
                self.failed = true;
            }
        }
    }

    /// Does the same with a slot that may be missing.
    fn take(&mut self, named: Option<u32>, row: &mut Vec<u32>)
        ensures { Takes (option_to_list named) self.old self.new row.old.items row.new.items }
    {
        if let Some(slot) = named {
            self.take_slot(slot, row);
        }
    }

    /// Does the same with each slot that a guard names.
    fn take_guard(&mut self, guard: &[Test], row: &mut Vec<u32>)
        ensures { (names : List Name) → Takes (named_slots_in (test_trees names guard.now)) self.old self.new
            row.old.items row.new.items }
    {
        for test in guard {
            self.take(named_by(test), row);
        }
    }

    /// The settled slots that a statement names, each once. They are unsettled after it.
    fn take_named(&mut self, stmt: &Stmt) -> Vec<u32>
        ensures { (names : List Name) → Takes (named_slots (effect_of (statement_tree names stmt.now))) self.old
            self.new [] result.items }
    {
        let mut row = Vec::new(self.alloc);
        self.take_guard(guard_of(stmt), &mut row);
        self.take(future_of(stmt), &mut row);
        row
    }

    /// Adds the row of a statement.
    fn push(&mut self, row: Vec<u32>)
        ensures { Does (with_row row.items) self.old self.new }
    {
        if self.rows.push(row).is_err() {
            self.failed = true;
        }
    }

    /// Makes each slot settled that a guard names.
    fn settle_guard(&mut self, guard: &[Test])
        ensures { (names : List Name) → Does (added (among (named_slots_in (test_trees names guard.now)))) self.old
            self.new }
    {
        for test in guard {
            self.settle(named_by(test));
        }
    }

    /// Makes each slot settled that a statement names.
    fn settle_named(&mut self, stmt: &Stmt)
        ensures { (names : List Name) → Does (added (settles (effect_of (statement_tree names stmt.now))))
            self.old self.new }
    {
        self.settle_guard(guard_of(stmt));
        self.settle(future_of(stmt));
    }

    /// Makes each slot unsettled that a statement assigns, not counting the statements in it.
    fn assign(&mut self, stmt: &Stmt)
        ensures { (names : List Name) → Does (cleared (assigns (effect_of (statement_tree names stmt.now))))
            self.old self.new }
    {
        self.clear(hidden_of(stmt));
        self.clear(target_of(stmt));
    }

    /// Passes a statement, not counting the statements in it.
    fn alone(&mut self, stmt: &Stmt)
        ensures { (names : List Name) → Does (done (effect_of (statement_tree names stmt.now))) self.old self.new }
    {
        let row = self.take_named(stmt);
        self.push(row);
        self.settle_named(stmt);
        self.assign(stmt);
    }

    /// Makes each slot unsettled that statements assign, at any depth.
    #[cycle(forget)]
    fn forget(&mut self, stmts: &[Stmt])
        ensures { (names : List Name) → Does (cleared (assigned_in (statement_trees names stmts.now)))
            self.old self.new }
    {
        for stmt in stmts {
            self.forget_one(stmt);
        }
    }

    /// Makes each slot unsettled that a statement assigns, at any depth.
    #[cycle(forget)]
    fn forget_one(&mut self, stmt: &Stmt)
        ensures { (names : List Name) → Does (cleared (assigned_by (statement_tree names stmt.now)))
            self.old self.new }
    {
        match stmt {
            Stmt::Block(_, block) => self.forget(block),
            Stmt::If { first, second, .. } => {
                self.forget(first);
                self.forget_other(second);
            }
            Stmt::While { body, .. } => self.forget(body),
            _ => self.assign(stmt),
        }
    }

    /// Makes each slot unsettled that the other branch of an `if` assigns, if there is one.
    #[cycle(forget)]
    fn forget_other(&mut self, branch: &Option<Vec<Stmt>>)
        ensures { (names : List Name) → Does (cleared (assigned_in_else (maybe_statements names branch.now)))
            self.old self.new }
    {
        if let Some(branch) = branch {
            self.forget(branch);
        }
    }

    /// A copy of what is settled.
    ///
    /// # Errors
    /// [`AllocError`] if an allocation fails.
    fn copy(&self) -> Result<Vec<bool>, AllocError>
        ensures { IfOk result (λ bits. bits.items ≡ self.now.settled.items) }
    {
        Vec::from_slice(self.alloc, self.settled.as_slice())
    }

    /// Makes each slot unsettled that is not among these.
    fn keep(&mut self, others: &[bool])
        ensures { Does (kept (λ slot. slice_index_or others.now slot false)) self.old self.new }
    {
        self.settled.truncate(others.len());
        narrow(self.settled.as_mut_slice(), others);
    }

    /// Passes statements.
    #[cycle(walk)]
    fn statements(&mut self, stmts: &[Stmt])
        ensures { (names : List Name) → Does (passed (statement_trees names stmts.now)) self.old self.new }
    {
        for stmt in stmts {
            self.statement(stmt);
        }
    }

    /// Passes a statement and those in it.
    #[cycle(walk)]
    fn statement(&mut self, stmt: &Stmt)
        ensures { (names : List Name) → Does (passed_one (statement_tree names stmt.now)) self.old self.new }
    {
        match stmt {
            Stmt::Block(_, block) => self.statements(block),
            Stmt::If { first, second, .. } => self.branches(first, second),
            Stmt::While { body, .. } => self.body(body),
            _ => self.alone(stmt),
        }
    }

    /// Passes an `if` with these branches. After it a slot is settled if it is after both.
    #[cycle(walk)]
    fn branches(&mut self, first: &[Stmt], second: &Option<Vec<Stmt>>)
        ensures { (names : List Name) → Does (passed_if (statement_trees names first.now)
            (maybe_statements names second.now)) self.old self.new }
    {
        self.push(Vec::new(self.alloc));
        let Ok(before) = self.copy() else {
            self.failed = true;
            return;
        };
        self.statements(first);
        let after_first = std::mem::replace(&mut self.settled, before);
        self.other(second);
        self.keep(after_first.as_slice());
    }

    /// Passes the other branch of an `if`, if there is one.
    #[cycle(walk)]
    fn other(&mut self, branch: &Option<Vec<Stmt>>)
        ensures { (names : List Name) → Does (passed_else (maybe_statements names branch.now)) self.old self.new }
    {
        if let Some(branch) = branch {
            self.statements(branch);
        }
    }

    /// Passes a loop. A slot that its body assigns is not settled at it, and not after it.
    #[cycle(walk)]
    fn body(&mut self, body: &[Stmt])
        ensures { (names : List Name) → Does (passed_loop (statement_trees names body.now)) self.old self.new }
    {
        self.push(Vec::new(self.alloc));
        self.forget(body);
        let Ok(at_loop) = self.copy() else {
            self.failed = true;
            return;
        };
        self.statements(body);
        self.settled = at_loop;
    }
}

/// For each statement of a body, in the order of their indices, the slots that it names and that are settled there. The
/// body has this many slots.
///
/// # Errors
/// [`AllocError`] if an allocation fails, or if a statement names a slot that is none of the body's, which does not
/// happen.
pub(crate) fn settled_rows(
    alloc: Global,
    slots: usize,
    stmts: &[Stmt],
) -> Result<Vec<Vec<u32>>, AllocError>
    ensures { (names : List Name) → IfOk result (λ rows. AreSettledRows (statement_trees names stmts.now)
        (rows_of rows.items)) }
{
    let mut walk = Walk {
        alloc,
        settled: vec![in alloc; false; slots]?,
        rows: Vec::new(alloc),
        failed: false,
    };
    walk.statements(stmts);
    if walk.failed {
        return Err(AllocError);
    }
    Ok(walk.rows)
}
