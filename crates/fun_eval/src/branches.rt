//! Expressions that choose a part, or bind variables for one.
ghost use Rattle.std.specs.Prelude.{◌∷◌, [], ℕ, List, IfErr, IfOk, OnOk};
ghost use Rattle.abs_values.specs.Evaluation.{branches_outcome, chosen_outcome, evaluate, outcome_after, Outcome};
ghost use Rattle.abs_values.specs.Operations.{truth_of};
ghost use Rattle.abs_values.specs.Scopes.{with_bound};
ghost use Rattle.abs_tree.specs.Syntax.{ExprTree};
ghost use Rattle.abs_tree.specs.SyntaxViews.{branches as branch_trees, expr_tree};
ghost use Rattle.abs_values.specs.ValueTrees.{ValueTree};
ghost use Rattle.abs_values.specs.ValueViews.{value_tree};
ghost use Rattle.fun_eval.specs.Evaluating.{gives_in, library_in, names_in, outcome_in, evaluator_scope, Binds, ChosenBranch, IsOutcome, IsStopped, IsWithin, Stays};

use crate::evaluator::Evaluator;
use crate::patterns::first_match;
use crate::scope::Frame;
use crate::stop::Stop;
use abs_tree::{Branch, Expr};
use abs_values::{Fault, Value};
use std::alloc::AllocError;

impl Evaluator<'_> {
    /// The value of an `if`.
    #[cycle(evaluation)]
    #[inline(never)]
    pub fn if_else(
        &mut self,
        frame: &Frame<'_>,
        left: u32,
        condition: &Expr,
        first: &Expr,
        second: &Expr,
    ) -> Result<Value, Stop>
        requires { IsWithin frame.now self.old }
        ensures outcome { IsOutcome (outcome_after
            (outcome_in self.old frame.now left (expr_tree (names_in self.old) condition.now))
            (λ found. chosen_outcome (gives_in self.old frame.now left) (expr_tree (names_in self.old) first.now)
            (expr_tree (names_in self.old) second.now) (truth_of (names_in self.old) found))) result self.new }
        ensures stays { OnOk result (Stays self.old self.new) }
    {
        let condition = self.evaluate(frame, left, condition)?;
        match self.library.truth_of(&condition) {
            Some(true) => self.evaluate(frame, left, first),
            Some(false) => self.evaluate(frame, left, second),
            None => Err(Stop::Fault(Fault::Mistyped)),
        }
    }

    /// The value of a `let`.
    #[cycle(evaluation)]
    #[inline(never)]
    pub fn let_in(
        &mut self,
        frame: &Frame<'_>,
        left: u32,
        value: &Expr,
        body: &Expr,
    ) -> Result<Value, Stop>
        requires { IsWithin frame.now self.old }
        ensures outcome { IsOutcome (outcome_after
            (outcome_in self.old frame.now left (expr_tree (names_in self.old) value.now))
            (λ found. evaluate (library_in self.old) (with_bound (evaluator_scope frame.now self.old) (found ∷ [])) left
            (expr_tree (names_in self.old) body.now))) result self.new }
        ensures stays { OnOk result (Stays self.old self.new) }
    {
        let outside = self.bound.len();
        let value = self.evaluate(frame, left, value)?;
        self.bind(value)?;
        let found = self.evaluate(frame, left, body)?;
        self.bound.truncate(outside);
        Ok(found)
    }

    /// Binds one more variable.
    fn bind(&mut self, value: Value) -> Result<(), AllocError>
        ensures { OnOk result (Binds (value_tree value) self.old self.new) }
    {
        self.bound.push(value)?;
        Ok(())
    }

    /// The value of a `case`: that of the first branch whose pattern matches, where its variables are bound.
    #[cycle(evaluation)]
    #[inline(never)]
    pub fn case(
        &mut self,
        frame: &Frame<'_>,
        left: u32,
        subject: &Expr,
        branches: &[Branch],
    ) -> Result<Value, Stop>
        requires { IsWithin frame.now self.old }
        ensures outcome { IsOutcome (outcome_after
            (outcome_in self.old frame.now left (expr_tree (names_in self.old) subject.now))
            (branches_outcome (names_in self.old) (λ values. evaluate (library_in self.old)
            (with_bound (evaluator_scope frame.now self.old) values) left)
            (branch_trees (names_in self.old) branches.now))) result self.new }
        ensures stays { OnOk result (Stays self.old self.new) }
    {
        let outside = self.bound.len();
        let branch = self.chosen(frame, left, subject, branches)?;
        let found = self.evaluate(frame, left, &branch.value)?;
        self.bound.truncate(outside);
        Ok(found)
    }

    /// The branch that a subject chooses. The variables of its pattern are bound then.
    #[cycle(evaluation)]
    #[inline(never)]
    fn chosen<'b>(
        &mut self,
        frame: &Frame<'_>,
        left: u32,
        subject: &Expr,
        branches: &'b [Branch],
    ) -> Result<&'b Branch, Stop>
        requires { IsWithin frame.now self.old }
        ensures chosen { IfOk result (λ branch. ChosenBranch
            (outcome_in self.old frame.now left (expr_tree (names_in self.old) subject.now)) branches.now branch.now
            self.old self.new) }
        ensures stopped { (give : List ValueTree → ExprTree → ℕ → Outcome) → IfErr result (λ cause. IsStopped
            (outcome_after (outcome_in self.old frame.now left (expr_tree (names_in self.old) subject.now))
            (branches_outcome (names_in self.old) give (branch_trees (names_in self.old) branches.now))).result cause) }
    {
        let value = self.part(frame, left, subject)?;
        match first_match(
            &self.library.program.symbols,
            &value,
            branches,
            &mut self.bound,
        )? {
            Some(branch) => Ok(branch),
            None => Err(Stop::Fault(Fault::Match)),
        }
    }
}
