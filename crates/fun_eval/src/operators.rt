//! Operators: lists of one precedence, and those before an operand.
ghost use Rattle.std.specs.Prelude.{OnOk};
ghost use Rattle.abs_values.specs.Evaluation.{logical_outcome, operand_outcome, operators_outcome, result_after};
ghost use Rattle.abs_values.specs.Operations.{prefix_result, truth_of};
ghost use Rattle.abs_tree.specs.SyntaxViews.{operand_trees, expr_tree};
ghost use Rattle.abs_values.specs.ValueViews.{value_tree};
ghost use Rattle.fun_eval.specs.Evaluating.{gives_in, names_in, outcome_in, IsOutcome, IsWithin, Stays};

use crate::evaluator::Evaluator;
use crate::scope::Frame;
use crate::stop::Stop;
use abs_tree::{Expr, Operand, Operator, Prefix};
use abs_values::{Fault, Value};

impl Evaluator<'_> {
    /// The value of an operator list, applied from the left.
    #[cycle(evaluation)]
    #[inline(never)]
    pub fn operators(
        &mut self,
        frame: &Frame<'_>,
        left: u32,
        first: &Expr,
        operands: &[Operand],
    ) -> Result<Value, Stop>
        requires { IsWithin frame.now self.old }
        ensures outcome { IsOutcome (operators_outcome (names_in self.old) (gives_in self.old frame.now left)
            (outcome_in self.old frame.now left (expr_tree (names_in self.old) first.now))
            (operand_trees (names_in self.old) operands.now)) result self.new }
        ensures stays { OnOk result (Stays self.old self.new) }
    {
        let mut so_far = self.part(frame, left, first)?;
        for operand in operands {
            so_far = self.operand(frame, left, so_far, operand)?;
        }
        Ok(so_far)
    }

    /// The value of one operator of a list, given the value of all before it.
    #[cycle(evaluation)]
    fn operand(
        &mut self,
        frame: &Frame<'_>,
        left: u32,
        so_far: Value,
        operand: &Operand,
    ) -> Result<Value, Stop>
        requires { IsWithin frame.now self.old }
        ensures outcome { IsOutcome (operand_outcome (names_in self.old) (gives_in self.old frame.now left)
            operand.now.operator (expr_tree (names_in self.old) operand.now.right) (value_tree so_far)
            self.old.applications) result self.new }
        ensures stays { OnOk result (Stays self.old self.new) }
    {
        match operand.operator {
            Operator::And => self.logical(frame, left, so_far, false, &operand.right),
            Operator::Or => self.logical(frame, left, so_far, true, &operand.right),
            operator => {
                let right = self.part(frame, left, &operand.right)?;
                self.library.operate(operator, &so_far, &right)
            }
        }
    }

    /// The value of `&&` or `||`. A left value that decides is the value, and the right operand is not evaluated then.
    #[cycle(evaluation)]
    #[inline(never)]
    fn logical(
        &mut self,
        frame: &Frame<'_>,
        left: u32,
        so_far: Value,
        decides: bool,
        right: &Expr,
    ) -> Result<Value, Stop>
        requires { IsWithin frame.now self.old }
        ensures outcome { IsOutcome (logical_outcome (names_in self.old) (gives_in self.old frame.now left) decides
            (expr_tree (names_in self.old) right.now) (truth_of (names_in self.old) (value_tree so_far))
            self.old.applications) result self.new }
        ensures stays { OnOk result (Stays self.old self.new) }
    {
        let Some(answer) = self.library.truth_of(&so_far) else {
            return Err(Stop::Fault(Fault::Mistyped));
        };
        if answer == decides {
            return Ok(so_far);
        }
        let right = self.evaluate(frame, left, right)?;
        self.library.answered(self.library.truth_of(&right))
    }

    /// The value of an operator before an operand.
    #[cycle(evaluation)]
    #[inline(never)]
    pub fn prefixed(
        &mut self,
        frame: &Frame<'_>,
        left: u32,
        prefix: Prefix,
        operand: &Expr,
    ) -> Result<Value, Stop>
        requires { IsWithin frame.now self.old }
        ensures outcome { IsOutcome (result_after
            (outcome_in self.old frame.now left (expr_tree (names_in self.old) operand.now))
            (prefix_result (names_in self.old) prefix)) result self.new }
        ensures stays { OnOk result (Stays self.old self.new) }
    {
        let operand = self.evaluate(frame, left, operand)?;
        self.library.prefix(prefix, &operand)
    }
}
