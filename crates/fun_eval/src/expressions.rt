//! Expressions: the form of an expression says how it is evaluated.
ghost use Rattle.std.specs.Prelude.{OnOk};
ghost use Rattle.abs_values.specs.Results.{string_result};
ghost use Rattle.abs_tree.specs.SyntaxViews.{expr_tree};
ghost use Rattle.fun_eval.specs.Evaluating.{names_in, outcome_in, IsOutcome, IsWithin, Stays};
ghost use Rattle.fun_eval.specs.Reading.{IsResult};

use crate::evaluator::Evaluator;
use crate::scope::Frame;
use crate::stop::Stop;
use abs_tree::limits::STRING_LIMIT;
use abs_tree::{Expr, Text};
use abs_values::{Fault, Value};

impl Evaluator<'_> {
    /// The value of an expression with `left` levels left. The stacks are as before after it.
    ///
    /// # Errors
    /// [`Stop::Fault`] with the fault that the expression gives, and [`Stop::Memory`] if an allocation fails. So it is
    /// for each function here.
    #[cycle(evaluation)]
    pub fn evaluate(&mut self, frame: &Frame<'_>, left: u32, expr: &Expr) -> Result<Value, Stop>
        requires { IsWithin frame.now self.old }
        ensures outcome { IsOutcome (outcome_in self.old frame.now left (expr_tree (names_in self.old) expr.now)) result
            self.new }
        ensures stays { OnOk result (Stays self.old self.new) }
    {
        if left == 0 {
            return Err(Stop::Fault(Fault::Levels));
        }
        match expr {
            Expr::Number(_, number) => Ok(Value::Int(*number)),
            Expr::Variable(_, variable) => self.variable(frame, *variable),
            Expr::Operators {
                first,
                operands,
                ..
            } => self.operators(frame, left - 1, first, operands),
            Expr::If {
                condition,
                first,
                second,
                ..
            } => self.if_else(frame, left - 1, condition, first, second),
            Expr::Case {
                subject,
                branches,
                ..
            } => self.case(frame, left - 1, subject, branches),
            Expr::Apply {
                function,
                arguments,
                ..
            } => self.apply(frame, left - 1, *function, arguments),
            Expr::Build {
                constructor,
                arguments,
                ..
            } => self.build(frame, left - 1, *constructor, arguments),
            Expr::Let { value, body, .. } => self.let_in(frame, left - 1, value, body),
            Expr::Prefixed {
                prefix,
                operand,
                ..
            } => self.prefixed(frame, left - 1, *prefix, operand),
            Expr::Text(_, text) => string(text),
            Expr::Null(_) => Ok(Value::Null),
            Expr::This(_) => frame.this(),
            Expr::Destiny(_) | Expr::Field { .. } | Expr::OwnCall { .. } => {
                Err(Stop::Fault(Fault::Mistyped))
            }
        }
    }

    /// The value of an operand, an argument or a subject with `left` levels left. Most of them are numbers and
    /// variables, which need no call.
    #[cycle(evaluation)]
    #[inline(always)]
    pub fn part(&mut self, frame: &Frame<'_>, left: u32, expr: &Expr) -> Result<Value, Stop>
        requires { IsWithin frame.now self.old }
        ensures outcome { IsOutcome (outcome_in self.old frame.now left (expr_tree (names_in self.old) expr.now)) result
            self.new }
        ensures stays { OnOk result (Stays self.old self.new) }
    {
        match expr {
            Expr::Number(_, number) if left > 0 => Ok(Value::Int(*number)),
            Expr::Variable(_, variable) if left > 0 => self.variable(frame, *variable),
            _ => self.evaluate(frame, left, expr),
        }
    }
}

/// The value of a string, or the fault Large.
fn string(text: &Text) -> Result<Value, Stop>
    ensures { IsResult (string_result text.now) result }
{
    if text.len() <= STRING_LIMIT {
        Ok(Value::Text(text.share()?))
    } else {
        Err(Stop::Fault(Fault::Large))
    }
}
