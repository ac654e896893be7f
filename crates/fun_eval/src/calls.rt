//! The calls that evaluate the expressions of a statement, each with all levels and a count of its own.
ghost use Rattle.std.specs.Prelude.{◌≡◌, [], IfOk};
ghost use Rattle.abs_values.specs.Evaluation.{result_of, results_of};
ghost use Rattle.abs_program.specs.InstructionViews.{shared_expr_trees};
ghost use Rattle.abs_values.specs.Results.{result_tree, results_tree};
ghost use Rattle.abs_values.specs.Scopes.{library_of};
ghost use Rattle.abs_program.specs.NamedViews.{program_tree};
ghost use Rattle.abs_tree.specs.SyntaxViews.{expr_tree, expr_trees};
ghost use Rattle.fun_eval.specs.Evaluating.{library_in, names_in, GivesAll};
ghost use Rattle.fun_eval.specs.Reading.{env_scope, scope_tree};

use crate::evaluator::Evaluator;
use crate::scope::{Frame, Scope};
use crate::stop::Stop;
use abs_program::Named;
use abs_tree::Expr;
use abs_tree::limits::LEVEL_LIMIT;
use abs_values::{Env, Evaluated, Output, Value, Values};
use std::alloc::{AllocError, Global};
use std::sync::Arc;

/// The result of a statement's own expression.
///
/// # Errors
/// [`AllocError`] if an allocation fails. So it is for each call here.
pub fn eval(
    alloc: Global,
    program: &Named<'_>,
    env: &Env,
    expr: &Expr,
) -> Result<Evaluated, AllocError>
    ensures { IfOk result (λ found. result_tree found ≡ result_of (library_of (program_tree program.now))
        (env_scope env.now) (expr_tree program.now.symbols expr.now)) }
{
    eval_in(alloc, program, Scope::of(env), expr)
}

/// The results of all expressions of a statement: first its own ones, and then, for a new object, the initial values of
/// its fields, as the entry of its class has them.
pub fn eval_all(
    alloc: Global,
    program: &Named<'_>,
    env: &Env,
    exprs: &[Expr],
    inits: &[Arc<Expr>],
) -> Result<Output, AllocError>
    ensures { IfOk result (λ output. results_tree output ≡ results_of (library_of (program_tree program.now))
        (env_scope env.now) (expr_trees program.now.symbols exprs.now)
        (shared_expr_trees program.now.symbols inits.now)) }
{
    eval_all_in(alloc, program, Scope::of(env), exprs, inits)
}

/// The result of a statement's own expression, as [`eval`] gives it, where the values that it reads are borrowed.
pub fn eval_in(
    alloc: Global,
    program: &Named<'_>,
    scope: Scope<'_>,
    expr: &Expr,
) -> Result<Evaluated, AllocError>
    ensures { IfOk result (λ found. result_tree found ≡ result_of (library_of (program_tree program.now))
        (scope_tree scope.entry) (expr_tree program.now.symbols expr.now)) }
{
    let mut evaluator = Evaluator::new(alloc, program);
    match evaluator.evaluate(&Frame::Statement(scope), LEVEL_LIMIT, expr) {
        Ok(value) => Ok(Evaluated::Good(value)),
        Err(Stop::Fault(fault)) => Ok(Evaluated::Bad(fault)),
        Err(Stop::Memory) => Err(AllocError),
    }
}

/// The results of all expressions of a statement, as [`eval_all`] gives them, where the values that they read are
/// borrowed.
pub fn eval_all_in(
    alloc: Global,
    program: &Named<'_>,
    scope: Scope<'_>,
    exprs: &[Expr],
    inits: &[Arc<Expr>],
) -> Result<Output, AllocError>
    ensures { IfOk result (λ output. results_tree output ≡ results_of (library_of (program_tree program.now))
        (scope_tree scope.entry) (expr_trees program.now.symbols exprs.now)
        (shared_expr_trees program.now.symbols inits.now)) }
{
    let mut evaluator = Evaluator::new(alloc, program);
    match evaluator.all_values(scope, exprs, inits) {
        Ok(values) => Ok(Output::Values(Values::new(values))),
        Err(Stop::Fault(fault)) => Ok(Output::Bad(fault)),
        Err(Stop::Memory) => Err(AllocError),
    }
}

impl Evaluator<'_> {
    /// The values of all expressions of a statement.
    fn all_values(
        &mut self,
        scope: Scope<'_>,
        exprs: &[Expr],
        inits: &[Arc<Expr>],
    ) -> Result<Vec<Value>, Stop>
        requires bound { self.old.bound.items ≡ [] }
        requires applications { self.old.applications ≡ 0 }
        ensures { GivesAll (results_of (library_in self.old) (scope_tree scope.entry)
            (expr_trees (names_in self.old) exprs.now) (shared_expr_trees (names_in self.old) inits.now)) result }
    {
        let mut values = self.values(&Frame::Statement(scope), LEVEL_LIMIT, exprs)?;
        for initial in inits {
            let scope = Scope::of_values(values.as_slice());
            let value = self.evaluate(&Frame::Statement(scope), LEVEL_LIMIT, initial)?;
            values.push(value)?;
        }
        Ok(values)
    }
}
