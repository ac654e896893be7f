//! What expressions read.
ghost use Rattle.std.specs.Prelude.{◌≡◌, ◌↔◌, ◌⊎◌, ℕ, List, map, IfOk, Contains};
ghost use Rattle.std.specs.List.Sorted.{IsStrictlyIncreasing};
ghost use Rattle.abs_program.specs.InstructionViews.{shared_expr_trees};
ghost use Rattle.abs_tree.specs.Syntax.{Name};
ghost use Rattle.abs_tree.specs.SyntaxViews.{branches as branch_trees, expr_tree, expr_trees};
ghost use Rattle.abs_tree.specs.SyntaxViews.{operand_trees, variable_tree};
ghost use Rattle.abs_values.specs.References.{Reads as IsRead, ReadsInAny, ReadsInBranch, ReadsInOperand};
ghost use Rattle.abs_values.specs.Scopes.{location_of};
ghost use Rattle.contract_infer.specs.Collecting.{Notes};
ghost use Rattle.contract_terms.specs.Reading.{AreReads, IsReads};
ghost use Rattle.contract_terms.specs.Views.{reads_tree};

use abs_tree::{Branch, Expr, Operand, Variable};
use contract_terms::Reads;
use std::alloc::{AllocError, Global};
use std::sync::Arc;

/// What was read so far, with repetitions.
#[derive(Drop)]
struct Reader {
    slots: Vec<u32>,
    fields: Vec<u32>,
    this: bool,
    /// Whether an allocation failed. Then something that was read may be missing.
    failed: bool,
}

impl Reader {
    /// Notes a slot or a field. A bound variable is neither.
    fn variable(&mut self, variable: Variable)
        ensures { (names : List Name) → Notes self.old self.new
            (λ location. location_of (variable_tree names variable) ≡ Some location) }
    {
        match variable {
            Variable::Slot(slot) => self.failed |= self.slots.push(slot).is_err(),
            Variable::Field(field) => self.failed |= self.fields.push(field).is_err(),
            Variable::Bound(_) | Variable::Unresolved(_) => {}
        }
    }

    /// Notes what an expression reads.
    #[cycle(reading)]
    #[tactic(auto, unfolding(abs_values::specs::References::Reads))]
    fn expression(&mut self, expr: &Expr)
        ensures { (names : List Name) → Notes self.old self.new
            (λ location. IsRead location (expr_tree names expr.now)) }
    {
        match expr {
            Expr::This(_) => self.this = true,
            Expr::Variable(_, variable) => self.variable(*variable),
            Expr::Let { value, body, .. } => self.both(value, body),
            Expr::If {
                condition,
                first,
                second,
                ..
            } => {
                self.expression(condition);
                self.both(first, second);
            }
            Expr::Operators {
                first,
                operands,
                ..
            } => self.operators(first, operands),
            Expr::Prefixed { operand, .. } => self.expression(operand),
            Expr::Case {
                subject,
                branches,
                ..
            } => self.case(subject, branches),
            Expr::OwnCall { arguments, .. } => self.expressions(arguments),
            Expr::Apply { arguments, .. } | Expr::Build { arguments, .. } => {
                self.expressions(arguments)
            }
            Expr::Number(..)
            | Expr::Text(..)
            | Expr::Null(_)
            | Expr::Destiny(_)
            | Expr::Field { .. } => {}
        }
    }

    /// Notes what two expressions read.
    #[cycle(reading)]
    fn both(&mut self, one: &Expr, other: &Expr)
        ensures { (names : List Name) → Notes self.old self.new (λ location.
            IsRead location (expr_tree names one.now) ⊎ IsRead location (expr_tree names other.now)) }
    {
        self.expression(one);
        self.expression(other);
    }

    /// Notes what several expressions read.
    #[cycle(reading)]
    fn expressions(&mut self, exprs: &[Expr])
        ensures { (names : List Name) → Notes self.old self.new
            (λ location. ReadsInAny location (expr_trees names exprs.now)) }
    {
        for expr in exprs {
            self.expression(expr);
        }
    }

    /// Notes what an operator list reads.
    #[cycle(reading)]
    fn operators(&mut self, first: &Expr, operands: &[Operand])
        ensures { (names : List Name) → Notes self.old self.new (λ location.
            IsRead location (expr_tree names first.now) ⊎ ReadsInOperand location (operand_trees names operands.now)) }
    {
        self.expression(first);
        for operand in operands {
            self.expression(&operand.right);
        }
    }

    /// Notes what a `case` reads, in each of its branches.
    #[cycle(reading)]
    fn case(&mut self, subject: &Expr, branches: &[Branch])
        ensures { (names : List Name) → Notes self.old self.new (λ location.
            IsRead location (expr_tree names subject.now) ⊎ ReadsInBranch location (branch_trees names branches.now)) }
    {
        self.expression(subject);
        for branch in branches {
            self.expression(&branch.value);
        }
    }
}

/// These numbers in ascending order, each once.
fn each_once(mut numbers: Vec<u32>) -> Vec<u32>
    ensures same { (number : ℕ) → Contains result.items number ↔ Contains numbers.items number }
    ensures rises { IsStrictlyIncreasing result.items }
{
    numbers.sort_unstable();
    numbers.dedup();
    numbers
}

/// What an expression reads.
///
/// # Errors
/// [`AllocError`] if an allocation fails. So it is for each function here.
fn reads_of(alloc: Global, expr: &Expr) -> Result<Reads, AllocError>
    ensures { (names : List Name) → IfOk result (λ reads. IsReads (expr_tree names expr.now) (reads_tree reads)) }
{
    let mut reader = Reader {
        slots: Vec::new(alloc),
        fields: Vec::new(alloc),
        this: false,
        failed: false,
    };
    reader.expression(expr);
    if reader.failed {
        return Err(AllocError);
    }
    Ok(Reads {
        slots: each_once(reader.slots),
        fields: each_once(reader.fields),
        this: reader.this,
    })
}

/// What each of several expressions reads.
pub(crate) fn reads_of_all(alloc: Global, exprs: &[Expr]) -> Result<Vec<Reads>, AllocError>
    ensures { (names : List Name) → IfOk result (λ found. AreReads (expr_trees names exprs.now)
        (map reads_tree found.items)) }
{
    let mut found = Vec::with_capacity(alloc, exprs.len())?;
    for expr in exprs {
        found.push(reads_of(alloc, expr)?)?;
    }
    Ok(found)
}

/// What each initial value of a class reads.
pub(crate) fn reads_of_initials(
    alloc: Global,
    exprs: &[Arc<Expr>],
) -> Result<Vec<Reads>, AllocError>
    ensures { (names : List Name) → IfOk result (λ found. AreReads (shared_expr_trees names exprs.now)
        (map reads_tree found.items)) }
{
    let mut found = Vec::with_capacity(alloc, exprs.len())?;
    for expr in exprs {
        found.push(reads_of(alloc, expr)?)?;
    }
    Ok(found)
}
