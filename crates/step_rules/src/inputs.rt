//! What tasks evaluate for their events.
ghost use Rattle.std.specs.Prelude.{◌≡◌, ◌↔◌, List, map, IsTrue};
ghost use Rattle.std.specs.Cmp.Lexicographic.{pointwise};
ghost use Rattle.abs_program.specs.InstructionViews.{exprs_tree, shared_expr_trees};
ghost use Rattle.abs_tree.specs.Syntax.{Name};
ghost use Rattle.abs_values.specs.ValueTrees.{same_value};
ghost use Rattle.abs_values.specs.ValueViews.{value_tree};
ghost use Rattle.fun_eval.specs.Reading.{env_scope};
ghost use Rattle.step_rules.specs.InputViews.{IsSameInput, initials_tree};

use abs_program::Exprs;
use abs_tree::Expr;
use abs_values::{Env, Value, value_equal};
use std::sync::Arc;

/// The initial values of the fields of a class. A copy shares them.
#[derive(Drop)]
pub enum Initials {
    /// There is none.
    None,
    /// All of a class.
    Row(Arc<Vec<Arc<Expr>>>),
}

impl Initials {
    /// The initial values in order.
    pub fn as_slice(&self) -> &[Arc<Expr>]
        ensures { (names : List Name) → shared_expr_trees names result.now ≡ initials_tree names self.now }
    {
        match self {
            Initials::None => &[],
            Initials::Row(row) => row.as_slice(),
        }
    }
}

/// What a task evaluates for its event: the values that its expressions can read, the expressions of its next
/// statement, and for `new` also the initial values of the fields of the class.
#[derive(Drop)]
pub struct Input {
    pub env: Env,
    pub exprs: Exprs,
    pub inits: Initials,
}

/// Whether two inputs are the same: each reads the same values and evaluates the same expressions. It takes no memory.
pub fn input_equal(left: &Input, right: &Input) -> bool
    ensures { IsTrue result ↔ IsSameInput left.now right.now }
{
    if !env_equal(&left.env, &right.env) {
        return false;
    }
    exprs_equal(&left.exprs, &right.exprs) && initials_equal(&left.inits, &right.inits)
}

/// Whether the same values can be read: the same object, and the same values of slots and of fields.
fn env_equal(left: &Env, right: &Env) -> bool
    ensures { IsTrue result ↔ (env_scope left.now ≡ env_scope right.now) }
{
    if left.this != right.this {
        return false;
    }
    values_equal(left.slots.as_slice(), right.slots.as_slice())
        && values_equal(left.fields.as_slice(), right.fields.as_slice())
}

/// Whether two lists of values are the same, one by one.
fn values_equal(left: &[Value], right: &[Value]) -> bool
    ensures { result ≡ pointwise same_value (map value_tree left.now) (map value_tree right.now) }
{
    if left.len() != right.len() {
        return false;
    }
    for (one, other) in left.iter().zip(right) {
        if !value_equal(one, other) {
            return false;
        }
    }
    true
}

/// Whether two statements have the same expressions.
fn exprs_equal(left: &Exprs, right: &Exprs) -> bool
    ensures { IsTrue result ↔ ((names : List Name) → exprs_tree names left.now ≡ exprs_tree names right.now) }
{
    left.as_slice() == right.as_slice()
}

/// Whether two classes have the same initial values.
fn initials_equal(left: &Initials, right: &Initials) -> bool
    ensures { IsTrue result ↔ ((names : List Name) → initials_tree names left.now ≡ initials_tree names right.now) }
{
    left.as_slice() == right.as_slice()
}
