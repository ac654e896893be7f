//! What variables and `this` read.
ghost use Rattle.std.specs.Prelude.{◌≡◌, List, Some, map};
ghost use Rattle.std.specs.Option.{option_map};
ghost use Rattle.abs_values.specs.Evaluation.{read_result};
ghost use Rattle.abs_values.specs.Scopes.{location_of, value_at, InBound, InField, InSlot, InThis};
ghost use Rattle.abs_tree.specs.SyntaxViews.{variable_tree};
ghost use Rattle.abs_values.specs.ValueTrees.{ValueTree};
ghost use Rattle.abs_values.specs.ValueViews.{value_tree};
ghost use Rattle.fun_eval.specs.Reading.{found_result, IsResult};
ghost use Rattle.fun_eval.specs.Evaluating.{names_in, scope_in, evaluator_scope};

use crate::evaluator::Evaluator;
use crate::scope::Frame;
use crate::stop::Stop;
use abs_tree::Variable;
use abs_values::{Fault, Value};

impl Evaluator<'_> {
    /// The value of a variable.
    pub fn variable(&self, frame: &Frame<'_>, variable: Variable) -> Result<Value, Stop>
        ensures { IsResult (read_result (evaluator_scope frame.now self.now)
            (location_of (variable_tree (names_in self.now) variable))) result }
    {
        match variable {
            Variable::Slot(slot) => shared(slot_in(&self.arguments, frame, slot)),
            Variable::Bound(depth) => shared(bound_in(&self.bound, frame, depth)),
            Variable::Field(field) => shared(frame.field(field)),
            Variable::Unresolved(_) => Err(Stop::Fault(Fault::Mistyped)),
        }
    }
}

impl Frame<'_> {
    /// The value of a field of the own object, if there is one.
    fn field(&self, field: u32) -> Option<&Value>
        ensures { (arguments variables : List ValueTree) → option_map (λ found. value_tree found.now) result
            ≡ value_at (scope_in self.now arguments variables) (InField field) }
    {
        match self {
            Frame::Statement(scope) => scope.fields.get(field as usize),
            Frame::Function { .. } => None,
        }
    }

    /// The own object.
    pub fn this(&self) -> Result<Value, Stop>
        ensures { (arguments variables : List ValueTree)
            → IsResult (read_result (scope_in self.now arguments variables) (Some InThis)) result }
    {
        match self {
            Frame::Statement(scope) => match scope.this {
                Some(object) => Ok(Value::Object(object)),
                None => Err(Stop::Fault(Fault::Mistyped)),
            },
            Frame::Function { .. } => Err(Stop::Fault(Fault::Mistyped)),
        }
    }
}

/// The value of a slot, if there is one: of the statement, or of the function whose arguments are among these.
fn slot_in<'v>(arguments: &'v [Value], frame: &'v Frame<'_>, slot: u32) -> Option<&'v Value>
    ensures { (variables : List ValueTree) → option_map (λ found. value_tree found.now) result
        ≡ value_at (scope_in frame.now (map value_tree arguments.now) variables) (InSlot slot) }
{
    match frame {
        Frame::Statement(scope) => scope.slots.get(slot as usize),
        Frame::Function { first, count, .. } => {
            if (slot as usize) < *count {
                arguments.get(first.checked_add(slot as usize)?)
            } else {
                None
            }
        }
    }
}

/// The value of a bound variable, if there is one.
fn bound_in<'v>(bound: &'v [Value], frame: &Frame<'_>, depth: u32) -> Option<&'v Value>
    ensures { (arguments : List ValueTree) → option_map (λ found. value_tree found.now) result
        ≡ value_at (scope_in frame.now arguments (map value_tree bound.now)) (InBound depth) }
{
    match frame {
        Frame::Statement(_) => bound.get(depth as usize),
        Frame::Function { bound: from, .. } => bound.get(from.checked_add(depth as usize)?),
    }
}

/// A copy of a value that is read, or the fault Mistyped if there is none.
fn shared(found: Option<&Value>) -> Result<Value, Stop>
    ensures { IsResult (found_result (option_map (λ value. value_tree value.now) found.entry)) result }
{
    match found {
        Some(value) => Ok(value.share()?),
        None => Err(Stop::Fault(Fault::Mistyped)),
    }
}
