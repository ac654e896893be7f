//! Operators on values.
ghost use Rattle.std.specs.Prelude.{◌≡◌, ◌++◌};
ghost use Rattle.abs_values.specs.Operations.{numbers_result, operation_result, prefix_result, sum_result};
ghost use Rattle.abs_values.specs.Printed.{printed_form};
ghost use Rattle.abs_values.specs.Results.{result_tree, string_result};
ghost use Rattle.abs_values.specs.ValueViews.{value_tree};
ghost use Rattle.fun_eval.specs.Reading.{IsResult};

use crate::library::Library;
use crate::stop::Stop;
use abs_tree::limits::STRING_LIMIT;
use abs_tree::{Operator, Prefix, Text};
use abs_values::{
    Evaluated, Fault, Value, arithmetic_of, comparison_of, negated, value_equal, value_text_within,
};
use std::alloc::Global;

impl Library<'_> {
    /// The value of an operator between two values that both have to be evaluated.
    pub fn operate(&self, operator: Operator, left: &Value, right: &Value) -> Result<Value, Stop>
        ensures { IsResult (operation_result self.now.program.now.symbols operator (value_tree left.now)
            (value_tree right.now)) result }
    {
        match operator {
            Operator::Equal => self.truth_value(value_equal(left, right)),
            Operator::NotEqual => self.truth_value(!value_equal(left, right)),
            Operator::Plus => self.sum(left, right),
            _ => self.numbers(operator, left, right),
        }
    }

    /// A sum of two strings or of two numbers.
    fn sum(&self, left: &Value, right: &Value) -> Result<Value, Stop>
        ensures { IsResult (sum_result self.now.program.now.symbols (value_tree left.now) (value_tree right.now))
            result }
    {
        match left {
            Value::Text(left) => match right {
                Value::Text(right) => joined(self.alloc, left, right),
                _ => Err(Stop::Fault(Fault::Mistyped)),
            },
            _ => self.numbers(Operator::Plus, left, right),
        }
    }

    /// The value of an operator between two numbers, other than an equality.
    fn numbers(&self, operator: Operator, left: &Value, right: &Value) -> Result<Value, Stop>
        ensures { IsResult (numbers_result self.now.program.now.symbols operator (value_tree left.now)
            (value_tree right.now)) result }
    {
        let Value::Int(left) = left else {
            return Err(Stop::Fault(Fault::Mistyped));
        };
        let Value::Int(right) = right else {
            return Err(Stop::Fault(Fault::Mistyped));
        };
        match arithmetic_of(operator, *left, *right) {
            Some(found) => given(found),
            None => self.answered(comparison_of(operator, *left, *right)),
        }
    }

    /// The value of an operator before a value.
    pub fn prefix(&self, prefix: Prefix, operand: &Value) -> Result<Value, Stop>
        ensures { IsResult (prefix_result self.now.program.now.symbols prefix (value_tree operand.now)) result }
    {
        match prefix {
            Prefix::Minus => match operand {
                Value::Int(number) => given(negated(*number)),
                _ => Err(Stop::Fault(Fault::Mistyped)),
            },
            Prefix::Not | Prefix::Tilde => match self.truth_of(operand) {
                Some(answer) => self.truth_value(!answer),
                None => Err(Stop::Fault(Fault::Mistyped)),
            },
        }
    }

    /// The string that `toString` gives for a value, or the fault Large.
    pub fn string_of(&self, value: &Value) -> Result<Value, Stop>
        ensures { IsResult (string_result (printed_form self.now.program.now.symbols (value_tree value.now))) result }
    {
        match value_text_within(self.alloc, &self.program.symbols, value, STRING_LIMIT)? {
            Some(text) => Ok(Value::Text(text)),
            None => Err(Stop::Fault(Fault::Large)),
        }
    }
}

/// A sum of two strings, or the fault Large.
fn joined(alloc: Global, left: &Text, right: &Text) -> Result<Value, Stop>
    ensures { IsResult (string_result (left.now ++ right.now)) result }
{
    if left.len() > STRING_LIMIT || right.len() > STRING_LIMIT - left.len() {
        return Err(Stop::Fault(Fault::Large));
    }
    let mut bytes = Vec::with_capacity(alloc, left.len() + right.len())?;
    bytes.extend_from_slice(left.as_bytes())?;
    bytes.extend_from_slice(right.as_bytes())?;
    Ok(Value::Text(Text::new(alloc, bytes)?))
}

/// A result as a value or a stop.
fn given(found: Evaluated) -> Result<Value, Stop>
    ensures { IsResult (result_tree found) result }
{
    match found {
        Evaluated::Good(value) => Ok(value),
        Evaluated::Bad(fault) => Err(Stop::Fault(fault)),
    }
}
