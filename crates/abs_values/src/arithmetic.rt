//! Operators on numbers.
ghost use Rattle.std.specs.Prelude.{◌≡◌, ℤ, neg_ℤ, Option, FitsSigned};
ghost use Rattle.std.specs.Int.{w128};
ghost use Rattle.std.specs.Option.{SomeIff, option_map};
ghost use Rattle.abs_values.specs.Numbers.{number_result, quotient_result, remainder_result, arithmetic_result, number_comparison};
ghost use Rattle.abs_values.specs.Results.{result_tree};

use crate::{Evaluated, Fault, Value};
use abs_tree::syntax::Operator;

/// The result of an operator of arithmetic for two numbers. One that does not fit in 128 bits is the fault Overflow,
/// and a divisor 0 is the fault Zero. Another operator has none.
pub fn arithmetic_of(operator: Operator, left: i128, right: i128) -> Option<Evaluated>
    ensures { option_map result_tree result ≡ arithmetic_result operator left right }
{
    match operator {
        Operator::Plus => Some(checked(left.checked_add(right))),
        Operator::Minus => Some(checked(left.checked_sub(right))),
        Operator::Times => Some(checked(left.checked_mul(right))),
        Operator::Divide => Some(quotient(left, right)),
        Operator::Remainder => Some(remainder(left, right)),
        _ => None,
    }
}

/// The answer of a comparison of two numbers. Another operator has none.
pub fn comparison_of(operator: Operator, left: i128, right: i128) -> Option<bool>
    ensures { result ≡ number_comparison operator left right }
{
    match operator {
        Operator::Less => Some(left < right),
        Operator::LessEqual => Some(left <= right),
        Operator::Greater => Some(left > right),
        Operator::GreaterEqual => Some(left >= right),
        _ => None,
    }
}

/// The quotient toward zero.
fn quotient(left: i128, right: i128) -> Evaluated
    ensures { result_tree result ≡ quotient_result left right }
{
    if right == 0 {
        return Evaluated::Bad(Fault::Zero);
    }
    checked(left.checked_div(right))
}

/// The remainder of the quotient toward zero. By -1 it is 0 for every number.
fn remainder(left: i128, right: i128) -> Evaluated
    ensures { result_tree result ≡ remainder_result left right }
{
    if right == 0 {
        return Evaluated::Bad(Fault::Zero);
    }
    Evaluated::Good(Value::Int(left.wrapping_rem(right)))
}

/// The negative of a number. If it does not fit in 128 bits, the result is the fault Overflow.
pub fn negated(number: i128) -> Evaluated
    ensures { result_tree result ≡ number_result (neg_ℤ number) }
{
    checked(number.checked_neg())
}

/// The number, or the fault Overflow without one.
fn checked(found: Option<i128>) -> Evaluated
    ensures { (number : ℤ) → SomeIff found (FitsSigned w128 number) number → result_tree result ≡ number_result number }
{
    match found {
        Some(number) => Evaluated::Good(Value::Int(number)),
        None => Evaluated::Bad(Fault::Overflow),
    }
}
