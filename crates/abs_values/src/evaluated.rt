//! What evaluation takes and gives: faults, the results of expressions, and the values that they can read.
ghost use Rattle.std.specs.Prelude.{Some};
ghost use Rattle.abs_values.specs.Faults.{fault_name};

use crate::{Value, Values};
use std::fmt;

/// Why an evaluation or an event failed.
#[derive(Clone, Copy, Debug, PartialEq, Eq)]
pub enum Fault {
    /// A receiver or a future is null.
    Null,
    /// No branch of a `case` matches.
    Match,
    /// A divisor is 0.
    Zero,
    /// A number does not fit in 128 bits.
    Overflow,
    /// A statement applies more than [`APPLICATION_LIMIT`](crate::limits::APPLICATION_LIMIT) functions.
    Calls,
    /// There are more than [`LEVEL_LIMIT`](crate::limits::LEVEL_LIMIT) levels of evaluation.
    Levels,
    /// A string is longer than [`STRING_LIMIT`](crate::limits::STRING_LIMIT), or a value is too large.
    Large,
    /// A value has another type than is needed.
    Mistyped,
}

/// The fault's name.
impl fmt::Display for Fault {
    ghost output = { λ fault. Some (fault_name fault) };

    fn fmt<W: fmt::Write>(&self, f: &mut fmt::Formatter<W>) -> fmt::Result {
        f.write_str(match self {
            Fault::Null => "Null",
            Fault::Match => "Match",
            Fault::Zero => "Zero",
            Fault::Overflow => "Overflow",
            Fault::Calls => "Calls",
            Fault::Levels => "Levels",
            Fault::Large => "Large",
            Fault::Mistyped => "Mistyped",
        })
    }
}

/// The result of an evaluation.
#[derive(Drop)]
pub enum Evaluated {
    /// A value.
    Good(Value),
    /// The fault that ended it.
    Bad(Fault),
}

/// The result of the evaluation of a list of expressions.
#[derive(Drop)]
pub enum Output {
    /// All their values.
    Values(Values),
    /// The first fault.
    Bad(Fault),
}

/// The values that the expressions of a statement can read.
#[derive(Drop)]
pub struct Env {
    /// The own object, if there is one.
    pub this: Option<u32>,
    /// The values of the parameters and locals, by their slots.
    pub slots: Values,
    /// The values of the fields of the own object.
    pub fields: Values,
}
