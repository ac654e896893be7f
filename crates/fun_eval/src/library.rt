//! What evaluation takes from a program: its functions, its names, and the values of the two answers.
ghost use Rattle.std.specs.Prelude.{◌≡◌, codes};
ghost use Rattle.abs_tree.specs.Names.{number_of_name};
ghost use Rattle.abs_values.specs.Operations.{answer_result, truth_of, truth_value};
ghost use Rattle.abs_values.specs.Results.{Gives};
ghost use Rattle.abs_values.specs.ValueViews.{value_tree};
ghost use Rattle.fun_eval.specs.Reading.{IsResult};

use crate::stop::Stop;
use abs_program::Named;
use abs_tree::Symbol;
use abs_values::{Fault, Value, answer_of};
use std::alloc::{AllocError, Global};

/// A program, and the constructors of its two answers.
#[derive(Clone, Copy)]
pub struct Library<'a> {
    pub alloc: Global,
    pub program: &'a Named<'a>,
    yes: Symbol,
    no: Symbol,
    ghost yes_is: { yes.0 ≡ number_of_name program.now.symbols (codes "True") },
    ghost no_is: { no.0 ≡ number_of_name program.now.symbols (codes "False") },
}

impl<'a> Library<'a> {
    /// The library of a program.
    pub fn new(alloc: Global, program: &'a Named<'a>) -> Library<'a>
        ensures { result.program.now ≡ program.now }
    {
        Library {
            alloc,
            program,
            yes: program.symbols.symbol_of(b"True"),
            no: program.symbols.symbol_of(b"False"),
        }
    }

    /// The value of an answer.
    pub fn truth_value(&self, answer: bool) -> Result<Value, Stop>
        ensures { IsResult (Gives (truth_value self.now.program.now.symbols answer)) result }
    {
        let symbol = if answer { self.yes } else { self.no };
        match Value::built(self.alloc, symbol, Vec::new(self.alloc))? {
            Some(value) => Ok(value),
            None => Err(Stop::Memory),
        }
    }

    /// The answer that a value is, if it is a Bool.
    pub fn truth_of(&self, value: &Value) -> Option<bool>
        ensures { result ≡ truth_of self.now.program.now.symbols (value_tree value.now) }
    {
        answer_of(value, self.yes, self.no)
    }

    /// The value of an answer, or the fault Mistyped without one.
    pub fn answered(&self, answer: Option<bool>) -> Result<Value, Stop>
        ensures { IsResult (answer_result self.now.program.now.symbols answer) result }
    {
        match answer {
            Some(answer) => self.truth_value(answer),
            None => Err(Stop::Fault(Fault::Mistyped)),
        }
    }
}
