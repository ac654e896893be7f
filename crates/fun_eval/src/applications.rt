//! Expressions that evaluate a list of arguments: functions and constructors.
ghost use Rattle.std.specs.Prelude.{◌≡◌, ◌≤◌, List, Some, drop, length, map, slice_get, IfErr, OnOk};
ghost use Rattle.abs_values.specs.Evaluation.{application_outcome, body_outcome, ends_with, evaluate, outcome_after_all, outcomes_of, string_of_result};
ghost use Rattle.std.specs.Option.{option_map};
ghost use Rattle.abs_program.specs.declared.name_spaces.FunctionMeaning.TheVariants.{Defined};
ghost use Rattle.abs_tree.specs.Names.{name_of, number_of_name};
ghost use Rattle.abs_program.specs.NameSpaces.{spaces_of};
ghost use Rattle.abs_values.specs.Results.{built_result};
ghost use Rattle.abs_values.specs.Scopes.{function_named, own_scope};
ghost use Rattle.abs_tree.specs.Syntax.{Name};
ghost use Rattle.abs_tree.specs.SyntaxViews.{decl_tree, expr_tree, expr_trees};
ghost use Rattle.abs_program.specs.Tables.{meaning_of};
ghost use Rattle.abs_values.specs.ValueTrees.{parts_of_list};
ghost use Rattle.fun_eval.specs.Reading.{value_of_function, IsResult};
ghost use Rattle.fun_eval.specs.Evaluating.{arguments_in, declarations_in, gives_in, library_in, names_in, AddedArguments, AreStopped, GivesValues, IsOutcome, IsWithin, Stays};

use crate::evaluator::Evaluator;
use crate::scope::Frame;
use crate::stop::Stop;
use abs_program::{FunctionMeaning, Taking};
use abs_tree::limits::APPLICATION_LIMIT;
use abs_tree::{Decl, Expr, Symbol};
use abs_values::{Fault, Value};

impl Evaluator<'_> {
    /// The value of an application. Each argument is evaluated onto the stack, where it is a slot of the function.
    #[cycle(evaluation)]
    #[inline(never)]
    pub fn apply(
        &mut self,
        frame: &Frame<'_>,
        left: u32,
        function: Symbol,
        arguments: &[Expr],
    ) -> Result<Value, Stop>
        requires { IsWithin frame.now self.old }
        ensures outcome { IsOutcome (outcome_after_all
            (outcomes_of (gives_in self.old frame.now left) (expr_trees (names_in self.old) arguments.now)
            self.old.applications) (application_outcome (library_in self.old)
            (λ values. evaluate (library_in self.old) (own_scope values) left)
            (name_of (names_in self.old) function))) result self.new }
        ensures stays { OnOk result (Stays self.old self.new) }
    {
        let first = self.arguments.len();
        self.add_arguments(frame, left, arguments)?;
        let found = self.application(left, function, first)?;
        self.arguments.truncate(first);
        Ok(found)
    }

    /// Adds the values of arguments to the stack.
    #[cycle(evaluation)]
    fn add_arguments(
        &mut self,
        frame: &Frame<'_>,
        left: u32,
        arguments: &[Expr],
    ) -> Result<(), Stop>
        requires { IsWithin frame.now self.old }
        ensures added { OnOk result (AddedArguments (outcomes_of (gives_in self.old frame.now left)
            (expr_trees (names_in self.old) arguments.now) self.old.applications) self.old self.new) }
        ensures stopped { IfErr result (AreStopped (outcomes_of (gives_in self.old frame.now left)
            (expr_trees (names_in self.old) arguments.now) self.old.applications).results) }
    {
        for argument in arguments {
            let value = self.part(frame, left, argument)?;
            self.arguments.push(value)?;
        }
        Ok(())
    }

    /// The value of a function for the arguments from the index `first` on. The application is counted.
    #[cycle(evaluation)]
    fn application(&mut self, left: u32, function: Symbol, first: usize) -> Result<Value, Stop>
        requires { first ≤ length self.old.arguments.items }
        ensures outcome { IsOutcome (application_outcome (library_in self.old)
            (λ values. evaluate (library_in self.old) (own_scope values) left) (name_of (names_in self.old) function)
            (drop first (arguments_in self.old)) self.old.applications) result self.new }
        ensures stays { OnOk result (Stays self.old self.new) }
    {
        if self.applications >= APPLICATION_LIMIT {
            return Err(Stop::Fault(Fault::Calls));
        }
        self.applications += 1;
        match self.library.program.function(function) {
            Some(FunctionMeaning::ToString) => self.string_of_argument(first),
            Some(FunctionMeaning::Defined(taking)) => self.body(left, taking, first),
            None => Err(Stop::Fault(Fault::Mistyped)),
        }
    }

    /// The string of the one argument from the index `first` on, if there is one and no other.
    fn string_of_argument(&self, first: usize) -> Result<Value, Stop>
        requires { first ≤ length self.now.arguments.items }
        ensures { IsResult (string_of_result (names_in self.now) (drop first (arguments_in self.now))) result }
    {
        if self.arguments.len() - first != 1 {
            return Err(Stop::Fault(Fault::Mistyped));
        }
        self.library.string_of(&self.arguments[first])
    }

    /// The value of the body of a function that is declared.
    #[cycle(evaluation)]
    fn body(&mut self, left: u32, taking: Taking, first: usize) -> Result<Value, Stop>
        requires { first ≤ length self.old.arguments.items }
        ensures outcome { (name : Name)
            → meaning_of (spaces_of (declarations_in self.old)).functions name ≡ Some (Defined taking)
            → IsOutcome (body_outcome (λ values. evaluate (library_in self.old) (own_scope values) left)
            (drop first (arguments_in self.old))
            (function_named (library_in self.old).functions name) self.old.applications) result self.new }
        ensures stays { OnOk result (Stays self.old self.new) }
    {
        let count = self.arguments.len() - first;
        if count != taking.arity as usize {
            return Err(Stop::Fault(Fault::Mistyped));
        }
        let program = self.library.program;
        match function_value(&program.declarations, taking.declaration) {
            Some(value) => {
                let frame = Frame::Function {
                    first,
                    count,
                    bound: self.bound.len(),
                };
                self.evaluate(&frame, left, value)
            }
            None => Err(Stop::Fault(Fault::Mistyped)),
        }
    }

    /// The value of a constructor with its parts.
    #[cycle(evaluation)]
    #[inline(never)]
    pub fn build(
        &mut self,
        frame: &Frame<'_>,
        left: u32,
        constructor: Symbol,
        arguments: &[Expr],
    ) -> Result<Value, Stop>
        requires { IsWithin frame.now self.old }
        ensures outcome { IsOutcome (outcome_after_all
            (outcomes_of (gives_in self.old frame.now left) (expr_trees (names_in self.old) arguments.now)
            self.old.applications) (λ values. ends_with (built_result
            (number_of_name (names_in self.old) (name_of (names_in self.old) constructor))
            (parts_of_list values)))) result self.new }
        ensures stays { OnOk result (Stays self.old self.new) }
    {
        let parts = self.values(frame, left, arguments)?;
        let library = self.library;
        let constructor = Symbol(library.program.symbols.number(constructor));
        match Value::built(library.alloc, constructor, parts)? {
            Some(value) => Ok(value),
            None => Err(Stop::Fault(Fault::Large)),
        }
    }

    /// The values of several expressions.
    #[cycle(evaluation)]
    pub fn values(
        &mut self,
        frame: &Frame<'_>,
        left: u32,
        exprs: &[Expr],
    ) -> Result<Vec<Value>, Stop>
        requires { IsWithin frame.now self.old }
        ensures values { GivesValues (outcomes_of (gives_in self.old frame.now left)
            (expr_trees (names_in self.old) exprs.now) self.old.applications) result self.new }
        ensures stays { OnOk result (Stays self.old self.new) }
    {
        let mut values = Vec::with_capacity(self.library.alloc, exprs.len())?;
        for expr in exprs {
            values.push(self.part(frame, left, expr)?)?;
        }
        Ok(values)
    }
}

/// The value of the function that is declared at an index, if it is one.
fn function_value(declarations: &[Decl], index: u32) -> Option<&Expr>
    ensures { (names : List Name) → option_map (λ value. expr_tree names value.now) result
        ≡ value_of_function (slice_get (map (decl_tree names) declarations.now) index) }
{
    match declarations.get(index as usize)? {
        Decl::Function { value, .. } => Some(value),
        Decl::Data { .. } | Decl::Interface { .. } | Decl::Class { .. } => None,
    }
}
