//! Makes an event from the output of its input: what a worker does that evaluates for another.
ghost use Rattle.std.specs.Prelude.{◌≡◌, ◌<◌, length, Some, IfOk, IsSome, OnOk};
ghost use Rattle.abs_values.specs.Results.{results_tree};
ghost use Rattle.abs_program.specs.NamedViews.{program_tree};
ghost use Rattle.config_state.specs.ConfigViews.{configuration};
ghost use Rattle.config_state.specs.OfProgram.{IsConfigOf};
ghost use Rattle.step_rules.specs.Changes.{Change};
ghost use Rattle.step_rules.specs.Events.{Step, change_of, event_of};
ghost use Rattle.step_rules.specs.InputViews.{input_tree};
ghost use Rattle.step_rules.specs.Inputs.{input_of, output_of};

use crate::failure::Failure;
use abs_program::Named;
use abs_values::{Evaluated, Output, Values};
use config_state::{Config, Lines};
use fun_eval::{eval, eval_all};
use std::alloc::{AllocError, Global};
use step_rules::{Did, Input, apply, input, input_equal};

/// Does the event of a task with the output of its input. It tells what the event did.
///
/// # Errors
/// [`Failure::Memory`] if memory runs out. [`Failure::Differs`] if the input is not the same as one that is asked for
/// once more.
pub(crate) fn apply_output(
    alloc: Global,
    program: &Named<'_>,
    config: &mut Config,
    task: u32,
    lines: &mut Lines,
) -> Result<Did, Failure>
    requires of_program { ∥ IsConfigOf (program_tree program.now) (configuration program.now.symbols config.old) ∥₁ }
    requires there { task < length config.old.tasks }
    requires has_step { IsSome (event_of (program_tree program.now) (configuration program.now.symbols config.old)
        task) }
    ensures of_program { ∥ IsConfigOf (program_tree program.now) (configuration program.now.symbols config.new) ∥₁ }
    ensures config { OnOk result ((step : Step)
        → event_of (program_tree program.now) (configuration program.now.symbols config.old) task ≡ Some step
        → configuration program.now.symbols config.new ≡ step.config) }
    ensures kind { IfOk result (λ did. (change : Change)
        → change_of (program_tree program.now) (configuration program.now.symbols config.old) task ≡ Some change
        → did ≡ change.did) }
    ensures there { OnOk result (task < length config.new.tasks) }
{
    let asked = asked_twice(alloc, program, config, task)?;
    let output = output_for(alloc, program, &asked)?;
    Ok(apply(alloc, program, config, task, output, lines)?)
}

/// The input of a task, which is asked for twice.
///
/// # Errors
/// [`Failure::Memory`] if memory runs out. [`Failure::Differs`] if the two inputs are not the same.
fn asked_twice(
    alloc: Global,
    program: &Named<'_>,
    config: &Config,
    task: u32,
) -> Result<Input, Failure>
    requires of_program { ∥ IsConfigOf (program_tree program.now) (configuration program.now.symbols config.now) ∥₁ }
    requires there { task < length config.now.tasks }
    requires has_step { IsSome (event_of (program_tree program.now) (configuration program.now.symbols config.now)
        task) }
    ensures { IfOk result (λ asked. input_of (program_tree program.now) (configuration program.now.symbols config.now)
        task ≡ Some (input_tree program.now.symbols asked)) }
{
    let asked = input(alloc, program, config, task)?;
    if input_equal(&asked, &input(alloc, program, config, task)?) {
        Ok(asked)
    } else {
        Err(Failure::Differs)
    }
}

/// The output of an input. A single expression is evaluated alone where no initial value follows it.
///
/// # Errors
/// [`AllocError`] if memory runs out.
fn output_for(alloc: Global, program: &Named<'_>, input: &Input) -> Result<Output, AllocError>
    ensures { IfOk result (λ output. results_tree output
        ≡ output_of (program_tree program.now) (input_tree program.now.symbols input.now)) }
{
    let (exprs, inits) = (input.exprs.as_slice(), input.inits.as_slice());
    match exprs {
        [expr] if inits.is_empty() => match eval(alloc, program, &input.env, expr)? {
            Evaluated::Good(value) => Ok(Output::Values(Values::new(vec![in alloc; value]?))),
            Evaluated::Bad(fault) => Ok(Output::Bad(fault)),
        },
        _ => eval_all(alloc, program, &input.env, exprs, inits),
    }
}
