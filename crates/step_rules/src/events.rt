//! The events in code. An event is the change that a task makes with the output of its input.
ghost use Rattle.std.specs.Prelude.{◌≡◌, ◌<◌, ◌++◌, List, length, Some, IsSome, IfOk, OnOk, OnErr};
ghost use Rattle.abs_values.specs.Results.{results_tree};
ghost use Rattle.abs_program.specs.NamedViews.{program_tree};
ghost use Rattle.config_state.specs.ConfigViews.{configuration};
ghost use Rattle.config_state.specs.OfProgram.{IsConfigOf};
ghost use Rattle.step_rules.specs.Changes.{Change};
ghost use Rattle.step_rules.specs.Events.{Step, change_of, event_of};
ghost use Rattle.step_rules.specs.Inputs.{Input as InputTree, input_of, output_of};
ghost use Rattle.step_rules.specs.Memory.{MayTakeMemory};

use crate::Did;
use crate::install::install;
use crate::planning::plan_of;
use crate::reading::output;
use abs_program::Named;
use abs_values::Output;
use config_state::{Config, Lines};
use std::alloc::{AllocError, Global};

/// Does the event of a task, given the output of its input. It tells what the event did.
///
/// # Errors
/// [`AllocError`] if an allocation fails, or if a list of the configuration has as many entries already as it may have.
/// Configuration and lines are unchanged then. No take, skip, assign, `if`, `while`, `await`, `suspend` or fault takes
/// memory.
pub fn apply(
    alloc: Global,
    program: &Named<'_>,
    config: &mut Config,
    task: u32,
    values: Output,
    lines: &mut Lines,
) -> Result<Did, AllocError>
    requires of_program { ∥ IsConfigOf (program_tree program.now) (configuration program.now.symbols config.old) ∥₁ }
    requires there { task < length config.old.tasks }
    requires has_step { IsSome (event_of (program_tree program.now) (configuration program.now.symbols config.old)
        task) }
    requires is_output { (input : InputTree)
        → input_of (program_tree program.now) (configuration program.now.symbols config.old) task ≡ Some input
        → results_tree values ≡ output_of (program_tree program.now) input }
    ensures config { OnOk result ((step : Step)
        → event_of (program_tree program.now) (configuration program.now.symbols config.old) task ≡ Some step
        → configuration program.now.symbols config.new ≡ step.config) }
    ensures lines { OnOk result ((step : Step)
        → event_of (program_tree program.now) (configuration program.now.symbols config.old) task ≡ Some step
        → lines.new ≡ lines.old ++ step.lines) }
    ensures kind { IfOk result (λ did. (change : Change)
        → change_of (program_tree program.now) (configuration program.now.symbols config.old) task ≡ Some change
        → did ≡ change.did) }
    ensures of_program { ∥ IsConfigOf (program_tree program.now) (configuration program.now.symbols config.new) ∥₁ }
    ensures err_config { OnErr result (config.new ≡ config.old) }
    ensures err_lines { OnErr result (lines.new ≡ lines.old) }
    ensures memory { OnErr result (MayTakeMemory (program_tree program.now)
        (configuration program.now.symbols config.old) task
        (change_of (program_tree program.now) (configuration program.now.symbols config.old) task)) }
{
    match plan_of(alloc, program, config, task, values)? {
        Some(plan) => install(alloc, config, task, plan, lines),
        None => unreachable!(),
    }
}

/// Does the event of a task. Its expressions are evaluated in place. It tells what the event did.
///
/// # Errors
/// [`AllocError`] if an allocation fails, or if a list of the configuration has as many entries already as it may have.
/// Configuration and lines are unchanged then.
pub fn step(
    alloc: Global,
    program: &Named<'_>,
    config: &mut Config,
    task: u32,
    lines: &mut Lines,
) -> Result<Did, AllocError>
    requires of_program { ∥ IsConfigOf (program_tree program.now) (configuration program.now.symbols config.old) ∥₁ }
    requires there { task < length config.old.tasks }
    requires has_step { IsSome (event_of (program_tree program.now) (configuration program.now.symbols config.old)
        task) }
    ensures config { OnOk result ((step : Step)
        → event_of (program_tree program.now) (configuration program.now.symbols config.old) task ≡ Some step
        → configuration program.now.symbols config.new ≡ step.config) }
    ensures lines { OnOk result ((step : Step)
        → event_of (program_tree program.now) (configuration program.now.symbols config.old) task ≡ Some step
        → lines.new ≡ lines.old ++ step.lines) }
    ensures kind { IfOk result (λ did. (change : Change)
        → change_of (program_tree program.now) (configuration program.now.symbols config.old) task ≡ Some change
        → did ≡ change.did) }
    ensures of_program { ∥ IsConfigOf (program_tree program.now) (configuration program.now.symbols config.new) ∥₁ }
    ensures err_config { OnErr result (config.new ≡ config.old) }
    ensures err_lines { OnErr result (lines.new ≡ lines.old) }
{
    let values = output(alloc, program, config, task)?;
    apply(alloc, program, config, task, values, lines)
}
