//! The plan of the event of a task, with the output of its input.
ghost use Rattle.std.specs.Prelude.{◌≡◌, ◌<◌, ◌∷◌, true, length, Some, None, option_and_then, IfOk, OnErr};
ghost use Rattle.std.specs.Option.{option_map};
ghost use Rattle.abs_program.specs.Control.{Point};
ghost use Rattle.abs_program.specs.InstructionViews.{instruction_tree};
ghost use Rattle.abs_program.specs.Instructions.{effect_of, instruction_of};
ghost use Rattle.abs_tree.specs.Names.{name_of};
ghost use Rattle.abs_tree.specs.SyntaxViews.{variable_tree};
ghost use Rattle.abs_values.specs.Results.{results_tree};
ghost use Rattle.abs_program.specs.NamedViews.{program_tree};
ghost use Rattle.config_state.specs.ConfigViews.{configuration};
ghost use Rattle.config_state.specs.Configurations.{fields_of, object_at};
ghost use Rattle.config_state.specs.OfProgram.{next_point};
ghost use Rattle.config_state.specs.Views.{frame_state, task_state};
ghost use Rattle.step_rules.specs.Changes.{Change};
ghost use Rattle.step_rules.specs.Events.{change_by, local_change, run_change};
ghost use Rattle.step_rules.specs.LocalRules.{call_own_rule, used_of};
ghost use Rattle.step_rules.specs.Lookups.{Runner, class_of as class_in, successor as successor_of};
ghost use Rattle.step_rules.specs.Memory.{MayTakeMemory, takes_memory};
ghost use Rattle.step_rules.specs.Moves.{Moves, config_of, names_of, program_of};
ghost use Rattle.step_rules.specs.Plans.{IsNoFault, plan_change, planned, whole_change};

use crate::Did;
use crate::enabled::innermost;
use crate::lookups::{class_of, only, successor, target_of, unit_value};
use crate::made::{make, send};
use crate::mover::Mover;
use crate::plan::{Plan, Turn};
use crate::rules::{advance, choose, enter, give, print, store};
use crate::waits::{get, take, wait, wake};
use abs_program::{Effect, Named};
use abs_tree::{Symbol, Variable};
use abs_values::{Fault, Output, Value, Values};
use config_state::{Config, Frame, State, TaskCell};
use std::alloc::{AllocError, Global};

/// The plan of the event of a task with an output. There is none where the task makes no change with it.
///
/// # Errors
/// [`AllocError`] if an allocation fails.
pub(crate) fn plan_of(
    alloc: Global,
    program: &Named<'_>,
    config: &Config,
    task: u32,
    output: Output,
) -> Result<Option<Plan>, AllocError>
    requires there { task < length config.now.tasks }
    ensures plan { IfOk result (λ plan. option_and_then (plan_change program.now.symbols
        (configuration program.now.symbols config.now) task) plan
        ≡ change_by (program_tree program.now) (configuration program.now.symbols config.now) task
        (results_tree output)) }
    ensures memory { OnErr result (MayTakeMemory (program_tree program.now)
        (configuration program.now.symbols config.now) task (change_by (program_tree program.now)
        (configuration program.now.symbols config.now) task (results_tree output))) }
{
    let cell = config.tasks.at(task as usize);
    let Some(frame) = innermost(cell) else {
        return Ok(None);
    };
    if cell.outcome.is_some() {
        return Ok(None);
    }
    match cell.state {
        State::Ready => Ok(take(config, cell)),
        State::Awaiting => Ok(wake(program, config, cell, frame)),
        State::Running => run(alloc, program, config, cell, frame, output),
    }
}

/// The plan of a task that runs.
///
/// # Errors
/// [`AllocError`] if an allocation fails.
fn run(
    alloc: Global,
    program: &Named<'_>,
    config: &Config,
    cell: &TaskCell,
    frame: &Frame,
    output: Output,
) -> Result<Option<Plan>, AllocError>
    ensures plan { IfOk result (λ plan. (runner : Runner)
        → runner.task ≡ task_state program.now.symbols cell.now
        → runner.frame ≡ frame_state program.now.symbols frame.now
        → runner.task.frames ≡ runner.frame ∷ runner.others → runner.task.outcome ≡ None
        → option_and_then (planned program.now.symbols (configuration program.now.symbols config.now) runner) plan
        ≡ run_change (program_tree program.now) (configuration program.now.symbols config.now) runner
        (results_tree output)) }
    ensures memory { OnErr result ((runner : Runner) (change : Change)
        → runner.task ≡ task_state program.now.symbols cell.now
        → runner.frame ≡ frame_state program.now.symbols frame.now
        → runner.task.frames ≡ runner.frame ∷ runner.others → runner.task.outcome ≡ None
        → run_change (program_tree program.now) (configuration program.now.symbols config.now) runner
        (results_tree output) ≡ Some change → IsNoFault change) }
    ensures takes { OnErr result (takes_memory (option_map (λ (point : Point). effect_of point.statement)
        (next_point (program_tree program.now) (frame_state program.now.symbols frame.now))) ≡ true) }
{
    let values = match output {
        Output::Values(values) => values,
        Output::Bad(fault) => return Ok(Some(Plan::fault(fault))),
    };
    let Some(next) = frame.next else {
        let unit = unit_value(alloc, program)?;
        return Ok(Some(give(cell.frames.len(), Some(unit))));
    };
    let Some(instruction) = program.instruction(next) else {
        return Ok(None);
    };
    let at = Mover {
        program,
        config,
        cell,
        frame,
        instruction,
    };
    statement(alloc, at, values)
}

/// The plan of a statement with the values of its expressions.
///
/// # Errors
/// [`AllocError`] if an allocation fails.
fn statement(alloc: Global, at: Mover<'_>, values: Values) -> Result<Option<Plan>, AllocError>
    ensures plan { IfOk result (λ plan. (runner : Runner) (point : Point) → Moves at.entry runner point
        → option_and_then (planned (names_of at.entry) (config_of at.entry) runner) plan
        ≡ whole_change (program_of at.entry) (config_of at.entry) runner point values (effect_of point.statement)) }
    ensures memory { OnErr result ((runner : Runner) (point : Point) (change : Change) → Moves at.entry runner point
        → whole_change (program_of at.entry) (config_of at.entry) runner point values (effect_of point.statement)
        ≡ Some change → IsNoFault change) }
    ensures takes { OnErr result ((point : Point)
        → instruction_tree (names_of at.entry) at.entry.instruction.now ≡ instruction_of point
        → takes_memory (Some (effect_of point.statement)) ≡ true) }
{
    let goes = &at.instruction.goes;
    let next = successor(goes, true);
    let plan = match &at.instruction.effect {
        Effect::Skip => advance(next, Did::Went),
        Effect::Suspend => Plan::of(Turn::Yields(next), Did::Released),
        Effect::Await(names) => wait(at, names.as_slice()),
        Effect::Choose => choose(at.program, goes, only(values)),
        Effect::Return => give(at.cell.frames.len(), only(values)),
        Effect::Print => print(next, only(values)),
        Effect::Clear(target) => store(target_of(Some(*target)), next, Some(Value::Null)),
        Effect::Store(target) => store(target_of(*target), next, only(values)),
        Effect::Make {
            mode,
            class,
            target,
        } => make(alloc, at, *mode, *class, *target, values)?,
        Effect::Send { method, target } => send(alloc, at, *method, *target, values)?,
        Effect::CallOwn { method, target } => call_own(at, *method, *target, values)?,
        Effect::CallOther { .. } => Plan::fault(Fault::Mistyped),
        Effect::Get { slot, target } => return get(at, *slot, *target),
    };
    Ok(Some(plan))
}

/// The plan of an own call.
///
/// # Errors
/// [`AllocError`] if an allocation fails.
fn call_own(
    at: Mover<'_>,
    method: Symbol,
    target: Option<Variable>,
    values: Values,
) -> Result<Plan, AllocError>
    ensures plan { IfOk result (λ plan. (runner : Runner) (point : Point) → Moves at.entry runner point
        → planned (names_of at.entry) (config_of at.entry) runner plan ≡ Some (local_change runner
        (call_own_rule (used_of (program_of at.entry) (class_in (object_at (config_of at.entry) runner.frame.object)))
        (name_of (names_of at.entry) method) (option_map (variable_tree (names_of at.entry)) target)
        (successor_of point.goes true) runner.frame runner.others
        (fields_of (object_at (config_of at.entry) runner.frame.object)) values))) }
    ensures memory { OnErr result ((runner : Runner) (point : Point) → Moves at.entry runner point
        → IsNoFault (local_change runner
        (call_own_rule (used_of (program_of at.entry) (class_in (object_at (config_of at.entry) runner.frame.object)))
        (name_of (names_of at.entry) method) (option_map (variable_tree (names_of at.entry)) target)
        (successor_of point.goes true) runner.frame runner.others
        (fields_of (object_at (config_of at.entry) runner.frame.object)) values))) }
{
    let object = at.frame.object;
    let class = class_of(at.config, object);
    let next = successor(&at.instruction.goes, true);
    enter(at.program, class, object, next, method, target, values)
}
