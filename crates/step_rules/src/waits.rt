//! The plans of the rules by which tasks wait, and go on after it.
ghost use Rattle.std.specs.Prelude.{◌≡◌, ◌∷◌, true, ℕ, List, Some, slice_get, option_and_then, IfOk, OnErr};
ghost use Rattle.std.specs.Option.{option_map};
ghost use Rattle.abs_program.specs.Control.{Point};
ghost use Rattle.abs_program.specs.NamedViews.{program_tree};
ghost use Rattle.abs_tree.specs.Syntax.{Name};
ghost use Rattle.abs_tree.specs.SyntaxViews.{variable_tree};
ghost use Rattle.config_state.specs.ConfigViews.{configuration};
ghost use Rattle.config_state.specs.Configurations.{FrameState};
ghost use Rattle.config_state.specs.Views.{frame_state, task_state};
ghost use Rattle.step_rules.specs.Changes.{Change};
ghost use Rattle.step_rules.specs.Lookups.{Runner, named_value as value_named, successor as successor_of};
ghost use Rattle.step_rules.specs.Moves.{Moves, config_of, names_of};
ghost use Rattle.step_rules.specs.Plans.{IsNoFault, plan_of_task, planned};
ghost use Rattle.step_rules.specs.WaitRules.{await_rule, get_by_task, get_rule, guard_of, take_if_resolved, take_rule, wake_rule};

use crate::Did;
use crate::guards::{are_resolved, named_value};
use crate::lookups::{successor, target_of};
use crate::mover::Mover;
use crate::plan::{Plan, Turn};
use crate::rules::{advance, store};
use abs_program::{Effect, Named};
use abs_tree::Variable;
use abs_values::{Evaluated, Fault, Value, Values};
use config_state::{Config, Frame, TaskCell};
use std::alloc::AllocError;

/// take: the task takes its cog, if nobody holds it.
pub(crate) fn take(config: &Config, cell: &TaskCell) -> Option<Plan>
    ensures { (names : List Name) (index : ℕ) (frames : List FrameState)
        → option_and_then (plan_of_task names (configuration names config.now) index (task_state names cell.now)
        frames) result ≡ take_rule index (task_state names cell.now) (slice_get config.now.cogs cell.now.cog) }
{
    let cog = config.cogs.items.get(cell.cog as usize)?;
    match cog.holder {
        Some(_) => None,
        None => Some(Plan::of(Turn::Takes, Did::Took)),
    }
}

/// take of a task that waits: all futures of its next statement must be resolved.
pub(crate) fn wake(
    program: &Named<'_>,
    config: &Config,
    cell: &TaskCell,
    frame: &Frame,
) -> Option<Plan>
    ensures { (index : ℕ) (others : List FrameState) → option_and_then (plan_of_task program.now.symbols
        (configuration program.now.symbols config.now) index (task_state program.now.symbols cell.now)
        (frame_state program.now.symbols frame.now ∷ others)) result
        ≡ wake_rule (program_tree program.now) (configuration program.now.symbols config.now) index
        (task_state program.now.symbols cell.now) (frame_state program.now.symbols frame.now ∷ others) }
{
    let instruction = program.instruction(frame.next?)?;
    match &instruction.effect {
        Effect::Await(names) => take_resolved(config, cell, &frame.slots, names.as_slice()),
        _ => None,
    }
}

/// take of a task that waits for the futures in these slots.
fn take_resolved(
    config: &Config,
    cell: &TaskCell,
    slots: &Values,
    names: &[Option<u32>],
) -> Option<Plan>
    ensures { (symbols : List Name) (index : ℕ) (frames : List FrameState)
        → option_and_then (plan_of_task symbols (configuration symbols config.now) index
        (task_state symbols cell.now) frames) result
        ≡ take_if_resolved (configuration symbols config.now) index (task_state symbols cell.now)
        (guard_of (configuration symbols config.now) slots.now names.now) }
{
    match are_resolved(config, slots, names) {
        Ok(true) => take(config, cell),
        Ok(false) | Err(_) => None,
    }
}

/// await: the task goes on where all futures are resolved, and else it waits.
pub(crate) fn wait(at: Mover<'_>, names: &[Option<u32>]) -> Plan
    ensures { (runner : Runner) (point : Point) → Moves at.entry runner point
        → planned (names_of at.entry) (config_of at.entry) runner result ≡ Some (await_rule (config_of at.entry) runner
        (successor_of point.goes true) (guard_of (config_of at.entry) runner.frame.slots names.now)) }
{
    match are_resolved(at.config, &at.frame.slots, names) {
        Ok(true) => advance(successor(&at.instruction.goes, true), Did::Went),
        Ok(false) => Plan::of(Turn::Waits, Did::Released),
        Err(fault) => Plan::fault(fault),
    }
}

/// get: the value of the future goes to the target, and its fault is the task's fault. There is none while the future
/// is unresolved.
///
/// # Errors
/// [`AllocError`] if there are as many copies of the value already as can be counted.
pub(crate) fn get(
    at: Mover<'_>,
    slot: Option<u32>,
    target: Option<Variable>,
) -> Result<Option<Plan>, AllocError>
    ensures plan { IfOk result (λ plan. (runner : Runner) (point : Point) → Moves at.entry runner point
        → option_and_then (planned (names_of at.entry) (config_of at.entry) runner) plan
        ≡ get_rule (config_of at.entry) runner (successor_of point.goes true)
        (option_map (variable_tree (names_of at.entry)) target) (value_named runner.frame.slots slot)) }
    ensures memory { OnErr result ((runner : Runner) (point : Point) (change : Change) → Moves at.entry runner point
        → get_rule (config_of at.entry) runner (successor_of point.goes true)
        (option_map (variable_tree (names_of at.entry)) target) (value_named runner.frame.slots slot) ≡ Some change
        → IsNoFault change) }
{
    match named_value(&at.frame.slots, slot) {
        Some(Value::Future(task)) => get_from(at, *task, target),
        Some(Value::Null) => Ok(Some(Plan::fault(Fault::Null))),
        _ => Ok(Some(Plan::fault(Fault::Mistyped))),
    }
}

/// get of the future of a task: its value goes to the target, and its fault is the fault of the task that waits. There
/// is none while the future is unresolved.
///
/// # Errors
/// [`AllocError`] if there are as many copies of the value already as can be counted.
fn get_from(at: Mover<'_>, task: u32, target: Option<Variable>) -> Result<Option<Plan>, AllocError>
    ensures plan { IfOk result (λ plan. (runner : Runner) (point : Point) → Moves at.entry runner point
        → option_and_then (planned (names_of at.entry) (config_of at.entry) runner) plan
        ≡ get_by_task (config_of at.entry) runner (successor_of point.goes true)
        (option_map (variable_tree (names_of at.entry)) target) (slice_get (config_of at.entry).tasks task)) }
    ensures memory { OnErr result ((runner : Runner) (point : Point) (change : Change) → Moves at.entry runner point
        → get_by_task (config_of at.entry) runner (successor_of point.goes true)
        (option_map (variable_tree (names_of at.entry)) target) (slice_get (config_of at.entry).tasks task)
        ≡ Some change → IsNoFault change) }
{
    let config: &Config = at.config;
    let Some(cell) = config.tasks.items.get(task as usize) else {
        return Ok(Some(Plan::fault(Fault::Mistyped)));
    };
    match &cell.outcome {
        None => Ok(None),
        Some(Evaluated::Bad(fault)) => Ok(Some(Plan::fault(*fault))),
        Some(Evaluated::Good(value)) => {
            let next = successor(&at.instruction.goes, true);
            Ok(Some(store(target_of(target), next, Some(value.share()?))))
        }
    }
}
