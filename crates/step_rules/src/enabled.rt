//! Whether a task has an event, and the future that it waits for. It takes no memory, and constant time but for the
//! futures of a guard.
ghost use Rattle.std.specs.Prelude.{◌≡◌, ◌<◌, ℕ, IfNone, IfSome, List, MatchBool, Some, length, slice_get, is_some};
ghost use Rattle.std.specs.Option.{option_map};
ghost use Rattle.abs_program.specs.InstructionViews.{effect_tree};
ghost use Rattle.abs_program.specs.Instructions.{effect_of};
ghost use Rattle.abs_program.specs.NamedViews.{program_tree};
ghost use Rattle.abs_tree.specs.Syntax.{Name};
ghost use Rattle.abs_values.specs.ValueTrees.{FutureValue};
ghost use Rattle.abs_values.specs.ValueViews.{value_tree};
ghost use Rattle.config_state.specs.ConfigViews.{configuration};
ghost use Rattle.config_state.specs.Configurations.{TaskState, IsUnfinished};
ghost use Rattle.config_state.specs.OfProgram.{next_point, IsConfigOf};
ghost use Rattle.config_state.specs.Views.{frame_state, task_state};
ghost use Rattle.step_rules.specs.Blocked.{IsAtOpenGet, IsAtOpenAwait, IsFreeFor, WaitsFor, HoldsOpen, OneHoldsOpen, FindsOne};
ghost use Rattle.step_rules.specs.Events.{event_of};

use abs_program::{Effect, Named};
use abs_values::{Value, Values};
use config_state::{Config, Frame, State, TaskCell};

/// Whether a task has an event in a configuration of the program.
pub fn has_step(program: &Named<'_>, config: &Config, task: u32) -> bool
    requires of_program { ∥ IsConfigOf (program_tree program.now) (configuration program.now.symbols config.now) ∥₁ }
    requires there { task < length config.now.tasks }
    ensures { result ≡ is_some (event_of (program_tree program.now) (configuration program.now.symbols config.now)
        task) }
{
    let cell = config.tasks.at(task as usize);
    if cell.outcome.is_some() {
        return false;
    }
    is_free_for(config, cell.cog, task) && waited_future(program, config, task).is_none()
}

/// The first unresolved future that the next statement of a task names, if the task has no event before it is resolved:
/// of the `get` of a running task, or of the `await` of an awaiting one. It takes no memory.
pub fn waited_future(program: &Named<'_>, config: &Config, task: u32) -> Option<u32>
    requires of_program { ∥ IsConfigOf (program_tree program.now) (configuration program.now.symbols config.now) ∥₁ }
    requires there { task < length config.now.tasks }
    ensures some { IfSome result (λ future. (state : TaskState)
        → slice_get (configuration program.now.symbols config.now).tasks task ≡ Some state
        → WaitsFor (program_tree program.now) (configuration program.now.symbols config.now) state future) }
    ensures none { IfNone result ((state : TaskState)
        → slice_get (configuration program.now.symbols config.now).tasks task ≡ Some state → (future : ℕ)
        → WaitsFor (program_tree program.now) (configuration program.now.symbols config.now) state future → ⊥) }
{
    let cell = config.tasks.at(task as usize);
    match cell.state {
        State::Ready => None,
        State::Running => waited_at_get(program, config, cell),
        State::Awaiting => waited_at_await(program, config, cell),
    }
}

/// Whether nobody holds a cog, or this task does.
fn is_free_for(config: &Config, cog: u32, task: u32) -> bool
    ensures { (names : List Name) → MatchBool result (IsFreeFor (configuration names config.now) cog task)
        (IsFreeFor (configuration names config.now) cog task → ⊥) }
{
    match config.cogs.items.get(cog as usize) {
        Some(cog) => match cog.holder {
            Some(holder) => holder == task,
            None => true,
        },
        None => false,
    }
}

/// The innermost frame of a task, if it has one.
pub(crate) fn innermost(cell: &TaskCell) -> Option<&Frame>
    ensures { (names : List Name) → option_map (λ frame. frame_state names frame.now) result
        ≡ slice_get (task_state names cell.now).frames 0 }
{
    cell.frames.items.last()
}

/// What the next statement of a frame does, if one is left.
fn next_effect<'p>(program: &'p Named<'_>, frame: &Frame) -> Option<&'p Effect>
    ensures { option_map (λ effect. effect_tree program.now.symbols effect.now) result
        ≡ option_map (λ point. effect_of point.statement)
        (next_point (program_tree program.now) (frame_state program.now.symbols frame.now)) }
{
    let instruction = program.instruction(frame.next?)?;
    Some(&instruction.effect)
}

/// The unresolved future that the next statement of a task gets, if it gets one.
fn waited_at_get(program: &Named<'_>, config: &Config, cell: &TaskCell) -> Option<u32>
    ensures { FindsOne result (λ future. (at : IsAtOpenGet (program_tree program.now)
        (configuration program.now.symbols config.now) (task_state program.now.symbols cell.now))
        × (at.future ≡ future)) }
{
    let Some(frame) = innermost(cell) else {
        return None;
    };
    match next_effect(program, frame) {
        Some(Effect::Get { slot, .. }) => open_future(config, &frame.slots, *slot),
        _ => None,
    }
}

/// The first unresolved future that the next statement of a task names, if it is an `await` that names one.
fn waited_at_await(program: &Named<'_>, config: &Config, cell: &TaskCell) -> Option<u32>
    ensures { FindsOne result (λ future. (at : IsAtOpenAwait (program_tree program.now)
        (configuration program.now.symbols config.now) (task_state program.now.symbols cell.now))
        × (at.future ≡ future)) }
{
    let Some(frame) = innermost(cell) else {
        return None;
    };
    match next_effect(program, frame) {
        Some(Effect::Await(names)) => first_open(config, &frame.slots, names.as_slice()),
        _ => None,
    }
}

/// The first unresolved future that one of these slots holds, if one does.
fn first_open(config: &Config, slots: &Values, names: &[Option<u32>]) -> Option<u32>
    ensures { (symbols : List Name)
        → FindsOne result (OneHoldsOpen (configuration symbols config.now) slots.now names.now) }
{
    for name in names {
        let future = open_future(config, slots, *name);
        if future.is_some() {
            return future;
        }
    }
    None
}

/// The future that a slot holds, if it is unresolved.
fn open_future(config: &Config, slots: &Values, name: Option<u32>) -> Option<u32>
    ensures { (symbols : List Name)
        → FindsOne result (HoldsOpen (configuration symbols config.now) slots.now name) }
{
    let Some(slot) = name else {
        return None;
    };
    match slots.as_slice().get(slot as usize) {
        Some(value) => if_open(config, value),
        None => None,
    }
}

/// The future that a value is, if it is unresolved.
fn if_open(config: &Config, value: &Value) -> Option<u32>
    ensures { (symbols : List Name) → FindsOne result (λ future. (value_tree value.now ≡ FutureValue future)
        × IsUnfinished (configuration symbols config.now) future) }
{
    match value {
        Value::Future(task) => is_open(config, *task).then_some(*task),
        _ => None,
    }
}

/// Whether a task is there, and has no result.
fn is_open(config: &Config, task: u32) -> bool
    ensures { (symbols : List Name) → MatchBool result
        (IsUnfinished (configuration symbols config.now) task)
        (IsUnfinished (configuration symbols config.now) task → ⊥) }
{
    if task as usize >= config.tasks.len() {
        return false;
    }
    config.tasks.at(task as usize).outcome.is_none()
}
