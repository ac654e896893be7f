//! Compares the ready set of a configuration with what it stands for, by trying each task. What is found is found by
//! the trial, and the ready set has to have the same.
ghost use Rattle.std.specs.Prelude.{◌<◌, length, IsSome, IfOk, IfSome};
ghost use Rattle.abs_program.specs.NamedViews.{program_tree};
ghost use Rattle.config_state.specs.ConfigViews.{configuration};
ghost use Rattle.config_state.specs.OfProgram.{IsConfigOf};
ghost use Rattle.step_rules.specs.Events.{event_of};

use crate::failure::Failure;
use abs_program::Named;
use config_state::Config;
use future_cells::Ready;
use step_rules::has_step;

/// The greatest task that has an event, if one has any.
///
/// # Errors
/// [`Failure::Strays`] if the ready set has other tasks than those with an event.
pub(crate) fn greatest_with_event(
    program: &Named<'_>,
    config: &Config,
    ready: &Ready,
) -> Result<Option<u32>, Failure>
    requires { ∥ IsConfigOf (program_tree program.now) (configuration program.now.symbols config.now) ∥₁ }
    ensures there { IfOk result (λ found. IfSome found (λ task. task < length config.now.tasks)) }
    ensures has_step { IfOk result (λ found. IfSome found (λ task. IsSome (event_of (program_tree program.now)
        (configuration program.now.symbols config.now) task))) }
{
    let mut greatest = None;
    for task in 0..config.tasks.len() as u32 {
        let has_event = has_step(program, config, task);
        if has_event != ready.contains(task) {
            return Err(Failure::Strays);
        }
        if has_event {
            greatest = Some(task);
        }
    }
    if ready.contains(config.tasks.len() as u32) {
        return Err(Failure::Strays);
    }
    Ok(greatest)
}

/// The first task that has an event after another one, going round, if one has any. That one itself comes last.
///
/// # Errors
/// [`Failure::Strays`] if the ready set takes another task for the next.
pub(crate) fn next_with_event(
    program: &Named<'_>,
    config: &Config,
    ready: &Ready,
    from: u32,
) -> Result<Option<u32>, Failure>
    requires { ∥ IsConfigOf (program_tree program.now) (configuration program.now.symbols config.now) ∥₁ }
    ensures there { IfOk result (λ found. IfSome found (λ task. task < length config.now.tasks)) }
    ensures has_step { IfOk result (λ found. IfSome found (λ task. IsSome (event_of (program_tree program.now)
        (configuration program.now.symbols config.now) task))) }
{
    let next = first_going_round(program, config, from);
    if next != ready.next(from) {
        return Err(Failure::Strays);
    }
    Ok(next)
}

/// Of the tasks above another one the first that has an event; if none of them has, the first of all, if one has any.
fn first_going_round(program: &Named<'_>, config: &Config, from: u32) -> Option<u32>
    requires { ∥ IsConfigOf (program_tree program.now) (configuration program.now.symbols config.now) ∥₁ }
    ensures there { IfSome result (λ task. task < length config.now.tasks) }
    ensures has_step { IfSome result (λ task. IsSome (event_of (program_tree program.now)
        (configuration program.now.symbols config.now) task)) }
{
    let mut first = None;
    for task in 0..config.tasks.len() as u32 {
        if !has_step(program, config, task) {
            continue;
        }
        if task > from {
            return Some(task);
        }
        first = first.or(Some(task));
    }
    first
}
