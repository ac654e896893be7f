//! Prints a run event by event: a line for each event, with its task and its kind, and after it the configuration that
//! the event leads to, and which tasks have an event there. The first configuration comes before all events.
//!
//! The events are made in place, or from their inputs: there the output of each input is evaluated apart, and handed
//! in. Both print the same.
//!
//! Where an event that is made in place is refused memory, the configuration and the printed lines have to be as
//! before. Both are written as text before and after it, and compared. Then the event is tried once more. So where a
//! single allocation fails, the program prints all or nothing.
//!
//! Which tasks have an event is told by a ready set, which follows the events. After each event it is compared with
//! what comes of trying each task.
ghost use Rattle.std.specs.Prelude.{◌≡◌, ◌<◌, length, Some, IsSome, IfOk, OnOk};
ghost use Rattle.abs_program.specs.NamedViews.{program_tree};
ghost use Rattle.config_state.specs.ConfigViews.{configuration};
ghost use Rattle.config_state.specs.OfProgram.{IsConfigOf};
ghost use Rattle.step_rules.specs.Changes.{Change};
ghost use Rattle.step_rules.specs.Events.{Step, change_of, event_of};

use crate::configurations::{Printer, configuration_lines};
use crate::failure::Failure;
use crate::inputs::apply_output;
use crate::schedules::{Schedule, chosen, number_after};
use abs_program::Named;
use config_state::{Config, Lines, first};
use future_cells::Ready;
use std::alloc::{AllocError, Global};
use step_rules::{Did, has_step, step};

/// How the events of a run are made.
#[derive(Clone, Copy)]
pub(crate) enum Way {
    /// In place.
    InPlace,
    /// From the outputs of their inputs.
    Apart,
}

/// The lines of the run of a program by a schedule, up to a limit of events. A program that offends against the types
/// or the profile runs too. Each event adds the whole configuration, so long runs take much memory.
///
/// # Errors
/// [`Failure::Memory`] if memory runs out, but not where the second try of an event succeeds. [`Failure::Changed`] if
/// an event that was refused memory changed the configuration or the printed lines. [`Failure::Differs`] if an input is
/// not the same as itself. [`Failure::Strays`] if the ready set has other tasks than those with an event.
pub(crate) fn step_lines(
    alloc: Global,
    program: &Named<'_>,
    way: Way,
    schedule: Schedule,
    limit: u64,
) -> Result<String, Failure> {
    let mut config = first(alloc, program)?;
    let mut lines = Lines {
        items: Vec::new(alloc),
    };
    let mut shown = configuration_lines(alloc, &program.symbols, &config, &lines)?;
    let mut printer = Printer::new(alloc, &program.symbols);
    printer.push("first\n");
    printer.push(shown.as_str());
    let mut ready = Ready::build(alloc, program, &config)?;
    choices_line(program, &config, &ready, &mut printer)?;
    let mut number = schedule.seed();
    let mut last = 0;
    for event in 0..limit {
        number = number_after(number);
        let Some(task) = chosen(program, &config, &ready, schedule, number, last)? else {
            break;
        };
        ready.reserve(1)?;
        let before = shown.as_str();
        let did = make_event(alloc, program, way, &mut config, task, &mut lines, before)?;
        ready.after(program, &config, task, &did);
        shown = configuration_lines(alloc, &program.symbols, &config, &lines)?;
        printer.event(event, task, did);
        printer.push(shown.as_str());
        choices_line(program, &config, &ready, &mut printer)?;
        last = task;
    }
    Ok(printer.finish()?)
}

/// Prints a line with the tasks that have an event, as the ready set has them.
///
/// # Errors
/// [`Failure::Strays`] if one of them has none, or another one has one.
fn choices_line(
    program: &Named<'_>,
    config: &Config,
    ready: &Ready,
    printer: &mut Printer<'_, '_>,
) -> Result<(), Failure>
    requires { ∥ IsConfigOf (program_tree program.now) (configuration program.now.symbols config.now) ∥₁ }
{
    printer.push("  with an event:");
    for task in 0..config.tasks.len() as u32 {
        let has_event = ready.contains(task);
        if has_event != has_step(program, config, task) {
            return Err(Failure::Strays);
        }
        if has_event {
            printer.choice(task);
        }
    }
    printer.push("\n");
    Ok(())
}

/// Makes the event of a task, in one of the two ways. `before` is the text of the configuration and the lines. It tells
/// what the event did.
///
/// # Errors
/// An error of [`step_or_retry`] or of [`apply_output`].
fn make_event(
    alloc: Global,
    program: &Named<'_>,
    way: Way,
    config: &mut Config,
    task: u32,
    lines: &mut Lines,
    before: &str,
) -> Result<Did, Failure>
    requires of_program { ∥ IsConfigOf (program_tree program.now) (configuration program.now.symbols config.old) ∥₁ }
    requires there { task < length config.old.tasks }
    requires has_step { IsSome (event_of (program_tree program.now) (configuration program.now.symbols config.old)
        task) }
    ensures of_program { ∥ IsConfigOf (program_tree program.now) (configuration program.now.symbols config.new) ∥₁ }
    ensures config { OnOk result ((step : Step)
        → event_of (program_tree program.now) (configuration program.now.symbols config.old) task ≡ Some step
        → configuration program.now.symbols config.new ≡ step.config) }
    ensures kind { IfOk result (λ did. (change : Change)
        → change_of (program_tree program.now) (configuration program.now.symbols config.old) task ≡ Some change
        → did ≡ change.did) }
    ensures there { OnOk result (task < length config.new.tasks) }
{
    match way {
        Way::InPlace => step_or_retry(alloc, program, config, task, lines, before),
        Way::Apart => apply_output(alloc, program, config, task, lines),
    }
}

/// Does the event of a task, at the second try if the first one is refused memory. `before` is the text of the
/// configuration and the lines. It tells what the event did.
///
/// # Errors
/// [`Failure::Changed`] if the text is another one after the first try. [`Failure::Memory`] if memory runs out for that
/// text or at the second try.
fn step_or_retry(
    alloc: Global,
    program: &Named<'_>,
    config: &mut Config,
    task: u32,
    lines: &mut Lines,
    before: &str,
) -> Result<Did, Failure>
    requires of_program { ∥ IsConfigOf (program_tree program.now) (configuration program.now.symbols config.old) ∥₁ }
    requires there { task < length config.old.tasks }
    requires has_step { IsSome (event_of (program_tree program.now) (configuration program.now.symbols config.old)
        task) }
    ensures of_program { ∥ IsConfigOf (program_tree program.now) (configuration program.now.symbols config.new) ∥₁ }
    ensures config { OnOk result ((step : Step)
        → event_of (program_tree program.now) (configuration program.now.symbols config.old) task ≡ Some step
        → configuration program.now.symbols config.new ≡ step.config) }
    ensures kind { IfOk result (λ did. (change : Change)
        → change_of (program_tree program.now) (configuration program.now.symbols config.old) task ≡ Some change
        → did ≡ change.did) }
    ensures there { OnOk result (task < length config.new.tasks) }
{
    if let Ok(did) = step(alloc, program, config, task, lines) {
        return Ok(did);
    }
    let after = configuration_lines(alloc, &program.symbols, config, lines)?;
    if after.as_str() != before {
        return Err(Failure::Changed);
    }
    Ok(step(alloc, program, config, task, lines)?)
}
