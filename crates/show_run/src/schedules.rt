//! Schedules: which task has the next event. Prints the history of a run by another schedule than that of one worker.
//! Each such run is legal, and the same each time. At each event the ready set is compared with what it stands for:
//! which tasks have an event, which one is the first after the task of the last event, and after another task, if the
//! schedule asks for that.
ghost use Rattle.std.specs.Prelude.{◌<◌, length, IsSome, IfOk, IfSome};
ghost use Rattle.abs_program.specs.NamedViews.{program_tree};
ghost use Rattle.config_state.specs.ConfigViews.{configuration};
ghost use Rattle.config_state.specs.OfProgram.{IsConfigOf};
ghost use Rattle.step_rules.specs.Events.{event_of};

use crate::failure::Failure;
use crate::history::runs_line;
use crate::ready_sets::{greatest_with_event, next_with_event};
use abs_program::Named;
use abs_tree::limits::EVENT_LIMIT;
use config_state::{Config, Lines, State, first};
use future_cells::Ready;
use run_history::History;
use std::alloc::Global;
use step_rules::{has_step, step};

/// How many events a scattered run has at most.
const SCATTERED_LIMIT: u64 = 300;

/// Which task has the next event.
#[derive(Clone, Copy, PartialEq, Eq)]
pub(crate) enum Schedule {
    /// The order of one worker: the task of the last event while it goes on, and else the first one after it that has
    /// an event, going round.
    InTurn,
    /// The greatest one that has an event.
    Greatest,
    /// The first one that has an event after a pseudo-random task, going round. Tasks are drawn from this number on.
    Scattered(u32),
}

impl Schedule {
    /// The schedule that a word names: `turn`, `greatest`, or a number from which tasks are drawn.
    pub(crate) fn named(word: &str) -> Option<Schedule> {
        match word {
            "turn" => Some(Schedule::InTurn),
            "greatest" => Some(Schedule::Greatest),
            number => number.parse().ok().map(Schedule::Scattered),
        }
    }

    /// How many events a run has at most whose history is printed.
    fn limit(self) -> u64 {
        match self {
            Schedule::InTurn | Schedule::Greatest => EVENT_LIMIT,
            Schedule::Scattered(_) => SCATTERED_LIMIT,
        }
    }

    /// The number before all pseudo-random numbers.
    pub(crate) fn seed(self) -> u32 {
        match self {
            Schedule::InTurn | Schedule::Greatest => 0,
            Schedule::Scattered(number) => number,
        }
    }
}

/// A line with the history of the run of a program by a schedule, up to its limit of events, in the form of that of the
/// run of one worker. A program that offends against the types or the profile runs too.
///
/// # Errors
/// [`Failure::Memory`] if memory runs out. [`Failure::Strays`] if the ready set is not that of a configuration.
pub(crate) fn schedule_line(
    alloc: Global,
    program: &Named<'_>,
    schedule: Schedule,
) -> Result<String, Failure> {
    let mut config = first(alloc, program)?;
    let mut lines = Lines {
        items: Vec::new(alloc),
    };
    let mut ready = Ready::build(alloc, program, &config)?;
    let limit = schedule.limit();
    let mut history = History::new(alloc, limit)?;
    let mut number = schedule.seed();
    let mut last = 0;
    for _ in 0..limit {
        number = number_after(number);
        let Some(task) = chosen(program, &config, &ready, schedule, number, last)? else {
            break;
        };
        ready.reserve(1)?;
        let did = step(alloc, program, &mut config, task, &mut lines)?;
        ready.after(program, &config, task, &did);
        history.push(task);
        last = task;
    }
    Ok(runs_line(alloc, &history)?)
}

/// The pseudo-random number after another one.
pub(crate) fn number_after(number: u32) -> u32 {
    number.wrapping_mul(1_664_525).wrapping_add(1_013_904_223)
}

/// The task that has the next event by a schedule, with a pseudo-random number and the task of the last event. Before
/// all events the last task is that of the main block, which then is the only one.
///
/// # Errors
/// [`Failure::Strays`] if the ready set is not that of the configuration.
pub(crate) fn chosen(
    program: &Named<'_>,
    config: &Config,
    ready: &Ready,
    schedule: Schedule,
    number: u32,
    last: u32,
) -> Result<Option<u32>, Failure>
    requires { ∥ IsConfigOf (program_tree program.now) (configuration program.now.symbols config.now) ∥₁ }
    ensures there { IfOk result (λ found. IfSome found (λ task. task < length config.now.tasks)) }
    ensures has_step { IfOk result (λ found. IfSome found (λ task. IsSome (event_of (program_tree program.now)
        (configuration program.now.symbols config.now) task))) }
{
    let next = next_with_event(program, config, ready, last)?;
    let greatest = greatest_with_event(program, config, ready)?;
    match schedule {
        Schedule::InTurn => match going_on(program, config, last) {
            Some(task) => Ok(Some(task)),
            None => Ok(next),
        },
        Schedule::Greatest => Ok(greatest),
        Schedule::Scattered(_) => {
            let from = task_of_number(config, number);
            next_with_event(program, config, ready, from)
        }
    }
}

/// The task of the last event, if it goes on: it runs, and has an event.
fn going_on(program: &Named<'_>, config: &Config, last: u32) -> Option<u32>
    requires { ∥ IsConfigOf (program_tree program.now) (configuration program.now.symbols config.now) ∥₁ }
    ensures there { IfSome result (λ task. task < length config.now.tasks) }
    ensures has_step { IfSome result (λ task. IsSome (event_of (program_tree program.now)
        (configuration program.now.symbols config.now) task)) }
{
    if last as usize >= config.tasks.len() {
        return None;
    }
    match config.tasks.at(last as usize).state {
        State::Running if has_step(program, config, last) => Some(last),
        State::Running | State::Ready | State::Awaiting => None,
    }
}

/// The task that a pseudo-random number stands for: its upper half modulo the number of tasks.
fn task_of_number(config: &Config, number: u32) -> u32 {
    let upper_half = number >> 16;
    match config.tasks.len() as u32 {
        0 => 0,
        count => upper_half % count,
    }
}
