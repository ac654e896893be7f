//! Runs a program: makes one event after the other in the order of one worker, and records whose event it was.
ghost use Rattle.std.specs.Prelude.{◌≡◌, ◌≤◌, ℕ, IfOk, MatchBool, List, length};
ghost use Rattle.abs_program.specs.NamedViews.{program_tree};
ghost use Rattle.abs_tree.specs.Syntax.{Name, ProgramTree};
ghost use Rattle.config_state.specs.ConfigViews.{configuration};
ghost use Rattle.step_rules.specs.Runs.{EndsAs, IsDone, IsOpen};
ghost use Rattle.abs_command.specs.Machine.{IsRun};

use abs_program::Named;
use config_state::{Config, Lines, first};
use future_cells::{Ready, next_task};
use run_history::History;
use std::alloc::{AllocError, Global};
use step_rules::{End, step};

/// A finished run: the last configuration, the history, what was printed, and how the run ended.
#[derive(Drop)]
pub struct Ran {
    pub config: Config,
    pub history: History,
    pub lines: Lines,
    pub end: End,
}

/// Runs a program for at most `limit` events.
///
/// # Errors
/// [`AllocError`] if an allocation fails, or if a list of the configuration has as many entries already as it may have.
pub fn run(alloc: Global, program: &Named<'_>, limit: u64) -> Result<Ran, AllocError>
    ensures { IfOk result (λ ran. IsRun program.now.symbols (program_tree program.now) limit ran) }
{
    let mut config = first(alloc, program)?;
    let mut history = History::new(alloc, limit)?;
    let mut lines = Lines {
        items: Vec::new(alloc),
    };
    let mut ready = Ready::build(alloc, program, &config)?;
    let mut last = None;
    while history.len() < limit {
        let Some(task) = next_task(&config, &ready, last) else {
            return Ok(ended(config, history, lines, End::Stalled));
        };
        ready.reserve(1)?;
        let did = step(alloc, program, &mut config, task, &mut lines)?;
        ready.after(program, &config, task, &did);
        history.push(task);
        last = Some(task);
    }
    Ok(ended(config, history, lines, End::Spent))
}

/// The finished run. It is done if every task has a result, and otherwise it ended as is said.
fn ended(config: Config, history: History, lines: Lines, otherwise: End) -> Ran
    ensures config { result.config ≡ config }
    ensures history { result.history ≡ history }
    ensures lines { result.lines ≡ lines }
    ensures end { (names : List Name) (program : ProgramTree) (limit : ℕ) → length history.tasks ≤ limit
        → (IsOpen (configuration names config)
        → EndsAs program limit history.tasks (configuration names config) otherwise)
        → EndsAs program limit history.tasks (configuration names config) result.end }
{
    let end = if is_done(&config) {
        End::Done
    } else {
        otherwise
    };
    Ran {
        config,
        history,
        lines,
        end,
    }
}

/// Whether every task has a result.
fn is_done(config: &Config) -> bool
    ensures { (names : List Name) → MatchBool result (IsDone (configuration names config.now))
        (IsOpen (configuration names config.now)) }
{
    config.tasks.items.iter().all(|task| task.outcome.is_some())
}
