//! The order of one worker, with the ready set.
ghost use Rattle.std.specs.Prelude.{◌≡◌, ◌<◌, ℕ, List, length, Some, None, IfSome, IfNone, MatchBool};
ghost use Rattle.abs_tree.specs.Syntax.{Name, ProgramTree};
ghost use Rattle.config_state.specs.First.{first as first_of};
ghost use Rattle.config_state.specs.ConfigViews.{configuration};
ghost use Rattle.future_cells.specs.Standings.{tasks_with_event};
ghost use Rattle.run_history.specs.Turns.{GoesOn, IsNext};
ghost use Rattle.step_rules.specs.Runs.{HasStep};

use crate::ready::Ready;
use config_state::{Config, State};

/// The task whose event comes next, after one of the last task, if there was one, where the ready set is that of the
/// configuration. Without a last task the configuration has to be the first one. It takes no memory.
pub fn next_task(config: &Config, ready: &Ready, last: Option<u32>) -> Option<u32>
    requires there { (task : ℕ) → last ≡ Some task → task < length config.now.tasks }
    ensures some { (program : ProgramTree) (names : List Name)
        → ready.now.tasks ≡ tasks_with_event program (configuration names config.now)
        → (last ≡ None → configuration names config.now ≡ first_of program)
        → IfSome result (λ task. IsNext program (configuration names config.now) task last) }
    ensures none { (program : ProgramTree) (names : List Name)
        → ready.now.tasks ≡ tasks_with_event program (configuration names config.now)
        → IfNone result (HasStep program (configuration names config.now) → ⊥) }
{
    match last {
        Some(last) => next_after(config, ready, last),
        None => Some(0),
    }
}

/// The task whose event comes next after one of the last task.
fn next_after(config: &Config, ready: &Ready, last: u32) -> Option<u32>
    requires there { last < length config.now.tasks }
    ensures some { (program : ProgramTree) (names : List Name)
        → ready.now.tasks ≡ tasks_with_event program (configuration names config.now)
        → IfSome result (λ task. IsNext program (configuration names config.now) task (Some last)) }
    ensures none { (program : ProgramTree) (names : List Name)
        → ready.now.tasks ≡ tasks_with_event program (configuration names config.now)
        → IfNone result (HasStep program (configuration names config.now) → ⊥) }
{
    if goes_on(config, ready, last) {
        return Some(last);
    }
    ready.next(last)
}

/// Whether a task runs and has an event.
fn goes_on(config: &Config, ready: &Ready, task: u32) -> bool
    requires there { task < length config.now.tasks }
    ensures { (program : ProgramTree) (names : List Name)
        → ready.now.tasks ≡ tasks_with_event program (configuration names config.now)
        → MatchBool result (GoesOn program (configuration names config.now) task)
        (GoesOn program (configuration names config.now) task → ⊥) }
{
    match config.tasks.at(task as usize).state {
        State::Running => ready.contains(task),
        State::Ready | State::Awaiting => false,
    }
}
