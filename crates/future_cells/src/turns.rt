//! The order of the tasks of a set from one on, going round: those above it, and then those from 0 on up to it.
ghost use Rattle.std.specs.Prelude.{◌≡◌, ℕ, false, IfSome, IfNone};
ghost use Rattle.future_cells.specs.TaskSets.{has};
ghost use Rattle.future_cells.specs.Turns.{IsFirstOf};

use crate::task_set::TaskSet;

/// Of the tasks of a set the first after another one, going round.
pub(crate) fn first_going_round(set: &TaskSet, last: u32) -> Option<u32>
    ensures some { IfSome result (λ task. IsFirstOf (has set.now) last task) }
    ensures none { IfNone result ((task : ℕ) → has set.now task ≡ false) }
{
    match set.first_after(last) {
        Some(task) => Some(task),
        None => set.first(),
    }
}
