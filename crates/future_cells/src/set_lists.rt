//! Lists of sets of tasks: a task goes into one set of a list, or out of one, and all other sets stay.
ghost use Rattle.std.specs.Prelude.{◌≡◌, ◌<◌, ℕ, true, false, not, ◌&&◌, ◌||◌, length, nat_eq};
ghost use Rattle.future_cells.specs.SetLists.{has_at};

use crate::task_set::{Link, TaskSet};

/// Puts a task into the set at an index.
pub(crate) fn insert_at(sets: &mut [TaskSet], index: usize, task: u32, link: Link)
    requires there { index < length sets.old }
    requires is_new { has_at sets.old index task ≡ false }
    ensures length { length sets.new ≡ length sets.old }
    ensures has { (at other : ℕ) → has_at sets.new at other
        ≡ ((nat_eq index at && nat_eq task other) || has_at sets.old at other) }
{
    sets[index].insert(task, link);
}

/// Takes a task out of the set at an index. Its memory is given back.
pub(crate) fn remove_at(sets: &mut [TaskSet], index: usize, task: u32) -> Link
    requires there { index < length sets.old }
    requires is_in { has_at sets.old index task ≡ true }
    ensures length { length sets.new ≡ length sets.old }
    ensures has { (at other : ℕ) → has_at sets.new at other
        ≡ (not (nat_eq index at && nat_eq task other) && has_at sets.old at other) }
{
    sets[index].remove(task)
}
