//! The history of a run: whose event came when.
ghost use Rattle.std.specs.Prelude.{◌≡◌, ◌+◌, ◌<◌, ◌≤◌, [], ◌∷◌, ◌++◌, ◌==◌, length, slice_get, Some, IfOk, IsOk};

use std::alloc::{AllocError, Global};
use std::marker::Model;

/// The tasks whose events were recorded, in order. Contracts see their list, and how many more events can be recorded
/// without an allocation.
#[derive(Drop)]
pub struct History {
    tasks: Vec<u32>,
}

impl Model for History {
    ghost use Rattle.std.specs.Prelude.{◌-◌, vec_len, vec_capacity};
    ghost use Rattle.run_history.specs.Recorded.{Recorded};

    ghost Value = { Recorded };

    ghost view = { λ h. record { tasks = h.tasks.items; spare = vec_capacity h.tasks - vec_len h.tasks } };
}

impl History {
    /// An empty history with room for this many events. With room for none it allocates nothing.
    ///
    /// # Errors
    /// [`AllocError`] where memory runs out.
    pub fn new(alloc: Global, room: u64) -> Result<History, AllocError>
        ensures empty { IfOk result (λ history. history.tasks ≡ []) }
        ensures room { IfOk result (λ history. room ≤ history.spare) }
        ensures no_room { room ≡ 0 → IsOk result }
    {
        if room == 0 {
            return Ok(History {
                tasks: Vec::new(alloc),
            });
        }
        let tasks = Vec::with_capacity(alloc, room as usize)?;
        Ok(History { tasks })
    }

    /// Records an event of a task.
    pub fn push(&mut self, task: u32)
        requires { 1 ≤ self.old.spare }
        ensures tasks { self.new.tasks ≡ self.old.tasks ++ task ∷ [] }
        ensures spare { self.old.spare ≤ self.new.spare + 1 }
    {
        self.tasks.push(task).unwrap();
    }

    /// How many events were recorded.
    pub fn len(&self) -> u64
        ensures { result ≡ length self.now.tasks }
    {
        self.tasks.len() as u64
    }

    /// Whether no event was recorded.
    pub fn is_empty(&self) -> bool
        ensures { result ≡ (length self.now.tasks == 0) }
    {
        self.tasks.is_empty()
    }

    /// The task of a recorded event, counted from 0.
    pub fn at(&self, index: u64) -> u32
        requires { index < length self.now.tasks }
        ensures { slice_get self.now.tasks index ≡ Some result }
    {
        self.tasks[index as usize]
    }
}
