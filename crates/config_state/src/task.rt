//! Tasks: what executes the bodies of methods.
ghost use Rattle.std.specs.Prelude.{◌≡◌, ◌<◌, ◌^◌, ◌==◌, length, slice_get, Some};

use crate::Frames;
use abs_tree::Symbol;
use abs_values::Evaluated;
use std::marker::Model;

/// Whether a task makes steps.
#[derive(Clone, Copy, Debug, PartialEq, Eq)]
pub enum State {
    /// It can take its cog. A task that has ended is in this state.
    Ready,
    /// It holds its cog.
    Running,
    /// It can take its cog once the futures of its next statement, an `await`, are resolved.
    Awaiting,
}

/// A task, which is known by its index in the configuration. That is also its future.
#[derive(Drop)]
pub struct TaskCell {
    /// The cog whose holder it is while it runs.
    pub cog: u32,
    /// The object that it was called on; none for the main block.
    pub object: Option<u32>,
    /// The method that was called; none for the main block.
    pub method: Option<Symbol>,
    /// The offset of the statement that called it; none for the main block and for the method `run` of a new object.
    pub call: Option<u32>,
    /// The bodies that it executes, the innermost one last. Once it has ended there is none.
    pub frames: Frames,
    pub state: State,
    /// Its result, once it has ended: a value or a fault.
    pub outcome: Option<Evaluated>,
}

/// The tasks of a configuration, of which there are fewer than 2 to the power of 32. Contracts see their list.
#[derive(Drop)]
pub struct Tasks {
    pub items: Vec<TaskCell>,
}

impl Model for Tasks {
    ghost use Rattle.std.specs.Coded.{coded_list};
    ghost use Rattle.std.specs.Prelude.{◌<◌, ◌^◌, List, length};
    ghost use Rattle.config_state.specs.TaskCodes.{task_code};
    ghost use Rattle.config_state.specs.declared.task.TaskCell.{TaskCell};

    ghost Value = { List TaskCell };

    ghost coded = { coded_list task_code };

    ghost view = { λ t. t.items.items };

    ghost invariant = { λ t. length t.items.items < 2 ^ 32 };
}

impl Tasks {
    /// The number of tasks.
    pub fn len(&self) -> usize
        ensures is { result ≡ length self.now }
        ensures few { result < 2 ^ 32 }
    {
        self.items.len()
    }

    /// Whether there is no task.
    pub fn is_empty(&self) -> bool
        ensures { result ≡ (length self.now == 0) }
    {
        self.items.is_empty()
    }

    /// The task with an index.
    pub fn at(&self, index: usize) -> &TaskCell
        requires { index < length self.now }
        ensures { slice_get self.now index ≡ Some result.now }
    {
        &self.items[index]
    }
}
