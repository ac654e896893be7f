//! Kinds of events, and ends of runs.

/// What an event did.
#[derive(Clone, Copy, Debug, PartialEq, Eq)]
pub enum Did {
    /// The task took its cog.
    Took,
    /// The task went on, and nothing that the other kinds name happened.
    Went,
    /// An object was made.
    Made,
    /// A method was called, on an object or on `this`.
    Called,
    /// A line was printed.
    Printed,
    /// The task released its cog, by `await` or by `suspend`.
    Released,
    /// The task got its result.
    Finished,
}

/// How a run ended.
#[derive(Clone, Copy, Debug, PartialEq, Eq)]
pub enum End {
    /// Every task has a result.
    Done,
    /// A task is unfinished, and none has an event.
    Stalled,
    /// The history has the greatest permitted number of events, and a task is unfinished.
    Spent,
}
