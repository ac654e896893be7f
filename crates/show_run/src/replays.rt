//! Replays a history: whether it is legal, and what it prints.
use crate::failure::Failure;
use crate::sink::Sink;
use abs_program::Named;
use run_history::{History, Replayed, replay};
use std::alloc::{AllocError, Global};

/// What becomes of the history with these tasks, which are numbers with spaces between them.
///
/// # Errors
/// [`Failure::Usage`] if a task is no number, and [`Failure::Memory`] if memory runs out.
pub(crate) fn replay_lines(
    alloc: Global,
    program: &Named<'_>,
    tasks: &str,
) -> Result<String, Failure> {
    let tasks = tasks_of(alloc, tasks)?;
    Ok(replayed_lines(alloc, program, tasks.as_slice())?)
}

/// The numbers in a text.
///
/// # Errors
/// [`Failure::Usage`] if a word is no number, and [`Failure::Memory`] if memory runs out.
fn tasks_of(alloc: Global, text: &str) -> Result<Vec<u32>, Failure> {
    let mut tasks = Vec::new(alloc);
    for word in text.split_whitespace() {
        tasks.push(word.parse::<u32>().map_err(|_| Failure::Usage)?)?;
    }
    Ok(tasks)
}

/// What becomes of the history with these tasks. Of a legal one the line `legal`, and then the lines that it prints;
/// else a line with its first event that does not exist, counted from 0.
///
/// # Errors
/// [`AllocError`] if memory runs out.
fn replayed_lines(alloc: Global, program: &Named<'_>, tasks: &[u32]) -> Result<String, AllocError> {
    let history = history_of(alloc, tasks)?;
    let mut out = Sink::new(alloc);
    match replay(alloc, program, &history)? {
        Replayed::Legal(_, lines) => {
            out.push("legal\n");
            for line in lines.items.iter() {
                out.bytes(line.as_bytes());
                out.push("\n");
            }
        }
        Replayed::Illegal(index) => {
            out.push("no event ");
            out.print(&index);
            out.push("\n");
        }
    }
    out.finish()
}

/// The history with these tasks.
///
/// # Errors
/// [`AllocError`] if memory runs out.
fn history_of(alloc: Global, tasks: &[u32]) -> Result<History, AllocError> {
    let mut history = History::new(alloc, tasks.len() as u64)?;
    for task in tasks {
        history.push(*task);
    }
    Ok(history)
}
