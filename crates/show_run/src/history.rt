//! Prints the history of a run: whose event came when, as the command hands it back.
use crate::failure::Failure;
use crate::sink::Sink;
use abs_command::{Ended, Status, abs_run};
use abs_outside::{PureSink, PureSource};
use abs_tree::SourceError;
use run_history::History;
use std::alloc::{AllocError, Global};

/// A line with the history of the run of a source: `5*0 3*1` is five events of task 0, then three of task 1.
///
/// # Errors
/// [`Failure::Refused`] if the command refuses the source, and [`Failure::Memory`] if memory runs out.
pub(crate) fn history_line(alloc: Global, source: &[u8]) -> Result<String, Failure> {
    let ended = ended(alloc, source)?;
    if let Some(refusal) = ended.refusal {
        return Err(SourceError::Refused(refusal).into());
    }
    match ended.status {
        Status::Memory => Err(Failure::Memory),
        Status::TooLarge => Err(Failure::TooLarge),
        Status::Usage => Err(Failure::Usage),
        Status::ReadFault => Err(Failure::Unreadable),
        Status::WriteFault => Err(Failure::Unwritable),
        _ => Ok(runs_line(alloc, &ended.history)?),
    }
}

/// What the command comes to for a source, where what it writes is not kept.
///
/// # Errors
/// [`AllocError`] if memory runs out before the command is called.
fn ended(alloc: Global, source: &[u8]) -> Result<Ended, AllocError> {
    // (the source in memory has the same bytes under any name)
    let words = vec![in alloc; String::new(alloc), String::new(alloc)]?;
    let mut source = PureSource::new(Vec::from_slice(alloc, source)?);
    Ok(abs_run(alloc, &words, &mut source, &mut PureSink::new()))
}

/// A line with the runs of a history, with spaces between them. A run is all events of one task that come in a row.
///
/// # Errors
/// [`AllocError`] if memory runs out.
pub(crate) fn runs_line(alloc: Global, history: &History) -> Result<String, AllocError> {
    let mut line = Sink::new(alloc);
    let mut count: u64 = 0;
    let mut between = "";
    for index in 0..history.len() {
        count = count.saturating_add(1);
        let task = history.at(index);
        if task_after(history, index) == Some(task) {
            continue;
        }
        line.push(between);
        line.print(&count);
        line.push("*");
        line.print(&task);
        count = 0;
        between = " ";
    }
    line.push("\n");
    line.finish()
}

/// The task of the event after one, if there is one.
fn task_after(history: &History, index: u64) -> Option<u32> {
    let next = index.checked_add(1)?;
    if next < history.len() {
        Some(history.at(next))
    } else {
        None
    }
}
