//! The trace of a run: the task of each of its events.
ghost use Rattle.std.specs.Prelude.{◌≡◌, ◌++◌, IfOk, OnOk, codes, decimal};
ghost use Rattle.abs_command.specs.Texts.{tasks_lines, trace_text as text_of};

use abs_tree::Text;
use itoa::write_digits;
use run_history::History;
use std::alloc::{AllocError, Global};

/// How many bytes the first line takes at most.
const HEADER_ROOM: usize = 40;

/// How many digits the number of a task has at most.
const DIGITS: usize = 10;

/// The trace of a run with this history: how many events it had, and the task of each, a line each. Its bytes have one
/// allocation, since their number is counted before.
///
/// # Errors
/// [`AllocError`] where memory runs out.
pub fn trace_text(alloc: Global, history: &History) -> Result<Text, AllocError>
    ensures { IfOk result (λ text. text ≡ text_of history.now.tasks) }
{
    Text::new(alloc, trace_bytes(alloc, history)?)
}

/// Its bytes.
#[tactic(auto, unfolding(crate::specs::Texts::trace_text))]
fn trace_bytes(alloc: Global, history: &History) -> Result<Vec<u8>, AllocError>
    ensures { IfOk result (λ bytes. bytes.items ≡ text_of history.now.tasks) }
{
    let events = history.len();
    let header = format!(in alloc; "trace: {events} events\n")?;
    let mut out = Vec::with_capacity(alloc, HEADER_ROOM.saturating_add(room(history)))?;
    out.extend_from_slice(header.as_bytes())?;
    push_tasks(&mut out, history)?;
    Ok(out)
}

/// Appends the task of each event, a line each.
fn push_tasks(out: &mut Vec<u8>, history: &History) -> Result<(), AllocError>
    ensures { OnOk result (out.new.items ≡ out.old.items ++ tasks_lines history.now.tasks) }
{
    for index in 0..history.len() {
        push_line(out, history.at(index))?;
    }
    Ok(())
}

/// Appends the digits of a task, and a line feed.
fn push_line(out: &mut Vec<u8>, task: u32) -> Result<(), AllocError>
    ensures { OnOk result (out.new.items ≡ out.old.items ++ (decimal task ++ codes "\n")) }
{
    let mut line = [b'\n'; DIGITS + 1];
    let start = write_digits(u64::from(task), &mut line, DIGITS);
    out.extend_from_slice(&line[start..])
}

/// How many bytes the lines of the tasks take.
fn room(history: &History) -> usize {
    let mut room = 0usize;
    for index in 0..history.len() {
        let digits = history.at(index).checked_ilog10().unwrap_or(0) + 1;
        room = room.saturating_add(digits as usize + 1);
    }
    room
}
