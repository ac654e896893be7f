//! The output for a run, after its report.
ghost use Rattle.std.specs.Prelude.{◌≡◌, ◌++◌, ℕ, List, length, map, IfOk, OnOk, codes, string_bytes};
ghost use Rattle.std.specs.Option.{option_map};
ghost use Rattle.abs_values.specs.Results.{result_tree};
ghost use Rattle.abs_tree.specs.Syntax.{Name};
ghost use Rattle.config_state.specs.ConfigViews.{configuration};
ghost use Rattle.config_state.specs.Views.{task_state};
ghost use Rattle.abs_command.specs.Texts.{lines_text, end_line, fault_line as line_of, fault_lines, end_text, trace_if, unfinished_of};

use crate::run::Ran;
use crate::texts::trace::trace_text;
use abs_tree::Text;
use abs_values::Evaluated;
use config_state::{Lines, TaskCell};
use std::alloc::{AllocError, Global};
use step_rules::End;

/// The output for a run, after its report: what it printed, how it ended, and the faults of its tasks; and its trace,
/// where that is asked for.
///
/// # Errors
/// [`AllocError`] where memory runs out.
pub fn outcome_text(alloc: Global, ran: &Ran, trace: bool) -> Result<Text, AllocError>
    ensures { (names : List Name) → IfOk result (λ text. text ≡ end_text ran.now.lines ran.now.end
        (length ran.now.history.tasks) (configuration names ran.now.config).tasks
        ++ trace_if trace ran.now.history.tasks) }
{
    let tasks = ran.config.tasks.items.as_slice();
    let mut out = Vec::new(alloc);
    push_lines(&mut out, &ran.lines)?;
    out.extend_from_slice(ending(alloc, ran.end, ran.history.len(), tasks)?.as_bytes())?;
    push_faults(alloc, &mut out, tasks)?;
    if trace {
        out.extend_from_slice(trace_text(alloc, &ran.history)?.as_bytes())?;
    }
    Text::new(alloc, out)
}

/// Appends each printed string as a line.
fn push_lines(out: &mut Vec<u8>, lines: &Lines) -> Result<(), AllocError>
    ensures { OnOk result (out.new.items ≡ out.old.items ++ lines_text lines.now) }
{
    for line in &lines.items {
        out.extend_from_slice(line.as_bytes())?;
        out.push(b'\n')?;
    }
    Ok(())
}

/// The line that says how a run with this many events ended.
fn ending(alloc: Global, end: End, events: u64, tasks: &[TaskCell]) -> Result<String, AllocError>
    ensures { (names : List Name) → IfOk result (λ line. string_bytes line
        ≡ end_line end events (map (task_state names) tasks.now)) }
{
    let count = tasks.len();
    let unfinished = tasks.iter().filter(|task| task.outcome.is_none()).count();
    match end {
        End::Done => format!(in alloc; "done: {count} tasks\n"),
        End::Stalled => format!(in alloc; "stalled: {count} tasks, {unfinished} unfinished\n"),
        End::Spent => {
            format!(in alloc; "spent: {events} events, {count} tasks, {unfinished} unfinished\n")
        }
    }
}

/// Appends a line for each task that ended by a fault.
fn push_faults(alloc: Global, out: &mut Vec<u8>, tasks: &[TaskCell]) -> Result<(), AllocError>
    ensures { (names : List Name) → OnOk result (out.new.items
        ≡ out.old.items ++ fault_lines 0 (map (task_state names) tasks.now)) }
{
    for (number, task) in tasks.iter().enumerate() {
        push_fault(alloc, out, number, task)?;
    }
    Ok(())
}

/// Appends the line of the task at this index, if it ended by a fault.
fn push_fault(
    alloc: Global,
    out: &mut Vec<u8>,
    number: usize,
    task: &TaskCell,
) -> Result<(), AllocError>
    ensures { OnOk result (out.new.items ≡ out.old.items ++ line_of number (option_map result_tree task.now.outcome)) }
{
    match &task.outcome {
        Some(Evaluated::Bad(fault)) => {
            let line = format!(in alloc; "fault: task {number}: {fault}\n")?;
            out.extend_from_slice(line.as_bytes())?;
            Ok(())
        }
        Some(Evaluated::Good(_)) | None => Ok(()),
    }
}
