//! What is shown of the run of a source, as whole lines: its history, also by other schedules, its events, or what
//! becomes of a given history.
ghost use Rattle.std.specs.Prelude.{◌≤◌, length};
ghost use Rattle.abs_tree.specs.Limits.{source_limit};

use crate::failure::Failure;
use crate::history::history_line;
use crate::replays::replay_lines;
use crate::schedules::{Schedule, schedule_line};
use crate::steps::{Way, step_lines};
use abs_lexer::lexer::tokens;
use abs_names::resolve;
use abs_parser::parse;
use abs_tree::limits::EVENT_LIMIT;
use std::alloc::Global;

/// What is shown of the run of a source.
#[derive(Clone, Copy, PartialEq, Eq)]
pub(crate) enum What {
    /// Its history.
    History,
    /// Its events one by one, with each configuration.
    Steps,
    /// Its events one by one, with each configuration, where each event is made from the output of its input.
    Outputs,
    /// What becomes of a given history of the source.
    Replay,
    /// Its history by another schedule than that of one worker.
    HistoryBy(Schedule),
    /// Its events one by one, with each configuration, by a given schedule and up to a given number of events.
    Schedule,
}

impl What {
    /// What a word of the command line names.
    pub(crate) fn named(word: &str) -> Option<What> {
        match word {
            "history" => Some(What::History),
            "steps" => Some(What::Steps),
            "outputs" => Some(What::Outputs),
            "replay" => Some(What::Replay),
            "greatest" => Some(What::HistoryBy(Schedule::Greatest)),
            "scattered" => Some(What::HistoryBy(Schedule::Scattered(0))),
            "schedule" => Some(What::Schedule),
            _ => None,
        }
    }

    /// How many words follow the file: the tasks of a history, or a schedule and a number of events.
    pub(crate) fn further_words(self) -> usize {
        match self {
            What::Replay => 1,
            What::Schedule => 2,
            What::History | What::Steps | What::Outputs | What::HistoryBy(_) => 0,
        }
    }
}

/// What is asked for of a source, with the words that follow the file.
///
/// # Errors
/// [`Failure::Refused`] where the lexer, the parser or the resolver refuses the source; for a history, where the
/// command does. [`Failure::Usage`] where a task of a replay is no number, or a word no schedule or no number of
/// events. [`Failure::Changed`], [`Failure::Differs`] and [`Failure::Strays`] where a run event by event shows that,
/// as [`step_lines`] and [`schedule_line`] say. [`Failure::Memory`] where memory runs out.
pub(crate) fn show(
    alloc: Global,
    what: What,
    source: &[u8],
    further: &[String],
) -> Result<String, Failure>
    requires { length source.now ≤ source_limit }
{
    if what == What::History {
        return history_line(alloc, source);
    }
    let list = tokens(alloc, source)?;
    let program = resolve(alloc, parse(alloc, &list)?)?;
    match what {
        What::Steps => step_lines(alloc, &program, Way::InPlace, Schedule::InTurn, EVENT_LIMIT),
        What::Outputs => step_lines(alloc, &program, Way::Apart, Schedule::InTurn, EVENT_LIMIT),
        What::HistoryBy(schedule) => schedule_line(alloc, &program, schedule),
        What::Schedule => {
            let (schedule, limit) = scheduled(further)?;
            step_lines(alloc, &program, Way::InPlace, schedule, limit)
        }
        What::Replay | What::History => replay_lines(alloc, &program, word_at(further, 0)?),
    }
}

/// The schedule and the number of events that two words name.
///
/// # Errors
/// [`Failure::Usage`] where a word is missing, or names none.
fn scheduled(words: &[String]) -> Result<(Schedule, u64), Failure> {
    let schedule = Schedule::named(word_at(words, 0)?).ok_or(Failure::Usage)?;
    match word_at(words, 1)?.parse() {
        Ok(limit) if limit <= EVENT_LIMIT => Ok((schedule, limit)),
        _ => Err(Failure::Usage),
    }
}

/// The word at an index.
///
/// # Errors
/// [`Failure::Usage`] where it is missing.
fn word_at(words: &[String], index: usize) -> Result<&str, Failure> {
    match words.get(index) {
        Some(word) => Ok(word.as_str()),
        None => Err(Failure::Usage),
    }
}
