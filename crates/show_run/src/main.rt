//! The program `show_run WHAT FILE`: prints the run of a source, for tests to compare. WHAT is `history`, `steps` or
//! `outputs`; or `greatest` or `scattered`, for the history of a run by another schedule than that of one worker.
//! `show_run replay FILE TASKS` prints what becomes of a history, whose tasks are one word, as `"0 0 1"`.
//! `show_run schedule FILE WORD N` prints at most N events, as `steps` does, where WORD is `turn`, for the order of one
//! worker; `greatest`, for the greatest task with an event; or a number from which tasks are drawn. A source that is
//! refused prints its refusal, and ends with status 4.
#![tactic(auto)]

mod configurations;
mod failure;
mod history;
mod inputs;
mod ready_sets;
mod replays;
mod schedules;
mod show;
mod sink;
mod steps;

use crate::failure::Failure;
use crate::show::{What, show};
use abs_tree::limits::SOURCE_LIMIT;
use std::io::{ErrorKind, Read};
use std::process::ExitCode;
use std::rt::{Env, Files};
use std::{env, fs};

/// What the command line asks for: of which file, and with which further words.
#[derive(Drop)]
struct Request {
    what: What,
    file: String,
    further: Vec<String>,
}

/// What the command line asks for.
///
/// # Errors
/// [`Failure::Usage`] for any other words, also for some that are not UTF-8; [`Failure::Memory`] where memory runs out.
fn asked(rt: &(impl Env + AllocGlobal)) -> Result<Request, Failure> {
    let mut words = match env::args(rt) {
        Ok(words) => words,
        Err(error) if error.kind() == ErrorKind::OutOfMemory => return Err(Failure::Memory),
        Err(_) => return Err(Failure::Usage),
    };
    let (Some(_), Some(what), Some(file)) = (words.next(), words.next(), words.next()) else {
        return Err(Failure::Usage);
    };
    let mut further = Vec::new(rt.alloc());
    for word in words {
        further.push(word)?;
    }
    match What::named(what.as_str()) {
        Some(what) if further.len() == what.further_words() => Ok(Request {
            what,
            file,
            further,
        }),
        _ => Err(Failure::Usage),
    }
}

/// The bytes of a file; of more than the limit, one more than the limit.
///
/// # Errors
/// [`Failure::Unreadable`] where the file cannot be opened or read, and [`Failure::Memory`] where memory runs out.
fn read(rt: &(impl Files + AllocGlobal), file: &str) -> Result<Vec<u8>, Failure> {
    let mut bytes = Vec::new(rt.alloc());
    let file = fs::open(rt, file)?;
    file.take(SOURCE_LIMIT as u64 + 1).read_to_end(&mut bytes)?;
    Ok(bytes)
}

/// Prints what the command line asks for.
///
/// # Errors
/// Each [`Failure`]; a refusal is among them.
fn run(rt: &(impl Env + Files + Print + AllocGlobal)) -> Result<(), Failure> {
    let request = asked(rt)?;
    let source = read(rt, request.file.as_str())?;
    if source.len() > SOURCE_LIMIT {
        return Err(Failure::TooLarge);
    }
    let further = request.further.as_slice();
    let shown = show(rt.alloc(), request.what, source.as_slice(), further)?;
    rt.print(shown.as_str()).map_err(|_| Failure::Unwritable)
}

fn main(rt: HostRuntime) -> ExitCode {
    let Err(failure) = run(&rt) else {
        return ExitCode::SUCCESS;
    };
    let reported = match failure {
        Failure::Refused(..) => println!(rt; "{failure}"),
        _ => eprintln!(rt; "show_run: {failure}"),
    };
    match reported {
        Ok(()) => ExitCode::from(failure.status()),
        Err(_) => ExitCode::from(Failure::Unwritable.status()),
    }
}
