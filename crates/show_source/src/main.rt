//! The program `show_source WHAT FILE`: prints what the lexer, the parser and the resolver make of a source, for tests
//! to compare. WHAT is `tree`, `resolved`, `declared`, `names`, `symbols`, `tokens` or `prelude`. A source that is
//! refused prints its refusal, and ends with status 4. `show_source made N` prints the generated program of N classes.
#![tactic(auto)]

mod declarations;
mod expressions;
mod failure;
mod prelude;
mod printer;
mod show;
mod sink;
mod statements;
mod types;

use crate::failure::Failure;
use crate::show::{What, show};
use abs_options::made;
use abs_tree::limits::SOURCE_LIMIT;
use std::io::{ErrorKind, Read};
use std::process::ExitCode;
use std::rt::{Env, Files};
use std::{env, fs};

/// What the command line asks for.
enum Request {
    /// Something of the source in this file.
    Shown(What, String),
    /// The generated program of this many classes.
    Made(u32),
}

/// What the command line asks for.
///
/// # Errors
/// [`Failure::Usage`] for any other words, also for some that are not UTF-8; [`Failure::Memory`] where memory runs out.
fn asked(rt: &(impl Env + AllocGlobal)) -> Result<Request, Failure> {
    let mut words = match env::args(rt) {
        Ok(words) => words,
        Err(error) if error.kind() == ErrorKind::OutOfMemory => return Err(Failure::Memory),
        Err(_) => return Err(Failure::Usage),
    };
    let (Some(_), Some(what), Some(file), None) = (
        words.next(),
        words.next(),
        words.next(),
        words.next(),
    ) else {
        return Err(Failure::Usage);
    };
    if what.as_str() == "made" {
        return file
            .as_str()
            .parse()
            .map(Request::Made)
            .map_err(|_| Failure::Usage);
    }
    match What::named(what.as_str()) {
        Some(what) => Ok(Request::Shown(what, file)),
        None => Err(Failure::Usage),
    }
}

/// The bytes of a file; of more than the limit, one more than the limit.
///
/// # Errors
/// [`Failure::Unreadable`] where the file cannot be opened or read, and [`Failure::Memory`] where memory runs out.
fn read(rt: &(impl Files + AllocGlobal), file: &str) -> Result<Vec<u8>, Failure> {
    let mut bytes = Vec::new(rt.alloc());
    let file = fs::open(rt, file)?;
    file.take(SOURCE_LIMIT as u64 + 1).read_to_end(&mut bytes)?;
    Ok(bytes)
}

/// Prints what is asked for of the source in a file.
///
/// # Errors
/// Each [`Failure`]; a refusal is among them.
fn print_shown(
    rt: &(impl Files + Print + AllocGlobal),
    what: What,
    file: &str,
) -> Result<(), Failure> {
    let source = read(rt, file)?;
    if source.len() > SOURCE_LIMIT {
        return Err(Failure::TooLarge);
    }
    let shown = show(rt.alloc(), what, source.as_slice())?;
    rt.print(shown.as_str()).map_err(|_| Failure::Unwritable)
}

/// Prints the generated program of this many classes.
///
/// # Errors
/// [`Failure::Unwritable`] and [`Failure::Memory`].
fn print_made(rt: &(impl Print + AllocGlobal), count: u32) -> Result<(), Failure> {
    let text = made(rt.alloc(), count)?;
    match str::from_utf8(text.as_bytes()) {
        Ok(text) => rt.print(text).map_err(|_| Failure::Unwritable),
        Err(_) => Err(Failure::Unwritable),
    }
}

/// Prints what the command line asks for.
///
/// # Errors
/// Each [`Failure`]; a refusal is among them.
fn run(rt: &(impl Env + Files + Print + AllocGlobal)) -> Result<(), Failure> {
    match asked(rt)? {
        Request::Shown(what, file) => print_shown(rt, what, file.as_str()),
        Request::Made(count) => print_made(rt, count),
    }
}

fn main(rt: HostRuntime) -> ExitCode {
    let Err(failure) = run(&rt) else {
        return ExitCode::SUCCESS;
    };
    let reported = match failure {
        Failure::Refused(..) => println!(rt; "{failure}"),
        _ => eprintln!(rt; "show_source: {failure}"),
    };
    match reported {
        Ok(()) => ExitCode::from(failure.status()),
        Err(_) => ExitCode::from(Failure::Unwritable.status()),
    }
}
