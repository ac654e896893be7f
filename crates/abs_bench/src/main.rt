//! The program `abs_bench OPERATION SIZE COUNT`, which `bench/run` measures: it makes two lists of SIZE numbers, does
//! an operation on them COUNT times, and prints the sum of what the operation gives. OPERATION is `copy`, `size`,
//! `construct` or `equal`. Other words, and a SIZE with which a list is past a limit of values, end with status 2.
#![tactic(auto)]

mod failure;
mod lists;
mod operation;

use crate::failure::Failure;
use crate::operation::{Operation, sum_of};
use std::env;
use std::io::ErrorKind;
use std::process::ExitCode;
use std::rt::Env;

/// What the command line asks for: an operation, the size of its lists, and how often it is done.
#[derive(Clone, Copy, Debug)]
struct Request {
    operation: Operation,
    size: u32,
    count: u32,
}

/// The number that a word of the command line has.
///
/// # Errors
/// [`Failure::Usage`] if it has none, or a number of more than 32 bits.
fn number(word: &str) -> Result<u32, Failure> {
    word.parse::<u32>().map_err(|_| Failure::Usage)
}

/// What the command line asks for.
///
/// # Errors
/// [`Failure::Usage`] for other words, also for some that are not UTF-8; [`Failure::Memory`] where memory runs out.
fn asked(rt: &(impl Env + AllocGlobal)) -> Result<Request, Failure> {
    let words: Vec<String> = match env::args(rt) {
        Ok(words) => words.collect(rt.alloc())?,
        Err(error) if error.kind() == ErrorKind::OutOfMemory => return Err(Failure::Memory),
        Err(_) => return Err(Failure::Usage),
    };
    let [_, operation, size, count] = words.as_slice() else {
        return Err(Failure::Usage);
    };
    let Some(operation) = Operation::named(operation.as_str()) else {
        return Err(Failure::Usage);
    };
    Ok(Request {
        operation,
        size: number(size.as_str())?,
        count: number(count.as_str())?,
    })
}

/// Does what the command line asks for, and prints the sum.
///
/// # Errors
/// Each [`Failure`].
fn run(rt: &(impl Env + Print + AllocGlobal)) -> Result<(), Failure> {
    let Request {
        operation,
        size,
        count,
    } = asked(rt)?;
    let sum = sum_of(rt.alloc(), operation, size, count)?;
    println!(rt; "{sum}").map_err(|_| Failure::Unwritable)
}

fn main(rt: HostRuntime) -> ExitCode {
    let Err(failure) = run(&rt) else {
        return ExitCode::SUCCESS;
    };
    let line = failure.line();
    // (the status says the same where standard error cannot be written to)
    let _ = eprintln!(rt; "{line}");
    ExitCode::from(failure.status())
}
