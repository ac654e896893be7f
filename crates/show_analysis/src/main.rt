//! The program `show_analysis terms FILE`: prints what the analysis takes from a source, for tests to compare. A source
//! that is refused prints its refusal, and ends with status 4. With `checked` or `inferred` in the place of `terms` the
//! work ends with the types or the contracts, and nothing is printed: `bench/run` measures it.
//!
//! `show_analysis facts FILE [DEPTH [LIMIT]]` prints the facts of a source. The depth of names is 1 where none is
//! given, and the limit a million. Where there are more facts than the limit, it prints `too large: facts`, and ends
//! with status 6. With `saturated` in the place of `facts` it prints how many there are. `show_analysis pairs` prints
//! the dependency pairs by these facts, and `links` the links between them; with `paired` it prints how many pairs
//! there are. `show_analysis report` prints the report of these pairs, and `chained` how many chains it lists.
#![tactic(auto)]

mod bounds;
mod facts;
mod failure;
mod pairs;
mod printer;
mod terms;

use crate::bounds::Bounds;
use crate::failure::Failure;
use crate::terms::{What, shown};
use abs_tree::limits::SOURCE_LIMIT;
use std::io::{ErrorKind, Read};
use std::process::ExitCode;
use std::rt::{Env, Files};
use std::{env, fs};

/// What the command line asks for: of which file, and within which bounds.
#[derive(Drop)]
struct Request {
    what: What,
    file: String,
    bounds: Bounds,
}

/// What the command line asks for.
///
/// # Errors
/// [`Failure::Usage`] for any other words, also for some that are not UTF-8; [`Failure::Memory`] where memory runs out.
fn asked(rt: &(impl Env + AllocGlobal)) -> Result<Request, Failure> {
    let mut words = match env::args(rt) {
        Ok(words) => words,
        Err(error) if error.kind() == ErrorKind::OutOfMemory => return Err(Failure::Memory),
        Err(_) => return Err(Failure::Usage),
    };
    let (Some(_), Some(what), Some(file)) = (words.next(), words.next(), words.next()) else {
        return Err(Failure::Usage);
    };
    let Some(what) = What::named(what.as_str()) else {
        return Err(Failure::Usage);
    };
    let (depth, limit) = (words.next(), words.next());
    if words.next().is_some() || depth.is_some() && !what.has_bounds() {
        return Err(Failure::Usage);
    }
    match Bounds::given(depth.as_deref(), limit.as_deref()) {
        Some(bounds) => Ok(Request { what, file, bounds }),
        None => Err(Failure::Usage),
    }
}

/// The bytes of a file; of more than the limit, one more than the limit.
///
/// # Errors
/// [`Failure::Unreadable`] where the file cannot be opened or read, and [`Failure::Memory`] where memory runs out.
fn read(rt: &(impl Files + AllocGlobal), file: &str) -> Result<Vec<u8>, Failure> {
    let mut bytes = Vec::new(rt.alloc());
    let file = fs::open(rt, file)?;
    file.take(SOURCE_LIMIT as u64 + 1).read_to_end(&mut bytes)?;
    Ok(bytes)
}

/// Prints what is asked for of the file that the command line names.
///
/// # Errors
/// Each [`Failure`]; a refusal is among them.
fn run(rt: &(impl Env + Files + Print + AllocGlobal)) -> Result<(), Failure> {
    let request = asked(rt)?;
    let source = read(rt, request.file.as_str())?;
    if source.len() > SOURCE_LIMIT {
        return Err(Failure::TooLarge);
    }
    let shown = shown(rt.alloc(), request.what, &request.bounds, source.as_slice())?;
    rt.print(shown.as_str()).map_err(|_| Failure::Unwritable)
}

fn main(rt: HostRuntime) -> ExitCode {
    let Err(failure) = run(&rt) else {
        return ExitCode::SUCCESS;
    };
    let reported = match failure {
        Failure::Refused(..) | Failure::TooManyFacts => println!(rt; "{failure}"),
        _ => eprintln!(rt; "show_analysis: {failure}"),
    };
    match reported {
        Ok(()) => ExitCode::from(failure.status()),
        Err(_) => ExitCode::from(Failure::Unwritable.status()),
    }
}
