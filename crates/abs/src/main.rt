//! The program `abs`: hands the real file system and standard output to the command, and ends with its status.
#![tactic(auto)]

use abs_command::{Status, abs_run};
use abs_outside::{FileSource, StreamSink};
use std::alloc::AllocError;
use std::io::ErrorKind;
use std::process::ExitCode;
use std::rt::Env;
use std::{env, io};

/// The words of the command line. Words that are not UTF-8 are not of the command; an empty list, which is not either,
/// stands for them.
///
/// # Errors
/// [`AllocError`] where memory runs out.
fn words(rt: &(impl Env + AllocGlobal)) -> Result<Vec<String>, AllocError> {
    match env::args(rt) {
        Ok(args) => args.collect(rt.alloc()),
        Err(error) if error.kind() == ErrorKind::OutOfMemory => Err(AllocError),
        Err(_) => Ok(Vec::new(rt.alloc())),
    }
}

fn main(rt: HostRuntime) -> ExitCode {
    let Ok(words) = words(&rt) else {
        return ExitCode::from(Status::Memory as u8);
    };
    let mut source = FileSource::new(&rt);
    let mut sink = StreamSink::new(io::writer(&rt));
    let ended = abs_run(rt.alloc(), &words, &mut source, &mut sink);
    ExitCode::from(ended.status as u8)
}
