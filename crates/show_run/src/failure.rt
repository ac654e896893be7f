//! Why nothing is shown of a run.
use abs_tree::{Code, Refusal, SourceError};
use std::alloc::{AllocError, AllocFailed};
use std::io;
use std::io::ErrorKind;
use thiserror::Error;

/// Why nothing is shown. Its text is a line for the user.
#[derive(Clone, Copy, Debug, PartialEq, Eq, Error)]
pub(crate) enum Failure {
    /// The lexer, the parser or the resolver refuses the source; for a history it is the command.
    #[error("refused: {0} at {1}:{2}")]
    Refused(Code, u32, u32),
    /// The words are not of this program.
    #[error("usage: show_run (history | steps | outputs | greatest | scattered) FILE, show_run replay FILE TASKS, \
         or show_run schedule FILE (turn | greatest | NUMBER) EVENTS")]
    Usage,
    /// The source has more bytes than a source may have; for a history it is also that more facts are derived than may
    /// be.
    #[error("the source is too large")]
    TooLarge,
    /// The file cannot be opened or read.
    #[error("the file cannot be read")]
    Unreadable,
    /// Standard output cannot be written to.
    #[error("standard output cannot be written to")]
    Unwritable,
    /// Memory ran out.
    #[error("out of memory")]
    Memory,
    /// An event that was refused memory changed the configuration or the printed lines.
    #[error("a refused request changed the configuration")]
    Changed,
    /// Two inputs of one configuration are not the same.
    #[error("an input differs from itself")]
    Differs,
    /// The ready set has other tasks than those with an event, or takes another one for the next.
    #[error("the ready set is not that of the configuration")]
    Strays,
}

impl Failure {
    /// The exit status of the process.
    pub(crate) fn status(self) -> u8 {
        match self {
            Failure::Refused(..) => 4,
            Failure::Usage => 5,
            Failure::TooLarge => 6,
            Failure::Unreadable => 7,
            Failure::Unwritable => 8,
            Failure::Memory => 9,
            Failure::Changed => 10,
            Failure::Differs => 11,
            Failure::Strays => 12,
        }
    }
}

impl From<AllocError> for Failure {
    fn from(_: AllocError) -> Self {
        Failure::Memory
    }
}

impl<T: Drop> From<AllocFailed<T>> for Failure {
    fn from(_: AllocFailed<T>) -> Self {
        Failure::Memory
    }
}

impl From<io::Error> for Failure {
    fn from(error: io::Error) -> Self {
        match error.kind() {
            ErrorKind::OutOfMemory => Failure::Memory,
            _ => Failure::Unreadable,
        }
    }
}

impl From<SourceError> for Failure {
    fn from(error: SourceError) -> Self {
        match error {
            SourceError::Refused(Refusal { code, line, column }) => {
                Failure::Refused(code, line, column)
            }
            SourceError::Memory => Failure::Memory,
        }
    }
}
