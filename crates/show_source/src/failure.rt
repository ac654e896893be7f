//! Why nothing is shown of a source.
use abs_tree::{Code, Refusal, SourceError};
use std::alloc::{AllocError, AllocFailed};
use std::io;
use std::io::ErrorKind;
use thiserror::Error;

/// Why nothing is shown. Its text is a line for the user.
#[derive(Clone, Copy, Debug, PartialEq, Eq, Error)]
pub(crate) enum Failure {
    /// The lexer, the parser or the resolver refuses the source.
    #[error("refused: {0} at {1}:{2}")]
    Refused(Code, u32, u32),
    /// The words are not of this program.
    #[error("usage: show_source ((tree | resolved | declared | names | symbols | tokens | prelude) FILE | made N)")]
    Usage,
    /// The source has more bytes than a source may have.
    #[error("the source has too many bytes")]
    TooLarge,
    /// The file cannot be opened or read.
    #[error("the file cannot be read")]
    Unreadable,
    /// Standard output cannot be written to.
    #[error("standard output cannot be written to")]
    Unwritable,
    /// Memory ran out.
    #[error("out of memory")]
    Memory,
}

impl Failure {
    /// The exit status of the process.
    pub(crate) fn status(self) -> u8 {
        match self {
            Failure::Refused(..) => 4,
            Failure::Usage => 5,
            Failure::TooLarge => 6,
            Failure::Unreadable => 7,
            Failure::Unwritable => 8,
            Failure::Memory => 9,
        }
    }
}

impl From<AllocError> for Failure {
    fn from(_: AllocError) -> Self {
        Failure::Memory
    }
}

impl<T: Drop> From<AllocFailed<T>> for Failure {
    fn from(_: AllocFailed<T>) -> Self {
        Failure::Memory
    }
}

impl From<io::Error> for Failure {
    fn from(error: io::Error) -> Self {
        match error.kind() {
            ErrorKind::OutOfMemory => Failure::Memory,
            _ => Failure::Unreadable,
        }
    }
}

impl From<SourceError> for Failure {
    fn from(error: SourceError) -> Self {
        match error {
            SourceError::Refused(Refusal { code, line, column }) => {
                Failure::Refused(code, line, column)
            }
            SourceError::Memory => Failure::Memory,
        }
    }
}
