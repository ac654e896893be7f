//! Why the program ends without its sum.
use std::alloc::{AllocError, AllocFailed};

/// Why the program ends without its sum.
#[derive(Clone, Copy, Debug, PartialEq, Eq)]
pub(crate) enum Failure {
    /// The words are not of this program, or a list is past a limit of values.
    Usage,
    /// Standard output cannot be written to.
    Unwritable,
    /// Memory ran out.
    Memory,
}

impl Failure {
    /// The line for the user.
    pub(crate) fn line(self) -> &'static str {
        match self {
            Failure::Usage => {
                "usage: abs_bench (copy | size | construct | equal) SIZE COUNT   (SIZE: at most 4999, construct: 4998)"
            }
            Failure::Unwritable => "abs_bench: standard output cannot be written to",
            Failure::Memory => "abs_bench: out of memory",
        }
    }

    /// The exit status of the process.
    pub(crate) fn status(self) -> u8 {
        match self {
            Failure::Usage => 2,
            Failure::Unwritable => 3,
            Failure::Memory => 4,
        }
    }
}

impl From<AllocError> for Failure {
    fn from(_: AllocError) -> Self {
        Failure::Memory
    }
}

impl<T: Drop> From<AllocFailed<T>> for Failure {
    fn from(_: AllocFailed<T>) -> Self {
        Failure::Memory
    }
}
