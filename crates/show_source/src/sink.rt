//! Collects what is printed, and notes once where memory runs out.
use std::alloc::{AllocError, Global};
use std::fmt::{Debug, Display};

/// What was printed so far. After a failure nothing more is printed.
#[derive(Drop)]
pub(crate) struct Sink {
    out: String,
    /// Whether memory ran out for a piece.
    failed: bool,
}

impl Sink {
    /// A sink in which nothing was printed.
    pub(crate) fn new(alloc: Global) -> Sink {
        Sink {
            out: String::new(alloc),
            failed: false,
        }
    }

    /// All that was printed.
    ///
    /// # Errors
    /// [`AllocError`] if memory ran out for a piece.
    pub(crate) fn finish(self) -> Result<String, AllocError> {
        if self.failed {
            Err(AllocError)
        } else {
            Ok(self.out)
        }
    }

    /// Prints a piece as it is.
    pub(crate) fn push(&mut self, piece: &str) {
        self.failed = self.failed || self.out.push_str(piece).is_err();
    }

    /// Prints bytes as they are; those that are not UTF-8 as `?`.
    pub(crate) fn bytes(&mut self, bytes: &[u8]) {
        self.push(str::from_utf8(bytes).unwrap_or("?"));
    }

    /// Prints a number or another part that has a text.
    pub(crate) fn print(&mut self, part: &impl Display) {
        self.failed = self.failed || write!(self.out, "{part}").is_err();
    }

    /// Prints the name of a part.
    pub(crate) fn debug(&mut self, part: &impl Debug) {
        self.failed = self.failed || write!(self.out, "{part:?}").is_err();
    }
}
