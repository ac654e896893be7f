//! What is written so far.
ghost use Rattle.std.specs.Prelude.{◌≡◌, IfOk, Some, [], decimal};
ghost use Rattle.report_printer.specs.Output.{Writes};

use abs_tree::Text;
use itoa::Buffer;
use std::alloc::{AllocError, Global};
use std::marker::Model;

/// What is written so far, and whether memory ran out meanwhile. Contracts see the bytes, or nothing if it did.
#[derive(Drop)]
pub(crate) struct Output {
    bytes: Vec<u8>,
    failed: bool,
}

impl Model for Output {
    ghost use Rattle.std.specs.Prelude.{ℕ, List, Option, Some, None, if◌then◌else◌};

    ghost Value = { Option (List ℕ) };

    ghost view = { λ out. if out.failed then None else Some out.bytes.items };
}

impl Output {
    /// Nothing is written.
    pub(crate) fn new(alloc: Global) -> Output
        ensures { result ≡ Some [] }
    {
        Output {
            bytes: Vec::new(alloc),
            failed: false,
        }
    }

    /// Writes a piece as it is.
    pub(crate) fn push(&mut self, piece: &[u8])
        ensures { Writes self.old piece.now self.new }
    {
        self.failed = self.failed || self.bytes.extend_from_slice(piece).is_err();
    }

    /// Writes the digits of a number.
    pub(crate) fn number(&mut self, number: usize)
        ensures { Writes self.old (decimal number) self.new }
    {
        let mut buffer = Buffer::new();
        self.push(buffer.format(number).as_bytes());
    }

    /// What is written.
    ///
    /// # Errors
    /// [`AllocError`] if memory ran out, also if it did so earlier.
    pub(crate) fn finish(self, alloc: Global) -> Result<Text, AllocError>
        ensures { IfOk result (λ text. self ≡ Some text) }
    {
        if self.failed {
            return Err(AllocError);
        }
        Text::new(alloc, self.bytes)
    }
}
