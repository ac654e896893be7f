//! A sink that takes every piece whole, keeps nothing and never fails, for callers that do not want the output.
ghost use Rattle.std.specs.Prelude.{◌≡◌, ◌<◌, ◌≤◌, Ok, length, IfOk, OnErr};
ghost use Rattle.std.specs.Io.KnownBytes.{WriteAppends};
ghost use Rattle.abs_outside.specs.Counts.{Rose};
ghost use Rattle.abs_outside.specs.PureSink.{written_of, faults_of};

use crate::{Failed, Sink};

/// Takes every byte and keeps none.
#[derive(Clone, Copy, Debug, Default)]
pub struct PureSink;

impl PureSink {
    /// A sink that has taken nothing yet.
    pub fn new() -> PureSink
        ensures { faults_of result ≡ 0 }
    {
        PureSink
    }
}

impl Sink for PureSink {
    ghost written = { written_of };

    ghost faults = { faults_of };

    fn write(&mut self, piece: &[u8]) -> Result<usize, Failed>
        ensures at_most { IfOk result (λ count. count ≤ length piece.now) }
        ensures appended { WriteAppends (written_of self.old) (written_of self.new) result piece.now }

        ensures counted { OnErr result (Rose (faults_of self.old) (faults_of self.new)) }
        ensures nothing_taken { IfOk result (λ count. count ≡ 0
            → 0 < length piece.now → Rose (faults_of self.old) (faults_of self.new)) }
        ensures never_falls { faults_of self.old ≤ faults_of self.new }

        // What this sink promises besides: it takes each piece whole.
        ensures whole { result ≡ Ok (length piece.now) }
    {
        Ok(piece.len())
    }
}
