//! A sink over a writer, such as the standard output.
ghost use Rattle.std.specs.Prelude.{◌≡◌, ◌<◌, ◌≤◌, length, IfOk, OnOk, OnErr};
ghost use Rattle.std.specs.Io.KnownBytes.{WriteAppends};
ghost use Rattle.abs_outside.specs.Calls.{one_more};
ghost use Rattle.abs_outside.specs.Counts.{Rose};
ghost use Rattle.abs_outside.specs.StreamSink.{written_of, faults_of, writer_of};

use crate::{Failed, Sink};
use std::io::Write;

/// Hands each piece to a writer at once and keeps nothing back. So a write fails if the writer fails.
#[derive(Drop)]
pub struct StreamSink<W: Write> {
    writer: W,
    faults: u64,
}

impl<W: Write> StreamSink<W> {
    /// A sink that hands its pieces to this writer.
    pub fn new(writer: W) -> StreamSink<W>
        ensures writer { writer_of result ≡ writer }
        ensures faults { faults_of result ≡ 0 }
    {
        StreamSink { writer, faults: 0 }
    }
}

impl<W: Write> Sink for StreamSink<W> {
    ghost written = { written_of };

    ghost faults = { faults_of };

    fn write(&mut self, piece: &[u8]) -> Result<usize, Failed>
        ensures at_most { IfOk result (λ count. count ≤ length piece.now) }
        ensures appended { WriteAppends (written_of self.old) (written_of self.new) result piece.now }

        ensures counted { OnErr result (Rose (faults_of self.old) (faults_of self.new)) }
        ensures nothing_taken { IfOk result (λ count. count ≡ 0
            → 0 < length piece.now → Rose (faults_of self.old) (faults_of self.new)) }
        ensures never_falls { faults_of self.old ≤ faults_of self.new }

        // What this sink promises besides: it took what the writer took, and by how much the count rises.
        ensures handed_over { WriteAppends
            (W.contents (writer_of self.old)) (W.contents (writer_of self.new)) result piece.now }
        ensures one_fault { OnErr result (faults_of self.new ≡ one_more (faults_of self.old)) }
        ensures took_nothing { IfOk result (λ count. count ≡ 0
            → 0 < length piece.now → faults_of self.new ≡ one_more (faults_of self.old)) }
        ensures took_some { IfOk result (λ count. 0 < count → faults_of self.new ≡ faults_of self.old) }
        ensures nothing_offered { OnOk result (length piece.now ≡ 0 → faults_of self.new ≡ faults_of self.old) }
    {
        match self.writer.write(piece) {
            Ok(count) => {
                if count == 0 && !piece.is_empty() {
                    self.faults = self.faults.saturating_add(1);
                }
                Ok(count)
            }
            Err(_) => {
                self.faults = self.faults.saturating_add(1);
                Err(Failed)
            }
        }
    }
}
