//! A sink that keeps its bytes in memory, for tests and for callers that want the bytes. How many bytes a write takes,
//! and which writes fail, is chosen when it is made.
ghost use Rattle.std.specs.Prelude.{◌≡◌, ◌+◌, ◌<◌, ◌≤◌, [], Some, length, min, IfOk, IsOk, IsErr, OnOk, OnErr};
ghost use Rattle.std.specs.Io.KnownBytes.{WriteAppends};
ghost use Rattle.abs_outside.specs.CallOptions.{NextFails};
ghost use Rattle.abs_outside.specs.Calls.{one_more};
ghost use Rattle.abs_outside.specs.Counts.{Rose};
ghost use Rattle.abs_outside.specs.MemorySink.{written_of, options_of, writes_of, faults_of, room_of};

use crate::{CallOptions, Failed, Sink};
use std::alloc::Global;

/// Keeps the bytes that it takes. A write fails if its number is among those that are to fail, or if there is no memory
/// for its bytes.
#[derive(Debug, Drop)]
pub struct MemorySink {
    written: Vec<u8>,
    options: CallOptions,
    writes: u64,
    faults: u64,
}

impl MemorySink {
    /// A sink that has taken nothing yet, and whose writes go as the options say.
    pub fn new(alloc: Global, options: CallOptions) -> MemorySink
        ensures written { written_of result ≡ [] }
        ensures options { options_of result ≡ options }
        ensures writes { writes_of result ≡ 0 }
        ensures faults { faults_of result ≡ 0 }
    {
        MemorySink {
            written: Vec::new(alloc),
            options,
            writes: 0,
            faults: 0,
        }
    }

    /// The bytes that it took, in order.
    pub fn written(&self) -> &Vec<u8>
        ensures { result.now.items ≡ written_of self.now }
    {
        &self.written
    }

    /// How its writes go.
    pub fn options(&self) -> &CallOptions
        ensures { result.now ≡ options_of self.now }
    {
        &self.options
    }

    // Counts a write that failed or took nothing.
    fn count_fault(&mut self)
        ensures counted { self.new ≡ record self.old { faults = one_more (faults_of self.old) } }
        ensures never_falls { faults_of self.old ≤ faults_of self.new }
    {
        self.faults = self.faults.saturating_add(1);
    }
}

impl Sink for MemorySink {
    ghost written = { λ sink. Some (written_of sink) };

    ghost faults = { faults_of };

    fn write(&mut self, piece: &[u8]) -> Result<usize, Failed>
        ensures at_most { IfOk result (λ count. count ≤ length piece.now) }
        ensures appended { WriteAppends (Some (written_of self.old)) (Some (written_of self.new)) result piece.now }

        ensures counted { OnErr result (Rose (faults_of self.old) (faults_of self.new)) }
        ensures nothing_taken { IfOk result (λ count. count ≡ 0
            → 0 < length piece.now → Rose (faults_of self.old) (faults_of self.new)) }
        ensures never_falls { faults_of self.old ≤ faults_of self.new }

        // What this sink promises besides: which writes fail, how many bytes the others take, and what is counted.
        // A write that is not to fail succeeds at least where the sink already has memory for its bytes.
        ensures fails { NextFails (options_of self.old) (writes_of self.old) → IsErr result }
        ensures succeeds { ¬ (NextFails (options_of self.old) (writes_of self.old))
            → length (written_of self.old) + min (options_of self.old).most (length piece.now) ≤ room_of self.old
            → IsOk result }
        ensures count { IfOk result (λ count. count ≡ min (options_of self.old).most (length piece.now)) }
        ensures one_write { writes_of self.new ≡ one_more (writes_of self.old) }
        ensures one_fault { OnErr result (faults_of self.new ≡ one_more (faults_of self.old)) }
        ensures took_nothing { IfOk result (λ count. count ≡ 0
            → 0 < length piece.now → faults_of self.new ≡ one_more (faults_of self.old)) }
        ensures took_some { IfOk result (λ count. 0 < count → faults_of self.new ≡ faults_of self.old) }
        ensures nothing_offered { OnOk result (length piece.now ≡ 0 → faults_of self.new ≡ faults_of self.old) }
        ensures same_options { options_of self.new ≡ options_of self.old }
    {
        self.writes = self.writes.saturating_add(1);
        let count = self.options.most.min(piece.len());
        if self.options.failing.contains(&self.writes) {
            self.count_fault();
            return Err(Failed);
        }
        if self.written.extend_from_slice(&piece[..count]).is_err() {
            self.count_fault();
            return Err(Failed);
        }
        if count == 0 && !piece.is_empty() {
            self.count_fault();
        }
        Ok(count)
    }
}
