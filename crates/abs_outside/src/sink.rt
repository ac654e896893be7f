//! Where bytes go. A sink takes a prefix of each piece that it is offered.
ghost use Rattle.std.specs.Prelude.{◌≡◌, ℕ, ◌<◌, ◌≤◌, List, Option, length, IfOk, OnErr};
ghost use Rattle.std.specs.Io.KnownBytes.{WriteAppends};
ghost use Rattle.abs_outside.specs.Counts.{Rose};

use crate::Failed;

/// Takes bytes, and appends them to those that it took before.
pub trait Sink {
    /// The bytes that were written, if the sink tells them.
    ghost written: { Self → Option (List ℕ) };

    /// How many writes failed, or took nothing of a piece that was not empty.
    ghost faults: { Self → ℕ };

    /// Takes a prefix of the piece, and returns its length.
    ///
    /// # Errors
    /// [`Failed`] if the write failed. No byte was taken then.
    fn write(&mut self, piece: &[u8]) -> Result<usize, Failed>
        ensures at_most { IfOk result (λ count. count ≤ length piece.now) }
        ensures appended { WriteAppends (written self.old) (written self.new) result piece.now }

        ensures counted { OnErr result (Rose (faults self.old) (faults self.new)) }
        ensures nothing_taken { IfOk result (λ count. count ≡ 0
            → 0 < length piece.now → Rose (faults self.old) (faults self.new)) }
        ensures never_falls { faults self.old ≤ faults self.new };
}
