//! Where bytes come from. A source holds bytes under names. One name is selected, and its bytes are then read in
//! pieces.
ghost use Rattle.std.specs.Prelude.{◌≡◌, ℕ, ◌≤◌, List, Option, length, IfOk, OnOk, OnErr};
ghost use Rattle.std.specs.Io.KnownBytes.{ReadConsumes};
ghost use Rattle.abs_outside.specs.Counts.{Rose};
ghost use Rattle.abs_outside.specs.Names.{Under, Selects, IsNotHeld};

use thiserror::Error;

/// A call of a source or a sink failed. The cause is not reported; the counts of the source or the sink rise.
#[derive(Clone, Copy, Debug, PartialEq, Eq, Error)]
#[error("what lies outside failed")]
pub struct Failed;

/// Holds bytes under names. One name is selected at a time, and its bytes are read in order.
pub trait Source {
    /// What the source holds under a name, as far as it tells.
    ghost under: { Self → List ℕ → Under };

    /// The bytes that are left to read, if the source tells them.
    ghost left: { Self → Option (List ℕ) };

    /// How many selections failed because the name was missing.
    ghost missing: { Self → ℕ };

    /// How many reads failed.
    ghost faults: { Self → ℕ };

    /// Selects a name: its bytes are then left to read.
    ///
    /// # Errors
    /// [`Failed`] if the source has nothing under the name. What was left to read before is still left.
    fn select(&mut self, name: &str) -> Result<(), Failed>
        ensures selected { OnOk result (Selects (under self.old name.now) (left self.new)) }
        ensures not_held { OnErr result (IsNotHeld (under self.old name.now)) }
        ensures same_left { OnErr result (left self.new ≡ left self.old) }
        ensures same_names { (other : List ℕ) → under self.new other ≡ under self.old other }

        ensures counted { OnErr result (Rose (missing self.old) (missing self.new)) }
        ensures not_counted { OnOk result (missing self.new ≡ missing self.old) }
        ensures never_falls { missing self.old ≤ missing self.new }
        ensures same_faults { faults self.new ≡ faults self.old };

    /// Copies the next bytes to the start of the buffer, and returns how many there are. With a buffer that is not
    /// empty, 0 means the end of the input.
    ///
    /// # Errors
    /// [`Failed`] if the read failed. No byte was taken then.
    fn read(&mut self, buffer: &mut [u8]) -> Result<usize, Failed>
        ensures at_most { IfOk result (λ count. count ≤ length buffer.new) }
        ensures consumed { ReadConsumes (left self.old) (left self.new) result buffer.new }
        ensures same_names { (other : List ℕ) → under self.new other ≡ under self.old other }

        ensures counted { OnErr result (Rose (faults self.old) (faults self.new)) }
        ensures never_falls { faults self.old ≤ faults self.new }
        ensures same_missing { missing self.new ≡ missing self.old };
}
