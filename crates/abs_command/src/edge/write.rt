//! Writes a whole output to a sink.
ghost use Rattle.std.specs.Prelude.{◌≡◌, ◌≤◌, OnOk, OnErr};
ghost use Rattle.std.specs.Io.KnownBytes.{Appends};
ghost use Rattle.abs_outside.specs.Counts.{Rose};
ghost use Rattle.abs_command.specs.Bytes.{WritesPrefix};

use abs_outside::{Failed, Sink};

/// Writes the whole output: offers it to the sink, and then again what the sink did not take.
///
/// # Errors
/// [`Failed`] if a write failed or took nothing. A prefix of the output is written then, and not all of it.
pub fn write_all<K: Sink>(sink: &mut K, output: &[u8]) -> Result<(), Failed>
    ensures whole { OnOk result (Appends (K.written sink.old) (K.written sink.new) output.now) }
    ensures prefix { OnErr result (WritesPrefix (K.written sink.old) (K.written sink.new) output.now) }
    ensures counted { OnErr result (Rose (K.faults sink.old) (K.faults sink.new)) }
    ensures never_falls { K.faults sink.old ≤ K.faults sink.new }
{
    let mut rest = output;
    while !rest.is_empty() {
        let count = sink.write(rest)?;
        if count == 0 {
            return Err(Failed);
        }
        rest = &rest[count..];
    }
    Ok(())
}
