//! The command over a source and a sink in memory, one of whose calls fails.
ghost use Rattle.std.specs.Prelude.{◌≡◌, ◌<◌, IfOk};

use abs_command::abs_run;
use abs_outside::{CallOptions, MemorySink, MemorySource, NamedBytes};
use std::alloc::{AllocError, Global};
use std::test::Fail;

// More bytes than any test reads or writes.
const AMPLE: usize = 2_000_000;

// Calls that move at most so many bytes each, and of which the one with this number fails; none has number 0.
fn calls(alloc: Global, most: usize, failing: u64) -> Result<CallOptions, AllocError>
    ensures { IfOk result (λ options. options.most ≡ most) }
{
    let failing = vec![in alloc; failing]?;
    Ok(CallOptions { most, failing })
}

// The status of `abs f` with these reads, where the file `f` has the source `{ }`.
fn status_of(alloc: Global, reads: CallOptions, sink: &mut MemorySink) -> Result<u8, AllocError>
    requires { 0 < reads.most }
{
    let file = NamedBytes {
        name: Vec::from_slice(alloc, b"f")?,
        content: Vec::from_slice(alloc, b"{ }")?,
    };
    let mut source = MemorySource::new(vec![in alloc; file]?, reads);
    let program = String::from_str(alloc, "abs")?;
    let words = vec![in alloc; program, String::from_str(alloc, "f")?]?;
    Ok(abs_run(alloc, &words, &mut source, sink).status as u8)
}

// The first read hands over two bytes, and the second one fails.
#[test]
fn second_read_fails(rt: HostRuntime) -> Result<(), Fail> {
    let alloc = rt.alloc();
    let mut sink = MemorySink::new(alloc, calls(alloc, AMPLE, 0)?);
    let status = status_of(alloc, calls(alloc, 2, 2)?, &mut sink)?;
    assert_eq!(rt; status, 7);
    assert!(rt; sink.written().is_empty());
    Ok(())
}

// The sink takes eight bytes a write, and one write fails: the pieces before that one are written. The report has three
// pieces, and the end of the run two.
#[test]
fn one_write_fails(rt: HostRuntime) -> Result<(), Fail> {
    let alloc = rt.alloc();
    for (number, status, written) in [
        (0, 0, "no circular chain\ndone: 1 tasks\n"),
        (1, 8, ""),
        (2, 8, "no circu"),
        (3, 8, "no circular chai"),
        (4, 8, "no circular chain\n"),
        (5, 8, "no circular chain\ndone: 1 "),
    ] {
        let mut sink = MemorySink::new(alloc, calls(alloc, 8, number)?);
        let came = status_of(alloc, calls(alloc, AMPLE, 0)?, &mut sink)?;
        assert_eq!(rt; came, status, "write {number}");
        assert_eq!(rt;
            sink.written().as_slice(),
            written.as_bytes(),
            "write {number}"
        );
    }
    Ok(())
}
