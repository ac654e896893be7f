//! The command leaves a source as it was where the words name no file.
use abs_command::abs_run;
use abs_outside::{CallOptions, MemorySource, NamedBytes, PureSink, PureSource, Source};
use std::alloc::{AllocError, Global};
use std::test::Fail;

// Two words that name no file, and the status with which they end.
const CALLS: [(&str, &str, u8); 3] = [("--make", "2", 0), ("--steps", "0", 5), ("f", "f", 5)];

// The status of `abs` with two words more.
fn status_of<S: Source>(
    alloc: Global,
    first: &str,
    second: &str,
    source: &mut S,
) -> Result<u8, AllocError> {
    let program = String::from_str(alloc, "abs")?;
    let first = String::from_str(alloc, first)?;
    let words = vec![in alloc; program, first, String::from_str(alloc, second)?]?;
    let mut sink = PureSink::new();
    Ok(abs_run(alloc, &words, source, &mut sink).status as u8)
}

// The status of `abs` with two words more, and what a source gives of which one byte was read before the call, and the
// others after it.
fn read_around<S: Source>(
    alloc: Global,
    first: &str,
    second: &str,
    source: &mut S,
) -> Result<(u8, [u8; 4]), Fail> {
    let mut bytes = [0u8; 4];
    source.select("f")?;
    source.read(&mut bytes[..1])?;
    let status = status_of(alloc, first, second, source)?;
    source.read(&mut bytes[1..])?;
    Ok((status, bytes))
}

#[test]
fn pure_source_goes_on(rt: HostRuntime) -> Result<(), Fail> {
    let alloc = rt.alloc();
    for (first, second, status) in CALLS {
        let mut source = PureSource::new(Vec::from_slice(alloc, b"{ }")?);
        let came = read_around(alloc, first, second, &mut source)?;
        assert_eq!(rt; came, (status, *b"{ }\0"), "{first} {second}");
        assert_eq!(rt; source.content().as_slice(), b"{ }".as_slice());
    }
    Ok(())
}

// The third read fails, so the call made none.
#[test]
fn memory_source_goes_on(rt: HostRuntime) -> Result<(), Fail> {
    let alloc = rt.alloc();
    for (first, second, status) in CALLS {
        let file = NamedBytes {
            name: Vec::from_slice(alloc, b"f")?,
            content: Vec::from_slice(alloc, b"{ }")?,
        };
        let failing = vec![in alloc; 3]?;
        let mut source = MemorySource::new(vec![in alloc; file]?, CallOptions { most: 4, failing });
        let came = read_around(alloc, first, second, &mut source)?;
        assert_eq!(rt; came, (status, *b"{ }\0"), "{first} {second}");
        assert!(rt; source.read(&mut [0u8; 4]).is_err());
    }
    Ok(())
}
