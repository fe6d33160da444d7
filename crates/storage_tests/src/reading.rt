//! Reading from sources that fail.

use bf_io::{CalmSource, MemorySource, ReadError, read_all};
use std::alloc::Global;
use std::test::Fail;

// 5,000 bytes, of which a read fails.
fn failing_at(alloc: Global, failing: u64) -> Result<MemorySource, Fail> {
    let bytes = vec![in alloc; 7u8; 5000]?;
    Ok(MemorySource::new(bytes, vec![in alloc; failing]?))
}

// How many bytes are read of a source, or why none, and how many faults it then tells.
fn read_len(
    alloc: Global,
    source: &mut MemorySource,
    most: u32,
) -> (Result<usize, ReadError>, u64) {
    let len = match read_all(alloc, source, most) {
        Ok(bytes) => Ok(bytes.len()),
        Err(error) => Err(error),
    };
    (len, source.faults())
}

// 5,000 bytes come in two pieces, and a third read finds the end.
#[test]
fn tells_a_failing_read(rt: HostRuntime) -> Result<(), Fail> {
    for (failing, left) in [(1, 5000), (2, 904), (3, 0)] {
        let mut source = failing_at(rt.alloc(), failing)?;
        let first = read_len(rt.alloc(), &mut source, 5000);
        let rest = read_len(rt.alloc(), &mut source, 5000);
        let wanted = ((Err(ReadError::Fault), 1), (Ok(left), 1));
        assert_eq!(rt; (first, rest), wanted, "at read {failing}");
    }
    Ok(())
}

#[test]
fn reads_all_before_a_failing_read(rt: HostRuntime) -> Result<(), Fail> {
    for failing in [0, 4, 5] {
        let mut source = failing_at(rt.alloc(), failing)?;
        let all = read_len(rt.alloc(), &mut source, 5000);
        assert_eq!(rt; all, (Ok(5000), 0), "with read {failing} failing");
    }
    Ok(())
}

// How many of so many bytes are read where this is the most.
fn read_of(alloc: Global, count: usize, most: u32) -> Result<Result<usize, ReadError>, Fail> {
    let mut source = CalmSource::new(vec![in alloc; 7u8; count]?);
    Ok(match read_all(alloc, &mut source, most) {
        Ok(bytes) => Ok(bytes.len()),
        Err(error) => Err(error),
    })
}

#[test]
fn refuses_more_than_the_most(rt: HostRuntime) -> Result<(), Fail> {
    for most in [0u32, 1, 10, 4095, 4096, 4097] {
        let count = most as usize;
        let all = read_of(rt.alloc(), count, most)?;
        let more = read_of(rt.alloc(), count + 1, most)?;
        let wanted = (Ok(count), Err(ReadError::TooLong));
        assert_eq!(rt; (all, more), wanted, "at {most}");
    }
    Ok(())
}

#[test]
fn keeps_the_bytes(rt: HostRuntime) -> Result<(), Fail> {
    let mut source = CalmSource::new(b"a\x00\xffz".to_vec(rt.alloc())?);
    let all = read_all(rt.alloc(), &mut source, 4)?;
    assert_eq!(rt; all.as_slice(), b"a\x00\xffz".as_slice());
    let none = read_all(rt.alloc(), &mut source, 4)?;
    assert_eq!(rt; none.len(), 0);
    Ok(())
}
