//! Writing to sinks that fail.

ghost use Rattle.std.specs.Prelude.{Some};

use bf_io::{IoError, MemorySink, Sink, write_whole};
use std::alloc::Global;
use std::test::Fail;

/// Takes one byte at a time.
#[derive(Drop)]
struct OneByOne {
    sink: MemorySink,
}

impl Sink for OneByOne {
    ghost taken = { λ one. Some one.sink.taken };

    ghost faults = { λ one. one.sink.faults };

    fn write(&mut self, bytes: &[u8]) -> Result<usize, IoError> {
        match bytes {
            [] => self.sink.write(bytes),
            [first, ..] => self.sink.write(&[*first]),
        }
    }
}

// A sink of six bytes of which a write fails.
fn failing_at(alloc: Global, failing: u64) -> Result<OneByOne, Fail> {
    let failing = vec![in alloc; failing]?;
    Ok(OneByOne {
        sink: MemorySink::new(alloc, 6, failing)?,
    })
}

// The answer of a write, whether these bytes are then written, and how many faults are told.
fn writes(sink: &mut OneByOne, bytes: &[u8], written: &str) -> (Result<(), IoError>, bool, u64) {
    let answer = write_whole(sink, bytes);
    let taken = sink.sink.bytes() == written.as_bytes();
    (answer, taken, sink.sink.faults())
}

#[test]
fn tells_a_failing_write(rt: HostRuntime) -> Result<(), Fail> {
    for (failing, taken) in [(1, "x"), (2, "xh"), (3, "xhe"), (4, "xhel"), (5, "xhell")] {
        let mut sink = failing_at(rt.alloc(), failing + 1)?;
        write_whole(&mut sink, b"x")?;
        let found = writes(&mut sink, b"hello", taken);
        assert_eq!(rt; found, (Err(IoError::Failed), true, 1), "after {taken}");
    }
    Ok(())
}

#[test]
fn writes_all_before_a_failing_write(rt: HostRuntime) -> Result<(), Fail> {
    for failing in [0, 7, 8] {
        let mut sink = failing_at(rt.alloc(), failing)?;
        write_whole(&mut sink, b"x")?;
        write_whole(&mut sink, b"")?;
        let found = writes(&mut sink, b"hello", "xhello");
        assert_eq!(rt; found, (Ok(()), true, 0), "with write {failing} failing");
    }
    Ok(())
}

#[test]
fn refuses_bytes_past_the_limit(rt: HostRuntime) -> Result<(), Fail> {
    let mut sink = MemorySink::new(rt.alloc(), 5, vec![in rt.alloc()]?)?;
    assert_eq!(rt; write_whole(&mut sink, b"hello!"), Err(IoError::Failed));
    write_whole(&mut sink, b"hello")?;
    assert_eq!(rt; write_whole(&mut sink, b"!"), Err(IoError::Failed));
    assert_eq!(rt; sink.bytes(), b"hello".as_slice());
    assert_eq!(rt; sink.faults(), 2);
    Ok(())
}
