//! A writer of std as a sink.

ghost use Rattle.std.specs.Prelude.{◌≡◌, None};

use bf_io::{IoError, Sink};
use std::io::Write;
use std::marker::Model;

/// A writer whose failures are counted. Contracts see the count; what was written is not told.
#[derive(Drop)]
pub struct Writing<W: Write + Drop> {
    inner: W,
    faults: u64,
}

impl<W: Write + Drop> Model for Writing<W> {
    ghost use Rattle.std.specs.Prelude.{ℕ, ◌≤◌};
    ghost use Rattle.bf_io.specs.Causes.{last_count};

    ghost Value = { ℕ };

    ghost view = { λ writing. writing.faults };

    ghost invariant = { λ writing. writing.faults ≤ last_count };
}

impl<W: Write + Drop> Writing<W> {
    /// The sink of what a writer takes from here on.
    pub fn new(inner: W) -> Writing<W>
        ensures { result ≡ 0 }
    {
        Writing { inner, faults: 0 }
    }
}

impl<W: Write + Drop> Sink for Writing<W> {
    ghost taken = { λ _. None };

    ghost faults = { λ count. count };

    /// A write that takes none of some bytes fails too.
    fn write(&mut self, bytes: &[u8]) -> Result<usize, IoError> {
        if let Ok(count) = self.inner.write(bytes) {
            if count > 0 || bytes.is_empty() {
                return Ok(count);
            }
        }
        self.faults = self.faults.saturating_add(1);
        Err(IoError::Failed)
    }
}

#[cfg(test)]
mod tests {
    use super::*;
    use std::io;
    use std::test::Fail;

    /// Takes at most two bytes at a time, but fails at the second write and takes none at the third.
    #[derive(Drop)]
    struct Failing {
        taken: Vec<u8>,
        writes: u8,
    }

    impl Write for Failing {
        fn write(&mut self, buf: &[u8]) -> io::Result<usize> {
            self.writes = self.writes.saturating_add(1);
            if self.writes == 2 {
                return Err(io::Error::from(io::ErrorKind::Other));
            }
            let count = if self.writes == 3 {
                0
            } else {
                buf.len().min(2)
            };
            self.taken.extend_from_slice(&buf[..count])?;
            Ok(count)
        }

        fn flush(&mut self) -> io::Result<()> {
            Ok(())
        }
    }

    #[test]
    fn counts_a_failing_write(rt: HostRuntime) -> Result<(), Fail> {
        let mut writing = Writing::new(Failing {
            taken: Vec::new(rt.alloc()),
            writes: 0,
        });
        assert_eq!(rt; writing.write(b"abc"), Ok(2));
        assert_eq!(rt; writing.faults, 0);
        assert_eq!(rt; writing.write(b"c"), Err(IoError::Failed));
        assert_eq!(rt; writing.faults, 1);
        assert_eq!(rt; writing.write(b"c"), Err(IoError::Failed));
        assert_eq!(rt; writing.faults, 2);
        assert_eq!(rt; writing.write(b"c"), Ok(1));
        assert_eq!(rt; writing.write(b""), Ok(0));
        assert_eq!(rt; writing.faults, 2);
        assert_eq!(rt; writing.inner.taken.as_slice(), b"abc".as_slice());
        Ok(())
    }
}
