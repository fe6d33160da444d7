//! A reader of std as a source.

ghost use Rattle.std.specs.Prelude.{◌≡◌, None};

use bf_hints::KeptText;
use bf_io::{IoError, Source};
use std::alloc::Global;
use std::io::Read;
use std::marker::Model;

/// A reader whose failures are counted, and what it gave, kept for hints. Contracts see the count; what is read is not told.
#[derive(Drop)]
pub struct Reading<R: Read + Drop> {
    inner: R,
    faults: u64,
    given: KeptText,
}

impl<R: Read + Drop> Model for Reading<R> {
    ghost use Rattle.std.specs.Prelude.{ℕ, ◌≤◌};
    ghost use Rattle.bf_io.specs.Causes.{last_count};

    ghost Value = { ℕ };

    ghost view = { λ reading. reading.faults };

    ghost invariant = { λ reading. reading.faults ≤ last_count };
}

impl<R: Read + Drop> Reading<R> {
    /// The source of what a reader gives from here on.
    pub fn new(alloc: Global, inner: R) -> Reading<R>
        ensures { result ≡ 0 }
    {
        Reading {
            inner,
            faults: 0,
            given: KeptText::new(alloc),
        }
    }

    /// All that the reader gave, where it was kept.
    pub fn given(&self) -> Option<&[u8]> {
        self.given.as_slice()
    }
}

impl<R: Read + Drop> Source for Reading<R> {
    ghost left = { λ _. None };

    ghost faults = { λ count. count };

    fn read(&mut self, into: &mut [u8]) -> Result<usize, IoError> {
        match self.inner.read(into) {
            Ok(count) => {
                self.given.add(&into[..count]);
                Ok(count)
            }
            Err(_) => {
                self.faults = self.faults.saturating_add(1);
                Err(IoError::Failed)
            }
        }
    }
}

#[cfg(test)]
mod tests {
    use super::*;
    use std::io;
    use std::test::Fail;

    /// Gives `ab` at each read but the second, which fails.
    #[derive(Drop)]
    struct Failing {
        reads: u8,
    }

    impl Read for Failing {
        fn read(&mut self, buf: &mut [u8]) -> io::Result<usize> {
            self.reads = self.reads.saturating_add(1);
            if self.reads == 2 {
                return Err(io::Error::from(io::ErrorKind::Other));
            }
            match buf {
                [first, second, ..] => {
                    *first = b'a';
                    *second = b'b';
                    Ok(2)
                }
                _ => Ok(0),
            }
        }
    }

    #[test]
    fn counts_a_failing_read(rt: HostRuntime) -> Result<(), Fail> {
        let mut reading = Reading::new(rt.alloc(), Failing { reads: 0 });
        let mut piece = [0; 3];
        assert_eq!(rt; reading.read(&mut piece), Ok(2));
        assert_eq!(rt; piece, *b"ab\0");
        assert_eq!(rt; reading.faults, 0);
        assert_eq!(rt; reading.read(&mut piece), Err(IoError::Failed));
        assert_eq!(rt; reading.faults, 1);
        assert_eq!(rt; reading.read(&mut piece), Ok(2));
        assert_eq!(rt; reading.faults, 1);
        assert_eq!(rt; reading.given(), Some(b"abab".as_slice()));
        Ok(())
    }
}
