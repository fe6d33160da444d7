//! Reading a source to its end.

ghost use Rattle.std.specs.Prelude.{◌≡◌, ◌≤◌, vec_len, IfOk, OnOk, OnErr};
ghost use Rattle.std.specs.Io.KnownBytes.{IsAtEnd};
ghost use Rattle.bf_io.specs.Causes.{Rose};
ghost use Rattle.bf_io.specs.Whole.{IfTold, LostPrefix, ReadPast};

use crate::error::ReadError;
use crate::source::Source;
use std::alloc::Global;

/// How many bytes are read at a time.
const PIECE: usize = 4096;

/// Reads all that is left, at most `most` bytes, in time and memory linear in them.
///
/// At an error the source lost what was read, a prefix of what was left. `TooLong` comes where
/// more than `most` bytes were left, of which one more than `most` was read; `Fault` where a read
/// failed, and `Memory` where there was no memory for the bytes.
pub fn read_all<S: Source>(alloc: Global, source: &mut S, most: u32) -> Result<Vec<u8>, ReadError>
    ensures all { IfOk result (λ bytes. IfTold (S.left source.old) (λ all. bytes.items ≡ all)) }
    ensures at_most { IfOk result (λ bytes. vec_len bytes ≤ most) }
    ensures at_end { OnOk result (IsAtEnd (S.left source.new)) }

    ensures too_long { result ≡ Err ReadError.TooLong →
        ReadPast most (S.left source.old) (S.left source.new) }
    ensures fault { result ≡ Err ReadError.Fault →
        Rose (S.faults source.old) (S.faults source.new) }
    ensures err { OnErr result (LostPrefix (S.left source.old) (S.left source.new)) }

    ensures calm { (result ≡ Err ReadError.Fault → ⊥) → S.faults source.new ≡ S.faults source.old }
    ensures later { S.faults source.old ≤ S.faults source.new }
{
    let mut bytes = Vec::new(alloc);
    let mut piece = [0u8; PIECE];
    while bytes.len() <= most as usize {
        let room = PIECE.min(most as usize + 1 - bytes.len());
        let count = source.read(&mut piece[..room])?;
        if count == 0 {
            return Ok(bytes);
        }
        bytes.extend_from_slice(&piece[..count])?;
    }
    Err(ReadError::TooLong)
}
