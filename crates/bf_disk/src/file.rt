//! What the calls of a disk do to the bytes of a file in memory.

ghost use Rattle.std.specs.Prelude.{◌≡◌, ◌+◌, ◌≤◌, length, take, drop, OnOk, OnErr};
ghost use Rattle.bf_disk.specs.Images.{overwritten};

use std::alloc::AllocError;

/// The range of `len` bytes from `at` on, copied to `into`.
pub(crate) fn copy_range(file: &[u8], at: u64, into: &mut [u8])
    requires { at + length into.old ≤ length file.now }
    ensures { into.new ≡ take (length into.old) (drop at file.now) }
{
    let at = at as usize;
    into.copy_from_slice(&file[at..at + into.len()]);
}

/// Writes over what is there, and past the end. Without memory the file is as it was.
pub(crate) fn overwrite(file: &mut Vec<u8>, at: u64, bytes: &[u8]) -> Result<(), AllocError>
    requires { at ≤ length file.old.items }
    ensures ok { OnOk result (file.new.items ≡ overwritten file.old.items at bytes.now) }
    ensures err { OnErr result (file.new.items ≡ file.old.items) }
{
    let at = at as usize;
    let within = bytes.len().min(file.len() - at);
    file.extend_from_slice(&bytes[within..])?;
    file[at..at + within].copy_from_slice(&bytes[..within]);
    Ok(())
}
