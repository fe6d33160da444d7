//! What a crash leaves after calls that a tape kept.

ghost use Rattle.std.specs.Prelude.{◌≡◌, false, ◌+◌, ◌%◌, ◌^◌, ◌<◌, ◌++◌, length, take, drop, map, slice_get, unwrap_or, IfOk, OnOk, OnErr, List, ℕ};
ghost use Rattle.bf_disk.specs.Replay.{is_synced, UpToLastSync, settled_byte, pending_after};
ghost use Rattle.bf_disk.specs.Tape.{certain_after, certain_after_all, file_after, file_after_all, pending, torn_from};

use crate::call::{Act, Call};
use crate::file::overwrite;
use bf_base::Memory;
use std::alloc::Global;

/// The bytes of a file after these calls, each that a crash leaves for certain, and `None` for a byte
/// that is pending. It takes time linear in the bytes of the file and of the calls.
pub(crate) fn certain_bytes(
    alloc: Global,
    start: &[u8],
    calls: &[Call],
) -> Result<Vec<Option<u8>>, Memory>
    ensures { IfOk result (λ certain.
        certain.items ≡ certain_after_all start.now (map Some start.now) calls.now) }
{
    let synced = synced_calls(calls);
    let file = file_after(alloc, start, &calls[..synced])?;
    let mut certain = all_certain(alloc, &file)?;
    let later = &calls[synced..];
    for call in later {
        make_pending(&mut certain, call)?;
    }
    Ok(certain)
}

// Whether the call is a sync that succeeded.
fn is_synced(call: &Call) -> bool
    ensures { result ≡ is_synced call.now }
{
    matches!(call.act, Act::Sync) && !call.failed
}

// How many calls there are up to the last sync that succeeded.
fn synced_calls(calls: &[Call]) -> usize
    ensures { UpToLastSync calls.now (length calls.now) result }
{
    let mut synced = 0;
    for (index, call) in calls.iter().enumerate() {
        if is_synced(call) {
            synced = index + 1;
        }
    }
    synced
}

// The file as it reads after these calls.
fn file_after(alloc: Global, start: &[u8], calls: &[Call]) -> Result<Vec<u8>, Memory>
    ensures { IfOk result (λ file. file.items ≡ file_after_all start.now calls.now) }
{
    let mut file = start.to_vec(alloc)?;
    for call in calls {
        redo(&mut file, call)?;
    }
    Ok(file)
}

/// Does to the file what a call did. An offset past the end stands for the end. It takes time linear
/// in the bytes of the call; without memory the file is as it was.
pub(crate) fn redo(file: &mut Vec<u8>, call: &Call) -> Result<(), Memory>
    ensures ok { OnOk result (file.new.items ≡ file_after file.old.items call.now) }
    ensures err { OnErr result (file.new.items ≡ file.old.items) }
{
    if call.failed {
        return Ok(());
    }
    match &call.act {
        Act::Write(at, bytes) => {
            let at = (*at).min(file.len() as u64);
            overwrite(file, at, bytes.as_slice())?;
        }
        Act::Cut(len) => file.truncate(*len as usize),
        Act::Look | Act::Sync => {}
    }
    Ok(())
}

// A file of which each byte is certain.
fn all_certain(alloc: Global, file: &[u8]) -> Result<Vec<Option<u8>>, Memory>
    ensures { IfOk result (λ certain. certain.items ≡ map Some file.now) }
{
    Ok(file.iter().map(|byte| Some(*byte)).collect(alloc)?)
}

// After a call that is no sync which succeeded.
fn make_pending(certain: &mut Vec<Option<u8>>, call: &Call) -> Result<(), Memory>
    requires { is_synced call.now ≡ false }
    ensures { OnOk result ((file : List ℕ) →
        certain.new.items ≡ certain_after call.now.failed call.now.act file certain.old.items) }
{
    match &call.act {
        Act::Write(at, bytes) => make_range_pending(certain, *at, bytes.as_slice().len())?,
        Act::Cut(len) => {
            if !call.failed {
                certain.truncate(*len as usize);
            }
        }
        Act::Look | Act::Sync => {}
    }
    Ok(())
}

// Makes so many bytes pending from an offset on, which stands for the end where it is past it.
fn make_range_pending(certain: &mut Vec<Option<u8>>, at: u64, len: usize) -> Result<(), Memory>
    requires { len < 2 ^ 63 }
    ensures { OnOk result (certain.new.items ≡
        take at certain.old.items ++ pending len ++ drop (at + len) certain.old.items) }
{
    let at = (at as usize).min(certain.len());
    let end = at + len;
    if certain.len() < end {
        certain.resize(end, None)?;
    }
    certain[at..end].fill(None);
    Ok(())
}

/// The bytes of a file whose pending ones are those of `torn` in turn, from the front again where it is
/// used up, and 0 where it is empty.
pub(crate) fn tear(alloc: Global, certain: &[Option<u8>], torn: &[u8]) -> Result<Vec<u8>, Memory>
    ensures { IfOk result (λ image. image.items ≡ torn_from torn.now 0 certain.now) }
{
    let mut image = Vec::with_capacity(alloc, certain.len())?;
    let mut pending = 0;
    for byte in certain {
        let (byte, more) = settled(*byte, torn, pending);
        image.push(byte)?;
        pending = more;
    }
    Ok(image)
}

// What stands in the place of a byte behind so many pending ones, and how many there are with it.
fn settled(byte: Option<u8>, torn: &[u8], pending: usize) -> (u8, usize)
    requires { pending < 2 ^ 63 }
    ensures byte { result.0 ≡ settled_byte byte torn.now pending }
    ensures pending { result.1 ≡ pending_after byte pending }
{
    match byte {
        Some(byte) => (byte, pending),
        None => (torn_byte(torn, pending), pending + 1),
    }
}

// The pending byte with this number.
fn torn_byte(torn: &[u8], number: usize) -> u8
    ensures { result ≡ unwrap_or (slice_get torn.now (number % length torn.now)) 0 }
{
    if torn.is_empty() {
        return 0;
    }
    torn[number % torn.len()]
}
