//! Starting to read a log.

ghost use Rattle.std.specs.Prelude.{◌≡◌, ℕ, ◌<◌, ◌==◌, not, List, [], Some, Err, length, position, zip, IfOk, IfErr, MatchResult};
ghost use Rattle.bf_disk.specs.Images.{Only, OnlyRead};
ghost use Rattle.bf_log.specs.Errors.{CountsFaults, RisesIf, is_open_fault};
ghost use Rattle.bf_log.specs.Format.{HeadFault, HasMagic, magic};
ghost use Rattle.bf_log.specs.Opening.{CameAfterSync, HasRead, count_of, disk_of, gate_of, progress_of};

use crate::error::OpenError;
use crate::format::MAGIC;
use crate::opening::{Opening, Progress};
use bf_disk::Disk;
use std::alloc::Global;

/// Starts to read a log: syncs, so that a crash from then on leaves what is read, and reads the
/// magic. `NotALog` tells the first byte that differs from the magic, or the length of a file that
/// ends before its first gate. An error gives the disk back.
pub fn open_log<D: Disk>(alloc: Global, disk: D) -> Result<Opening<D>, (D, OpenError)>
    ensures opened { IfOk result (λ opening. (file : List ℕ) → D.seen disk ≡ Some file
        → HasRead file [] opening) }
    ensures start { IfOk result (λ opening. (gate_of opening ≡ length magic)
        × (count_of opening ≡ 0)) }
    ensures reading { IfOk result (λ opening. progress_of opening ≡ Progress.Reading) }
    ensures not_a_log { IfErr result (λ back. (at : ℕ) → back.1 ≡ OpenError.NotALog at
        → (file : List ℕ) → D.seen disk ≡ Some file
        → HeadFault file at × Only file (D.may_leave back.0)) }

    ensures disk { MatchResult result
        (λ opening. OnlyRead D.seen D.may_leave D.moment D.left_since disk (disk_of opening))
        (λ back. OnlyRead D.seen D.may_leave D.moment D.left_since disk back.0) }
    ensures faults { MatchResult result
        (λ opening. D.fault_count (disk_of opening) ≡ D.fault_count disk)
        (λ back. RisesIf (is_open_fault back.1) (D.fault_count disk) (D.fault_count back.0)) }
{
    let mut disk = disk;
    match read_head(&mut disk) {
        Ok(len) => Ok(Opening::at_first_gate(alloc, disk, len)),
        Err(e) => Err((disk, e)),
    }
}

// Syncs, and answers the length of a file that has the magic and a gate.
fn read_head<D: Disk>(disk: &mut D) -> Result<u64, OpenError>
    ensures len { IfOk result (λ len. (length magic < len)
        × ((file : List ℕ) → D.seen disk.old ≡ Some file → (len ≡ length file) × HasMagic file)) }
    ensures not_a_log { (at : ℕ) → result ≡ Err (OpenError.NotALog at)
        → (file : List ℕ) → D.seen disk.old ≡ Some file → HeadFault file at }
    ensures durable { (file : List ℕ) → D.seen disk.old ≡ Some file
        → CameAfterSync result → Only file (D.may_leave disk.new) }
    ensures disk { OnlyRead D.seen D.may_leave D.moment D.left_since disk.old disk.new }
    ensures faults { CountsFaults is_open_fault result (D.fault_count disk.old)
        (D.fault_count disk.new) }
{
    disk.sync()?;
    let len = disk.len()?;
    let mut room = [0u8; MAGIC.len()];
    let head = &mut room[..len.min(MAGIC.len() as u64) as usize];
    disk.read(0, head)?;
    match first_difference(head) {
        Some(at) => Err(OpenError::NotALog(at as u64)),
        None if len <= MAGIC.len() as u64 => Err(OpenError::NotALog(len)),
        None => Ok(len),
    }
}

// The offset of the first byte that differs from the magic.
fn first_difference(head: &[u8]) -> Option<usize>
    ensures { result ≡ position (λ pair. not (pair.0 == pair.1)) (zip head.now magic) }
{
    head.iter().zip(&MAGIC).position(|(a, b)| a != b)
}
