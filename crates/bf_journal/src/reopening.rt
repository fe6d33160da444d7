//! Reopening: the state that the records of a log give in turn.

ghost use Rattle.std.specs.Prelude.{◌≡◌, ◌<◌, ℕ, List, Some, Ok, IfOk, IfErr, OnOk, MatchResult, true, false};
ghost use Rattle.bf_disk.specs.Images.{Only, OnlyRead};
ghost use Rattle.bf_log.specs.Append.{disk_of as log_disk};
ghost use Rattle.bf_log.specs.Errors.{CountsFaults, RisesIf, is_open_fault};
ghost use Rattle.bf_log.specs.Opening.{disk_of, progress_of};
ghost use Rattle.bf_journal.specs.Reading.{IsReopened, ReadsAll, ReadsOne, StateRead, unread};
ghost use Rattle.bf_journal.specs.Reopening.{RefusedAt};

use crate::state::{Reader, State};
use bf_disk::Disk;
use bf_log::{Log, Next, OpenError, Opening, Progress, open_log};
use std::alloc::Global;

/// Opens a log, and makes of the first state the one that its records give in turn. It reads each
/// record once, and holds one payload at a time.
///
/// # Errors
/// Each gives the disk back. `NotALog` tells where the file is no log, or the gate before the first
/// record that is not legal; `DiskFault` where the device failed; `Memory` where the reader, a
/// payload or a disk in memory had no room.
pub fn reopen<L: State, D: Disk, R: Reader<L>>(
    alloc: Global,
    reader: &mut R,
    first: R::Kept,
    disk: D,
) -> Result<(R::Kept, Log<D>), (D, OpenError)>
    requires first { R.kept first ≡ L.first }
    requires fits { R.fits reader.old first }
    ensures reopened { IfOk result (λ made. IsReopened L.first L.Steps disk (R.kept made.0) made.1) }
    ensures fits { IfOk result (λ made. R.fits reader.new made.0) }
    ensures refused { IfErr result (λ back. (at : ℕ) → back.1 ≡ OpenError.NotALog at
        → (file : List ℕ) → D.seen disk ≡ Some file
        → RefusedAt L.first L.Steps file at × Only file (D.may_leave back.0)) }

    // The disk was only read, and a fault is told where one was counted.
    ensures disk { MatchResult result
        (λ made. OnlyRead D.seen D.may_leave D.moment D.left_since disk (log_disk made.1))
        (λ back. OnlyRead D.seen D.may_leave D.moment D.left_since disk back.0) }
    ensures faults { MatchResult result
        (λ made. D.fault_count (log_disk made.1) ≡ D.fault_count disk)
        (λ back. RisesIf (is_open_fault back.1) (D.fault_count disk) (D.fault_count back.0)) }
{
    let mut opening = match open_log(alloc, disk) {
        Ok(opening) => opening,
        Err((disk, e)) => return Err((disk, e)),
    };
    let mut state = first;
    match read_all(alloc, reader, &mut state, &mut opening) {
        Ok(()) => Ok((state, opening.into_log())),
        Err(e) => Err((opening.into_disk(), e)),
    }
}

// Reads every record that is left into the state.
fn read_all<L: State, D: Disk, R: Reader<L>>(
    alloc: Global,
    reader: &mut R,
    state: &mut R::Kept,
    opening: &mut Opening<D>,
) -> Result<(), OpenError>
    requires { R.fits reader.old state.old }
    ensures reads { (file : List ℕ) → StateRead L.first L.Steps file (R.kept state.old) opening.old
        → ReadsAll L.first L.Steps file (R.kept state.new) opening.new result }
    ensures ended { OnOk result (progress_of opening.new ≡ Progress.Ended) }
    ensures fits { R.fits reader.new state.new }
    ensures disk { OnlyRead D.seen D.may_leave D.moment D.left_since (disk_of opening.old)
        (disk_of opening.new) }
    ensures faults { CountsFaults is_open_fault result (D.fault_count (disk_of opening.old))
        (D.fault_count (disk_of opening.new)) }
{
    loop {
        match read_one(alloc, reader, state, opening) {
            Ok(true) => return Ok(()),
            Ok(false) => {}
            Err(e) => return Err(e),
        }
    }
}

// Reads one more record into the state, and answers whether the log has ended instead.
fn read_one<L: State, D: Disk, R: Reader<L>>(
    alloc: Global,
    reader: &mut R,
    state: &mut R::Kept,
    opening: &mut Opening<D>,
) -> Result<bool, OpenError>
    requires { R.fits reader.old state.old }
    ensures reads { (file : List ℕ) → StateRead L.first L.Steps file (R.kept state.old) opening.old
        → ReadsOne L.first L.Steps file (R.kept state.new) opening.new result }
    ensures ended { IfOk result (λ ended. ended ≡ true → progress_of opening.new ≡ Progress.Ended) }
    ensures less { result ≡ Ok false → unread opening.new < unread opening.old }
    ensures fits { R.fits reader.new state.new }
    ensures disk { OnlyRead D.seen D.may_leave D.moment D.left_since (disk_of opening.old)
        (disk_of opening.new) }
    ensures faults { CountsFaults is_open_fault result (D.fault_count (disk_of opening.old))
        (D.fault_count (disk_of opening.new)) }
{
    match opening.next_payload(alloc) {
        Ok(Next::End) => Ok(true),
        Ok(Next::Payload(gate, payload)) => match reader.read(alloc, state, payload.as_slice()) {
            Ok(true) => Ok(false),
            Ok(false) => Err(OpenError::NotALog(gate)),
            Err(_) => Err(OpenError::Memory),
        },
        Err(e) => Err(e),
    }
}
