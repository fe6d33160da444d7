//! The journal that is a log.

ghost use Rattle.std.specs.Prelude.{◌≡◌, ◌≤◌, true, Err, IfOk, length};
ghost use Rattle.bf_tree.specs.declared.reply.Cause.TheVariants.{DiskFault};
ghost use Rattle.bf_log.specs.Append.{disk_of, standing_of};
ghost use Rattle.bf_machine.specs.interleaving.Journals.{IsOfMoveIfEnded};
ghost use Rattle.bf_sql.specs.migrations.Lazy.{LazyState};
ghost use Rattle.bf_recover.specs.Steps.{StepsTo};
ghost use Rattle.bf_run.specs.Answers.{GoesOn, IsAppended, IsFaultCause, IsSizeTold, StepsByGroup, Tells, answer_as, is_of_group, is_ready, is_spent, largest_record, told_as};
ghost use Rattle.bf_run.specs.Records.{IsRecordOf};

use crate::changes::{change_of, move_of};
use bf_base::{Granule, Memory};
use bf_disk::Disk;
use bf_journal::{append_change, give_up};
use bf_log::{AppendError, Log};
use bf_machine::{Journal, KeepError, Pending};
use bf_record::{Change, encode};
use bf_recover::LazyTables;
use bf_store::Store;
use bf_tree::Cause;
use std::alloc::Global;
use std::marker::PhantomData;

/// The most bytes of a record.
const LARGEST: u32 = 1 << 30;

/// The most bytes that a log comes to take.
const LIMIT: u64 = 1 << 36;

/// Keeps each change of a store as a record of a log, which is synced before the change is made. A change costs its
/// record, and the four calls of the device that an append makes.
#[derive(Drop)]
pub struct LogJournal<D: Disk> {
    alloc: Global,
    log: Log<D>,
}

/// The bytes of a change, if it could be made: they make of a state what the change makes of it.
///
/// # Errors
/// Where memory runs out, or ran out before.
fn payload_of(alloc: Global, change: Result<Change, Memory>) -> Result<Vec<u8>, Memory>
    ensures steps { (lazy next : LazyState) → IfOk change (λ told. IsRecordOf lazy told next)
        → IfOk result (λ payload. StepsTo lazy payload.items next) }
    ensures own { (lazy next : LazyState) → IfOk change (λ told. IsRecordOf lazy told next)
        → IfOk change (λ told. is_of_group told ≡ true)
        → IfOk result (λ payload. StepsByGroup lazy payload.items next) }
{
    let change = change?;
    encode(alloc, &change)
}

/// The bytes of a move, if it could be made: no more than a record may have. No script within its limits needs a move
/// of more.
///
/// # Errors
/// Where memory runs out, or ran out before, or the bytes are more than `LARGEST`.
fn move_payload_of(alloc: Global, change: Result<Change, Memory>) -> Result<Vec<u8>, Memory>
    ensures steps { (lazy next : LazyState) → IfOk change (λ told. IsRecordOf lazy told next)
        → IfOk result (λ payload. StepsTo lazy payload.items next) }
    ensures fits { IfOk result (λ payload. length payload.items ≤ largest_record) }
{
    let payload = payload_of(alloc, change)?;
    if payload.len() > LARGEST as usize {
        return Err(Memory);
    }
    Ok(payload)
}

impl<D: Disk> LogJournal<D> {
    /// The journal that goes on with a log. Takes no memory.
    pub fn of(alloc: Global, log: Log<D>) -> LogJournal<D>
        ensures { result.log ≡ log }
    {
        LogJournal { alloc, log }
    }

    /// The log's disk, given back.
    pub fn into_disk(self) -> D
        ensures { result ≡ disk_of self.log }
    {
        self.log.into_disk()
    }

    /// How many calls of the disk have failed, or 2^64 - 1 if it was more.
    pub fn faults(&self) -> u64
        ensures { result ≡ D.fault_count (disk_of self.now.log) }
    {
        self.log.disk().faults()
    }

    /// Whether it takes changes still: neither has its device failed, nor was it given up.
    pub fn is_ready(&self) -> bool
        ensures { result ≡ is_ready (standing_of self.now.log) }
    {
        !matches!(
            self.log.refusal(0, LARGEST, LIMIT),
            Some(AppendError::Memory | AppendError::Halted(_))
        )
    }

    /// Whether it was given up, or memory ran out in a call of its device: it answers `Memory` from then on.
    pub fn is_given_up(&self) -> bool
        ensures { result ≡ is_spent (standing_of self.now.log) }
    {
        matches!(
            self.log.refusal(0, LARGEST, LIMIT),
            Some(AppendError::Memory)
        )
    }

    /// Why a group ends whose need could not move since the device failed.
    fn fault_cause(&self) -> Cause
        ensures fault { IsFaultCause result }
        ensures tells { Tells self.now.log DiskFault → Tells self.now.log result }
    {
        match self.log.halted() {
            Some(faults) => Cause::Halted(faults),
            None => Cause::DiskFault,
        }
    }

    /// Appends a record, if it could be made.
    ///
    /// # Errors
    /// Those of [`append_change`], and `Memory` where the record could not be made.
    fn append(&mut self, payload: Result<Vec<u8>, Memory>) -> Result<(), AppendError>
        ensures appended { (lazy next : LazyState)
            → IfOk payload (λ bytes. StepsTo lazy bytes.items next)
            → IsAppended lazy next self.old.log self.new.log result }
        ensures goes_on { GoesOn self.old.log self.new.log (answer_as result) }
        ensures sized { (lazy next : LazyState)
            → IfOk payload (λ bytes. StepsByGroup lazy bytes.items next)
            → IsSizeTold lazy next (answer_as result) }
        ensures sized_within { (lazy next : LazyState)
            → IfOk payload (λ bytes. StepsTo lazy bytes.items next)
            → IfOk payload (λ bytes. length bytes.items ≤ largest_record)
            → IsSizeTold lazy next (answer_as result) }
        ensures fits { IfOk payload (λ bytes. length bytes.items ≤ largest_record)
            → IsOfMoveIfEnded (answer_as result) }
    {
        let Ok(payload) = payload else {
            return Err(AppendError::Memory);
        };
        let appended = append_change(
            &mut self.log,
            payload.as_slice(),
            LARGEST,
            LIMIT,
            PhantomData::<LazyTables>,
        );
        match appended {
            Ok(_) => Ok(()),
            Err(error) => Err(error),
        }
    }
}

/// Why a group ends whose change was not kept.
fn keep_error(error: AppendError) -> KeepError
    ensures { result ≡ told_as error }
{
    match error {
        AppendError::Halted(faults) => KeepError::Ended(Cause::Halted(faults)),
        AppendError::TooLarge(size) => KeepError::Ended(Cause::TooLarge(size)),
        AppendError::LogFull(end, need) => KeepError::Ended(Cause::LogFull(end, need)),
        AppendError::DiskFault => KeepError::Ended(Cause::DiskFault),
        AppendError::Memory => KeepError::Memory,
    }
}

impl<D: Disk> Journal for LogJournal<D> {
    ghost use Rattle.std.specs.Prelude.{true};
    ghost use Rattle.bf_run.specs.Answers.{HasAnswered};
    ghost use Rattle.bf_run.specs.Sayable.{IsSayable};

    ghost ends = { true };

    ghost Answers = { λ lazy next old new answer. HasAnswered lazy next old.log new.log answer };

    ghost Says = { IsSayable };

    fn keep_group(&mut self, store: &Store, pending: &Pending) -> Result<(), KeepError> {
        let payload = payload_of(self.alloc, change_of(self.alloc, store, pending));
        match self.append(payload) {
            Ok(()) => Ok(()),
            Err(error) => Err(keep_error(error)),
        }
    }

    /// A device that fails at a move has halted the log, and no group is told that it failed at its commit.
    ///
    /// # Errors
    /// As the trait says. A move of more bytes than a record may have, which no script within its limits needs, is
    /// answered as want of memory, before the log is touched.
    fn keep_moves(&mut self, store: &Store, granules: &[Granule]) -> Result<(), KeepError> {
        let payload = move_payload_of(self.alloc, move_of(self.alloc, store, granules));
        match self.append(payload) {
            Ok(()) => Ok(()),
            Err(AppendError::DiskFault) => Err(KeepError::Ended(self.fault_cause())),
            Err(error) => Err(keep_error(error)),
        }
    }

    fn give_up(&mut self) {
        give_up(&mut self.log, PhantomData::<LazyTables>);
    }
}
