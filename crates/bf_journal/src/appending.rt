//! Appending a record to the log that keeps a state.

ghost use Rattle.std.specs.Prelude.{◌≡◌, ◌≤◌, ℕ, Some, Err, length, IfSome, IfNone};
ghost use Rattle.bf_disk.specs.Told.{WhereTold};
ghost use Rattle.bf_log.specs.Append.{Outcome, Stops, disk_of, end_of, refusal, standing_of};
ghost use Rattle.bf_log.specs.Errors.{CountsFaults, is_append_fault};
ghost use Rattle.bf_log.specs.Format.{longest_payload};
ghost use Rattle.bf_log.specs.declared.log.Log.{Log as LogOf};
ghost use Rattle.bf_log.specs.declared.log.Standing.TheVariants.{Spent};
ghost use Rattle.bf_journal.specs.Answered.{IsAnsweredBy};
ghost use Rattle.bf_journal.specs.Leaving.{Fails, Stores};
ghost use Rattle.bf_journal.specs.States.{StandsOn};

use crate::state::State;
use bf_disk::Disk;
use bf_log::{AppendError, Log};
use std::marker::PhantomData;

/// Appends a record to the log that keeps a state, and answers its number in the log. The record is
/// the change that is to be made to the state next: after `Ok` it is stored, and who then can't make
/// it gives up the log. The last argument names the type of the state.
///
/// It costs what `Log::append` costs.
///
/// # Errors
/// Those of `Log::append`, in the same order. The state stands on the log as before; after
/// `DiskFault`, and after `Memory` out of a call of the device, a crash leaves the change or not.
pub fn append_change<L: State, D: Disk>(
    log: &mut Log<D>,
    payload: &[u8],
    largest: u32,
    limit: u64,
    _of: PhantomData<L>,
) -> Result<u64, AppendError>
    requires { largest ≤ longest_payload }

    // What the answer says of the state that stands on the log, and of the one that the record makes.
    ensures answered { (state next : L) → StandsOn L.first L.Steps state log.old
        → L.Steps state payload.now next
        → IsAnsweredBy L.first L.Steps state next log.old log.new result }

    // What `Log::append` says of any log.
    ensures refused { IfSome (refusal (standing_of log.old) (end_of log.old) (length payload.now)
        largest limit) (λ error. (result ≡ Err error) × (log.new ≡ log.old)) }
    ensures outcome { IfNone (refusal (standing_of log.old) (end_of log.old) (length payload.now)
        largest limit) (Outcome (length payload.now) log.old log.new result) }
    ensures later { D.moment (disk_of log.old) ≤ D.moment (disk_of log.new) }
    ensures told { WhereTold (λ old new. length old ≤ length new) (D.seen (disk_of log.old))
        (D.seen (disk_of log.new)) }
    ensures faults { CountsFaults is_append_fault result (D.fault_count (disk_of log.old))
        (D.fault_count (disk_of log.new)) }
{
    log.append(payload, largest, limit)
}

/// Gives up a log whose last record was stored, by one who then could not make its change to the
/// state. The change has failed, as though the device had: the state is the one from before it, a
/// crash may leave either, and each later append answers `Memory`. It takes no memory.
pub fn give_up<L: State, D: Disk>(log: &mut Log<D>, _of: PhantomData<L>)
    ensures fails { (state next : L) (older : LogOf D D.Disk)
        → Stores L.first L.Steps state next older log.old
        → Fails L.first L.Steps state next older log.new }
    ensures stands { (state next : L) (older : LogOf D D.Disk)
        → Stores L.first L.Steps state next older log.old
        → StandsOn L.first L.Steps state log.new }
    ensures spent { Stops Spent log.old log.new }
    ensures disk { disk_of log.new ≡ disk_of log.old }
{
    log.give_up();
}
