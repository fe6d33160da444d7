//! Logs on disks in memory that keep no calls.

ghost use Rattle.std.specs.Prelude.{◌≡◌, ◌≤◌, IsTrue};
ghost use Rattle.bf_log.specs.Format.{longest_payload};
ghost use Rattle.bf_log.specs.Opening.{progress_of};

mod memory;
mod records;

use bf_disk::Disk;
use bf_log::{
    AppendError, CreateError, Log, Next, OpenError, Opening, Progress, create_log, open_log,
};
use std::alloc::Global;
use std::process::Abort;
use std::test::Fail;

// The calls of a log by what they answer alone: no test needs more of what they promise.

fn make<D: Disk>(disk: &mut D) -> Result<(), CreateError> {
    create_log(disk)
}

fn open<D: Disk>(alloc: Global, disk: D) -> Result<Opening<D>, (D, OpenError)> {
    open_log(alloc, disk)
}

fn next<D: Disk>(alloc: Global, opening: &mut Opening<D>) -> Result<Next, OpenError> {
    opening.next_payload(alloc)
}

fn append<D: Disk>(
    log: &mut Log<D>,
    payload: &[u8],
    largest: u32,
    limit: u64,
) -> Result<u64, AppendError>
    requires { largest ≤ longest_payload }
{
    log.append(payload, largest, limit)
}

// Whether a read finds the end.
fn is_at_end<R: Abort, D: Disk>(rt: &R, alloc: Global, opening: &mut Opening<D>) -> bool
    ensures { IsTrue result → progress_of opening.new ≡ Progress.Ended }
{
    match opening.next_payload(alloc) {
        Ok(Next::End) => true,
        Ok(Next::Payload(_, _)) => false,
        Err(e) => panic!(rt; "{e}"),
    }
}

// A log at its end.
fn opened<R: Abort, D: Disk + Drop>(rt: &R, alloc: Global, disk: D) -> Log<D> {
    let mut opening = match open(alloc, disk) {
        Ok(opening) => opening,
        Err((_, e)) => panic!(rt; "{e}"),
    };
    for _ in 0..2000 {
        if is_at_end(rt, alloc, &mut opening) {
            return opening.into_log();
        }
    }
    panic!(rt; "more than 2000 payloads")
}
