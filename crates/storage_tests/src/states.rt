//! What a crash leaves of a state, as tests of values.

use crate::keeper::Keeper;
use bf_disk::TapeDisk;
use bf_log::{AppendError, OpenError, create_log};
use std::alloc::Global;
use std::process::Abort;
use std::test::Fail;

const LARGEST: u32 = 100;

const LIMIT: u64 = 1000;

fn opened<R: Abort>(rt: &R, alloc: Global, disk: TapeDisk) -> Keeper<TapeDisk> {
    match Keeper::open(alloc, disk) {
        Ok(keeper) => keeper,
        Err((_, e)) => panic!(rt; "{e}"),
    }
}

fn new_keeper<R: Abort>(rt: &R, alloc: Global) -> Keeper<TapeDisk> {
    let mut disk = TapeDisk::new(alloc, Vec::new(alloc), Vec::new(alloc), None);
    create_log(&mut disk).expect(rt, "a new log");
    opened(rt, alloc, disk)
}

// The last of an append's four calls syncs the gate, and the one before it writes the gate.
#[test]
fn a_crash_leaves_the_state_from_before_or_the_next(rt: HostRuntime) -> Result<(), Fail> {
    let alloc = rt.alloc();
    let mut keeper = new_keeper(&rt, alloc);
    assert_eq!(rt; keeper.state.len, 0);
    let before = keeper.log.disk().calls();
    keeper.change(b"ab", LARGEST, LIMIT).expect(&rt, "room");
    assert_eq!(rt; keeper.state.len, 2);
    let gate_open = keeper.log.disk().crash_at(alloc, before + 4, b"\xa5")?;
    assert_eq!(rt; opened(&rt, alloc, gate_open).state.len, 2);
    let gate_closed = keeper.log.disk().crash_at(alloc, before + 4, b"\0")?;
    assert_eq!(rt; opened(&rt, alloc, gate_closed).state.len, 0);
    let behind = keeper.log.disk().crash(alloc, b"\0")?;
    assert_eq!(rt; opened(&rt, alloc, behind).state.len, 2);
    Ok(())
}

#[test]
fn a_change_that_is_given_up_may_be_left(rt: HostRuntime) -> Result<(), Fail> {
    let alloc = rt.alloc();
    let mut keeper = new_keeper(&rt, alloc);
    keeper.change(b"ab", LARGEST, LIMIT).expect(&rt, "room");
    let given_up = keeper.change(b"0123456789", LARGEST, LIMIT);
    assert_eq!(rt; given_up, Err(AppendError::Memory));
    assert_eq!(rt; keeper.state.len, 2);
    let later = keeper.change(b"abc", LARGEST, LIMIT);
    assert_eq!(rt; later, Err(AppendError::Memory));
    let image = keeper.log.disk().crash(alloc, b"\0")?;
    assert_eq!(rt; opened(&rt, alloc, image).state.len, 10);
    Ok(())
}

// The first gate stands at 8, and an entry of four bytes takes nine.
#[test]
fn reopening_stops_at_the_first_record_that_is_not_legal(rt: HostRuntime) -> Result<(), Fail> {
    let alloc = rt.alloc();
    let mut keeper = new_keeper(&rt, alloc);
    keeper.change(b"abcd", LARGEST, LIMIT).expect(&rt, "room");
    let Keeper { state: _, mut log } = keeper;
    log.append(b"", LARGEST, LIMIT).expect(&rt, "room");
    log.append(b"abcde", LARGEST, LIMIT).expect(&rt, "room");
    let image = log.disk().crash(alloc, b"\0")?;
    match Keeper::open(alloc, image) {
        Ok(_) => panic!(rt; "an empty record is not legal"),
        Err((_, e)) => assert_eq!(rt; e, OpenError::NotALog(17)),
    }
    Ok(())
}
