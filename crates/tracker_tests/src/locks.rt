use crate::fixtures::key;
use bf_base::{Memory, Name, NameError};
use bf_locks::{LockAnswer, LockName, LockTable, Mode, compatible, join};
use std::alloc::Global;
use std::test::Fail;

const MODES: [Mode; 5] = [Mode::IS, Mode::IX, Mode::S, Mode::SIX, Mode::X];

fn name(alloc: Global) -> Result<Name, NameError> {
    Name::of(alloc, b"accounts")
}

fn whole(alloc: Global) -> Result<LockName, NameError> {
    Ok(LockName::Whole(name(alloc)?))
}

fn row(alloc: Global, number: i64) -> Result<LockName, Fail> {
    Ok(LockName::One(name(alloc)?, key(alloc, number)?))
}

// Whether a mode goes with each mode as a row of `y` and `n` says.
fn goes_with(mode: Mode, row: &str) -> bool {
    for (other, entry) in MODES.iter().zip(row.as_bytes()) {
        if compatible(mode, *other) != (*entry == b'y') {
            return false;
        }
    }
    true
}

#[test]
fn compatibility_is_the_matrix(rt: HostRuntime) {
    for (mode, row) in [
        (Mode::IS, "yyyyn"),
        (Mode::IX, "yynnn"),
        (Mode::S, "ynynn"),
        (Mode::SIX, "ynnnn"),
        (Mode::X, "nnnnn"),
    ] {
        assert!(rt; goes_with(mode, row), "{mode:?}");
    }
}

// The joins of a mode with each mode.
fn joins(mode: Mode) -> [Mode; 5] {
    MODES.map(|other| join(mode, other))
}

#[test]
fn joins_are_least(rt: HostRuntime) {
    for (mode, least) in [
        (Mode::IS, [Mode::IS, Mode::IX, Mode::S, Mode::SIX, Mode::X]),
        (
            Mode::IX,
            [Mode::IX, Mode::IX, Mode::SIX, Mode::SIX, Mode::X],
        ),
        (Mode::S, [Mode::S, Mode::SIX, Mode::S, Mode::SIX, Mode::X]),
        (
            Mode::SIX,
            [Mode::SIX, Mode::SIX, Mode::SIX, Mode::SIX, Mode::X],
        ),
        (Mode::X, [Mode::X, Mode::X, Mode::X, Mode::X, Mode::X]),
    ] {
        assert_eq!(rt; joins(mode), least, "{mode:?}");
    }
}

// Whether a mode has this word, and comes back from its number.
fn has_word(mode: Mode, word: &str) -> bool {
    Mode::of_number(mode.number()) == Some(mode)
        && Mode::cases().by_number(mode.number()) == Some(word)
}

#[test]
fn modes_have_numbers_and_words(rt: HostRuntime) {
    for (mode, word) in MODES.iter().zip(&["IS", "IX", "S", "SIX", "X"]) {
        assert!(rt; has_word(*mode, word), "{word}");
    }
    assert!(rt; Mode::of_number(5).is_none());
}

/// What a request is answered.
#[derive(Clone, Copy)]
enum Told {
    Granted,
    Wait(&'static [u64]),
    Die(u64),
}

impl Told {
    fn is(&self, answer: &LockAnswer) -> bool {
        match answer {
            LockAnswer::Granted => matches!(self, Told::Granted),
            LockAnswer::Wait(others) => self.is_wait(others.as_slice()),
            LockAnswer::Die(oldest) => self.is_die(*oldest),
        }
    }

    fn is_wait(&self, others: &[u64]) -> bool {
        match self {
            Told::Wait(wanted) => *wanted == others,
            Told::Granted | Told::Die(_) => false,
        }
    }

    fn is_die(&self, oldest: u64) -> bool {
        match self {
            Told::Die(wanted) => *wanted == oldest,
            Told::Granted | Told::Wait(_) => false,
        }
    }
}

use Told::{Die, Granted, Wait};

/// An owner, the mode that it asks for, and what it is answered.
type Request = (u64, Mode, Told);

fn is_answered(locks: &mut LockTable, name: &LockName, request: &Request) -> Result<bool, Memory> {
    let (owner, mode, told) = request;
    let answer = locks.ask(*owner, name, *mode)?;
    Ok(told.is(&answer))
}

// Asks for a name in turn, up to the place of the first request that is answered otherwise.
fn first_wrong(
    locks: &mut LockTable,
    name: &LockName,
    requests: &[Request],
) -> Result<Option<usize>, Memory> {
    for (place, request) in requests.iter().enumerate() {
        if !is_answered(locks, name, request)? {
            return Ok(Some(place));
        }
    }
    Ok(None)
}

fn free_all(locks: &mut LockTable, owner: u64) {
    locks.free_all(owner);
}

fn holds(locks: &LockTable, owner: u64, name: &LockName, mode: Option<Mode>) -> bool {
    locks.holds(owner, name) == mode
}

// The first of these owners that holds a name otherwise.
fn wrong_holder(locks: &LockTable, name: &LockName, held: &[(u64, Option<Mode>)]) -> Option<u64> {
    for (owner, mode) in held {
        if !holds(locks, *owner, name, *mode) {
            return Some(*owner);
        }
    }
    None
}

const UPGRADE: [Request; 5] = [
    (5, Mode::IS, Granted),
    (2, Mode::IS, Granted),
    (9, Mode::IS, Granted),
    (2, Mode::X, Wait(&[5, 9])),
    (5, Mode::X, Die(2)),
];

#[test]
fn an_upgrade_among_other_holders(rt: HostRuntime) -> Result<(), Fail> {
    let table = whole(rt.alloc())?;
    let mut locks = LockTable::new(rt.alloc());
    assert_eq!(rt; first_wrong(&mut locks, &table, &UPGRADE)?, None);
    let held = [(2, Some(Mode::IS)), (5, Some(Mode::IS))];
    assert_eq!(rt; wrong_holder(&locks, &table, &held), None);
    free_all(&mut locks, 2);
    free_all(&mut locks, 9);
    let alone = [(5, Mode::X, Granted)];
    assert_eq!(rt; first_wrong(&mut locks, &table, &alone)?, None);
    let held = [(5, Some(Mode::X)), (2, None)];
    assert_eq!(rt; wrong_holder(&locks, &table, &held), None);
    Ok(())
}

// Whether one owner is granted a mode, and then holds a name in another.
fn is_granted(
    locks: &mut LockTable,
    name: &LockName,
    asked: Mode,
    after: Mode,
) -> Result<bool, Memory> {
    let granted = is_answered(locks, name, &(4, asked, Granted))?;
    Ok(granted && holds(locks, 4, name, Some(after)))
}

#[test]
fn an_owner_does_not_conflict_with_itself(rt: HostRuntime) -> Result<(), Fail> {
    let table = whole(rt.alloc())?;
    let mut locks = LockTable::new(rt.alloc());
    for (asked, after) in [
        (Mode::IX, Mode::IX),
        (Mode::IX, Mode::IX),
        (Mode::IS, Mode::IX),
        (Mode::S, Mode::SIX),
        (Mode::X, Mode::X),
        (Mode::X, Mode::X),
        (Mode::IS, Mode::X),
    ] {
        let granted = is_granted(&mut locks, &table, asked, after)?;
        assert!(rt; granted, "{asked:?}, then {after:?}");
    }
    Ok(())
}

const CONFLICTS: [Request; 13] = [
    (30, Mode::IS, Granted),
    (50, Mode::S, Granted),
    (10, Mode::IS, Granted),
    (40, Mode::IS, Granted),
    (20, Mode::S, Granted),
    // The oldest of five, which came in the middle.
    (25, Mode::X, Die(10)),
    (5, Mode::X, Wait(&[10, 20, 30, 40, 50])),
    (10, Mode::X, Wait(&[20, 30, 40, 50])),
    // The readers of parts do not conflict.
    (25, Mode::IX, Die(20)),
    (15, Mode::IX, Wait(&[20, 50])),
    (10, Mode::IX, Wait(&[20, 50])),
    (20, Mode::SIX, Wait(&[50])),
    (50, Mode::SIX, Die(20)),
];

#[test]
fn the_oldest_that_conflicts_decides(rt: HostRuntime) -> Result<(), Fail> {
    let table = whole(rt.alloc())?;
    let mut locks = LockTable::new(rt.alloc());
    assert_eq!(rt; first_wrong(&mut locks, &table, &CONFLICTS)?, None);
    let held = [(10, Some(Mode::IS)), (20, Some(Mode::S)), (25, None)];
    assert_eq!(rt; wrong_holder(&locks, &table, &held), None);
    Ok(())
}

const BOTH: [Request; 2] = [(7, Mode::S, Granted), (8, Mode::S, Granted)];

// The same of the row of a number.
fn first_wrong_of_row(
    alloc: Global,
    locks: &mut LockTable,
    number: i64,
) -> Result<Option<usize>, Fail> {
    let row = row(alloc, number)?;
    Ok(first_wrong(locks, &row, &BOTH)?)
}

// Whether the first of both holds the row of a number so, and the other reads it.
fn both_hold(
    alloc: Global,
    locks: &LockTable,
    number: i64,
    first: Option<Mode>,
) -> Result<bool, Fail> {
    let row = row(alloc, number)?;
    let held = [(7, first), (8, Some(Mode::S))];
    Ok(wrong_holder(locks, &row, &held).is_none())
}

#[test]
fn freeing_takes_what_the_owner_holds(rt: HostRuntime) -> Result<(), Fail> {
    let mut locks = LockTable::new(rt.alloc());
    for number in 0..40 {
        assert_eq!(rt; first_wrong_of_row(rt.alloc(), &mut locks, number)?, None);
    }
    // An owner that holds nothing.
    free_all(&mut locks, 6);
    assert!(rt; both_hold(rt.alloc(), &locks, 39, Some(Mode::S))?);
    free_all(&mut locks, 7);
    for number in 0..40 {
        assert!(rt;
            both_hold(rt.alloc(), &locks, number, None)?,
            "row {number}"
        );
    }
    assert!(rt; holds(&locks, 8, &LockName::Catalog, None));
    free_all(&mut locks, 7);
    assert_eq!(rt; first_wrong(&mut locks, &LockName::Catalog, &BOTH)?, None);
    Ok(())
}

fn is_before(low: LockName, high: LockName) -> bool {
    low < high
}

// Whether the copy of a row's name is that of a row.
fn copies_as(alloc: Global, number: i64, other: i64) -> Result<bool, Fail> {
    let copy = row(alloc, number)?.copy(alloc)?;
    Ok(copy == row(alloc, other)?)
}

#[test]
fn lock_names_are_in_order(rt: HostRuntime) -> Result<(), Fail> {
    assert!(rt; is_before(LockName::Catalog, whole(rt.alloc())?));
    assert!(rt; is_before(whole(rt.alloc())?, row(rt.alloc(), 1)?));
    assert!(rt; is_before(row(rt.alloc(), 1)?, row(rt.alloc(), 2)?));
    assert!(rt; copies_as(rt.alloc(), 1, 1)?);
    assert!(rt; !copies_as(rt.alloc(), 1, 2)?);
    Ok(())
}
