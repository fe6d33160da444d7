//! How a request is judged among the holders of its name.

ghost use Rattle.std.specs.Prelude.{◌≡◌, IfOk, slice_get};
ghost use Rattle.std.specs.Option.{option_map_or};
ghost use Rattle.bf_locks.specs.Modes.{join_of};
ghost use Rattle.bf_locks.specs.Judgement.{is_conflict, conflicting, answer_for};
ghost use Rattle.bf_locks.specs.Owners.{IsRising};

use crate::answer::LockAnswer;
use crate::mode::{Mode, compatible, join};
use crate::owners::{Kept, Owners};
use bf_base::{Memory, Sequence};
use std::alloc::Global;
use std::collections::BTreeMap;

/// The mode that covers the one in which an owner holds a name, if it does, and the asked one.
pub(crate) fn joined(before: Option<Mode>, mode: Mode) -> Mode
    ensures { result ≡ option_map_or (λ before. join_of before mode) before mode }
{
    match before {
        Some(before) => join(before, mode),
        None => mode,
    }
}

/// The answer to an owner that wants to hold a name in a mode, among its holders.
pub(crate) fn judge(
    alloc: Global,
    holders: &Owners,
    owner: u64,
    wanted: Mode,
) -> Result<LockAnswer, Memory>
    ensures answer { IfOk result (λ answer.
        answer ≡ answer_for owner (conflicting owner wanted holders.now)) }
    ensures rising { IsRising holders.now }
{
    match oldest_conflict(holders, owner, wanted) {
        None => Ok(LockAnswer::Granted),
        Some(oldest) if oldest < owner => Ok(LockAnswer::Die(oldest)),
        Some(_) => {
            let others = conflicts(alloc, holders, owner, wanted)?;
            Ok(LockAnswer::Wait(Sequence::of(others)))
        }
    }
}

fn oldest_conflict(holders: &Owners, owner: u64, wanted: Mode) -> Option<u64>
    ensures oldest { result ≡ slice_get (conflicting owner wanted holders.now) 0 }
    ensures rising { IsRising holders.now }
{
    match &holders.kept {
        Kept::One(other, theirs) => {
            if is_conflict(*other, *theirs, owner, wanted) {
                Some(*other)
            } else {
                None
            }
        }
        Kept::Several(several) => oldest_of_several(several, owner, wanted),
    }
}

fn oldest_of_several(several: &BTreeMap<u64, Mode>, owner: u64, wanted: Mode) -> Option<u64>
    ensures oldest { result ≡ slice_get (conflicting owner wanted several.now.entries) 0 }
    ensures rising { IsRising several.now.entries }
{
    for (other, theirs) in several {
        if is_conflict(*other, *theirs, owner, wanted) {
            return Some(*other);
        }
    }
    None
}

// The owners that conflict, rising.
fn conflicts(alloc: Global, holders: &Owners, owner: u64, wanted: Mode) -> Result<Vec<u64>, Memory>
    ensures { IfOk result (λ others. others.items ≡ conflicting owner wanted holders.now) }
{
    match &holders.kept {
        Kept::One(other, theirs) => {
            if is_conflict(*other, *theirs, owner, wanted) {
                Ok(vec![in alloc; *other]?)
            } else {
                Ok(Vec::new(alloc))
            }
        }
        Kept::Several(several) => conflicts_of_several(alloc, several, owner, wanted),
    }
}

fn conflicts_of_several(
    alloc: Global,
    several: &BTreeMap<u64, Mode>,
    owner: u64,
    wanted: Mode,
) -> Result<Vec<u64>, Memory>
    ensures { IfOk result (λ others. others.items ≡ conflicting owner wanted several.now.entries) }
{
    let mut others = Vec::new(alloc);
    for (other, theirs) in several {
        if is_conflict(*other, *theirs, owner, wanted) {
            others.push(*other)?;
        }
    }
    Ok(others)
}

// Whether a holder conflicts with an owner that wants to hold the name in a mode.
fn is_conflict(other: u64, theirs: Mode, owner: u64, wanted: Mode) -> bool
    ensures { result ≡ is_conflict owner wanted (other, theirs) }
{
    other != owner && !compatible(theirs, wanted)
}
