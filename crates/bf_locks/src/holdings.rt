//! The lists in which a lock table keeps what is held.

ghost use Rattle.std.specs.Prelude.{◌≡◌, ◌≢◌, [], ◌∷◌, ◌++◌, IfOk, OnOk, OnErr, ℕ, ◌==◌, Some, None, IsSome, Contains, false, not, if◌then◌else◌};
ghost use Rattle.std.specs.Option.{is_some};
ghost use Rattle.std.specs.FinMap as map;
ghost use Rattle.std.specs.BTreeMap as tree;
ghost use Rattle.std.specs.BTreeMap.{is_at};
ghost use Rattle.bf_locks.specs.declared.name.LockName.{LockName as Name};
ghost use Rattle.bf_locks.specs.LockNames.{lock_name_cmp};
ghost use Rattle.bf_locks.specs.declared.answer.LockAnswer.TheVariants.{Granted};
ghost use Rattle.bf_locks.specs.Judgement.{conflicting, answer_for};
ghost use Rattle.bf_locks.specs.Locks.{held, without_owner};
ghost use Rattle.bf_locks.specs.Owners.{mode_of, wanted_of, IsRising};
ghost use Rattle.bf_locks.specs.Table.{locks_of, names_of, owners_of};

use crate::answer::LockAnswer;
use crate::judgement::{joined, judge};
use crate::mode::Mode;
use crate::name::LockName;
use crate::owners::Owners;
use bf_base::Memory;
use std::alloc::Global;
use std::collections::BTreeMap;
use std::collections::btree_map::Entry;

/// Asks for a name in a mode, and lets the owner hold it where that is granted. It also tells
/// whether the owner holds the name now and held it in no mode before.
pub(crate) fn ask_for(
    alloc: Global,
    holders: &mut BTreeMap<LockName, Owners>,
    name: &LockName,
    owner: u64,
    mode: Mode,
) -> Result<(LockAnswer, bool), Memory>
    requires { tree.IsOrdered lock_name_cmp holders.old }
    ensures answer { IfOk result (λ told. told.0 ≡ answer_for owner (conflicting owner
        (wanted_of (owners_of holders.old name.now) owner mode) (owners_of holders.old name.now))) }
    ensures rising { IfOk result (λ told. IsRising (owners_of holders.old name.now)) }
    ensures granted { IfOk result (λ told. told.0 ≡ Granted → (by : ℕ)
        → mode_of (owners_of holders.new name.now) by ≡ if by == owner
        then Some (wanted_of (owners_of holders.old name.now) owner mode)
        else mode_of (owners_of holders.old name.now) by) }
    ensures refused { IfOk result (λ told. told.0 ≢ Granted
        → owners_of holders.new name.now ≡ owners_of holders.old name.now) }
    ensures new { IfOk result (λ told. told.0 ≡ Granted
        → is_some (mode_of (owners_of holders.old name.now) owner) ≡ not told.1) }
    ensures not_new { IfOk result (λ told. told.0 ≢ Granted → told.1 ≡ false) }
    ensures memory { OnErr result
        (owners_of holders.new name.now ≡ owners_of holders.old name.now) }
    ensures others { (at : Name) → is_at (lock_name_cmp name.now) at ≡ false
        → owners_of holders.new at ≡ owners_of holders.old at }
    ensures ordered { tree.IsOrdered lock_name_cmp holders.new }
{
    match holders.entry(name.copy(alloc)?)? {
        Entry::Vacant(place) => {
            place.insert(Owners::of(owner, mode));
            Ok((LockAnswer::Granted, true))
        }
        Entry::Occupied(place) => ask_owners(alloc, place.into_mut(), owner, mode),
    }
}

/// The same among the holders of the name.
pub(crate) fn ask_owners(
    alloc: Global,
    owners: &mut Owners,
    owner: u64,
    mode: Mode,
) -> Result<(LockAnswer, bool), Memory>
    ensures answer { IfOk result (λ told. told.0
        ≡ answer_for owner (conflicting owner (wanted_of owners.old owner mode) owners.old)) }
    ensures rising { IsRising owners.old }
    ensures granted { IfOk result (λ told. told.0 ≡ Granted → (by : ℕ) → mode_of owners.new by
        ≡ if by == owner then Some (wanted_of owners.old owner mode) else mode_of owners.old by) }
    ensures refused { IfOk result (λ told. told.0 ≢ Granted → owners.new ≡ owners.old) }
    ensures new { IfOk result (λ told. told.0 ≡ Granted
        → is_some (mode_of owners.old owner) ≡ not told.1) }
    ensures not_new { IfOk result (λ told. told.0 ≢ Granted → told.1 ≡ false) }
    ensures memory { OnErr result (owners.new ≡ owners.old) }
{
    let before = owners.mode_of(owner);
    let wanted = joined(before, mode);
    match judge(alloc, owners, owner, wanted)? {
        LockAnswer::Granted => {
            owners.put(alloc, owner, wanted)?;
            Ok((LockAnswer::Granted, before.is_none()))
        }
        refused => Ok((refused, false)),
    }
}

/// Adds a name at the end of an owner's list.
pub(crate) fn list(
    alloc: Global,
    owned: &mut BTreeMap<u64, Vec<LockName>>,
    owner: u64,
    name: &LockName,
) -> Result<(), Memory>
    ensures listed { OnOk result
        (names_of owned.new owner ≡ names_of owned.old owner ++ name.now ∷ []) }
    ensures memory { OnErr result (names_of owned.new owner ≡ names_of owned.old owner) }
    ensures others { (other : ℕ) → other ≢ owner
        → names_of owned.new other ≡ names_of owned.old other }
{
    let name = name.copy(alloc)?;
    if let Some(names) = owned.get_mut(&owner) {
        names.push(name)?;
        return Ok(());
    }
    let mut names = Vec::new(alloc);
    names.push(name)?;
    owned.insert(owner, names)?;
    Ok(())
}

/// Takes an owner from the holders of each of some names, which are all that it holds.
pub(crate) fn free_each(
    alloc: Global,
    holders: &mut BTreeMap<LockName, Owners>,
    names: &[LockName],
    owner: u64,
)
    requires ordered { tree.IsOrdered lock_name_cmp holders.old }
    requires all { (name : Name) → IsSome (held (locks_of holders.old) name owner)
        → Contains names.now name }
    ensures freed { locks_of holders.new ≡ without_owner (locks_of holders.old) owner }
    ensures ordered { tree.IsOrdered lock_name_cmp holders.new }
{
    for name in names {
        free(alloc, holders, name, owner);
    }
}

/// Takes an owner from the holders of a name, and the name away where nobody holds it then.
pub(crate) fn free(
    alloc: Global,
    holders: &mut BTreeMap<LockName, Owners>,
    name: &LockName,
    owner: u64,
)
    requires { tree.IsOrdered lock_name_cmp holders.old }
    ensures freed { (by : ℕ) → mode_of (owners_of holders.new name.now) by
        ≡ if by == owner then None else mode_of (owners_of holders.old name.now) by }
    ensures others { (at : Name) → is_at (lock_name_cmp name.now) at ≡ false
        → owners_of holders.new at ≡ owners_of holders.old at }
    ensures ordered { tree.IsOrdered lock_name_cmp holders.new }
{
    if let Some(owners) = holders.get_mut(name) {
        if !owners.take(alloc, owner) {
            holders.remove(name);
        }
    }
}
