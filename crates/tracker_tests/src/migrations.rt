ghost use Rattle.std.specs.Prelude.{◌≡◌, [], IfOk, IsTrue, OnOk};
ghost use Rattle.std.specs.Arc.{arc_value};
ghost use Rattle.boxcar.specs.Table.{Shows};
ghost use Rattle.bf_base.specs.Lists.{rises};
ghost use Rattle.bf_image.specs.Migrations.{IsLawfulMigration};
ghost use Rattle.bf_store.specs.States.{AreGranules, granule_cmp};
ghost use Rattle.bf_store.specs.Stores.{migration_of};
ghost use Rattle.bf_trackers.specs.Migrations.{HoldsClaims, IsGranuleOf};

use crate::beginning::begun_in;
use bf_base::{Granule, Memory};
use bf_bench::Taken;
use bf_image::{Migration, Registry, granule_of, positions};
use bf_trackers::{TrackerSeats, Trackers, add_in_order};
use std::alloc::Global;
use std::sync::{Arc, Mutex, Wait};
use std::test::*;
use std::thread::{Threads, join};

// Adds the granule at an anchor of a migration, if there is one, to others.
fn add_at(
    alloc: Global,
    migration: &Migration,
    unit: u8,
    anchor: u32,
    all: &mut Vec<Granule>,
) -> Result<(), Memory>
    requires lawful { IsLawfulMigration migration.now }
    requires rising { IsTrue (rises granule_cmp all.old.items) }
    requires of_it { AreGranules (migration_of migration.now []) all.old.items }
    ensures rising { OnOk result (IsTrue (rises granule_cmp all.new.items)) }
    ensures of_it { OnOk result (AreGranules (migration_of migration.now []) all.new.items) }
{
    match granule_of(alloc, migration, unit, anchor)? {
        Some(granule) => {
            add_in_order(all, granule)?;
            Ok(())
        }
        None => Ok(()),
    }
}

// Adds the granules of a unit of a migration to others, anchor by anchor.
fn add_unit(
    alloc: Global,
    migration: &Migration,
    unit: u8,
    all: &mut Vec<Granule>,
) -> Result<(), Memory>
    requires lawful { IsLawfulMigration migration.now }
    requires rising { IsTrue (rises granule_cmp all.old.items) }
    requires of_it { AreGranules (migration_of migration.now []) all.old.items }
    ensures rising { OnOk result (IsTrue (rises granule_cmp all.new.items)) }
    ensures of_it { OnOk result (AreGranules (migration_of migration.now []) all.new.items) }
{
    for anchor in 0..positions(migration, unit) {
        add_at(alloc, migration, unit, anchor, all)?;
    }
    Ok(())
}

// The granules of the first two units of a migration.
fn granules_of(alloc: Global, migration: &Migration) -> Result<Vec<Granule>, Memory>
    requires lawful { IsLawfulMigration migration.now }
    ensures { IfOk result (λ all. AreGranules (migration_of migration.now []) all.items) }
{
    let mut all = Vec::new(alloc);
    add_unit(alloc, migration, 1, &mut all)?;
    add_unit(alloc, migration, 0, &mut all)?;
    Ok(all)
}

// Claims a granule, and finishes it where it is granted: whether it was.
fn finish_if_free(
    rt: &impl Wait,
    trackers: &Trackers,
    seats: &mut TrackerSeats,
    granule: &Granule,
) -> Result<bool, Memory>
    requires one { IsGranuleOf trackers.now.pass.value granule.now }
    requires spent { HoldsClaims trackers.now seats.old [] }
    ensures spent { HoldsClaims trackers.now seats.new [] }
{
    match trackers.claim(rt, seats, granule)? {
        Taken::Claimed(claim) => {
            trackers.finish(rt, seats, granule, claim);
            Ok(true)
        }
        Taken::Busy | Taken::Done => Ok(false),
    }
}

// Finishes what it can of some granules: those that it could.
fn work(
    alloc: Global,
    rt: &impl Wait,
    trackers: &Trackers,
    granules: &[Granule],
    mut seats: TrackerSeats,
) -> Result<Vec<Granule>, Memory>
    requires of_it { AreGranules (migration_of trackers.now.pass.value []) granules.now }
    requires spent { HoldsClaims trackers.now seats [] }
{
    let mut got = Vec::new(alloc);
    for granule in granules {
        if finish_if_free(rt, trackers, &mut seats, granule)? {
            got.push(granule.copy(alloc)?)?;
        }
    }
    Ok(got)
}

// The same over trackers that others share.
fn work_shared(
    alloc: Global,
    rt: &impl Wait,
    trackers: Arc<Trackers, Global>,
    granules: &[Granule],
    seats: TrackerSeats,
) -> Result<Vec<Granule>, Memory>
    requires of_it { AreGranules (migration_of (arc_value trackers).pass.value []) granules.now }
    requires spent { HoldsClaims (arc_value trackers) seats [] }
{
    work(alloc, rt, &trackers, granules, seats)
}

// What each of two threads finishes of some granules, of trackers that both own.
fn work_joined<R: Threads + Wait + Sync>(
    alloc: Global,
    rt: &R,
    mine: (Arc<Trackers, Global>, TrackerSeats),
    theirs: (Arc<Trackers, Global>, TrackerSeats),
    granules: &[Granule],
) -> Result<(Vec<Granule>, Vec<Granule>), Memory>
    requires mine { AreGranules (migration_of (arc_value mine.0).pass.value []) granules.now }
    requires spent { HoldsClaims (arc_value mine.0) mine.1 [] }
    requires theirs { AreGranules (migration_of (arc_value theirs.0).pass.value []) granules.now }
    requires theirs_spent { HoldsClaims (arc_value theirs.0) theirs.1 [] }
{
    let (one, two) = join(
        rt,
        move || work_shared(alloc, rt, mine.0, granules, mine.1),
        move || work_shared(alloc, rt, theirs.0, granules, theirs.1),
    );
    Ok((one?, two?))
}

// Two owners of trackers.
fn shared(
    alloc: Global,
    trackers: Trackers,
) -> Result<(Arc<Trackers, Global>, Arc<Trackers, Global>), Memory>
    ensures one { IfOk result (λ shared. arc_value shared.0 ≡ trackers) }
    ensures two { IfOk result (λ shared. arc_value shared.1 ≡ trackers) }
{
    let one = Arc::new(alloc, trackers)?;
    let two = Arc::try_clone(&one)?;
    Ok((one, two))
}

// What each of two threads finishes of some granules.
fn work_by_two<R: Threads + Wait + Sync>(
    alloc: Global,
    rt: &R,
    trackers: Trackers,
    granules: &[Granule],
    mut seats: TrackerSeats,
) -> Result<(Vec<Granule>, Vec<Granule>), Memory>
    requires of_it { AreGranules (migration_of trackers.pass.value []) granules.now }
    requires spent { HoldsClaims trackers seats [] }
{
    let other = trackers.split(alloc, &mut seats)?;
    let (one, two) = shared(alloc, trackers)?;
    work_joined(alloc, rt, (one, seats), (two, other), granules)
}

// Adds some granules to others.
fn add_each(all: &mut Vec<Granule>, more: Vec<Granule>) -> Result<(), Memory>
    requires { IsTrue (rises granule_cmp all.old.items) }
    ensures { OnOk result (IsTrue (rises granule_cmp all.new.items)) }
{
    for granule in more {
        add_in_order(all, granule)?;
    }
    Ok(())
}

// How many granules there are in two lists, and how many different ones.
fn counts(alloc: Global, one: Vec<Granule>, two: Vec<Granule>) -> Result<(usize, usize), Memory> {
    let count = one.len().saturating_add(two.len());
    let mut all = Vec::new(alloc);
    add_each(&mut all, one)?;
    add_each(&mut all, two)?;
    Ok((count, all.len()))
}

// How many granules two threads finish, and how many different ones.
fn counts_of_two<R: Threads + Wait + Sync>(alloc: Global, rt: &R) -> Result<(usize, usize), Fail> {
    let (registry, _) = Registry::new(alloc, rt)?;
    let pass = begun_in(alloc, rt, &registry)?;
    let granules = granules_of(alloc, registry.migration(&pass))?;
    let (trackers, seats) = Trackers::of(alloc, &registry, &pass, &[])?;
    let (one, two) = work_by_two(alloc, rt, trackers, granules.as_slice(), seats)?;
    Ok(counts(alloc, one, two)?)
}

// Whatever the schedule, each row and each value is finished by one of the two threads, and by one
// alone.
#[test]
fn two_threads_finish_each_granule_of_a_migration_once(rt: HostRuntime) -> Result<(), Fail> {
    assert_eq!(rt; counts_of_two(rt.alloc(), &rt)?, (67, 67));
    Ok(())
}

// Trackers and seats of them, as a layer above keeps them under its lock.
#[derive(Drop)]
struct Kept {
    trackers: Arc<Trackers, Global>,
    seats: TrackerSeats,
}

// The slot of the migration, as each of two threads reads it under a lock.
fn slots<R: Threads + Wait + Sync>(rt: &R, kept: &Mutex<Kept>) -> (usize, usize) {
    join(
        rt,
        || kept.lock(rt).trackers.pass().slot(),
        || kept.lock(rt).trackers.pass().slot(),
    )
}

// Whether both read that of the pass for which the trackers were made.
fn slots_of_two<R: Threads + Wait + Sync>(alloc: Global, rt: &R) -> Result<bool, Fail> {
    let (registry, _) = Registry::new(alloc, rt)?;
    let pass = begun_in(alloc, rt, &registry)?;
    let (trackers, seats) = Trackers::of(alloc, &registry, &pass, &[])?;
    let trackers = Arc::new(alloc, trackers)?;
    let kept = Mutex::new(Kept { trackers, seats });
    Ok(slots(rt, &kept) == (pass.slot(), pass.slot()))
}

#[test]
fn threads_share_trackers_under_a_lock(rt: HostRuntime) -> Result<(), Fail> {
    assert!(rt; slots_of_two(rt.alloc(), &rt)?);
    Ok(())
}
