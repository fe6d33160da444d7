//! Granules move: the rows that come from them are put into the live tables.

ghost use Rattle.std.specs.Prelude.{◌≡◌, ◌<◌, ◌^◌, [], length, IfOk, IfSome, OnErr, OnOk, Some};
ghost use Rattle.bf_image.specs.Migrations.{IsLawfulMigration, value_indexes};
ghost use Rattle.bf_store.specs.Anchors.{AreOf, next_from};
ghost use Rattle.bf_store.specs.Marks.{AreFresh, granules_in, left_of, marked, unmarked};
ghost use Rattle.bf_store.specs.Puts.{AreImages, MayMove, with_rows_in};
ghost use Rattle.bf_store.specs.Calls.{IsMoveOf};
ghost use Rattle.bf_store.specs.States.{AreGranules, IsLazy};
ghost use Rattle.bf_store.specs.Stores.{IsCounted, IsStore, last_seen, lazy_seen, seen};

use crate::anchor::{Anchor, next_anchor};
use crate::done::Done;
use crate::images::{Images, puts_for};
use crate::moved::{Moved, receipts};
use crate::under_way::UnderWay;
use bf_base::{Granule, Memory};
use bf_image::{Migration, ValueIndexes};
use bf_live::LiveTables;
use std::alloc::Global;

/// The first anchor from one on whose granule has not moved. It costs what `next_anchor` does.
///
/// # Errors
/// Where memory runs out, or 2 ^ 32 granules have moved.
fn next_if_few(
    alloc: Global,
    migration: &Migration,
    indexes: &ValueIndexes,
    done: &Done,
    from: Option<Anchor>,
) -> Result<Option<Anchor>, Memory>
    requires lawful { IsLawfulMigration migration.now }
    requires indexed { indexes.now ≡ value_indexes migration.now }
    requires done { AreOf migration.now (granules_in done.now) }
    ensures few { OnOk result (length done.now < 2 ^ 32) }
    ensures next { IfOk result (λ next. next ≡ next_from migration.now done.now from) }
{
    if done.len() > u32::MAX as usize {
        return Err(Memory);
    }
    match from {
        Some(from) => next_anchor(alloc, migration, indexes, done, from),
        None => Ok(None),
    }
}

/// Notes that one record has moved some granules, and finds the next anchor.
///
/// # Errors
/// Where memory runs out, or 2 ^ 32 granules have moved. Nothing is noted then.
fn note(
    alloc: Global,
    migration: &Migration,
    indexes: &ValueIndexes,
    done: &mut Done,
    from: Option<Anchor>,
    fresh: &[Granule],
    number: u64,
) -> Result<Option<Anchor>, Memory>
    requires lawful { IsLawfulMigration migration.now }
    requires indexed { indexes.now ≡ value_indexes migration.now }
    requires done { AreOf migration.now (granules_in done.old) }
    requires granules { AreOf migration.now fresh.now }
    requires fresh { AreFresh done.old fresh.now }
    ensures done { OnOk result (done.new ≡ marked done.old fresh.now number) }
    ensures back { OnOk result (unmarked done.new fresh.now ≡ done.old) }
    ensures few { OnOk result (length done.new < 2 ^ 32) }
    ensures next { IfOk result (λ next. next ≡ next_from migration.now done.new from) }
    ensures err { OnErr result (done.new ≡ done.old) }
{
    done.mark(alloc, fresh, number)?;
    match next_if_few(alloc, migration, indexes, done, from) {
        Ok(next) => Ok(next),
        Err(memory) => {
            done.unmark(fresh);
            Err(memory)
        }
    }
}

/// Moves those of some granules of a migration, which differ, that have not moved, as one change,
/// and tells what it has come to. Their images may have been made before, and are made now where they were not, or
/// where some of the granules have moved. It costs what [`move_in`] does.
///
/// # Errors
/// Where memory runs out, or 2 ^ 32 granules have moved or 2 ^ 64 changes were made. All is as it
/// was then.
pub(crate) fn move_granules(
    alloc: Global,
    live: &mut LiveTables,
    last: &mut UnderWay,
    records: &mut u64,
    migration: &Migration,
    indexes: &ValueIndexes,
    granules: &[Granule],
    images: Option<Images>,
) -> Result<Moved, Memory>
    requires lawful { IsLawfulMigration migration.now }
    requires indexed { indexes.now ≡ value_indexes migration.now }
    requires one { last.old.pass.value ≡ migration.now }
    requires store { IsStore live.old (Some last.old) records.old }
    requires granules { AreGranules (last_seen last.old) granules.now }
    requires images { IfSome images (AreImages migration.now granules.now) }
    ensures ok { IfOk result (IsMoveOf (lazy_seen live.old (Some last.old) records.old)
        (lazy_seen live.new (Some last.new) records.new) granules.now) }
    ensures store { IsStore live.new (Some last.new) records.new }
    ensures pass { last.new.pass ≡ last.old.pass }
    ensures nothing { left_of last.old.done granules.now ≡ []
        → seen live.new (Some last.new) records.new ≡ seen live.old (Some last.old) records.old }
    ensures live_stays { OnErr result (live.new ≡ live.old) }
    ensures last_stays { OnErr result (last.new ≡ last.old) }
    ensures records_stay { OnErr result (records.new ≡ records.old) }
{
    // Its contract says that the marks are in order.
    let _ = last.done.len();
    let parted = last.done.parted(alloc, granules)?;
    let already = parted.moved;
    let left = parted.left;
    if left.is_empty() {
        let fresh = Vec::new(alloc);
        return Ok(Moved { fresh, already });
    }
    let number = records.checked_add(1).ok_or(Memory)?;
    let fresh = receipts(alloc, last.number, &left, number)?;
    let images = if left.len() == granules.len() {
        images
    } else {
        None
    };
    move_in(alloc, live, last, migration, indexes, &left, number, images)?;
    *records = number;
    Ok(Moved { fresh, already })
}

/// Moves granules of a migration, which differ and have not moved, by one record: their images are put into the live
/// tables with one reserve for each. It costs a look-up for each row and each granule, and what the granules have where
/// no images were made; and it looks at each anchor from the next one on up to the first whose granule has not moved.
///
/// # Errors
/// Where memory runs out, or 2 ^ 32 granules have moved. All is as it was then.
pub(crate) fn move_in(
    alloc: Global,
    live: &mut LiveTables,
    last: &mut UnderWay,
    migration: &Migration,
    indexes: &ValueIndexes,
    fresh: &[Granule],
    number: u64,
    images: Option<Images>,
) -> Result<(), Memory>
    requires lawful { IsLawfulMigration migration.now }
    requires indexed { indexes.now ≡ value_indexes migration.now }
    requires one { last.old.pass.value ≡ migration.now }
    requires counted { IsCounted last.old }
    requires lazy_state { IsLazy (lazy_seen live.old (Some last.old) 0) }
    requires fresh { MayMove (last_seen last.old) fresh.now }
    requires images { IfSome images (AreImages migration.now fresh.now) }
    ensures live { OnOk result (live.new ≡ with_rows_in live.old (last_seen last.old) fresh.now) }
    ensures pass { last.new.pass ≡ last.old.pass }
    ensures done { OnOk result (last.new.done ≡ marked last.old.done fresh.now number) }
    ensures counted { OnOk result (IsCounted last.new) }
    ensures live_stays { OnErr result (live.new ≡ live.old) }
    ensures last_stays { OnErr result (last.new ≡ last.old) }
{
    let puts = puts_for(alloc, migration, indexes, fresh, images)?;
    let next = note(
        alloc,
        migration,
        indexes,
        &mut last.done,
        last.next,
        fresh,
        number,
    )?;
    if let Err(memory) = live.put(puts) {
        last.done.unmark(fresh);
        return Err(memory);
    }
    last.next = next;
    Ok(())
}
