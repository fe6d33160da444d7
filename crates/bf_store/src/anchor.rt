//! The anchors of a migration, by which a sweep goes.

ghost use Rattle.std.specs.Prelude.{◌≡◌, IfOk, filter, find, length, slice_get};
ghost use Rattle.std.specs.Option.{option_and_then, option_map};
ghost use Rattle.bf_image.specs.Migrations.{IsLawfulMigration, value_indexes};
ghost use Rattle.bf_store.specs.Anchors.{AreOf, anchor_of, anchors_ahead, anchors_left, has_all_groups, is_open};
ghost use Rattle.bf_store.specs.Marks.{AreInOrder, granules_in, is_group_of};
ghost use Rattle.bf_store.specs.Stores.{migration_of};

use crate::done::Done;
use bf_base::Memory;
use bf_image::{Migration, ValueIndexes, granule_of, positions};
use std::alloc::Global;

/// The place of an anchor: its unit, and its position there, both counted from 0.
#[derive(Clone, Copy, Debug, PartialEq, Eq)]
pub struct Anchor {
    pub unit: u8,
    pub position: u32,
}

/// Whether a unit goes by the values of one table, and as many of them have moved as there are.
/// Takes no memory, and constant time.
fn have_all_groups_moved(indexes: &ValueIndexes, done: &Done, unit: u8) -> bool
    ensures all { result ≡ has_all_groups
        (option_and_then (λ index. index) (slice_get indexes.now unit))
        (length (filter (is_group_of unit) (granules_in done.now))) }
    ensures ordered { AreInOrder done.now }
{
    let moved = done.groups(unit);
    match indexes.unit(unit) {
        Some(index) => index.join.is_none() && moved == index.from.len(),
        None => false,
    }
}

/// The first position of a unit, from one on, whose granule has not moved. A unit of groups of which
/// all have moved is passed over; else for each position before it, it finds the granule and looks
/// it up.
fn next_in_unit(
    alloc: Global,
    migration: &Migration,
    indexes: &ValueIndexes,
    done: &Done,
    unit: u8,
    from: u32,
) -> Result<Option<u32>, Memory>
    requires lawful { IsLawfulMigration migration.now }
    requires indexed { indexes.now ≡ value_indexes migration.now }
    requires done { AreOf migration.now (granules_in done.now) }
    ensures { IfOk result (λ next. next ≡ option_map (λ a. a.1)
        (find (is_open (migration_of migration.now done.now))
        (anchors_left migration.now unit from))) }
{
    if have_all_groups_moved(indexes, done, unit) {
        return Ok(None);
    }
    for position in from..positions(migration, unit) {
        let Some(granule) = granule_of(alloc, migration, unit, position)? else {
            return Ok(None);
        };
        if !done.has(&granule) {
            return Ok(Some(position));
        }
    }
    Ok(None)
}

/// The first anchor, from one on, whose granule has not moved. A unit of groups of which all have
/// moved is passed over; else for each anchor before it, it finds the granule and looks it up.
///
/// # Errors
/// Where memory runs out.
pub(crate) fn next_anchor(
    alloc: Global,
    migration: &Migration,
    indexes: &ValueIndexes,
    done: &Done,
    from: Anchor,
) -> Result<Option<Anchor>, Memory>
    requires lawful { IsLawfulMigration migration.now }
    requires indexed { indexes.now ≡ value_indexes migration.now }
    requires done { AreOf migration.now (granules_in done.now) }
    ensures { IfOk result (λ next. next ≡ option_map anchor_of
        (find (is_open (migration_of migration.now done.now))
        (anchors_ahead migration.now from.unit from.position))) }
{
    let mut position = from.position;
    for number in from.unit as usize..migration.plan.units.len() {
        let unit = number as u8;
        if let Some(position) = next_in_unit(alloc, migration, indexes, done, unit, position)? {
            return Ok(Some(Anchor { unit, position }));
        }
        position = 0;
    }
    Ok(None)
}
