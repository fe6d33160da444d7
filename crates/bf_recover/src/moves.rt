//! Moves of records.

ghost use Rattle.std.specs.Prelude.{◌≡◌, Ok, true, false, IfOk, OnErr};
ghost use Rattle.bf_store.specs.States.{with_moved};
ghost use Rattle.bf_store.specs.Stores.{IsOf};
ghost use Rattle.bf_recover.specs.Lookups.{AreKept};
ghost use Rattle.bf_recover.specs.Moves.{granules_at, is_legal_move, is_told_of};

use crate::lookups::look_up;
use crate::places::{has_places, rise};
use bf_base::{Granule, Memory, Place, Sequence};
use bf_image::{Registry, ValueIndexes};
use bf_store::{MOST_MOVED, Store};
use std::alloc::Global;

/// Whether a record tells a migration by its number, and places of it as a record may.
fn is_told_of(last: u32, number: u32, places: &[Place]) -> bool
    ensures { result ≡ is_told_of last number places.now }
{
    number == last && !places.is_empty() && places.len() <= MOST_MOVED && rise(places)
}

/// The granules at some places of a unit.
fn granules_at(alloc: Global, unit: u8, places: Sequence<Place>) -> Result<Vec<Granule>, Memory>
    ensures { IfOk result (λ granules. granules.items ≡ granules_at unit places) }
{
    let mut granules = Vec::with_capacity(alloc, places.len())?;
    for place in places.into_vec() {
        granules.push(Granule { unit, place })?;
    }
    Ok(granules)
}

/// Moves places of a unit of the last migration, which a record tells by its number, where that is
/// legal, and answers whether it is. A place costs a look-up; the old rows of the migration are put
/// in order by their values where they have not been.
///
/// # Errors
/// Where memory runs out, or 2 ^ 32 granules or 2 ^ 64 changes were made.
pub(crate) fn move_places(
    alloc: Global,
    registry: &Registry,
    indexes: &mut Option<ValueIndexes>,
    store: &mut Store,
    number: u32,
    unit: u8,
    places: Sequence<Place>,
) -> Result<bool, Memory>
    requires one { IsOf registry.now store.old.migration }
    requires kept { AreKept store.old.migration indexes.old }
    ensures legal { IfOk result (λ legal. legal
        ≡ is_legal_move store.old.lazy.last number unit places) }
    ensures applied { result ≡ Ok true → store.new.lazy
        ≡ with_moved store.old.lazy (granules_at unit places) }
    ensures refused { result ≡ Ok false → store.new ≡ store.old }
    ensures err { OnErr result (store.new ≡ store.old) }
    ensures migration { store.new.migration ≡ store.old.migration }
    ensures kept { AreKept store.new.migration indexes.new }
{
    let Some(pass) = store.migration() else {
        return Ok(false);
    };
    let last = registry.migration(&pass);
    let told = places.as_slice();
    if !is_told_of(last.number, number, told) {
        return Ok(false);
    }
    look_up(alloc, registry, &pass, indexes)?;
    let Some(found) = indexes else {
        unreachable!();
    };
    if !has_places(last, found, unit, told) {
        return Ok(false);
    }
    let granules = granules_at(alloc, unit, places)?;
    let need = store.need(alloc, &granules)?;
    let left = need.len();
    let all = granules.len();
    if left < all {
        return Ok(false);
    }
    store.move_granules(registry, found, &granules, None)?;
    Ok(true)
}
