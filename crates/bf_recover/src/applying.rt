//! Records as changes of a store.

ghost use Rattle.std.specs.Prelude.{◌≡◌, IfOk, Ok, OnErr, false, true};
ghost use Rattle.bf_store.specs.States.{frozen_lazily};
ghost use Rattle.bf_store.specs.Stores.{IsOf};
ghost use Rattle.bf_recover.specs.Flips.{is_legal_flip};
ghost use Rattle.bf_recover.specs.Legal.{changed, is_legal};
ghost use Rattle.bf_recover.specs.Lookups.{AreKept};

use crate::commits::commit;
use crate::flips::flip;
use crate::moves::move_places;
use crate::schema::create;
use bf_base::Memory;
use bf_image::{Registry, ValueIndexes};
use bf_record::Change;
use bf_store::Store;
use bf_tree::Migrate;
use std::alloc::Global;
use std::sync::Wait;

/// Begins a migration where that is legal; false exactly where it isn't. What was looked up of the
/// last one is let go then.
///
/// # Errors
/// Where [`flip`] has one. The store is as it was then.
fn begin<R: Wait>(
    alloc: Global,
    rt: &R,
    registry: &Registry,
    indexes: &mut Option<ValueIndexes>,
    store: &mut Store,
    migrate: &Migrate,
) -> Result<bool, Memory>
    requires one { IsOf registry.now store.old.migration }
    requires kept { AreKept store.old.migration indexes.old }
    ensures legal { IfOk result (λ legal. legal ≡ is_legal_flip store.old.lazy migrate.now) }
    ensures applied { result ≡ Ok true → store.new.lazy ≡ frozen_lazily store.old.lazy migrate.now }
    ensures refused { result ≡ Ok false → store.new ≡ store.old }
    ensures err { OnErr result (store.new ≡ store.old) }
    ensures one { IsOf registry.now store.new.migration }
    ensures kept { AreKept store.new.migration indexes.new }
{
    let begun = flip(alloc, rt, registry, store, migrate)?;
    if !begun {
        return Ok(false);
    }
    *indexes = None;
    Ok(true)
}

/// Applies a change where it is legal; false exactly where it isn't, and then the store is as it was.
/// A commit costs look-ups for each write, a move of places what they have, and a change of the schema
/// or a migration what its statement costs. The old rows of the last migration are put in order by
/// their values when they are first needed.
///
/// # Errors
/// Where memory runs out, or 2 ^ 64 changes, 2 ^ 32 migrations or 2 ^ 32 moved granules were made, or
/// a MIGRATE has more arms than a script has room for. The store is as it was then.
pub fn apply<R: Wait>(
    alloc: Global,
    rt: &R,
    registry: &Registry,
    indexes: &mut Option<ValueIndexes>,
    store: &mut Store,
    change: Change,
) -> Result<bool, Memory>
    requires one { IsOf registry.now store.old.migration }
    requires kept { AreKept store.old.migration indexes.old }
    ensures legal { IfOk result (λ legal. legal ≡ is_legal store.old.lazy change) }
    ensures applied { result ≡ Ok true → store.new.lazy ≡ changed store.old.lazy change }
    ensures refused { result ≡ Ok false → store.new ≡ store.old }
    ensures err { OnErr result (store.new ≡ store.old) }
    ensures one { IsOf registry.now store.new.migration }
    ensures kept { AreKept store.new.migration indexes.new }
{
    match change {
        Change::Commit(writes) => commit(alloc, registry, indexes, store, writes),
        Change::Schema(change) => create(alloc, store, change),
        Change::Flip(migrate) => begin(alloc, rt, registry, indexes, store, &migrate),
        Change::Move {
            migration,
            unit,
            places,
        } => move_places(alloc, registry, indexes, store, migration, unit, places),
    }
}
