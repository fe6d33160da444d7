//! Keys that no owner is still to move.

ghost use Rattle.std.specs.Prelude.{◌≡◌, [], false, IfOk, IsSome, map};
ghost use Rattle.bf_base.specs.Lists.{has, same_key};
ghost use Rattle.bf_base.specs.Tables.{key_of};
ghost use Rattle.bf_sql.specs.Database.{stored_at, table_at, table_rows};
ghost use Rattle.bf_sql.specs.migrations.Lazy.{pending_of};
ghost use Rattle.bf_store.specs.States.{is_free};
ghost use Rattle.bf_store.specs.Stores.{IsOf};
ghost use Rattle.bf_recover.specs.Commits.{is_kept_if_removed};
ghost use Rattle.bf_recover.specs.Lookups.{AreKept};

use crate::lookups::look_up;
use bf_base::{Key, Memory, Name};
use bf_image::{Registry, ValueIndexes, owner};
use bf_store::Store;
use bf_transpose::candidates;
use bf_tree::Sweep;
use bf_txn::Write;
use std::alloc::Global;

/// Whether something of the last migration is left to move. Takes no memory.
fn is_running(store: &Store) -> bool
    ensures { result ≡ false → pending_of store.now.lazy.last ≡ [] }
{
    match store.sweep() {
        Sweep::Never => false,
        Sweep::Complete { .. } => false,
        Sweep::Running { .. } => true,
    }
}

/// Whether no row with a key is still to move into a table. While a migration runs it costs what [`candidates`]
/// does, and a look-up for each of these among the granules that have moved. No row of a granule is made where
/// each of them has; else it costs what [`bf_image::owner`] does besides.
///
/// # Errors
/// Where memory runs out.
pub(crate) fn is_free(
    alloc: Global,
    registry: &Registry,
    indexes: &mut Option<ValueIndexes>,
    store: &Store,
    table: &Name,
    key: &Key,
) -> Result<bool, Memory>
    requires one { IsOf registry.now store.now.migration }
    requires kept { AreKept store.now.migration indexes.old }
    requires stands { IsSome (stored_at store.now.lazy.live table.now) }
    ensures free { IfOk result (λ free. free
        ≡ is_free store.now.lazy.last (table_at store.now.lazy.live table.now) key.now) }
    ensures kept { AreKept store.now.migration indexes.new }
{
    // Its contract says that the state is lazy.
    let _ = store.live();
    if !is_running(store) {
        return Ok(true);
    }
    let Some(pass) = store.migration() else {
        return Ok(true);
    };
    let last = registry.migration(&pass);
    let candidates = candidates(alloc, last, table, key)?;
    let left = store.need(alloc, &candidates)?;
    if left.is_empty() {
        return Ok(true);
    }
    look_up(alloc, registry, &pass, indexes)?;
    let Some(found) = indexes else {
        unreachable!();
    };
    match owner(alloc, last, found, table, key)? {
        Some(granule) => Ok(store.need(alloc, &[granule])?.is_empty()),
        None => Ok(true),
    }
}

/// Whether the live table of a name has a row with a key. It is looked up by name and by key, and
/// takes no memory.
fn is_kept(store: &Store, table: &Name, key: &Key) -> bool
    ensures { result ≡ has same_key (map (key_of (table_at store.now.lazy.live table.now))
        (table_rows store.now.lazy.live table.now)) key.now }
{
    match store.live().heap(table) {
        Some(heap) => heap.get(key).is_some(),
        None => false,
    }
}

/// Whether a write puts a row, or removes one that its live table has.
pub(crate) fn is_kept_if_removed(store: &Store, write: &Write) -> bool
    ensures { result ≡ is_kept_if_removed store.now.lazy write.now write.now.row }
{
    match &write.row {
        Some(_) => true,
        None => is_kept(store, &write.table, &write.key),
    }
}
