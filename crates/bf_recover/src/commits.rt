//! Commits of records.

ghost use Rattle.std.specs.List.{list_all};
ghost use Rattle.std.specs.Ordering.{is_lt};
ghost use Rattle.std.specs.Prelude.{◌≡◌, Ok, true, false, IfOk, IfSome, OnErr, is_some};
ghost use Rattle.bf_base.specs.Maps.{is_map};
ghost use Rattle.bf_txn.specs.Writes.{AreWrites, table_key_cmp, table_key_of};
ghost use Rattle.bf_store.specs.Calls.{with_commit};
ghost use Rattle.bf_store.specs.Stores.{IsOf};
ghost use Rattle.bf_recover.specs.Commits.{is_legal_commit, is_legal_write, write_of, writes_of};
ghost use Rattle.bf_recover.specs.Lookups.{AreKept};

use crate::free_keys::{is_free, is_kept_if_removed};
use crate::keyed::keyed;
use bf_base::{Memory, Sequence};
use bf_image::{Registry, ValueIndexes};
use bf_record::TableWrite;
use bf_store::Store;
use bf_txn::{Workspace, Write};
use std::alloc::Global;
use std::cmp::Ordering;

/// A write of a record under its key, and `None` exactly where it is not legal. It costs a look-up
/// of its table, of its key and of the key's owner.
fn legal_write(
    alloc: Global,
    registry: &Registry,
    indexes: &mut Option<ValueIndexes>,
    store: &Store,
    write: TableWrite,
) -> Result<Option<Write>, Memory>
    requires one { IsOf registry.now store.now.migration }
    requires kept { AreKept store.now.migration indexes.old }
    ensures legal { IfOk result (λ legal. is_some legal
        ≡ is_legal_write store.now.lazy (write_of store.now.lazy.live write)) }
    ensures write { IfOk result (λ legal.
        IfSome legal (λ w. w ≡ write_of store.now.lazy.live write)) }
    ensures kept { AreKept store.now.migration indexes.new }
{
    let Some(table) = store.live().catalog().table(&write.table) else {
        return Ok(None);
    };
    let Some(write) = keyed(alloc, table, write)? else {
        return Ok(None);
    };
    let free = is_free(alloc, registry, indexes, store, &write.table, &write.key)?;
    if !free {
        return Ok(None);
    }
    if !is_kept_if_removed(store, &write) {
        return Ok(None);
    }
    Ok(Some(write))
}

/// The writes of a record under their keys, and `None` exactly where one of them is not legal.
fn legal_writes(
    alloc: Global,
    registry: &Registry,
    indexes: &mut Option<ValueIndexes>,
    store: &Store,
    writes: Sequence<TableWrite>,
) -> Result<Option<Vec<Write>>, Memory>
    requires one { IsOf registry.now store.now.migration }
    requires kept { AreKept store.now.migration indexes.old }
    ensures legal { IfOk result (λ legal. is_some legal ≡ list_all (is_legal_write store.now.lazy)
        (writes_of store.now.lazy.live writes)) }
    ensures writes { IfOk result (λ legal.
        IfSome legal (λ ws. ws.items ≡ writes_of store.now.lazy.live writes)) }
    ensures kept { AreKept store.now.migration indexes.new }
{
    let mut legal = Vec::with_capacity(alloc, writes.len())?;
    for write in writes.into_vec() {
        let Some(known) = legal_write(alloc, registry, indexes, store, write)? else {
            return Ok(None);
        };
        legal.push(known)?;
    }
    Ok(Some(legal))
}

/// Whether a write comes before another, by table and then key.
fn comes_before(write: &Write, next: &Write) -> bool
    ensures { result ≡ is_lt (table_key_cmp (table_key_of write.now) (table_key_of next.now)) }
{
    match write.table.compare(&next.table) {
        Ordering::Less => true,
        Ordering::Equal => write.key.compare(&next.key).is_lt(),
        Ordering::Greater => false,
    }
}

/// Whether each write comes before the next.
fn rise(writes: &[Write]) -> bool
    ensures { result ≡ is_map table_key_cmp table_key_of writes.now }
{
    let mut ahead = writes;
    while let [write, behind @ ..] = ahead {
        if let [next, ..] = behind
            && !comes_before(write, next)
        {
            return false;
        }
        ahead = behind;
    }
    true
}

/// A workspace of writes that rise by table and key.
fn workspace_of(alloc: Global, writes: Vec<Write>) -> Result<Workspace, Memory>
    requires { AreWrites writes.items }
    ensures { IfOk result (λ workspace. workspace ≡ writes.items) }
{
    let mut workspace = Workspace::new(alloc);
    for write in writes {
        let Write { table, key, row } = write;
        workspace.write(table, key, row)?;
    }
    Ok(workspace)
}

/// Makes the writes of a record part of a store where they are legal, and answers whether they are.
/// A write costs look-ups of its table, of its key and of the key's owner; the old rows of the last
/// migration are put in order by their values where they have not been, while it runs.
///
/// # Errors
/// Where memory runs out, or 2 ^ 64 changes were made.
pub(crate) fn commit(
    alloc: Global,
    registry: &Registry,
    indexes: &mut Option<ValueIndexes>,
    store: &mut Store,
    writes: Sequence<TableWrite>,
) -> Result<bool, Memory>
    requires one { IsOf registry.now store.old.migration }
    requires kept { AreKept store.old.migration indexes.old }
    ensures legal { IfOk result (λ legal. legal
        ≡ is_legal_commit store.old.lazy (writes_of store.old.lazy.live writes)) }
    ensures applied { result ≡ Ok true → store.new.lazy
        ≡ with_commit store.old.lazy (writes_of store.old.lazy.live writes) }
    ensures refused { result ≡ Ok false → store.new ≡ store.old }
    ensures err { OnErr result (store.new ≡ store.old) }
    ensures migration { store.new.migration ≡ store.old.migration }
    ensures kept { AreKept store.new.migration indexes.new }
{
    // Its contract says that the state is lazy.
    let _ = store.live();
    if writes.is_empty() {
        return Ok(false);
    }
    let Some(legal) = legal_writes(alloc, registry, indexes, store, writes)? else {
        return Ok(false);
    };
    if !rise(&legal) {
        return Ok(false);
    }
    let mut workspace = workspace_of(alloc, legal)?;
    store.commit(&mut workspace)?;
    Ok(true)
}
