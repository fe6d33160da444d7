//! What changes a store, as records tell it.

ghost use Rattle.std.specs.Prelude.{◌≡◌, ◌≤◌, ◌++◌, ℕ, true, IfOk, OnOk, length};
ghost use Rattle.std.specs.List.{AllByRecursion};
ghost use Rattle.bf_record.specs.declared.change.Change.TheVariants.{Commit};
ghost use Rattle.bf_sql.specs.migrations.Lazy.{migrations_so_far, view_of};
ghost use Rattle.bf_store.specs.States.{to_move, with_moved};
ghost use Rattle.bf_store.specs.Told.{is_told_in};
ghost use Rattle.bf_machine.specs.interleaving.Answering.{CanSettle};
ghost use Rattle.bf_machine.specs.interleaving.Events.{put_into};
ghost use Rattle.bf_machine.specs.interleaving.Journals.{IsOneRecord, IsStated, leaves_something};
ghost use Rattle.bf_machine.specs.interleaving.Seen.{pending_seen};
ghost use Rattle.bf_run.specs.Answers.{is_of_group};
ghost use Rattle.bf_run.specs.Records.{IsRecordOf, number_in, places_of, row_told, told_in, writes_told};
ghost use Rattle.bf_run.specs.Sayable.{IsSayable};

use bf_base::{Granule, Key, Memory, Name, Place, Row, Sequence};
use bf_heap::Heap;
use bf_live::LiveTables;
use bf_machine::Pending;
use bf_record::{Change, RowChange, SchemaChange, TableWrite};
use bf_store::Store;
use bf_tree::Sweep;
use bf_txn::{TableWrites, Workspace};
use std::alloc::Global;

/// Whether a record tells a write to a table: it puts a row, or it removes one that is there.
fn is_told(heap: &Heap, key: &Key, row: &Option<Row>) -> bool
    ensures { result ≡ is_told_in heap.now.entries (key.now, row.now) }
{
    row.is_some() || heap.get(key).is_some()
}

/// What a record tells of a write.
///
/// # Errors
/// Where memory runs out.
fn row_told(alloc: Global, key: &Key, row: &Option<Row>) -> Result<RowChange, Memory>
    ensures { IfOk result (λ told. told ≡ row_told key.now row.now) }
{
    match row {
        Some(row) => Ok(RowChange::Put(row.copy(alloc)?)),
        None => Ok(RowChange::Removed(key.copy(alloc)?)),
    }
}

/// Adds what a record tells of the writes to a table.
///
/// # Errors
/// Where memory runs out.
fn tell_writes(
    alloc: Global,
    heap: &Heap,
    table: &Name,
    writes: &TableWrites,
    told: &mut Vec<TableWrite>,
) -> Result<(), Memory>
    ensures { OnOk result
        (told.new.items ≡ told.old.items ++ told_in heap.now.entries table.now writes.now) }
{
    for (key, row) in writes.iter() {
        if is_told(heap, key, row) {
            told.push(TableWrite {
                table: table.copy(alloc)?,
                change: row_told(alloc, key, row)?,
            })?;
        }
    }
    Ok(())
}

/// What a record tells of the writes of a transaction. It looks up each table, and the row of each
/// removal.
///
/// # Errors
/// Where memory runs out.
fn commit_of(alloc: Global, live: &LiveTables, writes: &Workspace) -> Result<Change, Memory>
    ensures { IfOk result (λ change. change ≡ Commit (writes_told live.now writes.now)) }
{
    let mut told = Vec::new(alloc);
    for (table, written) in writes.tables() {
        if let Some(heap) = live.heap(table) {
            tell_writes(alloc, heap, table, written, &mut told)?;
        }
    }
    Ok(Change::Commit(Sequence::of(told)))
}

/// The change that an open group is to leave, which is something. It costs a copy of the rows that
/// are put, and a look-up for each removal.
///
/// # Errors
/// Where memory runs out.
pub(crate) fn change_of(alloc: Global, store: &Store, pending: &Pending) -> Result<Change, Memory>
    requires can { CanSettle store.now.lazy (pending_seen pending.now) }
    requires leaves { leaves_something store.now.lazy (pending_seen pending.now) ≡ true }
    requires stated { IsStated IsSayable (view_of store.now.lazy) (pending_seen pending.now) }
    ensures recorded { IfOk result (λ change. IsRecordOf store.now.lazy change
        (put_into store.now.lazy (pending_seen pending.now))) }
    ensures own { IfOk result (λ change. is_of_group change ≡ true) }
{
    // Its contract says that the state is lazy.
    let live = store.live();
    match pending {
        Pending::Rows(writes) => commit_of(alloc, live, writes),
        Pending::NewTable(table) => Ok(Change::Schema(SchemaChange::Table(table.copy(alloc)?))),
        Pending::NewIndex(index) => Ok(Change::Schema(SchemaChange::Index(index.copy(alloc)?))),
        Pending::Flip(plan) => Ok(Change::Flip(plan.migrate.copy(alloc)?)),
        Pending::Nothing => unreachable!(),
    }
}

/// The number of the migration of a sweep, and 0 where there was none.
fn number_in(sweep: Sweep) -> u32
    ensures { result ≡ number_in sweep }
{
    match sweep {
        Sweep::Never => 0,
        Sweep::Complete { migration, .. } | Sweep::Running { migration, .. } => migration,
    }
}

/// The number of the last migration, and 0 where there was none.
fn last_number(store: &Store) -> u32
    ensures { result ≡ migrations_so_far store.now.lazy.last }
{
    number_in(store.sweep())
}

/// The unit of granules that are of one.
fn unit_of(granules: &[Granule]) -> u8
    requires some { 1 ≤ length granules.now }
    ensures { (unit : ℕ) → AllByRecursion (λ g. g.unit ≡ unit) granules.now → unit ≡ result }
{
    granules[0].unit
}

/// The places of granules.
///
/// # Errors
/// Where memory runs out.
fn places_of(alloc: Global, granules: &[Granule]) -> Result<Sequence<Place>, Memory>
    ensures { IfOk result (λ places. places ≡ places_of granules.now) }
{
    let mut places = Vec::with_capacity(alloc, granules.len())?;
    for granule in granules {
        places.push(granule.place.copy(alloc)?)?;
    }
    Ok(Sequence::of(places))
}

/// The change that moves granules of the last migration that have not moved, as one record may. Its
/// time is linear in them.
///
/// # Errors
/// Where memory runs out.
pub(crate) fn move_of(alloc: Global, store: &Store, granules: &[Granule]) -> Result<Change, Memory>
    requires one { IsOneRecord store.now.lazy.last granules.now }
    requires left { to_move store.now.lazy.last granules.now ≡ granules.now }
    ensures { IfOk result (λ change.
        IsRecordOf store.now.lazy change (with_moved store.now.lazy granules.now)) }
{
    Ok(Change::Move {
        migration: last_number(store),
        unit: unit_of(granules),
        places: places_of(alloc, granules)?,
    })
}
