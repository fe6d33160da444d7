//! INSERT, UPDATE and DELETE.

ghost use Rattle.std.specs.Prelude.{◌≡◌, ◌++◌, IfOk, OnErr, OnOk, None, Some, map, flat_map};
ghost use Rattle.std.specs.List.{All};
ghost use Rattle.bf_base.specs.Lists.{when};
ghost use Rattle.bf_base.specs.Tables.{IsKeyWithin, cell, fit_of, key_of};
ghost use Rattle.bf_tree.specs.Evaluation.{sure_value, value_of};
ghost use Rattle.bf_tree.specs.declared.reply.Refusal.TheVariants.{DuplicateKey};
ghost use Rattle.bf_sql.specs.Queries.{changed};
ghost use Rattle.bf_sql.specs.RowObjections.{change_objections, fit_objections, insert_objections, unfit_objections, unfit_row_objections};
ghost use Rattle.bf_tree.specs.ValueObjections.{value_objections};
ghost use Rattle.bf_live.specs.Replies.{HaveOwnKeys, IsChange, IsWellBound, action_table, admitted_at, change_reply, objections_on, rows_for, write_of, writes_of, written, is_taken};
ghost use Rattle.bf_query.specs.Changes.{counted, planned};
ghost use Rattle.bf_index.specs.Edits.{AreIndexesOf};
ghost use Rattle.bf_txn.specs.Writes.{gathered};
ghost use Rattle.bf_live.specs.Merged.{StandUnderOwnKeys, rows_under};
ghost use Rattle.bf_tree.specs.Settling.{Settles, first_of};

use crate::merge::{row_at, selected_rows};
use bf_base::{Fit, Key, Memory, Row, Table, Value, admits, key_of};
use bf_heap::Heap;
use bf_index::Index;
use bf_totals::value_or_refusal;
use bf_tree::{Action, Bound, Expr, Refusal, Reply, StatementError};
use bf_txn::{TableWrites, Workspace};
use std::alloc::Global;

/// The objection to a value by what its column says of it.
fn unfitness(fit: Fit) -> Option<Refusal>
    ensures { result ≡ first_of (fit_objections fit) }
{
    match fit {
        Fit::Fits => None,
        Fit::WrongKind => Some(Refusal::TypeMismatch),
        Fit::OutOfRange => Some(Refusal::OutOfRange),
        Fit::TooLong => Some(Refusal::TooLong),
    }
}

/// The first objection of a table's columns to the values of a tuple, from the left.
fn first_unfit(table: &Table, tuple: &Row) -> Option<Refusal>
    ensures { result ≡ first_of (unfit_row_objections table.now tuple.now) }
{
    let values = tuple.as_slice();
    for (place, column) in table.columns.as_slice().iter().enumerate() {
        let value = values.get(place)?;
        let unfit = unfitness(admits(column, value));
        if unfit.is_some() {
            return unfit;
        }
    }
    None
}

/// The first objection to a tuple: of a column to its value, and then to its key, which a row has
/// or an earlier tuple had.
fn tuple_objection(
    alloc: Global,
    table: &Table,
    heap: &Heap,
    workspace: &Workspace,
    earlier: &TableWrites,
    tuple: &Row,
    key: &Key,
) -> Result<Option<Refusal>, Memory>
    ensures { IfOk result (λ found.
        found ≡ first_of (unfit_row_objections table.now tuple.now
        ++ when (is_taken heap.now.entries workspace.now earlier.now table.now.name key.now)
        (DuplicateKey key.now))) }
{
    let unfit = first_unfit(table, tuple);
    if unfit.is_some() {
        return Ok(unfit);
    }
    let name = &table.name;
    if row_at(heap, workspace, name, key).is_some() || earlier.read(key).is_some() {
        return Ok(Some(Refusal::DuplicateKey(key.copy(alloc)?)));
    }
    Ok(None)
}

/// The writes of an INSERT where nothing stands in its way.
fn plan_insert(
    alloc: Global,
    heap: &Heap,
    workspace: &Workspace,
    table: &Table,
    tuples: &[Row],
) -> Result<TableWrites, StatementError>
    requires tuples { All (IsKeyWithin table.now) tuples.now }
    requires keys { StandUnderOwnKeys table.now heap.now.entries workspace.now }
    ensures { Settles result (insert_objections table.now
        (rows_under heap.now.entries workspace.now table.now.name) tuples.now)
        (gathered
        (map (λ tuple. write_of table.now (key_of table.now tuple) (Some tuple)) tuples.now)) }
{
    let mut writes = TableWrites::new(alloc);
    for tuple in tuples {
        let key = key_of(alloc, table, tuple)?;
        if let Some(refusal) = tuple_objection(
            alloc, table, heap, workspace, &writes, tuple, &key,
        )? {
            return Err(StatementError::Refused(refusal));
        }
        writes.write(key, Some(tuple.copy(alloc)?))?;
    }
    Ok(writes)
}

/// Whether the column at a place admits a value. A column that the table lacks admits each INT.
fn fit_at(table: &Table, place: u8, value: &Value) -> Fit
    ensures { result ≡ fit_of (admitted_at table.now place) value.now }
{
    match (table.columns.as_slice().get(place as usize), value) {
        (Some(column), _) => admits(column, value),
        // What is an i64 is an INT.
        (None, &Value::Int(_number)) => Fit::Fits,
        (None, Value::Text(_)) => Fit::WrongKind,
    }
}

/// The value that a set gives a column of a row, if the expression has one there and the column
/// admits it.
fn set_value(
    alloc: Global,
    table: &Table,
    place: u8,
    expr: &Expr,
    row: &Row,
) -> Result<Value, StatementError>
    ensures { Settles result (value_objections (value_of (cell row.now) expr.now)
        ++ unfit_objections (admitted_at table.now place) (sure_value (cell row.now) expr.now))
        (sure_value (cell row.now) expr.now) }
{
    let found = value_or_refusal(alloc, expr, row)?;
    match unfitness(fit_at(table, place, &found)) {
        Some(refusal) => Err(StatementError::Refused(refusal)),
        None => Ok(found),
    }
}

/// A row with its sets, all from the old row.
fn changed_row(
    alloc: Global,
    table: &Table,
    sets: &[(u8, Expr)],
    row: &Row,
) -> Result<Row, StatementError>
    ensures { Settles result (change_objections cell (admitted_at table.now) sets.now row.now)
        (changed cell (λ place. place) sets.now row.now) }
{
    let mut new = row.copy(alloc)?.into_vec();
    for (place, expr) in sets {
        let found = set_value(alloc, table, *place, expr, row)?;
        let place = *place as usize;
        if place < new.len() {
            new[place] = found;
        }
    }
    Ok(Row::of(new))
}

/// The writes of an UPDATE of some rows where nothing stands in its way.
fn plan_update(
    alloc: Global,
    table: &Table,
    sets: &[(u8, Expr)],
    rows: &[&Row],
) -> Result<TableWrites, StatementError>
    requires { All (IsKeyWithin table.now) (map (λ row. row.now) rows.now) }
    ensures { Settles result (flat_map (change_objections cell (admitted_at table.now) sets.now)
        (map (λ row. row.now) rows.now))
        (gathered (map (λ row. write_of table.now (key_of table.now row)
        (Some (changed cell (λ place. place) sets.now row))) (map (λ row. row.now) rows.now))) }
{
    let mut writes = TableWrites::new(alloc);
    for row in rows {
        let new = changed_row(alloc, table, sets, row)?;
        let key = key_of(alloc, table, row)?;
        writes.write(key, Some(new))?;
    }
    Ok(writes)
}

/// The writes of a DELETE of some rows.
fn plan_delete(alloc: Global, table: &Table, rows: &[&Row]) -> Result<TableWrites, Memory>
    requires { All (IsKeyWithin table.now) (map (λ row. row.now) rows.now) }
    ensures { IfOk result (λ writes.
        writes ≡ gathered (map (λ row. write_of table.now (key_of table.now row) None)
        (map (λ row. row.now) rows.now))) }
{
    let mut writes = TableWrites::new(alloc);
    for row in rows {
        let key = key_of(alloc, table, row)?;
        writes.write(key, None)?;
    }
    Ok(writes)
}

/// What a change does where nothing stands in its way.
#[derive(Drop)]
struct Planned {
    /// The number of rows that it writes.
    count: usize,
    writes: TableWrites,
}

/// What a change does where nothing stands in its way. It reads alone.
fn plan(
    alloc: Global,
    heap: &Heap,
    indexes: &[Index],
    workspace: &Workspace,
    action: &Action,
) -> Result<Planned, StatementError>
    requires indexes { AreIndexesOf heap.now.entries indexes.now }
    requires change { IsChange action.now }
    requires bound { IsWellBound action.now }
    requires keys { HaveOwnKeys heap.now.entries workspace.now action.now }
    ensures { Settles result (objections_on
        (rows_for heap.now.entries workspace.now action.now) action.now)
        (planned (writes_of (rows_for heap.now.entries workspace.now action.now) action.now)) }
{
    match action {
        Action::Insert { table, rows } => {
            let rows = rows.as_slice();
            let writes = plan_insert(alloc, heap, workspace, table, rows)?;
            Ok(Planned {
                count: rows.len(),
                writes,
            })
        }
        Action::Update {
            table,
            sets,
            cond,
            fixed,
        } => {
            let rows = selected_rows(alloc, heap, indexes, workspace, table, cond, fixed)?;
            let writes = plan_update(alloc, table, sets.as_slice(), rows.as_slice())?;
            Ok(Planned {
                count: rows.len(),
                writes,
            })
        }
        Action::Delete { table, cond, fixed } => {
            let rows = selected_rows(alloc, heap, indexes, workspace, table, cond, fixed)?;
            let writes = plan_delete(alloc, table, rows.as_slice())?;
            Ok(Planned {
                count: rows.len(),
                writes,
            })
        }
        _ => unreachable!(),
    }
}

/// The table of a change.
fn changed_table(action: &Action) -> &Table
    requires { IsChange action.now }
    ensures { action_table action.now ≡ Some result.now }
{
    match action {
        Action::Insert { table, .. } => table,
        Action::Update { table, .. } => table,
        Action::Delete { table, .. } => table,
        _ => unreachable!(),
    }
}

/// The reply to a change of so many rows.
fn reply(action: &Action, count: u32) -> Reply
    requires { IsChange action.now }
    ensures { counted action.now count ≡ Some result }
{
    match action {
        Action::Insert { .. } => Reply::Inserted(count),
        Action::Update { .. } => Reply::Updated(count),
        Action::Delete { .. } => Reply::Deleted(count),
        _ => unreachable!(),
    }
}

/// Runs an INSERT, an UPDATE or a DELETE on the rows of its table, those of the heap under what
/// the transaction has written, and notes what it writes in the workspace. Where something stands
/// in its way, the reply is the first refusal, and the workspace stays as it was. A statement whose
/// condition fixes a key, and each tuple of an INSERT, costs a look-up and a write in time
/// logarithmic in the rows. Else an UPDATE or a DELETE looks up each row that has the value, where
/// `index_for` gives an index, and goes once over those rows and the writes to the table; or it goes
/// once over the rows and the writes whose keys are in the range that its condition leaves.
///
/// # Errors
/// Where memory runs out, or 2 ^ 32 rows or more change. The workspace is as it was then.
pub fn changes(
    alloc: Global,
    bound: &Bound,
    heap: &Heap,
    indexes: &[Index],
    workspace: &mut Workspace,
) -> Result<Reply, Memory>
    requires indexes { AreIndexesOf heap.now.entries indexes.now }
    requires change { IsChange bound.now.action }
    requires bound { IsWellBound bound.now.action }
    requires keys { HaveOwnKeys heap.now.entries workspace.old bound.now.action }
    ensures reply { IfOk result (λ told.
        change_reply (rows_for heap.now.entries workspace.old bound.now.action) bound.now.action
        ≡ Some told) }
    ensures workspace { OnOk result
        (workspace.new ≡ written (objections_on
        (rows_for heap.now.entries workspace.old bound.now.action) bound.now.action) workspace.old
        (writes_of (rows_for heap.now.entries workspace.old bound.now.action) bound.now.action)) }
    ensures err { OnErr result (workspace.new ≡ workspace.old) }
{
    let action = &bound.action;
    let plan = match plan(alloc, heap, indexes, workspace, action) {
        Ok(plan) => plan,
        Err(StatementError::Refused(refusal)) => return Ok(Reply::Refused(refusal)),
        Err(StatementError::Memory) => return Err(Memory),
    };
    let Ok(count) = u32::try_from(plan.count) else {
        return Err(Memory);
    };
    workspace.write_all(&changed_table(action).name, plan.writes)?;
    Ok(reply(action, count))
}
