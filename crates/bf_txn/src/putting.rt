//! Rows under their keys, put among others: all of them, or none.

ghost use Rattle.std.specs.Prelude.{◌≡◌, [], ◌≤◌, OnErr, OnOk, fold, length, vec_capacity};
ghost use Rattle.bf_txn.specs.Formers.{restored, undone};
ghost use Rattle.bf_txn.specs.Writes.{with_key_write};

use bf_base::{Key, Memory, Row};
use std::alloc::Global;
use std::collections::BTreeMap;

/// What stood at a key before it was written: nothing, or the row or the removal.
#[derive(Drop)]
pub(crate) struct Former {
    key: Key,
    row: Option<Option<Row>>,
}

/// Lets what stood at a key before stand there again. Takes no memory.
fn restore(rows: &mut BTreeMap<Key, Option<Row>>, former: Former)
    ensures { rows.new.entries ≡ restored former rows.old.entries }
{
    let Former { key, row } = former;
    match row {
        Some(row) => {
            if let Some(there) = rows.get_mut(&key) {
                *there = row;
            }
        }
        None => {
            rows.remove(&key);
        }
    }
}

/// Takes writes back, the last one first. Takes no memory.
fn undo(rows: &mut BTreeMap<Key, Option<Row>>, formers: Vec<Former>)
    ensures { rows.new.entries ≡ undone formers.items rows.old.entries }
{
    let mut formers = formers;
    while let Some(former) = formers.pop() {
        restore(rows, former);
    }
}

/// Puts rows under their keys one after the other, and keeps what stood there before.
///
/// # Errors
/// Where memory runs out. The rows that were put by then can be taken back.
fn put_each(
    alloc: Global,
    rows: &mut BTreeMap<Key, Option<Row>>,
    more: BTreeMap<Key, Option<Row>>,
    formers: &mut Vec<Former>,
) -> Result<(), Memory>
    requires none { formers.old.items ≡ [] }
    requires room { length more.entries ≤ vec_capacity formers.old }
    ensures rows { OnOk result
        (rows.new.entries ≡ fold with_key_write rows.old.entries more.entries) }
    ensures undoable { undone formers.new.items rows.new.entries ≡ rows.old.entries }
{
    for (key, row) in more {
        let at = key.copy(alloc)?;
        let former = rows.insert(key, row)?;
        formers
            .push(Former {
                key: at,
                row: former,
            })
            .unwrap();
    }
    Ok(())
}

/// Puts rows under their keys, in time logarithmic in the rows for each.
///
/// # Errors
/// Where memory runs out. The rows are as they were then.
pub(crate) fn put_all(
    alloc: Global,
    rows: &mut BTreeMap<Key, Option<Row>>,
    more: BTreeMap<Key, Option<Row>>,
) -> Result<(), Memory>
    ensures ok { OnOk result
        (rows.new.entries ≡ fold with_key_write rows.old.entries more.entries) }
    ensures err { OnErr result (rows.new.entries ≡ rows.old.entries) }
{
    let mut formers = Vec::with_capacity(alloc, more.len())?;
    let all_put = put_each(alloc, rows, more, &mut formers);
    if all_put.is_err() {
        undo(rows, formers);
    }
    all_put
}
