//! What bound statements lock.

ghost use Rattle.std.specs.Prelude.{◌≡◌, [], ◌∷◌, map, IfOk};
ghost use Rattle.std.specs.List.{All};
ghost use Rattle.std.specs.BTreeSet.{keys};
ghost use Rattle.bf_base.specs.Tables.{key_of, IsKeyWithin};
ghost use Rattle.bf_locks.specs.declared.name.LockName.TheVariants.{Whole, One};
ghost use Rattle.bf_sql.specs.Footprints.{HasKeys, catalog_read, change_locks, footprint_of, in_key_order, insert_locks, read_locks};

use bf_base::{Key, Memory, Row, Table, key_of};
use bf_locks::{LockName, Mode};
use bf_tree::{Action, Bound, Refusal};
use std::alloc::Global;
use std::collections::BTreeSet;

/// The keys of tuples in their order, each once.
fn keys_in_order(alloc: Global, table: &Table, tuples: &[Row]) -> Result<BTreeSet<Key>, Memory>
    requires { All (IsKeyWithin table.now) tuples.now }
    ensures { IfOk result (λ set. keys set ≡ in_key_order (map (key_of table.now) tuples.now)) }
{
    let mut keys = BTreeSet::new(alloc);
    for tuple in tuples {
        keys.insert(key_of(alloc, table, tuple)?)?;
    }
    Ok(keys)
}

/// The locks of an INSERT.
fn insert_locks(
    alloc: Global,
    table: &Table,
    tuples: &[Row],
) -> Result<Vec<(LockName, Mode)>, Memory>
    requires { All (IsKeyWithin table.now) tuples.now }
    ensures { IfOk result (λ locks. locks.items ≡ insert_locks table.now tuples.now) }
{
    let keys = keys_in_order(alloc, table, tuples)?;
    let mut locks = Vec::with_capacity(alloc, keys.len() + 2)?;
    locks.push((LockName::Catalog, Mode::S))?;
    locks.push((LockName::Whole(table.name.copy(alloc)?), Mode::IX))?;
    for key in keys {
        locks.push((LockName::One(table.name.copy(alloc)?, key), Mode::X))?;
    }
    Ok(locks)
}

/// The locks of one key in a mode, with its table in a mode above it.
fn key_locks(
    alloc: Global,
    table: &Table,
    key: &Key,
    above: Mode,
    mode: Mode,
) -> Result<Vec<(LockName, Mode)>, Memory>
    ensures { IfOk result (λ locks.
        locks.items ≡ catalog_read ∷ (Whole table.now.name, above)
        ∷ (One table.now.name key.now, mode) ∷ []) }
{
    let whole = LockName::Whole(table.name.copy(alloc)?);
    let one = LockName::One(table.name.copy(alloc)?, key.copy(alloc)?);
    Ok(vec![in alloc; (LockName::Catalog, Mode::S), (whole, above), (one, mode)]?)
}

/// The locks of a whole table in a mode.
fn table_locks(alloc: Global, table: &Table, mode: Mode) -> Result<Vec<(LockName, Mode)>, Memory>
    ensures { IfOk result (λ locks.
        locks.items ≡ catalog_read ∷ (Whole table.now.name, mode) ∷ []) }
{
    let whole = LockName::Whole(table.name.copy(alloc)?);
    Ok(vec![in alloc; (LockName::Catalog, Mode::S), (whole, mode)]?)
}

/// The locks of a SELECT.
fn read_locks(
    alloc: Global,
    table: &Table,
    fixed: &Option<Key>,
) -> Result<Vec<(LockName, Mode)>, Memory>
    ensures { IfOk result (λ locks. locks.items ≡ read_locks table.now fixed.now) }
{
    match fixed {
        Some(key) => key_locks(alloc, table, key, Mode::IS, Mode::S),
        None => table_locks(alloc, table, Mode::S),
    }
}

/// The locks of an UPDATE or a DELETE.
fn change_locks(
    alloc: Global,
    table: &Table,
    fixed: &Option<Key>,
) -> Result<Vec<(LockName, Mode)>, Memory>
    ensures { IfOk result (λ locks. locks.items ≡ change_locks table.now fixed.now) }
{
    match fixed {
        Some(key) => key_locks(alloc, table, key, Mode::IX, Mode::X),
        None => table_locks(alloc, table, Mode::X),
    }
}

/// What a bound statement locks, in the order of asking: names, each with its mode.
///
/// Logarithmic in the tuples for each tuple of an INSERT.
///
/// # Errors
/// Where memory runs out.
pub fn footprint(alloc: Global, bound: &Bound) -> Result<Vec<(LockName, Mode)>, Memory>
    requires { HasKeys bound.now.action }
    ensures { IfOk result (λ locks. locks.items ≡ footprint_of bound.now) }
{
    if bound.schema_change {
        return Ok(vec![in alloc; (LockName::Catalog, Mode::X)]?);
    }
    match &bound.action {
        Action::Refused(refusal) => match refusal {
            Refusal::NoTransaction | Refusal::InTransaction | Refusal::MustBeAlone => {
                Ok(Vec::new(alloc))
            }
            _ => Ok(vec![in alloc; (LockName::Catalog, Mode::S)]?),
        },
        Action::CreateTable(_) | Action::CreateIndex(_) | Action::Migrate(_) => {
            Ok(vec![in alloc; (LockName::Catalog, Mode::X)]?)
        }
        Action::Insert { table, rows } => insert_locks(alloc, table, rows.as_slice()),
        Action::Select { table, fixed, .. } => read_locks(alloc, table, fixed),
        Action::Update { table, fixed, .. } => change_locks(alloc, table, fixed),
        Action::Delete { table, fixed, .. } => change_locks(alloc, table, fixed),
        Action::Begin | Action::Commit | Action::Rollback => Ok(Vec::new(alloc)),
    }
}
