//! Locks as texts.

use crate::told::{put_key, word};
use bf_locks::{LockName, Mode};
use std::alloc::Global;

fn put_lock(alloc: Global, told: &mut String, name: &LockName, mode: Mode) -> anyhow::Result<()> {
    match name {
        LockName::Catalog => told.push_str("catalog")?,
        LockName::Whole(table) => told.push_str(word(table)?)?,
        LockName::One(table, key) => {
            told.push_str(word(table)?)?;
            put_key(alloc, told, key)?;
        }
    }
    write!(told, " {mode:?}")?;
    Ok(())
}

/// Adds locks in their order, each a name and the mode in which it is asked for.
pub fn put_locks(
    alloc: Global,
    told: &mut String,
    locks: &[(LockName, Mode)],
) -> anyhow::Result<()> {
    let mut between = "";
    for (name, mode) in locks {
        told.push_str(between)?;
        put_lock(alloc, told, name, *mode)?;
        between = ", ";
    }
    Ok(())
}
