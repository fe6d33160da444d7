//! Logs that are read back as stores.

use bf_base::{Name, NameError};
use bf_disk::TapeDisk;
use bf_image::Registry;
use bf_recover::reopen;
use bf_store::Store;
use bf_tree::Sweep;
use case_files::{Teller, bytes_of};
use std::alloc::Global;
use std::sync::Wait;

/// How many rows a table has, if it is there.
fn count(alloc: Global, store: &Store, table: &[u8]) -> Result<Option<u32>, NameError> {
    let name = Name::of(alloc, table)?;
    Ok(store.live().heap(&name).map(|heap| heap.len()))
}

/// Adds how many rows a table has, if it is there.
fn tell_count(rows: Option<u32>, told: &mut String) -> anyhow::Result<()> {
    match rows {
        Some(rows) => write!(told, " {rows}")?,
        None => told.push_str(" none")?,
    }
    Ok(())
}

/// Adds how far a migration has come.
fn tell_sweep(sweep: Sweep, told: &mut String) -> anyhow::Result<()> {
    match sweep {
        Sweep::Never => told.push_str("never")?,
        Sweep::Complete { migration, moved } => {
            write!(told, "complete: migration {migration} moved {moved}")?;
        }
        Sweep::Running {
            migration,
            moved,
            unit,
            position,
        } => {
            write!(told, "running: migration {migration} moved {moved}")?;
            write!(told, " unit {unit} position {position}")?;
        }
    }
    Ok(())
}

/// Adds what is told of a store.
fn tell_store(alloc: Global, store: &Store, told: &mut String) -> anyhow::Result<()> {
    tell_sweep(store.sweep(), told)?;
    told.push_str(", t")?;
    tell_count(count(alloc, store, b"t")?, told)?;
    told.push_str(", u")?;
    tell_count(count(alloc, store, b"u")?, told)
}

/// Tells what logs are reopened as.
#[derive(Clone, Copy)]
pub struct Reopening<'a, R: Wait> {
    pub rt: &'a R,
}

impl<R: Wait> Teller for Reopening<'_, R> {
    fn tell(&self, alloc: Global, text: &str, told: &mut String) -> anyhow::Result<()> {
        let (registry, _) = Registry::new(alloc, self.rt)?;
        let disk = TapeDisk::new(alloc, bytes_of(alloc, text)?, Vec::new(alloc), None);
        match reopen(alloc, self.rt, &registry, disk) {
            Ok((store, _)) => tell_store(alloc, &store, told),
            Err((_, error)) => {
                write!(told, "{error}")?;
                Ok(())
            }
        }
    }
}
