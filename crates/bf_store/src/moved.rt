//! What a move has come to.

ghost use Rattle.std.specs.Prelude.{◌≡◌, IfOk, map};

use bf_base::{Granule, Memory};
use std::alloc::Global;

/// The most places of one record of moves.
pub const MOST_MOVED: usize = 64;

/// A granule that has moved now, of which migration, and the number of the record that moved it.
#[derive(Drop)]
pub struct Receipt {
    pub migration: u32,
    pub granule: Granule,
    pub number: u64,
}

/// The granules that a move has moved, and those that had moved before, each with the number of its
/// record.
#[derive(Drop)]
pub struct Moved {
    pub fresh: Vec<Receipt>,
    pub already: Vec<(Granule, u64)>,
}

/// What is told of granules of a migration that one record moves.
pub(crate) fn receipts(
    alloc: Global,
    migration: u32,
    granules: &[Granule],
    number: u64,
) -> Result<Vec<Receipt>, Memory>
    ensures { IfOk result (λ told. told.items ≡ map
        (λ g. record { migration = migration; granule = g; number = number }) granules.now) }
{
    let mut told = Vec::with_capacity(alloc, granules.len())?;
    for granule in granules {
        told.push(Receipt {
            migration,
            granule: granule.copy(alloc)?,
            number,
        })?;
    }
    Ok(told)
}
