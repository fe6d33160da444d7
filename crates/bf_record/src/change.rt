//! Records: what changes a database, as the payloads of a log.

ghost use Rattle.std.specs.Prelude.{◌≡◌, ◌≢◌, IfOk, IfNone, IfSome, OnOk};
ghost use Rattle.bf_record.specs.Apart.{changes_apart, places_apart};
ghost use Rattle.bf_record.specs.Changes.{HasRecord, IsPlace, place_spelling, record_bytes};
ghost use Rattle.bf_record.specs.Shallow.{AreShallow};

use crate::part::Part;
use crate::schema::SchemaChange;
use crate::writes::TableWrite;
use bf_base::{Key, Memory, Place, Sequence};
use bf_tree::Migrate;
use std::alloc::Global;

/// What the log records.
#[derive(Drop)]
pub enum Change {
    /// What a transaction wrote.
    Commit(Sequence<TableWrite>),
    /// A table or an index rule more.
    Schema(SchemaChange),
    /// The new tables of a migration took the place of the old ones.
    Flip(Migrate),
    /// Granules moved: places of a unit of a migration, both counted from 0.
    Move {
        migration: u32,
        unit: u8,
        places: Sequence<Place>,
    },
}

impl Part for Place {
    ghost HasSpelling = { IsPlace };

    ghost spelling = { place_spelling };

    ghost IsShallow = { λ _. Unit {0} };

    ghost apart = { places_apart };

    fn put(&self, out: &mut Vec<u8>) -> Result<(), Memory> {
        match self {
            Place::Row(position) => {
                out.push(1)?;
                position.put(out)
            }
            Place::Group(value) => {
                out.push(2)?;
                value.put(out)
            }
        }
    }

    fn take(alloc: Global, bytes: &[u8]) -> Result<Option<(Place, usize)>, Memory> {
        match bytes {
            [1, rest @ ..] => match u32::take(alloc, rest)? {
                Some((position, taken)) => Ok(Some((Place::Row(position), taken + 1))),
                None => Ok(None),
            },
            [2, rest @ ..] => match Key::take(alloc, rest)? {
                Some((value, taken)) => Ok(Some((Place::Group(value), taken + 1))),
                None => Ok(None),
            },
            [] | [_, ..] => Ok(None),
        }
    }
}

impl Part for Change {
    ghost HasSpelling = { HasRecord };

    ghost spelling = { record_bytes };

    ghost IsShallow = { AreShallow };

    ghost apart = { changes_apart };

    fn put(&self, out: &mut Vec<u8>) -> Result<(), Memory> {
        match self {
            Change::Commit(writes) => {
                out.push(1)?;
                writes.put(out)
            }
            Change::Schema(change) => {
                out.push(2)?;
                change.put(out)
            }
            Change::Flip(migrate) => {
                out.push(3)?;
                migrate.put(out)
            }
            Change::Move {
                migration,
                unit,
                places,
            } => {
                out.push(4)?;
                migration.put(out)?;
                unit.put(out)?;
                places.put(out)
            }
        }
    }

    fn take(alloc: Global, bytes: &[u8]) -> Result<Option<(Change, usize)>, Memory> {
        match bytes {
            [1, rest @ ..] => match <Sequence<TableWrite>>::take(alloc, rest)? {
                Some((writes, taken)) => Ok(Some((Change::Commit(writes), taken + 1))),
                None => Ok(None),
            },
            [2, rest @ ..] => match SchemaChange::take(alloc, rest)? {
                Some((change, taken)) => Ok(Some((Change::Schema(change), taken + 1))),
                None => Ok(None),
            },
            [3, rest @ ..] => match Migrate::take(alloc, rest)? {
                Some((migrate, taken)) => Ok(Some((Change::Flip(migrate), taken + 1))),
                None => Ok(None),
            },
            [4, rest @ ..] => match <((u32, u8), Sequence<Place>)>::take(alloc, rest)? {
                Some((((migration, unit), places), taken)) => Ok(Some((
                    Change::Move {
                        migration,
                        unit,
                        places,
                    },
                    taken + 1,
                ))),
                None => Ok(None),
            },
            [] | [_, ..] => Ok(None),
        }
    }
}

/// The spelling of a change, in time linear in its length.
///
/// # Errors
/// Where memory runs out, or a list has 2 ^ 32 items or more.
pub fn encode(alloc: Global, change: &Change) -> Result<Vec<u8>, Memory>
    ensures bytes { IfOk result (λ bytes. bytes.items ≡ record_bytes change.now) }
    // A change whose expressions and conditions have at most 256 nodes has a record.
    ensures spelled { OnOk result (AreShallow change.now → HasRecord change.now) }
{
    let mut bytes = Vec::new(alloc);
    change.put(&mut bytes)?;
    Ok(bytes)
}

/// The change whose spelling the whole payload is, and `None` exactly where it is no change's. It
/// takes time linear in the payload, goes at most 256 nodes deep, and makes no room for items that it
/// hasn't met, whatever the bytes.
///
/// # Errors
/// Where memory runs out.
pub fn decode(alloc: Global, payload: &[u8]) -> Result<Option<Change>, Memory>
    ensures some { IfOk result (λ found. IfSome found (λ change.
        HasRecord change × (payload.now ≡ record_bytes change))) }
    ensures none { IfOk result (λ found. IfNone found ((change : Change)
        → HasRecord change → payload.now ≢ record_bytes change)) }
{
    let Some((change, taken)) = Change::take(alloc, payload)? else {
        return Ok(None);
    };
    if taken == payload.len() {
        Ok(Some(change))
    } else {
        Ok(None)
    }
}
