//! Where workers look for granules that are left, and those granules.

ghost use Rattle.std.specs.Prelude.{◌≡◌, ◌≤◌, [], IfOk, IsTrue, length};
ghost use Rattle.std.specs.List.{AllByRecursion};
ghost use Rattle.bf_base.specs.Lists.{rises};
ghost use Rattle.bf_image.specs.Migrations.{IsLawfulMigration};
ghost use Rattle.bf_store.specs.States.{AreGranules, granule_cmp};
ghost use Rattle.bf_store.specs.Stores.{migration_of};

use bf_base::{Granule, Memory};
use bf_image::{Migration, MigrationPass, granule_of, positions};
use bf_trackers::add_in_order;
use bf_tree::Sweep;
use std::alloc::Global;

/// Anchors of a unit of the last migration, one behind the other.
#[derive(Drop)]
pub(crate) struct Anchors {
    pub(crate) pass: MigrationPass,
    pub(crate) unit: u8,
    pub(crate) from: u32,
    pub(crate) to: u32,
    /// How much had happened that workers rest for when they were told.
    pub(crate) seen: u64,
}

/// What a worker is to do next.
#[derive(Drop)]
pub(crate) enum Ahead {
    /// To move the granules at these anchors.
    Anchors(Anchors),
    /// To rest until more has happened that workers rest for than this count tells.
    Wait(u64),
    /// The sessions of the phase have ended.
    Ended,
}

/// Where workers look next in a migration: each anchor is handed out once before any is again.
#[derive(Clone, Copy, Debug)]
pub(crate) struct Cursor {
    migration: u32,
    unit: u8,
    position: u32,
}

impl Cursor {
    /// A cursor of no migration.
    pub(crate) fn none() -> Cursor {
        Cursor {
            migration: 0,
            unit: 0,
            position: 0,
        }
    }

    /// Hands out the next anchors of a migration, at most so many: from where it stands, or from the first that has not moved
    /// where that lies further on, and where it has come to the end.
    pub(crate) fn take(
        &mut self,
        migration: &Migration,
        first: (u8, u32),
        most: u32,
    ) -> (u8, u32, u32)
        requires lawful { IsLawfulMigration migration.now }
    {
        let (unit, from) = self.place(migration, first);
        let to = positions(migration, unit).min(from.saturating_add(most));
        *self = Cursor {
            migration: migration.number,
            unit,
            position: to,
        };
        (unit, from, to)
    }

    /// Where the next anchors begin.
    fn place(&self, migration: &Migration, first: (u8, u32)) -> (u8, u32)
        requires lawful { IsLawfulMigration migration.now }
    {
        if self.migration != migration.number || (self.unit, self.position) < first {
            return first;
        }
        if self.position < positions(migration, self.unit) {
            return (self.unit, self.position);
        }
        let count = migration.plan.units.as_slice().len();
        for unit in self.unit as usize + 1..count {
            if positions(migration, unit as u8) > 0 {
                return (unit as u8, 0);
            }
        }
        first
    }
}

/// How many granules a migration has at most: as many as its units have anchors.
pub(crate) fn most_granules(migration: &Migration) -> u64
    requires lawful { IsLawfulMigration migration.now }
{
    let mut most = 0u64;
    for unit in 0..migration.plan.units.as_slice().len() {
        let Ok(unit) = u8::try_from(unit) else {
            return most;
        };
        most = most.saturating_add(positions(migration, unit) as u64);
    }
    most
}

/// The granules at some anchors of a migration, each once, in their order; at most so many.
///
/// # Errors
/// Where memory runs out.
pub(crate) fn granules_between(
    alloc: Global,
    migration: &Migration,
    anchors: &Anchors,
    most: u32,
) -> Result<Vec<Granule>, Memory>
    requires lawful { IsLawfulMigration migration.now }
    ensures each { IfOk result (λ granules. AreGranules (migration_of migration.now []) granules.items) }
    ensures ordered { IfOk result (λ granules. IsTrue (rises granule_cmp granules.items)) }
    ensures few { IfOk result (λ granules. length granules.items ≤ most) }
    ensures of_one_unit { IfOk result (λ granules. AllByRecursion (λ granule. granule.unit ≡ anchors.now.unit) granules.items) }
{
    let mut granules = Vec::new(alloc);
    for anchor in anchors.from..anchors.to {
        if granules.len() == most as usize {
            return Ok(granules);
        }
        if let Some(granule) = granule_of(alloc, migration, anchors.unit, anchor)? {
            add_in_order(&mut granules, granule)?;
        }
    }
    Ok(granules)
}
