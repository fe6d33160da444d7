//! The work that one record of moves is to do.

ghost use Rattle.std.specs.Prelude.{◌≡◌, ◌≤◌, [], ℕ, IfErr, IfOk, IsTrue, length, map};
ghost use Rattle.std.specs.List.{AllByRecursion};
ghost use Rattle.bf_base.specs.Lists.{rises};
ghost use Rattle.bf_bench.specs.Notes.{AreOfOneUnit};
ghost use Rattle.bf_drive.specs.Lists.{IsWip, granules_in};
ghost use Rattle.bf_store.specs.States.{AreGranules, most_moved, place_cmp};
ghost use Rattle.bf_store.specs.Stores.{migration_of};
ghost use Rattle.bf_trackers.specs.Migrations.{IsGranuleOf};
ghost use Rattle.bf_trackers.specs.Ordered.{by_place};

use crate::ordered::add_in_order;
use bf_base::{Granule, Memory};
use bf_drive::Wip;
use bf_image::MigrationPass;
use std::alloc::Global;
use std::marker::Model;

/// Granules that an actor has claimed, for one record of moves: in the order of their places, with
/// their claims and the pass of their migration. It can't be let go but by `into_wip`.
pub struct Work {
    pass: MigrationPass,
    wip: Wip,
    granules: Vec<Granule>,
}

impl Model for Work {
    ghost use Rattle.std.specs.Coded.{coded_list, coded×};
    ghost use Rattle.boxcar.specs.Table.{where_coded};
    ghost use Rattle.bf_base.specs.contracts.granule.Granule as granule;
    ghost use Rattle.bf_drive.specs.contracts.claim.Claim as claim;
    ghost use Rattle.bf_image.specs.contracts.migration.Migration as migrations;
    ghost use Rattle.bf_trackers.specs.Works.{Work as Seen, IsWork, work_coded};

    ghost Value = { Seen };

    ghost coded = { work_coded (where_coded migrations.the_row.coded)
        (coded_list (coded× granule.the_row.coded claim.the_row.coded))
        (coded_list granule.the_row.coded) };

    ghost view = { λ work. record {
      pass = work.pass;
      wip = work.wip;
      granules = work.granules.items;
    } };

    ghost invariant = { λ work. IsWork work.pass work.wip work.granules.items };
}

// Copies of the granules of a list, in their order.
fn in_order(alloc: Global, wip: &Wip) -> Result<Vec<Granule>, Memory>
    ensures sorted { IfOk result (λ granules. granules.items ≡ by_place (granules_in wip.now)) }
    ensures sound { IsWip wip.now }
{
    let mut granules = Vec::with_capacity(alloc, wip.len() as usize)?;
    for index in 0..wip.len() {
        let Some(granule) = wip.at(index) else {
            unreachable!();
        };
        add_in_order(&mut granules, granule.copy(alloc)?)?;
    }
    Ok(granules)
}

impl Work {
    /// The work of some claims of granules of a migration. It copies and sorts the granules.
    ///
    /// # Errors
    /// Where memory runs out. The claims come back.
    pub fn of(alloc: Global, pass: &MigrationPass, wip: Wip) -> Result<Work, (Wip, Memory)>
        requires some { 1 ≤ length wip }
        requires unit { AreOfOneUnit (granules_in wip) }
        requires each { AllByRecursion (λ entry. IsGranuleOf pass.now.value entry.0) wip }
        ensures work { IfOk result (λ work. (work.pass ≡ pass.now) × (work.wip ≡ wip)) }
        ensures back { IfErr result (λ back. back.0 ≡ wip) }
    {
        match in_order(alloc, &wip) {
            Ok(granules) => Ok(Work {
                pass: pass.copy(),
                wip,
                granules,
            }),
            Err(memory) => Err((wip, memory)),
        }
    }

    /// The granules of one unit, 1 to 64, each once, their places rising.
    pub fn granules(&self) -> &[Granule]
        ensures granules { result.now ≡ self.now.granules }
        ensures of_it { AreGranules (migration_of self.now.pass.value []) result.now }
        ensures some { 1 ≤ length result.now }
        ensures few { length result.now ≤ most_moved }
        ensures of_one_unit { (unit : ℕ) × AllByRecursion (λ g. g.unit ≡ unit) result.now }
        ensures in_order { IsTrue (rises place_cmp (map (λ g. g.place) result.now)) }
    {
        self.granules.as_slice()
    }

    /// The pass of the migration.
    pub fn pass(&self) -> &MigrationPass
        ensures { result.now ≡ self.now.pass }
    {
        &self.pass
    }

    /// The granules with their claims, in the order of the claims.
    pub fn wip(&self) -> &Wip
        ensures { result.now ≡ self.now.wip }
    {
        &self.wip
    }

    /// The granules with their claims, taken out. Takes no memory.
    pub fn into_wip(self) -> Wip
        ensures { result ≡ self.wip }
    {
        let Work {
            pass: _,
            wip,
            granules: _,
        } = self;
        wip
    }
}
