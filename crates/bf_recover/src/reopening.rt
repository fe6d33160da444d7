//! Reopening a log as the store that its records give in turn.

ghost use Rattle.std.specs.Prelude.{◌≡◌, ℕ, IfErr, IfOk, List, MatchResult, Some};
ghost use Rattle.bf_disk.specs.Images.{Only, OnlyRead};
ghost use Rattle.bf_log.specs.Append.{disk_of as log_disk};
ghost use Rattle.bf_log.specs.Errors.{RisesIf, is_open_fault};
ghost use Rattle.bf_journal.specs.Reading.{IsReopened};
ghost use Rattle.bf_journal.specs.Reopening.{RefusedAt};
ghost use Rattle.bf_store.specs.Stores.{IsOf};
ghost use Rattle.bf_recover.specs.Legal.{first_state};
ghost use Rattle.bf_recover.specs.Steps.{StepsTo};

use crate::stepping::step;
use bf_base::{Memory, Sequence};
use bf_disk::Disk;
use bf_image::{Registry, ValueIndexes};
use bf_journal::{Reader, State};
use bf_live::LiveTables;
use bf_log::{Log, OpenError};
use bf_store::Store;
use bf_tree::{Outcome, Statement};
use std::alloc::Global;
use std::marker::{Brand, Model, PhantomData};
use std::sync::Wait;

/// The lazy state that a log keeps, as contracts speak of it. What keeps it in code is a [`Store`]:
/// this type only names it.
#[derive(Drop)]
pub struct LazyTables;

impl Model for LazyTables {
    ghost use Rattle.std.specs.Coded.{codes};
    ghost use Rattle.bf_tree.specs.contracts.raw.RawCond as conds;
    ghost use Rattle.bf_tree.specs.contracts.raw.RawExpr as exprs;
    ghost use Rattle.bf_sql.specs.migrations.Lazy.{LazyState};
    ghost use Rattle.bf_recover.specs.Legal.{first_state as first};

    ghost Value = { LazyState };

    ghost coded = { Prim.hlevel (codes, exprs.the_row.coded, conds.the_row.coded) };

    ghost view = { λ _. first };
}

/// An entry of its history has the statements of a group, and how the group ended.
impl State for LazyTables {
    ghost use Rattle.bf_sql.specs.migrations.Lazy.{view_of};
    ghost use Rattle.bf_recover.specs.Legal.{first_state as start};
    ghost use Rattle.bf_recover.specs.Once.{one_step};
    ghost use Rattle.bf_recover.specs.Steps.{StepsTo as IsStep, run_entry};

    type View = LiveTables;

    type Entry = (Sequence<Statement>, Outcome);

    ghost first = { start };

    ghost Steps = { IsStep };

    ghost view = { view_of };

    ghost run = { run_entry };

    ghost once = { one_step };
}

/// The registry that a reader has. It has no functions; contracts alone read it.
trait Lent {
    ghost use Rattle.bf_image.specs.Registries.{Registry};

    ghost registry: { Registry };
}

impl Lent for Brand {
    ghost use Rattle.std.specs.Prelude.{[]};

    ghost registry = { record {
      catalogs = record { tag = []; buckets = [] };
      migrations = record { tag = []; buckets = [] };
    } };
}

/// Reads records into a store whose migrations lie in a registry. It keeps the old rows of the last
/// migration by their values, once a record has needed them.
#[derive(Drop)]
struct StoreReader<'a, N: Lent, H: Wait> {
    rt: &'a H,
    registry: &'a Registry,
    indexes: Option<ValueIndexes>,
    lent: PhantomData<N>,
}

impl<'a, N: Lent, H: Wait> Reader<LazyTables> for StoreReader<'a, N, H> {
    ghost use Rattle.bf_recover.specs.Lookups.{AreKept};

    type Kept = Store;

    ghost kept = { λ store. store.lazy };

    ghost fits = { λ reader store. (reader.registry.now ≡ N.registry)
        × IsOf reader.registry.now store.migration × AreKept store.migration reader.indexes };

    fn read(&mut self, alloc: Global, state: &mut Store, payload: &[u8]) -> Result<bool, Memory> {
        step(
            alloc,
            self.rt,
            self.registry,
            &mut self.indexes,
            state,
            payload,
        )
    }
}

/// Opens a log, and makes the store that its records give in turn from empty tables, with its last
/// migration in a registry. Each record costs what [`step`] does, and one payload is held at a time.
///
/// # Errors
/// Each gives the disk back. `NotALog` tells where the file is no log, or the gate before the first
/// record that is not legal; `DiskFault` where the device failed; `Memory` where the store, a payload
/// or a disk in memory had no room, or [`step`] answered it.
pub fn reopen<D: Disk, R: Wait>(
    alloc: Global,
    rt: &R,
    registry: &Registry,
    disk: D,
) -> Result<(Store, Log<D>), (D, OpenError)>
    ensures reopened { IfOk result (λ made.
        IsReopened first_state StepsTo disk made.0.lazy made.1) }
    ensures one { IfOk result (λ made. IsOf registry.now made.0.migration) }
    ensures refused { IfErr result (λ back. (at : ℕ) → back.1 ≡ OpenError.NotALog at
        → (file : List ℕ) → D.seen disk ≡ Some file
        → RefusedAt first_state StepsTo file at × Only file (D.may_leave back.0)) }

    // The disk was only read, and a fault is told where one was counted.
    ensures disk { MatchResult result
        (λ made. OnlyRead D.seen D.may_leave D.moment D.left_since disk (log_disk made.1))
        (λ back. OnlyRead D.seen D.may_leave D.moment D.left_since disk back.0) }
    ensures faults { MatchResult result
        (λ made. D.fault_count (log_disk made.1) ≡ D.fault_count disk)
        (λ back. RisesIf (is_open_fault back.1) (D.fault_count disk) (D.fault_count back.0)) }
{
    reopen_in::<Brand, D, R>(alloc, rt, registry, disk)
}

/// Opens a log as [`reopen`] does, with a registry that the type names.
fn reopen_in<N: Lent, D: Disk, R: Wait>(
    alloc: Global,
    rt: &R,
    registry: &Registry,
    disk: D,
) -> Result<(Store, Log<D>), (D, OpenError)>
    requires lent { registry.now ≡ N.registry }
    ensures reopened { IfOk result (λ made.
        IsReopened first_state StepsTo disk made.0.lazy made.1) }
    ensures one { IfOk result (λ made. IsOf registry.now made.0.migration) }
    ensures refused { IfErr result (λ back. (at : ℕ) → back.1 ≡ OpenError.NotALog at
        → (file : List ℕ) → D.seen disk ≡ Some file
        → RefusedAt first_state StepsTo file at × Only file (D.may_leave back.0)) }
    ensures disk { MatchResult result
        (λ made. OnlyRead D.seen D.may_leave D.moment D.left_since disk (log_disk made.1))
        (λ back. OnlyRead D.seen D.may_leave D.moment D.left_since disk back.0) }
    ensures faults { MatchResult result
        (λ made. D.fault_count (log_disk made.1) ≡ D.fault_count disk)
        (λ back. RisesIf (is_open_fault back.1) (D.fault_count disk) (D.fault_count back.0)) }
{
    let first = Store::of(alloc, LiveTables::new(alloc));
    let mut reader = StoreReader {
        rt,
        registry,
        indexes: None,
        lent: PhantomData::<N>,
    };
    bf_journal::reopen(alloc, &mut reader, first, disk)
}
