//! The lazy store.

ghost use Rattle.std.specs.Prelude.{◌≡◌, ◌+◌, ◌≤◌, ◌∷◌, [], IfOk, None, OnErr, OnOk, map};
ghost use Rattle.bf_tree.specs.Limits.{HasNarrowTables, IsNarrowMigrate, is_narrow};
ghost use Rattle.std.specs.Prelude.{IsTrue};
ghost use Rattle.bf_sql.specs.Bound.{catalog_of};
ghost use Rattle.bf_sql.specs.Database.{IsDatabase, stored_in_order, with_tables};
ghost use Rattle.bf_sql.specs.Meaning.{next_number, with_index};
ghost use Rattle.bf_sql.specs.migrations.Lazy.{migrations_so_far};
ghost use Rattle.bf_sql.specs.migrations.Plans.{plan_made};
ghost use Rattle.bf_store.specs.Puts.{AreImagesIfAny};
ghost use Rattle.bf_store.specs.Calls.{IsCommitOf, IsFlipOf, IsMoveOf, IsNeedOf, IsSweepOf, MayFlip, tells};
ghost use Rattle.bf_store.specs.States.{AreGranulesIfAny, IsLazy, IsOpenLazily, granules_done_if_any, to_move};
ghost use Rattle.bf_store.specs.Stores.{AreIndexesOf, IsByPass, IsOf};

use crate::flip::flip;
use crate::images::Images;
use crate::moved::Moved;
use crate::movement::move_granules;
use crate::told::tells_any;
use crate::under_way::UnderWay;
use bf_base::{Granule, Memory, Table};
use bf_image::{MigrationPass, Registry, ValueIndexes};
use bf_live::LiveTables;
use bf_tree::{IndexRule, Plan, Sweep};
use bf_txn::Workspace;
use std::alloc::Global;
use std::marker::Model;
use std::sync::Wait;

/// Live tables into which the rows of the last migration move late. Contracts see the lazy state,
/// and the pass of the migration.
#[derive(Drop)]
pub struct Store {
    alloc: Global,
    live: LiveTables,
    last: Option<UnderWay>,
    /// How many changes there were: commits, schema changes, flips, and moves of some granules.
    records: u64,
}

impl Model for Store {
    ghost use Rattle.std.specs.Coded.{codes};
    ghost use Rattle.boxcar.specs.Table.{where_coded};
    ghost use Rattle.bf_tree.specs.contracts.raw.RawCond as conds;
    ghost use Rattle.bf_tree.specs.contracts.raw.RawExpr as exprs;
    ghost use Rattle.bf_image.specs.contracts.migration.Migration as migrations;
    ghost use Rattle.bf_store.specs.Stores.{IsStore, Store as Seen, seen};

    ghost Value = { Seen };

    ghost coded = { Prim.hlevel (codes, exprs.the_row.coded, conds.the_row.coded, where_coded migrations.the_row.coded) };

    ghost view = { λ store. seen store.live store.last store.records };

    ghost invariant = { λ store. IsStore store.live store.last store.records };
}

impl Store {
    /// A store of live tables, none of which is wide, before any migration. Takes no memory.
    pub fn of(alloc: Global, live: LiveTables) -> Store
        requires { HasNarrowTables (catalog_of live) }
        ensures { result ≡ record {
          lazy = record { live = live; last = None; records = 0 };
          migration = None;
        } }
    {
        // Its contract says that the live tables are a database.
        let _ = live.catalog();
        Store {
            alloc,
            live,
            last: None,
            records: 0,
        }
    }

    /// The live tables. Takes no memory.
    pub fn live(&self) -> &LiveTables
        ensures live { result.now ≡ self.now.lazy.live }
        ensures lazy_state { IsLazy self.now.lazy }
        ensures narrow { HasNarrowTables (catalog_of self.now.lazy.live) }
    {
        &self.live
    }

    /// The pass of the last migration, and `None` exactly where there was none. Takes no memory.
    pub fn migration(&self) -> Option<MigrationPass>
        ensures pass { result ≡ self.now.migration }
        ensures by_pass { IsByPass self.now.lazy.last self.now.migration }
    {
        self.last.as_ref().map(|last| last.pass.copy())
    }

    /// Those of some granules of the last migration that have not moved, in the order in which they
    /// are told. It costs a look-up for each.
    ///
    /// # Errors
    /// Where memory runs out.
    pub fn need(&self, alloc: Global, cover: &[Granule]) -> Result<Vec<Granule>, Memory>
        ensures { IfOk result (λ need. IsNeedOf self.now.lazy cover.now need.items) }
    {
        match &self.last {
            Some(last) => last.done.left(alloc, cover),
            None => Ok(Vec::new(alloc)),
        }
    }

    /// How far the last migration has come. Takes no memory.
    pub fn sweep(&self) -> Sweep
        ensures { IsSweepOf self.now.lazy result }
    {
        match &self.last {
            Some(last) => last.sweep(),
            None => Sweep::Never,
        }
    }

    /// The granules of the last migration that have moved, in the order of unit and place.
    ///
    /// # Errors
    /// Where memory runs out.
    pub fn done(&self, alloc: Global) -> Result<Vec<Granule>, Memory>
        ensures { IfOk result (λ done. done.items ≡ granules_done_if_any self.now.lazy.last) }
    {
        match &self.last {
            Some(last) => last.done.granules(alloc),
            None => Ok(Vec::new(alloc)),
        }
    }

    /// Whether a commit of what a transaction has written has anything to tell: it puts a row into a
    /// live table, or it removes one that stands there. One that has nothing to tell would change
    /// nothing. It looks up each table and the row of each removal, up to the first write that it
    /// would tell. Takes no memory.
    pub fn leaves(&self, writes: &Workspace) -> bool
        ensures { result ≡ tells self.now.lazy writes.now }
    {
        tells_any(&self.live, writes)
    }

    /// Makes what an open transaction has written part of the live tables, which costs what
    /// [`bf_live::LiveTables::commit`] does, and answers the number of the change.
    ///
    /// # Errors
    /// Where memory runs out, or 2 ^ 64 changes were made. The store and the workspace are as they
    /// were then.
    pub fn commit(&mut self, writes: &mut Workspace) -> Result<u64, Memory>
        requires open { IsOpenLazily self.old.lazy writes.old }
        ensures ok { IfOk result (IsCommitOf self.old.lazy self.new.lazy writes.old) }
        ensures migration { self.new.migration ≡ self.old.migration }
        ensures emptied { OnOk result (writes.new ≡ []) }
        ensures err { OnErr result (self.new ≡ self.old) }
        ensures kept { OnErr result (writes.new ≡ writes.old) }
    {
        let records = self.records.checked_add(1).ok_or(Memory)?;
        self.live.commit(writes)?;
        self.records = records;
        Ok(records)
    }

    /// Adds a table without rows, which is not wide. It compares about log n names.
    ///
    /// # Errors
    /// Where memory runs out, or 2 ^ 64 changes were made. The store is as it was then.
    pub fn create_table(&mut self, table: Table) -> Result<u64, Memory>
        requires narrow { IsTrue (is_narrow table) }
        requires database { IsDatabase (next_number
            (with_tables (stored_in_order table [] ∷ []) self.old.lazy.live)) }
        ensures ok { OnOk result (self.new.lazy ≡ record self.old.lazy {
          live = next_number (with_tables (stored_in_order table [] ∷ []) self.old.lazy.live);
          records = self.old.lazy.records + 1;
        }) }
        ensures number { IfOk result (λ number. number ≡ self.old.lazy.records + 1) }
        ensures migration { self.new.migration ≡ self.old.migration }
        ensures err { OnErr result (self.new ≡ self.old) }
    {
        let records = self.records.checked_add(1).ok_or(Memory)?;
        self.live.create_table(table)?;
        self.records = records;
        Ok(records)
    }

    /// Adds an index rule, and builds its index over the rows that the table has. It compares about
    /// log n names, and takes time n log n in those rows; each row that moves into the table later is
    /// added then.
    ///
    /// # Errors
    /// Where memory runs out, or 2 ^ 64 changes were made. The store is as it was then.
    pub fn create_index(&mut self, index: IndexRule) -> Result<u64, Memory>
        requires database { IsDatabase (next_number (with_index index self.old.lazy.live)) }
        ensures ok { OnOk result (self.new.lazy ≡ record self.old.lazy {
          live = next_number (with_index index self.old.lazy.live);
          records = self.old.lazy.records + 1;
        }) }
        ensures number { IfOk result (λ number. number ≡ self.old.lazy.records + 1) }
        ensures migration { self.new.migration ≡ self.old.migration }
        ensures err { OnErr result (self.new ≡ self.old) }
    {
        let records = self.records.checked_add(1).ok_or(Memory)?;
        self.live.create_index(index)?;
        self.records = records;
        Ok(records)
    }

    /// Begins a migration by its plan, where nothing of the last one is left to move: the old
    /// tables leave the live ones as they are, the new ones come without rows, and no granule has
    /// moved. The number of the migration is answered. It copies no row: it costs the pages of the
    /// old tables, the catalog and the plan.
    ///
    /// # Errors
    /// Where memory runs out, or 2 ^ 32 migrations or 2 ^ 64 changes were made. The store is as it
    /// was then.
    pub fn flip<R: Wait>(&mut self, rt: &R, registry: &Registry, plan: &Plan) -> Result<u32, Memory>
        requires one { IsOf registry.now self.old.migration }
        requires may { MayFlip self.old.lazy plan.now.migrate }
        requires narrow { IsNarrowMigrate plan.now.migrate }
        requires planned { plan.now ≡ plan_made self.old.lazy.live plan.now.migrate }
        ensures ok { IfOk result (IsFlipOf self.old.lazy self.new.lazy plan.now.migrate) }
        ensures one { IsOf registry.now self.new.migration }
        ensures err { OnErr result (self.new ≡ self.old) }
    {
        let number = self.next_migration()?;
        let records = self.records.checked_add(1).ok_or(Memory)?;
        let begun = flip(self.alloc, rt, &mut self.live, registry, plan, number)?;
        self.last = Some(begun);
        self.records = records;
        Ok(number)
    }

    /// The number of the next migration. Takes no memory.
    ///
    /// # Errors
    /// Where 2 ^ 32 migrations were made.
    fn next_migration(&self) -> Result<u32, Memory>
        ensures ok { IfOk result (λ number.
            number ≡ migrations_so_far self.now.lazy.last + 1) }
        ensures err { OnErr result (4294967296 ≤ migrations_so_far self.now.lazy.last + 1) }
    {
        let so_far = match &self.last {
            Some(last) => last.number,
            None => 0,
        };
        so_far.checked_add(1).ok_or(Memory)
    }

    /// Moves granules of the last migration, which differ, as one change: the rows that come from
    /// those that have not moved are put into the live tables. Where all of them have moved, nothing
    /// changes. Their images may have been made before; they are made now where they were not, or where some
    /// of the granules have moved. It costs a look-up for each row and each granule, and what the granules have
    /// where images are made; and it looks at each anchor from the next one on up to the first whose granule
    /// has not moved, so over a migration at each about once.
    ///
    /// # Errors
    /// Where memory runs out, or 2 ^ 32 granules or 2 ^ 64 changes were made. The store is as it
    /// was then.
    pub fn move_granules(
        &mut self,
        registry: &Registry,
        indexes: &ValueIndexes,
        granules: &[Granule],
        images: Option<Images>,
    ) -> Result<Moved, Memory>
        requires one { IsOf registry.now self.old.migration }
        requires indexed { AreIndexesOf self.old.migration indexes.now }
        requires granules { AreGranulesIfAny self.old.lazy.last granules.now }
        requires images { AreImagesIfAny self.old.migration granules.now images }
        ensures ok { IfOk result (λ moved.
            IsMoveOf self.old.lazy self.new.lazy granules.now moved) }
        ensures migration { self.new.migration ≡ self.old.migration }
        ensures nothing { to_move self.old.lazy.last granules.now ≡ [] → self.new ≡ self.old }
        ensures err { OnErr result (self.new ≡ self.old) }
    {
        // The last migration is put back, whatever comes of the move.
        let Some(mut last) = self.last.take() else {
            return Ok(Moved {
                fresh: Vec::new(self.alloc),
                already: Vec::new(self.alloc),
            });
        };
        let migration = registry.migration(&last.pass);
        let moved = move_granules(
            self.alloc,
            &mut self.live,
            &mut last,
            &mut self.records,
            migration,
            indexes,
            granules,
            images,
        );
        self.last = Some(last);
        moved
    }
}
