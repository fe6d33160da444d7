//! A registry of catalogs and migrations, which any thread reads through passes.

ghost use Rattle.std.specs.Prelude.{◌≡◌, ◌↔◌, IfErr, IfOk, IsTrue};
ghost use Rattle.boxcar.specs.Table.{Shows};
ghost use Rattle.bf_tree.specs.Places.{empty_catalog};
ghost use Rattle.bf_image.specs.Migrations.{IsLawfulMigration};

use crate::migration::Migration;
use bf_base::Memory;
use bf_tree::Catalog;
use boxcar::Pushed;
use std::alloc::Global;
use std::marker::Model;
use std::sync::Wait;

/// The catalogs and the migrations of a run, of which none is ever changed or taken away. Threads
/// share it by `&`. A pass reads what it was given for, at once and with no lock.
#[derive(Drop)]
pub struct Registry {
    catalogs: boxcar::Vec<Catalog>,
    migrations: boxcar::Vec<Migration>,
}

impl Model for Registry {
    ghost use Rattle.bf_image.specs.Registries.{Registry as Seen};

    ghost Value = { Seen };

    ghost view = { λ registry. record {
      catalogs = registry.catalogs;
      migrations = registry.migrations;
    } };
}

/// What reads one catalog of a registry. Contracts see the slot that has it, and the catalog
/// itself.
#[derive(Drop)]
pub struct CatalogPass {
    token: Pushed<Catalog>,
}

impl Model for CatalogPass {
    ghost use Rattle.boxcar.specs.Table.{Where};
    ghost use Rattle.bf_tree.specs.Catalogs.{Catalog as Seen};

    ghost Value = { Where Seen };

    ghost view = { λ pass. pass.token };
}

/// What reads one migration of a registry, which is lawful. Contracts see the slot that has it, and
/// the migration itself.
#[derive(Drop)]
pub struct MigrationPass {
    token: Pushed<Migration>,
}

impl Model for MigrationPass {
    ghost use Rattle.boxcar.specs.Table.{Where, where_coded};
    ghost use Rattle.bf_image.specs.Migrations.{IsLawfulMigration as IsLawful};
    ghost use Rattle.bf_image.specs.contracts.migration.Migration as migrations;
    ghost use Rattle.bf_image.specs.declared.migration.Migration.{Migration as Seen};

    ghost Value = { Where Seen };

    ghost coded = { where_coded migrations.the_row.coded };

    ghost view = { λ pass. pass.token };

    ghost invariant = { λ pass. IsLawful pass.token.value };
}

impl CatalogPass {
    /// The slot of its catalog: two passes of a registry are of one catalog where their slots are
    /// equal.
    pub fn slot(&self) -> usize
        ensures { result ≡ self.now.index }
    {
        self.token.index()
    }

    /// An equal pass. Takes no memory.
    pub fn copy(&self) -> CatalogPass
        ensures { result ≡ self.now }
    {
        CatalogPass {
            token: self.token.again(),
        }
    }
}

impl MigrationPass {
    /// The slot of its migration: two passes of a registry are of one migration where their slots
    /// are equal.
    pub fn slot(&self) -> usize
        ensures { result ≡ self.now.index }
    {
        self.token.index()
    }

    /// An equal pass. Takes no memory.
    pub fn copy(&self) -> MigrationPass
        ensures { result ≡ self.now }
    {
        MigrationPass {
            token: self.token.again(),
        }
    }
}

impl Registry {
    /// A registry that has the empty catalog alone, and the pass of that. Takes constant memory.
    ///
    /// # Errors
    /// Where memory runs out.
    pub fn new<R: Wait>(alloc: Global, rt: &R) -> Result<(Registry, CatalogPass), Memory>
        ensures { IfOk result (λ made.
            Shows made.0.catalogs made.1 × (made.1.value ≡ empty_catalog)) }
    {
        let registry = Registry {
            catalogs: boxcar::Vec::new(alloc)?,
            migrations: boxcar::Vec::new(alloc)?,
        };
        match registry.add_catalog(rt, Catalog::new(alloc)) {
            Ok(pass) => Ok((registry, pass)),
            Err((_, memory)) => Err(memory),
        }
    }

    /// Adds a catalog, in constant time but for the room that it makes each time the catalogs have
    /// doubled. It waits only for a thread that is making room.
    ///
    /// # Errors
    /// Where memory runs out, or the last of about 2 ^ 63 slots is taken: the catalog comes back as
    /// it was.
    pub fn add_catalog<R: Wait>(
        &self,
        rt: &R,
        catalog: Catalog,
    ) -> Result<CatalogPass, (Catalog, Memory)>
        ensures ok { IfOk result (λ pass. Shows self.now.catalogs pass × (pass.value ≡ catalog)) }
        ensures back { IfErr result (λ error. error.0 ≡ catalog) }
    {
        match self.catalogs.push_shown(rt, catalog) {
            Ok(token) => Ok(CatalogPass { token }),
            Err(catalog) => Err((catalog, Memory)),
        }
    }

    /// Adds a lawful migration, as `add_catalog` adds a catalog.
    ///
    /// # Errors
    /// Where memory runs out, or the last of about 2 ^ 63 slots is taken: the migration comes back
    /// as it was.
    pub fn add_migration<R: Wait>(
        &self,
        rt: &R,
        migration: Migration,
    ) -> Result<MigrationPass, (Migration, Memory)>
        requires lawful { IsLawfulMigration migration }
        ensures ok { IfOk result (λ pass.
            Shows self.now.migrations pass × (pass.value ≡ migration)) }
        ensures back { IfErr result (λ error. error.0 ≡ migration) }
    {
        match self.migrations.push_shown(rt, migration) {
            Ok(token) => Ok(MigrationPass { token }),
            Err(migration) => Err((migration, Memory)),
        }
    }

    /// The catalog of a pass, in constant time. Takes no memory.
    pub fn catalog<'a>(&'a self, pass: &CatalogPass) -> &'a Catalog
        requires { Shows self.now.catalogs pass.now }
        ensures { result.now ≡ pass.now.value }
    {
        self.catalogs.value(&pass.token)
    }

    /// The migration of a pass, in constant time. Takes no memory.
    pub fn migration<'a>(&'a self, pass: &MigrationPass) -> &'a Migration
        requires { Shows self.now.migrations pass.now }
        ensures read { result.now ≡ pass.now.value }
        ensures lawful { IsLawfulMigration pass.now.value }
    {
        self.migrations.value(&pass.token)
    }

    /// Whether two passes are of one catalog: then they read equal ones. Constant time, no memory.
    pub fn same_catalog(&self, a: &CatalogPass, b: &CatalogPass) -> bool
        requires a { Shows self.now.catalogs a.now }
        requires b { Shows self.now.catalogs b.now }
        ensures slots { IsTrue result ↔ (a.now.index ≡ b.now.index) }
        ensures values { IsTrue result → a.now.value ≡ b.now.value }
    {
        if a.slot() != b.slot() {
            return false;
        }
        self.catalogs.agrees(&a.token, &b.token);
        true
    }

    /// Whether two passes are of one migration: then they read equal ones. Constant time, no
    /// memory.
    pub fn same_migration(&self, a: &MigrationPass, b: &MigrationPass) -> bool
        requires a { Shows self.now.migrations a.now }
        requires b { Shows self.now.migrations b.now }
        ensures slots { IsTrue result ↔ (a.now.index ≡ b.now.index) }
        ensures values { IsTrue result → a.now.value ≡ b.now.value }
    {
        if a.slot() != b.slot() {
            return false;
        }
        self.migrations.agrees(&a.token, &b.token);
        true
    }
}
