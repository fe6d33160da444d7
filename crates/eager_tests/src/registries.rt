//! Registries: a pass reads what was added for it.

ghost use Rattle.std.specs.Prelude.{IfOk};
ghost use Rattle.boxcar.specs.Table.{Shows};
ghost use Rattle.bf_image.specs.Migrations.{IsLawfulMigration};

use crate::entries::put;
use bf_base::{Granule, Key, Name, Place, Value};
use bf_eager::{Eager, is_alone, is_narrow};
use bf_image::{
    CatalogPass, Migration, MigrationPass, Registry, ValueIndexes, granule_of, owner, positions,
};
use bf_parse::script;
use bf_tree::{Catalog, Migrate, Statement};
use std::alloc::Global;
use std::sync::Wait;
use std::test::Fail;

fn begun_on(eager: &Eager, migrate: &Migrate) -> Result<Migration, Fail>
    ensures { IfOk result (λ migration. IsLawfulMigration migration) }
{
    if !is_narrow(migrate) {
        return Err("too wide".into());
    }
    match eager.begun(migrate)? {
        Ok(migration) => Ok(migration),
        Err(_) => Err("refused".into()),
    }
}

fn run_alone(alloc: Global, eager: &mut Eager, statement: &Statement) -> Result<(), Fail> {
    if !is_alone(statement) {
        return Err("no group of its own".into());
    }
    let entry = [statement.copy(alloc)?];
    eager.run_entry(&entry, true)?;
    Ok(())
}

/// The database behind statements, each an entry of its own.
fn eager_behind(alloc: Global, statements: &[Statement]) -> Result<Eager, Fail> {
    let mut eager = Eager::new(alloc);
    for statement in statements {
        run_alone(alloc, &mut eager, statement)?;
    }
    Ok(eager)
}

/// The migration that the last of some statements begins behind the others.
fn begun_by(alloc: Global, statements: &[Statement]) -> Result<Migration, Fail>
    ensures { IfOk result (λ migration. IsLawfulMigration migration) }
{
    let [others @ .., Statement::Migrate(migrate)] = statements else {
        return Err("no MIGRATE at the end".into());
    };
    let eager = eager_behind(alloc, others)?;
    begun_on(&eager, migrate)
}

/// A script that moves two rows into a table of a name.
fn text(alloc: Global, name: &str) -> Result<Vec<u8>, Fail> {
    let mut text = Vec::new(alloc);
    put(
        &mut text,
        "PHASE; SESSION; CREATE TABLE a (id INT, x INT, PRIMARY KEY (id)); \
INSERT INTO a VALUES (1, 5), (2, 6); MIGRATE (CREATE TABLE ",
    )?;
    put(&mut text, name)?;
    put(&mut text, " AS SELECT x, id FROM a);")?;
    Ok(text)
}

/// The migration of the session of a script.
fn begun_in(alloc: Global, text: &[u8]) -> Result<Migration, Fail>
    ensures { IfOk result (λ migration. IsLawfulMigration migration) }
{
    let script = script(alloc, text)?;
    match script.sessions.as_slice() {
        [session] => begun_by(alloc, session.statements.as_slice()),
        _ => Err("not one session".into()),
    }
}

/// A migration of two rows into a table of a name.
fn begun(alloc: Global, name: &str) -> Result<Migration, Fail>
    ensures { IfOk result (λ migration. IsLawfulMigration migration) }
{
    let text = text(alloc, name)?;
    begun_in(alloc, text.as_slice())
}

fn added_catalog(rt: &impl Wait, registry: &Registry, catalog: Catalog) -> Result<CatalogPass, Fail>
    ensures { IfOk result (λ pass. Shows registry.now.catalogs pass) }
{
    match registry.add_catalog(rt, catalog) {
        Ok(pass) => Ok(pass),
        Err(_) => Err("no room".into()),
    }
}

/// The number of the catalog that a pass reads.
fn number(registry: &Registry, pass: &CatalogPass) -> u64
    requires { Shows registry.now.catalogs pass.now }
{
    registry.catalog(pass).number()
}

/// What the passes of the empty catalog and of one of number 7 read otherwise than they should.
fn wrong_of_catalogs(
    registry: &Registry,
    empty: &CatalogPass,
    other: &CatalogPass,
) -> Option<&'static str>
    requires empty { Shows registry.now.catalogs empty.now }
    requires other { Shows registry.now.catalogs other.now }
{
    let copy = other.copy();
    if number(registry, empty) != 0 || number(registry, other) != 7 {
        return Some("the number of a catalog");
    }
    if number(registry, &copy) != 7 || !registry.same_catalog(other, &copy) {
        return Some("the catalog of a copy");
    }
    if registry.same_catalog(other, empty) {
        return Some("two catalogs are one");
    }
    None
}

fn wrong_of_added_catalog(rt: &impl Wait, alloc: Global) -> Result<Option<&'static str>, Fail> {
    let (registry, empty) = Registry::new(alloc, rt)?;
    let other = added_catalog(rt, &registry, Catalog::new(alloc).with_number(7))?;
    Ok(wrong_of_catalogs(&registry, &empty, &other))
}

#[test]
fn a_pass_reads_the_catalog_that_was_added(rt: HostRuntime) -> Result<(), Fail> {
    assert_eq!(&rt; wrong_of_added_catalog(&rt, rt.alloc())?, None);
    Ok(())
}

fn added_migration(
    rt: &impl Wait,
    registry: &Registry,
    migration: Migration,
) -> Result<MigrationPass, Fail>
    requires { IsLawfulMigration migration }
    ensures { IfOk result (λ pass. Shows registry.now.migrations pass) }
{
    match registry.add_migration(rt, migration) {
        Ok(pass) => Ok(pass),
        Err(_) => Err("no room".into()),
    }
}

/// The pass of an added migration of two rows into a table of a name.
fn pass(
    alloc: Global,
    rt: &impl Wait,
    registry: &Registry,
    name: &str,
) -> Result<MigrationPass, Fail>
    ensures { IfOk result (λ pass. Shows registry.now.migrations pass) }
{
    let migration = begun(alloc, name)?;
    added_migration(rt, registry, migration)
}

fn key(alloc: Global, id: i64) -> Result<Key, Fail> {
    let mut values = Vec::new(alloc);
    values.push(Value::Int(id))?;
    Ok(Key::of(values))
}

/// The position of a granule, if there is one: each is to be a row of the first unit.
fn position(granule: Option<Granule>) -> Result<Option<u32>, Fail> {
    match granule {
        None => Ok(None),
        Some(
            Granule {
                unit: 0,
                place: Place::Row(position),
            },
        ) => Ok(Some(position)),
        Some(_) => Err("no row of the first unit".into()),
    }
}

/// The position of the owner in a migration of the row of a table with a key.
fn owner_with(
    alloc: Global,
    migration: &Migration,
    table: &Name,
    key: &Key,
) -> Result<Option<u32>, Fail>
    requires { IsLawfulMigration migration.now }
{
    let indexes = ValueIndexes::of(alloc, migration)?;
    position(owner(alloc, migration, &indexes, table, key)?)
}

/// The same of the row of a table with an id.
fn owner_of(alloc: Global, migration: &Migration, table: &str, id: i64) -> Result<Option<u32>, Fail>
    requires { IsLawfulMigration migration.now }
{
    let name = Name::of(alloc, table.as_bytes())?;
    let key = key(alloc, id)?;
    owner_with(alloc, migration, &name, &key)
}

/// Whether a migration has two rows of a table, and none of another.
fn has_rows_of(alloc: Global, migration: &Migration, table: &str, other: &str) -> Result<bool, Fail>
    requires { IsLawfulMigration migration.now }
{
    let owners = [
        owner_of(alloc, migration, table, 1)?,
        owner_of(alloc, migration, table, 2)?,
        owner_of(alloc, migration, table, 3)?,
        owner_of(alloc, migration, other, 2)?,
    ];
    Ok(owners == [Some(0), Some(1), None, None])
}

/// The position of an anchor of the first unit of a migration.
fn position_at(alloc: Global, migration: &Migration, anchor: u32) -> Result<Option<u32>, Fail>
    requires { IsLawfulMigration migration.now }
{
    position(granule_of(alloc, migration, 0, anchor)?)
}

/// Whether a migration of two rows has an anchor at each, and none behind them.
fn is_anchored(alloc: Global, migration: &Migration) -> Result<bool, Fail>
    requires { IsLawfulMigration migration.now }
{
    if positions(migration, 0) != 2 {
        return Ok(false);
    }
    let at = [
        position_at(alloc, migration, 1)?,
        position_at(alloc, migration, 2)?,
    ];
    Ok(at == [Some(1), None])
}

/// Whether the migration that a pass reads has two rows of a table with an anchor at each, and none of another table.
fn reads(
    alloc: Global,
    registry: &Registry,
    pass: &MigrationPass,
    table: &str,
    other: &str,
) -> Result<bool, Fail>
    requires { Shows registry.now.migrations pass.now }
{
    let migration = registry.migration(pass);
    Ok(has_rows_of(alloc, migration, table, other)? && is_anchored(alloc, migration)?)
}

/// Whether a pass is of one migration with its copy, and of another than a second pass.
fn is_apart(registry: &Registry, first: &MigrationPass, second: &MigrationPass) -> bool
    requires first { Shows registry.now.migrations first.now }
    requires second { Shows registry.now.migrations second.now }
{
    registry.same_migration(first, &first.copy()) && !registry.same_migration(first, second)
}

/// What the passes of two migrations of a registry read otherwise than they should.
fn wrong_of_migrations(
    alloc: Global,
    registry: &Registry,
    first: &MigrationPass,
    second: &MigrationPass,
) -> Result<Option<&'static str>, Fail>
    requires first { Shows registry.now.migrations first.now }
    requires second { Shows registry.now.migrations second.now }
{
    if !is_apart(registry, first, second) {
        return Ok(Some("which passes are of one migration"));
    }
    if !reads(alloc, registry, first, "t", "u")? {
        return Ok(Some("the rows of t"));
    }
    if !reads(alloc, registry, second, "u", "t")? {
        return Ok(Some("the rows of u"));
    }
    Ok(None)
}

fn wrong_of_added_migrations(rt: &impl Wait, alloc: Global) -> Result<Option<&'static str>, Fail> {
    let (registry, _) = Registry::new(alloc, rt)?;
    let first = pass(alloc, rt, &registry, "t")?;
    let second = pass(alloc, rt, &registry, "u")?;
    wrong_of_migrations(alloc, &registry, &first, &second)
}

#[test]
fn a_pass_reads_the_migration_that_was_added(rt: HostRuntime) -> Result<(), Fail> {
    assert_eq!(&rt; wrong_of_added_migrations(&rt, rt.alloc())?, None);
    Ok(())
}
