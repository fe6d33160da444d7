// A migration of 60 rows and of the 7 values by which they are grouped, as a script begins it.

ghost use Rattle.std.specs.Prelude.{IfOk};
ghost use Rattle.boxcar.specs.Table.{Shows};
ghost use Rattle.bf_image.specs.Migrations.{IsLawfulMigration};

use bf_eager::{Eager, is_alone, is_narrow};
use bf_image::{Migration, MigrationPass, Registry};
use bf_parse::script;
use bf_tree::{Migrate, Statement};
use std::alloc::Global;
use std::fmt::Write;
use std::sync::Wait;
use std::test::Fail;

// Rows with ids from 1 to 60, each with its remainder by 7.
fn text(alloc: Global) -> Result<String, Fail> {
    let mut text = String::new(alloc);
    write!(
        text,
        "PHASE; SESSION; CREATE TABLE a (id INT, x INT, PRIMARY KEY (id)); "
    )?;
    write!(text, "INSERT INTO a VALUES (1, 1)")?;
    for id in 2..=60u32 {
        write!(text, ", ({id}, {})", id % 7)?;
    }
    write!(text, "; MIGRATE (CREATE TABLE b AS SELECT id, x FROM a; ")?;
    write!(
        text,
        "CREATE TABLE g AS SELECT x, COUNT(*) AS n FROM a GROUP BY x);"
    )?;
    Ok(text)
}

fn run_alone(alloc: Global, eager: &mut Eager, statement: &Statement) -> Result<(), Fail> {
    if !is_alone(statement) {
        return Err("no group of its own".into());
    }
    let entry = [statement.copy(alloc)?];
    eager.run_entry(&entry, true)?;
    Ok(())
}

fn begun_on(eager: &Eager, migrate: &Migrate) -> Result<Migration, Fail>
    ensures { IfOk result (λ migration. IsLawfulMigration migration) }
{
    if !is_narrow(migrate) {
        return Err("too wide".into());
    }
    match eager.begun(migrate)? {
        Ok(migration) => Ok(migration),
        Err(_) => Err("refused".into()),
    }
}

// The migration that the last of some statements begins behind the others.
fn begun_by(alloc: Global, statements: &[Statement]) -> Result<Migration, Fail>
    ensures { IfOk result (λ migration. IsLawfulMigration migration) }
{
    let [others @ .., Statement::Migrate(migrate)] = statements else {
        return Err("no MIGRATE at the end".into());
    };
    let mut eager = Eager::new(alloc);
    for statement in others {
        run_alone(alloc, &mut eager, statement)?;
    }
    begun_on(&eager, migrate)
}

fn begun(alloc: Global) -> Result<Migration, Fail>
    ensures { IfOk result (λ migration. IsLawfulMigration migration) }
{
    let script = script(alloc, text(alloc)?.as_bytes())?;
    match script.sessions.as_slice() {
        [session] => begun_by(alloc, session.statements.as_slice()),
        _ => Err("not one session".into()),
    }
}

fn added(rt: &impl Wait, registry: &Registry, migration: Migration) -> Result<MigrationPass, Fail>
    requires { IsLawfulMigration migration }
    ensures { IfOk result (λ pass. Shows registry.now.migrations pass) }
{
    match registry.add_migration(rt, migration) {
        Ok(pass) => Ok(pass),
        Err(_) => Err("no room".into()),
    }
}

/// The pass of the migration, which is added to a registry.
pub fn begun_in(alloc: Global, rt: &impl Wait, registry: &Registry) -> Result<MigrationPass, Fail>
    ensures { IfOk result (λ pass. Shows registry.now.migrations pass) }
{
    let migration = begun(alloc)?;
    added(rt, registry, migration)
}
