//! Migrations that are begun on filled tables.

ghost use Rattle.std.specs.Prelude.{IfOk};
ghost use Rattle.bf_image.specs.Migrations.{IsLawfulMigration};

use crate::filling::filled;
use crate::kinds::{Kind, query};
use anyhow::bail;
use bf_base::Memory;
use bf_eager::{Eager, is_narrow};
use bf_image::Migration;
use bf_parse::script;
use bf_tree::{Migrate, Statement};
use std::alloc::Global;

const TABLES: &str = "PHASE; SESSION; \
CREATE TABLE a (id INT, x INT, y INT CHECK (y BETWEEN 0 AND 9), PRIMARY KEY (id)); \
CREATE TABLE b (id INT, x INT, y INT, PRIMARY KEY (id)); ";

/// The script of the two tables and of the MIGRATE.
fn text(alloc: Global, kind: Kind) -> Result<String, Memory> {
    let mut text = String::new(alloc);
    text.push_str(TABLES)?;
    text.push_str("MIGRATE (CREATE TABLE t AS ")?;
    text.push_str(query(kind))?;
    text.push_str(");")?;
    Ok(text)
}

fn begun(migrate: &Migrate, eager: &Eager) -> anyhow::Result<Migration>
    ensures { IfOk result (λ migration. IsLawfulMigration migration) }
{
    if !is_narrow(migrate) {
        bail!("the MIGRATE is too wide");
    }
    match eager.begun(migrate)? {
        Ok(migration) => Ok(migration),
        Err(_) => bail!("the MIGRATE is refused"),
    }
}

/// The migration that the last of some statements begins, over the tables that the others create, filled
/// with so many rows.
fn begun_by(alloc: Global, statements: &[Statement], rows: u32) -> anyhow::Result<Migration>
    ensures { IfOk result (λ migration. IsLawfulMigration migration) }
{
    let [tables @ .., Statement::Migrate(migrate)] = statements else {
        bail!("no MIGRATE at the end");
    };
    let eager = filled(alloc, tables, rows)?;
    begun(migrate, &eager)
}

/// The migration of the session of a script.
fn begun_in(alloc: Global, text: &[u8], rows: u32) -> anyhow::Result<Migration>
    ensures { IfOk result (λ migration. IsLawfulMigration migration) }
{
    let script = script(alloc, text)?;
    match script.sessions.as_slice() {
        [session] => begun_by(alloc, session.statements.as_slice(), rows),
        _ => bail!("not one session"),
    }
}

/// A migration of a kind, over tables of so many rows.
pub fn migration_of(alloc: Global, kind: Kind, rows: u32) -> anyhow::Result<Migration>
    ensures { IfOk result (λ migration. IsLawfulMigration migration) }
{
    let text = text(alloc, kind)?;
    begun_in(alloc, text.as_bytes(), rows)
}
