//! Statements of cases, made ready.

ghost use Rattle.std.specs.Prelude.{◌≡◌, ◌≤◌, length, true};
ghost use Rattle.bf_base.specs.Limits.{most_columns};
ghost use Rattle.bf_sql.specs.Bound.{is_planned, without_rows};
ghost use Rattle.bf_sql.specs.Database.{IsDatabase};
ghost use Rattle.bf_tree.specs.Limits.{HasNarrowTables, IsNarrowIfMigrate, declared_columns};

use crate::locks::put_locks;
use crate::told::put_bound;
use anyhow::bail;
use bf_base::MOST_COLUMNS;
use bf_bind::bind;
use bf_eager::{Eager, is_alone, is_narrow};
use bf_parse::script;
use bf_plan::prepare;
use bf_sql::footprint;
use bf_tree::{Action, Catalog, Reply, Session, Statement};
use case_files::Teller;
use std::alloc::Global;
use std::slice;

/// Creates a table or an index.
fn create(database: &mut Eager, statement: &Statement) -> anyhow::Result<()> {
    if !is_alone(statement) {
        bail!("a statement creates nothing");
    }
    let replies = database.run_entry(slice::from_ref(statement), true)?;
    match replies.as_slice() {
        [Reply::Created] => Ok(()),
        _ => bail!("nothing is created"),
    }
}

/// The database of the tables and indexes that statements create.
fn database(alloc: Global, statements: &[Statement]) -> anyhow::Result<Eager> {
    let mut database = Eager::new(alloc);
    for statement in statements {
        create(&mut database, statement)?;
    }
    Ok(database)
}

/// Whether a statement is of a size that a script can have.
fn is_small(statement: &Statement) -> bool
    ensures columns { result ≡ true → length (declared_columns statement.now) ≤ most_columns }
    ensures migrate { result ≡ true → IsNarrowIfMigrate statement.now }
{
    match statement {
        Statement::CreateTable { columns, .. } => columns.len() <= MOST_COLUMNS,
        Statement::Migrate(migrate) => is_narrow(migrate),
        _ => true,
    }
}

/// Whether a statement is planned, and not bound.
fn is_planned(statement: &Statement, in_block: bool) -> bool
    ensures { result ≡ is_planned in_block statement.now }
{
    match statement {
        Statement::Migrate(_) => !in_block,
        _ => false,
    }
}

/// Whether a block is open behind what a statement does.
fn is_open_behind(action: &Action, in_block: bool) -> bool {
    match action {
        Action::Begin => true,
        Action::Commit | Action::Rollback => false,
        _ => in_block,
    }
}

/// Adds what a statement is bound as, where that is another text.
fn tell_other(
    alloc: Global,
    catalog: &Catalog,
    statement: &Statement,
    in_block: bool,
    prepared: &str,
    told: &mut String,
) -> anyhow::Result<()>
    requires database { IsDatabase (without_rows catalog.now) }
    requires narrow { HasNarrowTables catalog.now }
    requires columns { length (declared_columns statement.now) ≤ most_columns }
{
    if is_planned(statement, in_block) {
        return Ok(());
    }
    let mut bound = String::new(alloc);
    put_bound(
        alloc,
        &mut bound,
        &bind(alloc, statement, catalog, in_block)?,
    )?;
    if bound.as_str() != prepared {
        write!(told, " and bound {bound}")?;
    }
    Ok(())
}

/// Adds what a statement is made ready as. Answers whether a block is open behind it.
fn tell_ready(
    alloc: Global,
    catalog: &Catalog,
    statement: &Statement,
    in_block: bool,
    told: &mut String,
) -> anyhow::Result<bool>
    requires database { IsDatabase (without_rows catalog.now) }
    requires narrow { HasNarrowTables catalog.now }
{
    if !is_small(statement) {
        bail!("a statement is too wide");
    }
    let prepared = prepare(alloc, statement, catalog, in_block)?;
    let mut line = String::new(alloc);
    put_bound(alloc, &mut line, &prepared)?;
    told.push_str(line.as_str())?;
    tell_other(alloc, catalog, statement, in_block, line.as_str(), told)?;
    told.push_str("\n")?;
    Ok(is_open_behind(&prepared.action, in_block))
}

/// Adds what a statement outside a block locks.
fn tell_locks(
    alloc: Global,
    catalog: &Catalog,
    statement: &Statement,
    told: &mut String,
) -> anyhow::Result<()>
    requires database { IsDatabase (without_rows catalog.now) }
    requires narrow { HasNarrowTables catalog.now }
{
    if !is_small(statement) || is_planned(statement, false) {
        bail!("a statement is too wide, or a MIGRATE");
    }
    let bound = bind(alloc, statement, catalog, false)?;
    put_locks(alloc, told, footprint(alloc, &bound)?.as_slice())?;
    told.push_str("\n")?;
    Ok(())
}

/// Adds what is told of a statement of a phase. Answers whether a block is open behind it.
fn tell_statement(
    alloc: Global,
    database: &Eager,
    phase: u32,
    statement: &Statement,
    in_block: bool,
    told: &mut String,
) -> anyhow::Result<bool> {
    let catalog = database.catalog();
    if phase > 1 {
        tell_locks(alloc, catalog, statement, told)?;
        return Ok(in_block);
    }
    tell_ready(alloc, catalog, statement, in_block, told)
}

/// Adds what is told of the statements of a session.
fn tell_session(
    alloc: Global,
    database: &Eager,
    session: &Session,
    told: &mut String,
) -> anyhow::Result<()> {
    let mut in_block = false;
    for statement in session.statements.as_slice() {
        in_block = tell_statement(alloc, database, session.phase, statement, in_block, told)?;
    }
    Ok(())
}

/// Tells what statements are made ready as, and what they lock.
#[derive(Clone, Copy)]
pub struct Ready;

impl Teller for Ready {
    fn tell(&self, alloc: Global, text: &str, told: &mut String) -> anyhow::Result<()> {
        let script = script(alloc, text.as_bytes())?;
        let [tables, sessions @ ..] = script.sessions.as_slice() else {
            bail!("no session");
        };
        let database = database(alloc, tables.statements.as_slice())?;
        for session in sessions {
            tell_session(alloc, &database, session, told)?;
        }
        Ok(())
    }
}
