//! Statements that change the catalog, each a group of its own.

ghost use Rattle.std.specs.Prelude.{◌≡◌, ℕ, IfOk, IsTrue, OnErr, OnOk, false, true};
ghost use Rattle.bf_tree.specs.Limits.{HasNarrowTables, IsNarrowIfMigrate, is_narrow_statement};
ghost use Rattle.bf_sql.specs.Bound.{catalog_of, changes_schema};
ghost use Rattle.bf_sql.specs.Database.{IsDatabase};
ghost use Rattle.bf_sql.specs.Meaning.{executed};

use crate::flip::migrate;
use bf_base::Memory;
use bf_live::LiveTables;
use bf_plan::prepare;
use bf_tree::{Action, Reply, Statement};
use std::alloc::Global;

/// Whether a statement outside a block changes the catalog.
pub(crate) fn changes_schema(statement: &Statement) -> bool
    ensures { result ≡ changes_schema false statement.now }
{
    match statement {
        Statement::CreateTable { .. } | Statement::CreateIndex { .. } | Statement::Migrate(_) => {
            true
        }
        Statement::Insert { .. }
        | Statement::Select { .. }
        | Statement::Update { .. }
        | Statement::Delete { .. }
        | Statement::Begin
        | Statement::Commit
        | Statement::Rollback => false,
    }
}

/// Replies to a CREATE or a MIGRATE outside a block, and makes its change of the tables.
///
/// # Errors
/// Where memory runs out, or 2 ^ 64 schema changes were made. The tables are as they were then.
pub(crate) fn change_schema(
    alloc: Global,
    live: &mut LiveTables,
    statement: &Statement,
) -> Result<Reply, Memory>
    requires alone { changes_schema false statement.now ≡ true }
    requires tables { HasNarrowTables (catalog_of live.old) }
    requires narrow { IsTrue (is_narrow_statement statement.now) }
    requires migrates { IsNarrowIfMigrate statement.now }
    ensures meant { IfOk result (λ reply. (commit : ℕ)
        → executed commit live.old false statement.now ≡ (reply, live.new)) }
    ensures database { OnOk result (IsDatabase live.new) }
    ensures tables { OnOk result (HasNarrowTables (catalog_of live.new)) }
    ensures err { OnErr result (live.new ≡ live.old) }
{
    let bound = prepare(alloc, statement, live.catalog(), false)?;
    match bound.action {
        Action::Refused(refusal) => Ok(Reply::Refused(refusal)),
        Action::CreateTable(table) => {
            live.create_table(table)?;
            Ok(Reply::Created)
        }
        Action::CreateIndex(index) => {
            live.create_index(index)?;
            Ok(Reply::Created)
        }
        Action::Migrate(plan) => migrate(alloc, live, plan),
        _ => unreachable!(),
    }
}
