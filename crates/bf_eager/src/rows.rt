//! Statements that leave the catalog, on what their group has written.

ghost use Rattle.std.specs.List.{AllByRecursion, list_all};
ghost use Rattle.std.specs.Prelude.{◌≡◌, IfOk, OnErr, OnOk, false, IsTrue};
ghost use Rattle.bf_eager.specs.Groups.{leave_schema, left_behind};
ghost use Rattle.bf_tree.specs.Limits.{HasNarrowTables, IsNarrowIfMigrate, is_narrow_statement};
ghost use Rattle.bf_sql.specs.Bound.{catalog_of, changes_schema};
ghost use Rattle.bf_sql.specs.History.{run_group};
ghost use Rattle.bf_sql.specs.Meaning.{executed};
ghost use Rattle.bf_live.specs.Live.{committed};
ghost use Rattle.bf_live.specs.Open.{IsOpen};

use bf_base::Memory;
use bf_live::LiveTables;
use bf_plan::prepare;
use bf_query::run_on_table;
use bf_tree::{Action, Reply, Statement};
use bf_txn::Workspace;
use std::alloc::Global;

/// Replies to a statement on what its group sees: the committed tables under what it has written. A
/// change is written to the workspace alone. `commit` is the number of the commit that a COMMIT ends.
///
/// # Errors
/// Where memory runs out, or 2 ^ 32 rows or more change.
fn reply_to(
    alloc: Global,
    live: &LiveTables,
    writes: &mut Workspace,
    statement: &Statement,
    in_block: bool,
    commit: u64,
) -> Result<Reply, Memory>
    requires leaves { changes_schema in_block statement.now ≡ false }
    requires tables { HasNarrowTables (catalog_of live.now) }
    requires narrow { IsTrue (is_narrow_statement statement.now) }
    requires migrates { IsNarrowIfMigrate statement.now }
    requires opened { IsOpen live.now writes.old }
    ensures meant { IfOk result
        (λ reply. executed commit (committed live.now writes.old) in_block statement.now
        ≡ (reply, committed live.now writes.new)) }
    ensures opened { OnOk result (IsOpen live.now writes.new) }
{
    let bound = prepare(alloc, statement, live.catalog(), in_block)?;
    match &bound.action {
        Action::Refused(refusal) => Ok(Reply::Refused(refusal.copy(alloc)?)),
        Action::Begin => Ok(Reply::Begun),
        Action::Commit => Ok(Reply::Committed(commit)),
        Action::Rollback => Ok(Reply::RolledBack),
        Action::Select { table, .. }
        | Action::Insert { table, .. }
        | Action::Update { table, .. }
        | Action::Delete { table, .. } => run_on_table(alloc, live, writes, &bound, table),
        Action::CreateTable(_) | Action::CreateIndex(_) | Action::Migrate(_) => unreachable!(),
    }
}

/// Replies to the statements of a group one after the other, each on what those before it have left;
/// all but the first stand in its block.
///
/// # Errors
/// Where memory runs out, or 2 ^ 32 rows or more change.
pub(crate) fn replies_on_rows(
    alloc: Global,
    live: &LiveTables,
    writes: &mut Workspace,
    statements: &[Statement],
    commit: u64,
) -> Result<Vec<Reply>, Memory>
    requires leaves { IsTrue (leave_schema statements.now) }
    requires tables { HasNarrowTables (catalog_of live.now) }
    requires narrow { IsTrue (list_all is_narrow_statement statements.now) }
    requires migrates { AllByRecursion IsNarrowIfMigrate statements.now }
    requires opened { IsOpen live.now writes.old }
    ensures ran { IfOk result
        (λ replies. run_group commit false (committed live.now writes.old) statements.now
        ≡ (replies.items, committed live.now writes.new)) }
    ensures opened { OnOk result (IsOpen live.now writes.new) }
{
    let mut replies = Vec::with_capacity(alloc, statements.len())?;
    for (place, statement) in statements.iter().enumerate() {
        let reply = reply_to(alloc, live, writes, statement, place > 0, commit)?;
        replies.push(reply)?;
    }
    Ok(replies)
}

/// Makes what a group has written part of the tables, where the group commits.
///
/// # Errors
/// Where memory runs out. The tables are as they were then.
pub(crate) fn settle(
    live: &mut LiveTables,
    writes: &mut Workspace,
    committed: bool,
) -> Result<(), Memory>
    requires opened { IsOpen live.old writes.old }
    ensures ok { OnOk result (live.new ≡ left_behind committed live.old writes.old) }
    ensures err { OnErr result (live.new ≡ live.old) }
{
    if committed {
        live.commit(writes)
    } else {
        Ok(())
    }
}
