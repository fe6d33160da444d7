//! What a statement of an open group replies and leaves pending.

ghost use Rattle.std.specs.Prelude.{◌≡◌, [], IfOk, OnErr, OnOk, Bool, false};
ghost use Rattle.bf_tree.specs.Limits.{IsNarrowMigrate};
ghost use Rattle.bf_tree.specs.declared.statement.Statement.{Statement};
ghost use Rattle.bf_tree.specs.declared.statement.Statement.TheVariants as statement;
ghost use Rattle.bf_sql.specs.Meaning.{executed};
ghost use Rattle.bf_sql.specs.Objections.{objections};
ghost use Rattle.bf_sql.specs.RowObjections.{row_objections};
ghost use Rattle.bf_sql.specs.migrations.Lazy.{view_of};
ghost use Rattle.bf_sql.specs.migrations.MigrationObjections.{sources_of};
ghost use Rattle.bf_machine.specs.interleaving.Groups.{flip_unless};
ghost use Rattle.bf_machine.specs.interleaving.Answering.{CanAnswer, IsAnswer};
ghost use Rattle.bf_machine.specs.interleaving.Seen.{pending_seen};

use crate::so_far::Pending;
use bf_base::Memory;
use bf_live::LiveTables;
use bf_query::run_on_table;
use bf_store::Store;
use bf_tree::{Action, Bound, Plan, Reply};
use std::alloc::Global;

/// Replies to a MIGRATE that the catalog allows, by its plan, on tables into which all rows have moved.
/// It is refused where an old table has too many rows, and else a flip is pending.
///
/// # Errors
/// Where memory runs out. What is pending is as it was then.
fn answer_migrate(
    alloc: Global,
    live: &LiveTables,
    pending: &mut Pending,
    plan: &Plan,
) -> Result<Reply, Memory>
    requires sources { plan.now.sources ≡ sources_of plan.now.migrate }
    requires narrow { IsNarrowMigrate plan.now.migrate }
    requires allowed { objections live.now false (statement.Migrate plan.now.migrate) ≡ [] }
    ensures answer { IfOk result (λ reply.
        reply ≡ (executed 0 live.now false (statement.Migrate plan.now.migrate)).0) }
    ensures pending { OnOk result (pending_seen pending.new ≡ flip_unless
        (row_objections live.now (statement.Migrate plan.now.migrate)) plan.now) }
    ensures err { OnErr result (pending_seen pending.new ≡ pending_seen pending.old) }
{
    if let Some(refusal) = live.oversize(alloc, plan.sources.as_slice())? {
        *pending = Pending::Nothing;
        return Ok(Reply::Refused(refusal));
    }
    let count = plan.migrate.targets.len() as u8;
    *pending = Pending::Flip(plan.copy(alloc)?);
    Ok(Reply::Migrated(count))
}

/// Replies to a statement, as it is bound in the catalog of the store and planned, on what its group
/// sees, and notes what the group is to leave behind it. What it needs has moved. It costs what the
/// statement reads and writes of its table.
///
/// # Errors
/// Where memory runs out, or 2 ^ 32 rows or more change. What is pending is as it was then.
pub(crate) fn answer(
    alloc: Global,
    store: &Store,
    pending: &mut Pending,
    bound: &Bound,
) -> Result<Reply, Memory>
    requires { CanAnswer store.now.lazy (pending_seen pending.old) bound.now }
    ensures answer { (in_block : Bool) (s : Statement)
        → IfOk result (λ reply. IsAnswer (view_of store.now.lazy) (pending_seen pending.old)
        bound.now in_block s reply (pending_seen pending.new)) }
    ensures err { OnErr result (pending_seen pending.new ≡ pending_seen pending.old) }
{
    match &bound.action {
        Action::Refused(refusal) => Ok(Reply::Refused(refusal.copy(alloc)?)),
        Action::Begin => Ok(Reply::Begun),
        Action::CreateTable(table) => {
            *pending = Pending::NewTable(table.copy(alloc)?);
            Ok(Reply::Created)
        }
        Action::CreateIndex(index) => {
            *pending = Pending::NewIndex(index.copy(alloc)?);
            Ok(Reply::Created)
        }
        Action::Select { table, .. }
        | Action::Insert { table, .. }
        | Action::Update { table, .. }
        | Action::Delete { table, .. } => {
            let Pending::Rows(writes) = pending else {
                unreachable!();
            };
            run_on_table(alloc, store.live(), writes, bound, table)
        }
        Action::Migrate(plan) => answer_migrate(alloc, store.live(), pending, plan),
        Action::Commit | Action::Rollback => unreachable!(),
    }
}
