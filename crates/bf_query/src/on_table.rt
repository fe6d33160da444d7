//! Statements on the rows of a table.

ghost use Rattle.std.specs.Prelude.{◌≡◌, Bool, IfOk, OnErr};
ghost use Rattle.bf_live.specs.Meanings.{IsBoundAs};
ghost use Rattle.bf_tree.specs.declared.statement.Statement.{Statement};
ghost use Rattle.bf_sql.specs.Database.{IsDatabase};
ghost use Rattle.bf_live.specs.Live.{committed};
ghost use Rattle.bf_live.specs.Actions.{IsOn};
ghost use Rattle.bf_live.specs.Open.{IsOpen, IsStep};

use crate::change::changes;
use crate::selection::select;
use bf_base::{Memory, Table};
use bf_live::LiveTables;
use bf_tree::{Action, Bound, Reply};
use bf_txn::Workspace;
use std::alloc::Global;

/// Runs a bound SELECT, INSERT, UPDATE or DELETE on the rows that its transaction sees: the committed
/// ones under what it has written. A change is written to the workspace alone. It costs what the
/// statement reads and writes of its table.
///
/// # Errors
/// Where memory runs out, or 2 ^ 32 rows or more change. The workspace is as it was then.
pub fn run_on_table(
    alloc: Global,
    live: &LiveTables,
    writes: &mut Workspace,
    bound: &Bound,
    table: &Table,
) -> Result<Reply, Memory>
    requires database { IsDatabase live.now }
    requires open { IsOpen live.now writes.old }
    requires on { IsOn (committed live.now writes.old) table.now bound.now.action }
    ensures step { (in_block : Bool) (s : Statement)
        → IsBoundAs (committed live.now writes.old) in_block s bound.now.action
        → IfOk result (IsStep live.now writes.old writes.new in_block s) }
    ensures err { OnErr result (writes.new ≡ writes.old) }
{
    let Some(heap) = live.indexed_heap(&table.name) else {
        unreachable!();
    };
    let (rows, indexes) = (heap.heap(), heap.indexes());
    if let Action::Select { .. } = &bound.action {
        return select(alloc, bound, rows, indexes, writes);
    }
    changes(alloc, bound, rows, indexes, writes)
}
