//! SELECT.

ghost use Rattle.std.specs.Prelude.{◌≡◌, Some, IfOk};
ghost use Rattle.bf_index.specs.Edits.{AreIndexesOf};
ghost use Rattle.bf_live.specs.Replies.{HaveOwnKeys, IsSelect, IsWellBound, rows_for, select_reply};

use crate::answer::answer;
use crate::merge::selected_rows;
use bf_base::Memory;
use bf_heap::Heap;
use bf_index::Index;
use bf_tree::{Action, Bound, Reply};
use bf_txn::Workspace;
use std::alloc::Global;

/// The reply to a SELECT on the rows of its table as the transaction of the workspace sees them.
/// A key that the condition fixes is looked up, in time logarithmic in the rows. Else, where
/// `index_for` gives an index, each row that has the value is looked up in that time, and the rest is
/// linear in those rows and the writes to the table. Else it is linear in the rows and the writes to
/// the table whose keys are in the range that the condition leaves. Which way is taken shows in the
/// time alone.
pub fn select(
    alloc: Global,
    bound: &Bound,
    heap: &Heap,
    indexes: &[Index],
    workspace: &Workspace,
) -> Result<Reply, Memory>
    requires indexes { AreIndexesOf heap.now.entries indexes.now }
    requires select { IsSelect bound.now.action }
    requires bound { IsWellBound bound.now.action }
    requires keys { HaveOwnKeys heap.now.entries workspace.now bound.now.action }
    ensures { IfOk result (λ told.
        select_reply (rows_for heap.now.entries workspace.now bound.now.action) bound.now.action
        ≡ Some told) }
{
    let Action::Select {
        table,
        items,
        cond,
        fixed,
    } = &bound.action
    else {
        unreachable!();
    };
    let rows = selected_rows(alloc, heap, indexes, workspace, table, cond, fixed)?;
    answer(alloc, items, &rows)
}
