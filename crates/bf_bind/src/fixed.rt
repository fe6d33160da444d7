//! The rows that a condition selects, and the key that it fixes.

ghost use Rattle.std.specs.Prelude.{◌≡◌, ◌≤◌, IfOk, length};
ghost use Rattle.bf_base.specs.Limits.{most_columns};
ghost use Rattle.bf_tree.specs.Settling.{Settles};
ghost use Rattle.bf_sql.specs.Conditions.{condition_of, fixed_key as fixed_key_of};
ghost use Rattle.bf_sql.specs.Scopes.{cond_objections, scope_of};
ghost use Rattle.bf_bind.specs.Parts.{selection_of};

use crate::condition::bind_condition;
use crate::scope::Scope;
use bf_base::{Key, Memory, Table};
use bf_tree::{Cond, RawCond, StatementError, column_fixed};
use std::alloc::Global;

/// The key that a condition on a table fixes, and `None` exactly where it leaves a key column
/// open. It goes over the condition once for each key column.
pub(crate) fn fixed_key(alloc: Global, table: &Table, cond: &Cond) -> Result<Option<Key>, Memory>
    ensures { IfOk result (λ key. key ≡ fixed_key_of table.now cond.now) }
{
    let mut values = Vec::new(alloc);
    for place in table.key.as_slice() {
        match column_fixed(cond, *place) {
            Some(value) => values.push(value.copy(alloc)?)?,
            None => return Ok(None),
        }
    }
    Ok(Some(Key::of(values)))
}

/// The condition of a statement on a table, and the key that it fixes.
#[derive(Drop)]
pub(crate) struct Selection {
    pub(crate) cond: Cond,
    pub(crate) fixed: Option<Key>,
}

/// The selection of a statement; where it has no condition, each row satisfies it.
pub(crate) fn bind_selection(
    alloc: Global,
    table: &Table,
    raw: &Option<RawCond>,
) -> Result<Selection, StatementError>
    requires { length table.now.columns ≤ most_columns }
    ensures { Settles result (cond_objections (scope_of table.now) (condition_of raw.now))
        (selection_of table.now raw.now) }
{
    let cond = bind_condition(alloc, &Scope::of(table), raw)?;
    let fixed = fixed_key(alloc, table, &cond)?;
    Ok(Selection { cond, fixed })
}
