//! Statements with their tables and columns looked up.

use crate::catalog::IndexRule;
use crate::items::Items;
use crate::plan::Plan;
use crate::reply::Refusal;
use crate::tree::{Cond, Expr};
use bf_base::{Key, Row, Sequence, Table};

/// What a statement is bound to do. Columns are places in a row of the table; `fixed` is the
/// key that the condition fixes.
#[derive(Drop)]
pub enum Action {
    /// The catalog, or the place in or outside a block, stands in its way.
    Refused(Refusal),
    CreateTable(Table),
    CreateIndex(IndexRule),
    Insert {
        table: Table,
        rows: Sequence<Row>,
    },
    Select {
        table: Table,
        items: Items,
        cond: Cond,
        fixed: Option<Key>,
    },
    Update {
        table: Table,
        sets: Sequence<(u8, Expr)>,
        cond: Cond,
        fixed: Option<Key>,
    },
    Delete {
        table: Table,
        cond: Cond,
        fixed: Option<Key>,
    },
    /// A MIGRATE outside a block, planned.
    Migrate(Plan),
    Begin,
    Commit,
    Rollback,
}

/// A statement as it is bound in a catalog, by that catalog's number. A schema change is a CREATE
/// or a MIGRATE outside a block, refused or not.
#[derive(Drop)]
pub struct Bound {
    pub catalog: u64,
    pub schema_change: bool,
    pub action: Action,
}
