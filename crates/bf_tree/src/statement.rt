//! Statements as they are written.

ghost use Rattle.std.specs.Prelude.{◌≡◌, IfOk};

use crate::items::List;
use crate::migration::Migrate;
use crate::raw::{RawCond, RawExpr};
use bf_base::{Memory, Name, Row, Sequence, TryClone};
use std::alloc::Global;

/// What a column is declared to admit.
#[derive(Debug, Drop, PartialEq, Eq)]
pub enum ColumnForm {
    /// `INT`
    Int,
    /// `INT CHECK (name BETWEEN low AND high)`, where only the column's own name is not refused.
    Checked(Name, i64, i64),
    /// `VARCHAR (most)`, where only 1 to 255 is not refused.
    Varchar(u64),
}

/// A column as CREATE TABLE declares it.
#[derive(Debug, Drop, PartialEq, Eq)]
pub struct ColumnRule {
    pub name: Name,
    pub form: ColumnForm,
}

/// A parsed statement. Where it has no condition, each row satisfies it.
#[derive(Drop)]
pub enum Statement {
    /// A new table, the columns of which its key names in key order.
    CreateTable {
        name: Name,
        columns: Sequence<ColumnRule>,
        key: Sequence<Name>,
    },
    /// A new index on the columns of a table.
    CreateIndex {
        name: Name,
        table: Name,
        columns: Sequence<Name>,
    },
    /// New rows, one of each tuple.
    Insert {
        table: Name,
        tuples: Sequence<Row>,
    },
    /// What the rows of a table that satisfy a condition give, in key order.
    Select {
        list: List,
        table: Name,
        cond: Option<RawCond>,
    },
    /// Columns of the rows that satisfy a condition are set, each to an expression on the old row.
    Update {
        table: Name,
        sets: Sequence<(Name, RawExpr)>,
        cond: Option<RawCond>,
    },
    /// The rows that satisfy a condition leave.
    Delete {
        table: Name,
        cond: Option<RawCond>,
    },
    Begin,
    Commit,
    Rollback,
    /// New tables in the place of old ones, from this moment on.
    Migrate(Migrate),
}

impl ColumnForm {
    /// An equal form.
    pub fn copy(&self, alloc: Global) -> Result<ColumnForm, Memory>
        ensures { IfOk result (λ copy. copy ≡ self.now) }
    {
        match self {
            ColumnForm::Int => Ok(ColumnForm::Int),
            ColumnForm::Checked(name, low, high) => {
                Ok(ColumnForm::Checked(name.copy(alloc)?, *low, *high))
            }
            ColumnForm::Varchar(most) => Ok(ColumnForm::Varchar(*most)),
        }
    }
}

impl ColumnRule {
    /// An equal rule.
    pub fn copy(&self, alloc: Global) -> Result<ColumnRule, Memory>
        ensures { IfOk result (λ copy. copy ≡ self.now) }
    {
        let name = self.name.copy(alloc)?;
        let form = self.form.copy(alloc)?;
        Ok(ColumnRule { name, form })
    }
}

impl TryClone for ColumnRule {
    fn try_clone(&self, alloc: Global) -> Result<ColumnRule, Memory> {
        self.copy(alloc)
    }
}

impl Statement {
    /// An equal statement.
    pub fn copy(&self, alloc: Global) -> Result<Statement, Memory>
        ensures { IfOk result (λ copy. copy ≡ self.now) }
    {
        match self {
            Statement::CreateTable { name, columns, key } => Ok(Statement::CreateTable {
                name: name.copy(alloc)?,
                columns: columns.copy(alloc)?,
                key: key.copy(alloc)?,
            }),
            Statement::CreateIndex {
                name,
                table,
                columns,
            } => Ok(Statement::CreateIndex {
                name: name.copy(alloc)?,
                table: table.copy(alloc)?,
                columns: columns.copy(alloc)?,
            }),
            Statement::Insert { table, tuples } => Ok(Statement::Insert {
                table: table.copy(alloc)?,
                tuples: tuples.copy(alloc)?,
            }),
            Statement::Select { list, table, cond } => Ok(Statement::Select {
                list: list.copy(alloc)?,
                table: table.copy(alloc)?,
                cond: cond.try_clone(alloc)?,
            }),
            Statement::Update { table, sets, cond } => Ok(Statement::Update {
                table: table.copy(alloc)?,
                sets: sets.copy(alloc)?,
                cond: cond.try_clone(alloc)?,
            }),
            Statement::Delete { table, cond } => Ok(Statement::Delete {
                table: table.copy(alloc)?,
                cond: cond.try_clone(alloc)?,
            }),
            Statement::Begin => Ok(Statement::Begin),
            Statement::Commit => Ok(Statement::Commit),
            Statement::Rollback => Ok(Statement::Rollback),
            Statement::Migrate(migrate) => Ok(Statement::Migrate(migrate.copy(alloc)?)),
        }
    }
}

impl TryClone for Statement {
    fn try_clone(&self, alloc: Global) -> Result<Statement, Memory> {
        self.copy(alloc)
    }
}
