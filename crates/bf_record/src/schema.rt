//! Tables and index rules as bytes.

ghost use Rattle.bf_record.specs.Apart.{admits_apart, columns_apart, indexes_apart, schema_changes_apart, tables_apart};
ghost use Rattle.bf_record.specs.Schema.{IsAdmit, IsColumn, IsIndex, IsSchemaChange, IsTable, admit_spelling, column_spelling, index_spelling, schema_spelling, table_spelling};

use crate::part::Part;
use bf_base::{Admit, Column, Memory, Name, Sequence, Table};
use bf_tree::IndexRule;
use std::alloc::Global;

/// What CREATE adds to the catalog.
#[derive(Debug, Drop, PartialEq, Eq)]
pub enum SchemaChange {
    Table(Table),
    Index(IndexRule),
}

impl Part for Admit {
    ghost HasSpelling = { IsAdmit };

    ghost spelling = { admit_spelling };

    ghost IsShallow = { λ _. Unit {0} };

    ghost apart = { admits_apart };

    fn put(&self, out: &mut Vec<u8>) -> Result<(), Memory> {
        match self {
            Admit::Int => {
                out.push(1)?;
                Ok(())
            }
            Admit::Checked(low, high) => {
                out.push(2)?;
                low.put(out)?;
                high.put(out)
            }
            Admit::Varchar(most) => {
                out.push(3)?;
                most.put(out)
            }
        }
    }

    fn take(alloc: Global, bytes: &[u8]) -> Result<Option<(Admit, usize)>, Memory> {
        match bytes {
            [1, ..] => Ok(Some((Admit::Int, 1))),
            [2, rest @ ..] => match <(i64, i64)>::take(alloc, rest)? {
                Some(((low, high), taken)) => Ok(Some((Admit::Checked(low, high), taken + 1))),
                None => Ok(None),
            },
            [3, rest @ ..] => match u8::take(alloc, rest)? {
                Some((most, taken)) => Ok(Some((Admit::Varchar(most), taken + 1))),
                None => Ok(None),
            },
            [] | [_, ..] => Ok(None),
        }
    }
}

impl Part for Column {
    ghost HasSpelling = { IsColumn };

    ghost spelling = { column_spelling };

    ghost IsShallow = { λ _. Unit {0} };

    ghost apart = { columns_apart };

    fn put(&self, out: &mut Vec<u8>) -> Result<(), Memory> {
        self.name.put(out)?;
        self.admits.put(out)
    }

    fn take(alloc: Global, bytes: &[u8]) -> Result<Option<(Column, usize)>, Memory> {
        match <(Name, Admit)>::take(alloc, bytes)? {
            Some(((name, admits), taken)) => Ok(Some((Column { name, admits }, taken))),
            None => Ok(None),
        }
    }
}

impl Part for Table {
    ghost HasSpelling = { IsTable };

    ghost spelling = { table_spelling };

    ghost IsShallow = { λ _. Unit {0} };

    ghost apart = { tables_apart };

    fn put(&self, out: &mut Vec<u8>) -> Result<(), Memory> {
        self.name.put(out)?;
        self.columns.put(out)?;
        self.key.put(out)
    }

    fn take(alloc: Global, bytes: &[u8]) -> Result<Option<(Table, usize)>, Memory> {
        match <((Name, Sequence<Column>), Sequence<u8>)>::take(alloc, bytes)? {
            Some((((name, columns), key), taken)) => Ok(Some((
                Table { name, columns, key },
                taken,
            ))),
            None => Ok(None),
        }
    }
}

impl Part for IndexRule {
    ghost HasSpelling = { IsIndex };

    ghost spelling = { index_spelling };

    ghost IsShallow = { λ _. Unit {0} };

    ghost apart = { indexes_apart };

    fn put(&self, out: &mut Vec<u8>) -> Result<(), Memory> {
        self.name.put(out)?;
        self.table.put(out)?;
        self.columns.put(out)
    }

    fn take(alloc: Global, bytes: &[u8]) -> Result<Option<(IndexRule, usize)>, Memory> {
        match <((Name, Name), Sequence<u8>)>::take(alloc, bytes)? {
            Some((((name, table), columns), taken)) => Ok(Some((
                IndexRule {
                    name,
                    table,
                    columns,
                },
                taken,
            ))),
            None => Ok(None),
        }
    }
}

impl Part for SchemaChange {
    ghost HasSpelling = { IsSchemaChange };

    ghost spelling = { schema_spelling };

    ghost IsShallow = { λ _. Unit {0} };

    ghost apart = { schema_changes_apart };

    fn put(&self, out: &mut Vec<u8>) -> Result<(), Memory> {
        match self {
            SchemaChange::Table(table) => {
                out.push(1)?;
                table.put(out)
            }
            SchemaChange::Index(index) => {
                out.push(2)?;
                index.put(out)
            }
        }
    }

    fn take(alloc: Global, bytes: &[u8]) -> Result<Option<(SchemaChange, usize)>, Memory> {
        match bytes {
            [1, rest @ ..] => match Table::take(alloc, rest)? {
                Some((table, taken)) => Ok(Some((SchemaChange::Table(table), taken + 1))),
                None => Ok(None),
            },
            [2, rest @ ..] => match IndexRule::take(alloc, rest)? {
                Some((index, taken)) => Ok(Some((SchemaChange::Index(index), taken + 1))),
                None => Ok(None),
            },
            [] | [_, ..] => Ok(None),
        }
    }
}
