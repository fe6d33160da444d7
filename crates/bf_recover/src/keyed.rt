//! The writes of a record, each under its key.

ghost use Rattle.std.specs.List.{list_all};
ghost use Rattle.std.specs.Prelude.{◌≡◌, IfOk, IfSome, IsTrue, is_some, zip};
ghost use Rattle.bf_base.specs.Tables.{fit_of};
ghost use Rattle.bf_sql.specs.Database.{is_admitted, is_fit, is_within};
ghost use Rattle.bf_recover.specs.Commits.{is_fit_change, write_by};

use bf_base::{Column, Fit, Memory, Row, Table, Value, admits, key_of};
use bf_record::{RowChange, TableWrite};
use bf_txn::Write;
use std::alloc::Global;

/// Whether a column admits a value. Takes no memory.
fn fits(column: &Column, value: &Value) -> bool
    ensures { result ≡ is_fit (fit_of column.now.admits value.now) }
{
    matches!(admits(column, value), Fit::Fits)
}

/// Whether columns admit values, one for one. Takes no memory.
fn all_fit(columns: &[Column], values: &[Value]) -> bool
    ensures { result ≡ list_all (λ p. is_fit (fit_of p.0.admits p.1)) (zip columns.now values.now) }
{
    columns
        .iter()
        .zip(values)
        .all(|(column, value)| fits(column, value))
}

/// Whether a table admits a row: a value for each column, which the column admits. Takes no memory.
fn is_admitted(table: &Table, row: &Row) -> bool
    ensures { result ≡ is_admitted table.now row.now }
{
    let (columns, values) = (table.columns.as_slice(), row.as_slice());
    columns.len() == values.len() && all_fit(columns, values)
}

/// A write of a record to a table, under its key, and `None` exactly where it puts a row that the
/// table does not admit. It copies the key of a row that is put.
///
/// # Errors
/// Where memory runs out.
pub(crate) fn keyed(
    alloc: Global,
    table: &Table,
    write: TableWrite,
) -> Result<Option<Write>, Memory>
    requires { IsTrue (is_within table.now table.now.key) }
    ensures fit { IfOk result (λ keyed. is_some keyed ≡ is_fit_change table.now write.change) }
    ensures keyed { IfOk result (λ keyed.
        IfSome keyed (λ w. w ≡ write_by table.now write.table write.change)) }
{
    let TableWrite {
        table: name,
        change,
    } = write;
    match change {
        RowChange::Removed(key) => Ok(Some(Write {
            table: name,
            key,
            row: None,
        })),
        RowChange::Put(row) => {
            if !is_admitted(table, &row) {
                return Ok(None);
            }
            let key = key_of(alloc, table, &row)?;
            Ok(Some(Write {
                table: name,
                key,
                row: Some(row),
            }))
        }
    }
}
