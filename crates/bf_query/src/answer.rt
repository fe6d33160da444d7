//! What SELECT gives of the rows that satisfy its condition.

ghost use Rattle.std.specs.Prelude.{◌≡◌, map, flat_map, IfOk};
ghost use Rattle.bf_base.specs.Tables.{cell};
ghost use Rattle.bf_tree.specs.Evaluation.{sure_value, value_of};
ghost use Rattle.bf_sql.specs.Queries.{answer_of};
ghost use Rattle.bf_tree.specs.ValueObjections.{answer_objections, value_objections};
ghost use Rattle.bf_tree.specs.declared.items.Items.TheVariants.{All, Exprs};
ghost use Rattle.bf_tree.specs.declared.reply.Cell.TheVariants as cells;
ghost use Rattle.bf_tree.specs.declared.reply.Reply.TheVariants as reply;
ghost use Rattle.bf_live.specs.Replies.{unless_refused};
ghost use Rattle.bf_tree.specs.Settling.{Settles};

use bf_base::{Memory, Row, Sequence};
use bf_totals::{totals, value_or_refusal};
use bf_tree::{Cell, Expr, Items, Reply, StatementError};
use std::alloc::Global;

/// All columns of a row.
fn columns(alloc: Global, row: &Row) -> Result<Sequence<Cell>, Memory>
    ensures { IfOk result (λ given. given ≡ map cells.Value row.now) }
{
    let values = row.as_slice();
    let mut cells = Vec::with_capacity(alloc, values.len())?;
    for value in values {
        cells.push(Cell::Value(value.copy(alloc)?))?;
    }
    Ok(Sequence::of(cells))
}

/// All columns of each row.
fn all_columns(alloc: Global, rows: &[&Row]) -> Result<Sequence<Sequence<Cell>>, Memory>
    ensures { IfOk result (λ given. given ≡ answer_of cell All (map (λ row. row.now) rows.now)) }
{
    let mut given = Vec::with_capacity(alloc, rows.len())?;
    for row in rows {
        given.push(columns(alloc, row)?)?;
    }
    Ok(Sequence::of(given))
}

/// The values of expressions on a row, the first one first.
fn values(alloc: Global, exprs: &[Expr], row: &Row) -> Result<Sequence<Cell>, StatementError>
    ensures { Settles result (flat_map
        (λ expr. value_objections (value_of (cell row.now) expr)) exprs.now)
        (map (λ expr. cells.Value (sure_value (cell row.now) expr)) exprs.now) }
{
    let mut cells = Vec::with_capacity(alloc, exprs.len())?;
    for expr in exprs {
        cells.push(Cell::Value(value_or_refusal(alloc, expr, row)?))?;
    }
    Ok(Sequence::of(cells))
}

/// The values of expressions on each row, row by row.
fn all_values(
    alloc: Global,
    exprs: &[Expr],
    rows: &[&Row],
) -> Result<Sequence<Sequence<Cell>>, StatementError>
    ensures { Settles result (answer_objections cell (Exprs exprs.now)
        (map (λ row. row.now) rows.now))
        (answer_of cell (Exprs exprs.now) (map (λ row. row.now) rows.now)) }
{
    let mut given = Vec::with_capacity(alloc, rows.len())?;
    for row in rows {
        given.push(values(alloc, exprs, row)?)?;
    }
    Ok(Sequence::of(given))
}

/// What is given of some rows.
fn given(
    alloc: Global,
    items: &Items,
    rows: &[&Row],
) -> Result<Sequence<Sequence<Cell>>, StatementError>
    ensures { Settles result (answer_objections cell items.now (map (λ row. row.now) rows.now))
        (answer_of cell items.now (map (λ row. row.now) rows.now)) }
{
    match items {
        Items::All => Ok(all_columns(alloc, rows)?),
        Items::Exprs(exprs) => all_values(alloc, exprs.as_slice(), rows),
        Items::Aggregates(aggregates) => {
            let cells = totals(alloc, aggregates.as_slice(), rows)?;
            Ok(Sequence::of(vec![in alloc; cells]?))
        }
    }
}

/// The reply to a SELECT of these rows: what is given of them, or the first refusal. Items are
/// computed row by row, from the left, and sums are judged after all rows. Linear in the rows.
pub fn answer(alloc: Global, items: &Items, rows: &[&Row]) -> Result<Reply, Memory>
    ensures { IfOk result (λ told.
        told ≡ unless_refused (answer_objections cell items.now (map (λ row. row.now) rows.now))
        (reply.Rows (answer_of cell items.now (map (λ row. row.now) rows.now)))) }
{
    match given(alloc, items, rows) {
        Ok(rows) => Ok(Reply::Rows(rows)),
        Err(StatementError::Refused(refusal)) => Ok(Reply::Refused(refusal)),
        Err(StatementError::Memory) => Err(Memory),
    }
}
