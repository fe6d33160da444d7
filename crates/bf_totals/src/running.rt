//! Totals, row by row.

ghost use Rattle.std.specs.Prelude.{◌≡◌, [], Some, map, flat_map, IfOk, OnOk};
ghost use Rattle.std.specs.List.{All};
ghost use Rattle.bf_base.specs.Tables.{cell};
ghost use Rattle.bf_tree.specs.Evaluation.{sure_value, value_of};
ghost use Rattle.bf_tree.specs.ValueObjections.{answer_objections, value_objections};
ghost use Rattle.bf_tree.specs.Totals.{greater, lesser, total_of};
ghost use Rattle.bf_tree.specs.declared.items.Items.TheVariants.{Aggregates};
ghost use Rattle.bf_totals.specs.RunningTotals.{IsCountable, advanced, end_objections, picked, row_objections, running_total, running_total_after, total_cell};
ghost use Rattle.bf_tree.specs.Settling.{Settles};

use crate::sum::ExactSum;
use bf_base::{Memory, Row, Sequence, Value};
use bf_tree::{Aggregate, Cell, Expr, Fail, Refusal, StatementError, operand, value};
use std::alloc::Global;

/// A total of the rows so far.
#[derive(Drop)]
pub enum Running<'a> {
    Count(usize),
    Sum(&'a Expr, ExactSum),
    Least(&'a Expr, Option<Value>),
    Greatest(&'a Expr, Option<Value>),
}

/// The value of an expression on a row, or the refusal that tells why there is none.
pub fn value_or_refusal(alloc: Global, expr: &Expr, row: &Row) -> Result<Value, StatementError>
    ensures { Settles result (value_objections (value_of (cell row.now) expr.now))
        (sure_value (cell row.now) expr.now) }
{
    match value(alloc, expr, row) {
        Ok(found) => Ok(found),
        Err(Fail::OutOfRange) => Err(StatementError::Refused(Refusal::OutOfRange)),
        Err(Fail::TooLong) => Err(StatementError::Refused(Refusal::TooLong)),
        Err(Fail::Memory) => Err(StatementError::Memory),
    }
}

/// Keeps the lesser of two values. It copies the new one only where that is kept.
fn keep_lesser(alloc: Global, least: &mut Option<Value>, found: &Value) -> Result<(), Memory>
    ensures { OnOk result (least.new ≡ Some (picked lesser least.old found.now)) }
{
    if least.as_ref().is_none_or(|least| *found < *least) {
        *least = Some(found.copy(alloc)?);
    }
    Ok(())
}

/// Keeps the greater of two values. It copies the new one only where that is kept.
fn keep_greater(alloc: Global, greatest: &mut Option<Value>, found: &Value) -> Result<(), Memory>
    ensures { OnOk result (greatest.new ≡ Some (picked greater greatest.old found.now)) }
{
    if greatest.as_ref().is_none_or(|greatest| *greatest < *found) {
        *greatest = Some(found.copy(alloc)?);
    }
    Ok(())
}

impl<'a> Running<'a> {
    /// The total of no rows.
    fn new(total: &'a Aggregate) -> Running<'a>
        ensures { running_total result ≡ running_total_after [] total.now }
    {
        match total {
            Aggregate::Count => Running::Count(0),
            Aggregate::Sum(expr) => Running::Sum(expr, ExactSum::new()),
            Aggregate::Min(expr) => Running::Least(expr, None),
            Aggregate::Max(expr) => Running::Greatest(expr, None),
        }
    }

    /// Takes a row in. A literal and a column are read where they stand.
    fn advance(&mut self, alloc: Global, row: &Row) -> Result<(), StatementError>
        requires { IsCountable (running_total self.old) }
        ensures objections { Settles result (row_objections row.now (running_total self.old)) tt }
        ensures total { OnOk result (running_total self.new
            ≡ advanced row.now (running_total self.old)) }
    {
        match self {
            Running::Count(rows) => *rows += 1,
            Running::Sum(expr, sum) => match operand(expr, row) {
                Some(found) => sum.add(found),
                None => sum.add(&value_or_refusal(alloc, expr, row)?),
            },
            Running::Least(expr, least) => match operand(expr, row) {
                Some(found) => keep_lesser(alloc, least, found)?,
                None => keep_lesser(alloc, least, &value_or_refusal(alloc, expr, row)?)?,
            },
            Running::Greatest(expr, greatest) => match operand(expr, row) {
                Some(found) => keep_greater(alloc, greatest, found)?,
                None => keep_greater(alloc, greatest, &value_or_refusal(alloc, expr, row)?)?,
            },
        }
        Ok(())
    }

    /// The total of all rows.
    fn finish(self) -> Result<Cell, StatementError>
        requires { IsCountable (running_total self) }
        ensures { Settles result (end_objections (running_total self.entry))
            (total_cell (running_total self.entry)) }
    {
        match self {
            Running::Count(rows) => Ok(Cell::Value(Value::Int(rows as i64))),
            Running::Sum(_, sum) => match i64::try_from(sum.sum) {
                Ok(_) if sum.count == 0 => Ok(Cell::Null),
                Ok(number) => Ok(Cell::Value(Value::Int(number))),
                Err(_) => Err(StatementError::Refused(Refusal::OutOfRange)),
            },
            Running::Least(_, value) | Running::Greatest(_, value) => Ok(value.map_or(
                Cell::Null,
                Cell::Value,
            )),
        }
    }
}

/// The totals of no rows.
fn started<'a>(alloc: Global, totals: &'a [Aggregate]) -> Result<Vec<Running<'a>>, Memory>
    ensures { IfOk result (λ running.
        map running_total running.items ≡ map (running_total_after []) totals.now) }
{
    let mut running = Vec::with_capacity(alloc, totals.len())?;
    for total in totals {
        running.push(Running::new(total))?;
    }
    Ok(running)
}

/// Takes a row into each total, the first one first.
fn advance_all(alloc: Global, running: &mut [Running<'_>], row: &Row) -> Result<(), StatementError>
    requires { All IsCountable (map running_total running.old) }
    ensures objections { Settles result
        (flat_map (row_objections row.now) (map running_total running.old)) tt }
    ensures totals { OnOk result (map running_total running.new
        ≡ map (advanced row.now) (map running_total running.old)) }
{
    for total in running.iter_mut() {
        total.advance(alloc, row)?;
    }
    Ok(())
}

/// Ends each total, the first one first.
fn finished(alloc: Global, running: Vec<Running<'_>>) -> Result<Sequence<Cell>, StatementError>
    requires { All IsCountable (map running_total running.items) }
    ensures { Settles result (flat_map end_objections (map running_total running.entry.items))
        (map total_cell (map running_total running.entry.items)) }
{
    let mut cells = Vec::with_capacity(alloc, running.len())?;
    for total in running {
        cells.push(total.finish()?)?;
    }
    Ok(Sequence::of(cells))
}

/// The totals of some rows: the arguments are computed row by row, and the sums are judged at
/// the end.
pub fn totals(
    alloc: Global,
    totals: &[Aggregate],
    rows: &[&Row],
) -> Result<Sequence<Cell>, StatementError>
    ensures { Settles result (answer_objections cell (Aggregates totals.now)
        (map (λ row. row.now) rows.now))
        (map (total_of cell (map (λ row. row.now) rows.now)) totals.now) }
{
    let mut running = started(alloc, totals)?;
    for row in rows {
        advance_all(alloc, &mut running, row)?;
    }
    finished(alloc, running)
}
