//! Two rows side by side, as one, and read where they stand.

ghost use Rattle.std.specs.Prelude.{◌≡◌, ◌++◌, IfOk, OnOk, slice_index_or};
ghost use Rattle.std.specs.List.{list_all};
ghost use Rattle.bf_sql.specs.migrations.Placed.{is_equal_at};

use bf_base::{Memory, Row, Value};
use std::alloc::Global;

/// Puts copies of the values of a row behind others.
fn add_values(alloc: Global, values: &mut Vec<Value>, row: &Row) -> Result<(), Memory>
    ensures { OnOk result (values.new.items ≡ values.old.items ++ row.now) }
{
    for value in row.as_slice() {
        values.push(value.copy(alloc)?)?;
    }
    Ok(())
}

/// A row with the values of another behind its own.
pub(crate) fn side_by_side(alloc: Global, left: &Row, right: &Row) -> Result<Row, Memory>
    ensures { IfOk result (λ row. row ≡ left.now ++ right.now) }
{
    let mut values = Vec::with_capacity(alloc, left.as_slice().len() + right.as_slice().len())?;
    add_values(alloc, &mut values, left)?;
    add_values(alloc, &mut values, right)?;
    Ok(Row::of(values))
}

/// The value at a place of two rows side by side, and another past their end.
pub(crate) fn value_beside<'a>(
    left: &'a Row,
    right: &'a Row,
    place: u8,
    past: &'a Value,
) -> &'a Value
    ensures { result.now ≡ slice_index_or (left.now ++ right.now) place past.now }
{
    let left = left.as_slice();
    let place = usize::from(place);
    if place < left.len() {
        return &left[place];
    }
    right.as_slice().get(place - left.len()).unwrap_or(past)
}

/// Whether two rows side by side have equal values at two places. A place past their end counts as 0.
fn is_equal_beside(left: &Row, right: &Row, pair: (u8, u8)) -> bool
    ensures { result ≡ is_equal_at (left.now ++ right.now) pair }
{
    let nought = Value::Int(0);
    let one = value_beside(left, right, pair.0, &nought);
    let other = value_beside(left, right, pair.1, &nought);
    *one == *other
}

/// Whether two rows side by side have equal values at the places of each pair.
pub(crate) fn is_matched_beside(left: &Row, right: &Row, on: &[(u8, u8)]) -> bool
    ensures { result ≡ list_all (is_equal_at (left.now ++ right.now)) on.now }
{
    on.iter().all(|pair| is_equal_beside(left, right, *pair))
}
