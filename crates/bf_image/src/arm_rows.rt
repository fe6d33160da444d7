//! Rows that an arm makes of rows of its tables.

ghost use Rattle.std.specs.Prelude.{◌≡◌, ◌++◌, [], ◌∷◌, IfOk, IsTrue, OnOk, Some, None, filter, map, flat_map, true};
ghost use Rattle.std.specs.List.{list_all, All};
ghost use Rattle.std.specs.Option.{option_copied, option_map, option_to_list};
ghost use Rattle.bf_base.specs.declared.value.Value.{Value as Cell};
ghost use Rattle.bf_base.specs.Tables.{cell, cells};
ghost use Rattle.bf_tree.specs.Evaluation.{holds_on, sure_value};
ghost use Rattle.bf_tree.specs.Trees.{always};
ghost use Rattle.bf_tree.specs.declared.items.Items.TheVariants.{Aggregates};
ghost use Rattle.bf_tree.specs.ValueObjections.{answer_objections};
ghost use Rattle.bf_tree.specs.Totals.{total_of};
ghost use Rattle.bf_sql.specs.migrations.Images.{value_or_nought};
ghost use Rattle.bf_sql.specs.migrations.MigrationObjections.{is_by_row};
ghost use Rattle.bf_sql.specs.migrations.Placed.{placed_over, placed_rows};
ghost use Rattle.bf_image.specs.ArmRows.{AreOfOne, CanMake, CanMakeOf, CanMatch, IsUnobjected, is_column, item_objections, made_of, rows_made_of, rows_of_match, those_if_any};

use crate::beside::{is_matched_beside, side_by_side, value_beside};
use bf_base::{Key, Memory, Row, Value};
use bf_totals::totals;
use bf_tree::{
    Aggregate, ArmKind, Cell, Expr, Fail, PlacedArm, PlacedItem, StatementError, Test, holds, value,
};
use std::alloc::Global;

/// The value of an expression on a row, and 0 where it has none.
fn sure_value(alloc: Global, expr: &Expr, row: &Row) -> Result<Value, Memory>
    ensures { IfOk result (λ found. found ≡ sure_value (cell row.now) expr.now) }
{
    match value(alloc, expr, row) {
        Ok(found) => Ok(found),
        Err(Fail::Memory) => Err(Memory),
        Err(Fail::OutOfRange | Fail::TooLong) => Ok(Value::Int(0)),
    }
}

/// The value of a column of a row.
pub(crate) fn column_value(alloc: Global, row: &Row, place: usize) -> Result<Value, Memory>
    ensures { IfOk result (λ found. found ≡ cell row.now place) }
{
    match row.as_slice().get(place) {
        Some(value) => value.copy(alloc),
        None => Ok(Value::Int(0)),
    }
}

/// The values of a row at some places.
pub(crate) fn values_at(alloc: Global, row: &Row, places: &[u8]) -> Result<Key, Memory>
    ensures { IfOk result (λ values. values ≡ cells places.now row.now) }
{
    let mut values = Vec::with_capacity(alloc, places.len())?;
    for place in places {
        values.push(column_value(alloc, row, usize::from(*place))?)?;
    }
    Ok(Key::of(values))
}

/// A total of rows that has no objection to them.
fn total_value(alloc: Global, total: &Aggregate, rows: &[&Row]) -> Result<Value, Memory>
    requires { answer_objections cell (Aggregates (total.now ∷ [])) (map (λ row. row.now) rows.now) ≡ [] }
    ensures { IfOk result (λ found.
        found ≡ value_or_nought (total_of cell (map (λ row. row.now) rows.now) total.now)) }
{
    let total = [total.copy(alloc)?];
    match totals(alloc, &total, rows) {
        Ok(cells) => match cells.as_slice() {
            [Cell::Value(value)] => value.copy(alloc),
            _ => Ok(Value::Int(0)),
        },
        Err(StatementError::Memory) => Err(Memory),
        Err(StatementError::Refused(_)) => unreachable!(),
    }
}

/// An item over the rows of a group.
fn item_value(alloc: Global, item: &PlacedItem, rows: &[&Row]) -> Result<Value, Memory>
    requires { item_objections (map (λ row. row.now) rows.now) item.now ≡ [] }
    ensures { IfOk result (λ found. found ≡ placed_over (map (λ row. row.now) rows.now) item.now) }
{
    match item {
        PlacedItem::Total(total) => total_value(alloc, total, rows),
        PlacedItem::Column(place) => match rows {
            [row, ..] => column_value(alloc, row, usize::from(*place)),
            [] => Ok(Value::Int(0)),
        },
        PlacedItem::Value(expr) => match rows {
            [row, ..] => sure_value(alloc, expr, row),
            [] => sure_value(alloc, expr, &Row::of(Vec::new(alloc))),
        },
    }
}

/// The row that an arm makes of the rows of a group.
fn made_row(alloc: Global, arm: &PlacedArm, rows: &[&Row]) -> Result<Row, Memory>
    requires { IsUnobjected arm.now (map (λ row. row.now) rows.now) }
    ensures { IfOk result (λ row.
        row ≡ made_of arm.now (map (λ row. row.now) rows.now)) }
{
    let items = arm.items.as_slice();
    let mut values = Vec::with_capacity(alloc, items.len())?;
    for item in items {
        values.push(item_value(alloc, item, rows)?)?;
    }
    Ok(Row::of(values))
}

/// The rows that satisfy an arm's condition.
fn satisfying<'a>(alloc: Global, arm: &PlacedArm, rows: &[&'a Row]) -> Result<Vec<&'a Row>, Memory>
    ensures { IfOk result (λ found. map (λ row. row.now) found.items
        ≡ filter (λ row. holds_on (cell row) arm.now.cond) (map (λ row. row.now) rows.now)) }
{
    let mut found = Vec::new(alloc);
    for row in rows {
        if holds(alloc, &arm.cond, row)? {
            found.push(*row)?;
        }
    }
    Ok(found)
}

/// A row of each row by itself.
fn rows_of_each(alloc: Global, arm: &PlacedArm, rows: &[&Row]) -> Result<Vec<Row>, Memory>
    requires { All (λ row. IsUnobjected arm.now (row.now ∷ [])) rows.now }
    ensures { IfOk result (λ made.
        made.items ≡ map (λ row. made_of arm.now (row.now ∷ [])) rows.now) }
{
    let mut made = Vec::with_capacity(alloc, rows.len())?;
    for row in rows {
        made.push(made_row(alloc, arm, &[*row])?)?;
    }
    Ok(made)
}

/// The row of a group, or none of no rows.
#[tactic(auto, using(crate::proofs::arm_rows::Made::group_there))]
fn row_of_group(alloc: Global, arm: &PlacedArm, rows: &[&Row]) -> Result<Vec<Row>, Memory>
    requires { All (IsUnobjected arm.now) (those_if_any (map (λ row. row.now) rows.now)) }
    ensures { IfOk result (λ made.
        made.items ≡ map (made_of arm.now) (those_if_any (map (λ row. row.now) rows.now))) }
{
    let mut made = Vec::new(alloc);
    if rows.is_empty() {
        return Ok(made);
    }
    made.push(made_row(alloc, arm, rows)?)?;
    Ok(made)
}

/// The rows of an arm without JOIN.
fn rows_alone(alloc: Global, arm: &PlacedArm, from: &[&Row]) -> Result<Vec<Row>, Memory>
    requires one { AreOfOne arm.now.kind arm.now (map (λ row. row.now) from.now) }
    requires can { CanMakeOf arm.now (map (λ row. row.now) from.now) }
    ensures { IfOk result (λ made.
        made.items ≡ rows_made_of arm.now (map (λ row. row.now) from.now)) }
{
    let found = satisfying(alloc, arm, from)?;
    match arm.kind {
        ArmKind::ByGroup => row_of_group(alloc, arm, found.as_slice()),
        ArmKind::ByFrom | ArmKind::ByJoin | ArmKind::ByPair => {
            rows_of_each(alloc, arm, found.as_slice())
        }
    }
}

/// Whether an arm copies columns under their own names, and nothing else, of all rows that match its
/// ON.
fn copies_columns(arm: &PlacedArm) -> bool
    ensures all { result ≡ true → arm.now.cond ≡ always }
    ensures columns { result ≡ true → list_all is_column arm.now.items ≡ true }
{
    match arm.cond.node() {
        Test::Always => are_columns(arm.items.as_slice()),
        _ => false,
    }
}

/// Whether an item is a column.
fn is_column(item: &PlacedItem) -> bool
    ensures { result ≡ is_column item.now }
{
    matches!(item, PlacedItem::Column(_))
}

/// Whether items are columns.
fn are_columns(items: &[PlacedItem]) -> bool
    ensures { result ≡ list_all is_column items.now }
{
    items.iter().all(|item| is_column(item))
}

/// The value of an item that is a column, in two rows side by side.
fn column_beside(alloc: Global, item: &PlacedItem, left: &Row, right: &Row) -> Result<Value, Memory>
    requires { is_column item.now ≡ true }
    ensures { IfOk result (λ found. found ≡ placed_over ((left.now ++ right.now) ∷ []) item.now) }
{
    match item {
        PlacedItem::Column(place) => {
            let nought = Value::Int(0);
            value_beside(left, right, *place, &nought).copy(alloc)
        }
        PlacedItem::Value(_) | PlacedItem::Total(_) => unreachable!(),
    }
}

/// The row that an arm whose items are columns makes of two rows side by side.
fn columns_beside(alloc: Global, arm: &PlacedArm, left: &Row, right: &Row) -> Result<Row, Memory>
    requires { list_all is_column arm.now.items ≡ true }
    ensures { IfOk result (λ row. row ≡ made_of arm.now ((left.now ++ right.now) ∷ [])) }
{
    let items = arm.items.as_slice();
    let mut values = Vec::with_capacity(alloc, items.len())?;
    for item in items {
        values.push(column_beside(alloc, item, left, right)?)?;
    }
    Ok(Row::of(values))
}

/// The row of two rows side by side, if they match. They are put side by side only where they match
/// ON, and the arm does more than copy columns under their own names.
fn row_of_match(
    alloc: Global,
    arm: &PlacedArm,
    on: &[(u8, u8)],
    left: &Row,
    right: &Row,
) -> Result<Option<Row>, Memory>
    requires { CanMatch arm.now on.now (left.now ++ right.now) }
    ensures { IfOk result (λ made. option_to_list made
        ≡ rows_of_match arm.now on.now (left.now ++ right.now)) }
{
    if !is_matched_beside(left, right, on) {
        return Ok(None);
    }
    if copies_columns(arm) {
        return Ok(Some(columns_beside(alloc, arm, left, right)?));
    }
    let pair = side_by_side(alloc, left, right)?;
    if !holds(alloc, &arm.cond, &pair)? {
        return Ok(None);
    }
    Ok(Some(made_row(alloc, arm, &[&pair])?))
}

/// Adds the row of two rows side by side, if they match.
fn add_match(
    alloc: Global,
    arm: &PlacedArm,
    on: &[(u8, u8)],
    left: &Row,
    right: &Row,
    made: &mut Vec<Row>,
) -> Result<(), Memory>
    requires { CanMatch arm.now on.now (left.now ++ right.now) }
    ensures { OnOk result (made.new.items ≡ made.old.items
        ++ rows_of_match arm.now on.now (left.now ++ right.now)) }
{
    let Some(row) = row_of_match(alloc, arm, on, left, right)? else {
        return Ok(());
    };
    made.push(row)?;
    Ok(())
}

/// Adds the rows of the pairs of one row of FROM.
fn add_matches(
    alloc: Global,
    arm: &PlacedArm,
    on: &[(u8, u8)],
    left: &Row,
    join: &[&Row],
    made: &mut Vec<Row>,
) -> Result<(), Memory>
    requires { All (λ right. CanMatch arm.now on.now (left.now ++ right.now)) join.now }
    ensures { OnOk result (made.new.items ≡ made.old.items
        ++ flat_map (λ right. rows_of_match arm.now on.now (left.now ++ right.now)) join.now) }
{
    for right in join {
        add_match(alloc, arm, on, left, right, made)?;
    }
    Ok(())
}

/// The rows of an arm with JOIN.
fn rows_of_pairs(
    alloc: Global,
    arm: &PlacedArm,
    on: &[(u8, u8)],
    from: &[&Row],
    join: &[&Row],
) -> Result<Vec<Row>, Memory>
    requires on { arm.now.on ≡ Some on.now }
    requires one { AreOfOne arm.now.kind arm.now (map (λ row. row.now) from.now) }
    requires can { CanMake arm.now (map (λ row. row.now) from.now) (map (λ row. row.now) join.now) }
    ensures { IfOk result (λ made. made.items
        ≡ placed_rows arm.now (map (λ row. row.now) from.now) (map (λ row. row.now) join.now)) }
{
    let mut made = Vec::new(alloc);
    for left in from {
        add_matches(alloc, arm, on, left, join, &mut made)?;
    }
    Ok(made)
}

/// The rows that an arm makes of rows of FROM, which are of one group where it has groups, and of
/// rows of JOIN. It looks at each pair of a row of FROM and one of JOIN.
pub(crate) fn rows_made(
    alloc: Global,
    arm: &PlacedArm,
    from: &[&Row],
    join: &[&Row],
) -> Result<Vec<Row>, Memory>
    requires one { AreOfOne arm.now.kind arm.now (map (λ row. row.now) from.now) }
    requires can { CanMake arm.now (map (λ row. row.now) from.now) (map (λ row. row.now) join.now) }
    ensures { IfOk result (λ made. made.items
        ≡ placed_rows arm.now (map (λ row. row.now) from.now) (map (λ row. row.now) join.now)) }
{
    match &arm.on {
        None => rows_alone(alloc, arm, from),
        Some(on) => rows_of_pairs(alloc, arm, on.as_slice(), from, join),
    }
}

/// The row that an arm without JOIN, which goes by rows, makes of one row, if it satisfies its
/// condition.
fn row_alone(alloc: Global, arm: &PlacedArm, from: &Row) -> Result<Option<Row>, Memory>
    requires by_row { IsTrue (is_by_row arm.now.kind) }
    requires can { CanMakeOf arm.now (from.now ∷ []) }
    ensures { IfOk result (λ made. option_to_list made ≡ rows_made_of arm.now (from.now ∷ [])) }
{
    if !holds(alloc, &arm.cond, from)? {
        return Ok(None);
    }
    Ok(Some(made_row(alloc, arm, &[from])?))
}

/// The row that an arm, which goes by rows, makes of a row of FROM and one of JOIN: of the former
/// alone where it has no JOIN, and none where it has one and there is no row of it. No list of rows
/// is made.
pub(crate) fn row_made(
    alloc: Global,
    arm: &PlacedArm,
    from: &Row,
    join: Option<&Row>,
) -> Result<Option<Row>, Memory>
    requires by_row { IsTrue (is_by_row arm.now.kind) }
    requires can { CanMake arm.now (from.now ∷ [])
        (option_to_list (option_map (λ row. row.now) join)) }
    ensures { IfOk result (λ made. option_to_list made
        ≡ placed_rows arm.now (from.now ∷ []) (option_to_list (option_copied join.entry))) }
{
    let Some(on) = &arm.on else {
        return row_alone(alloc, arm, from);
    };
    match join {
        Some(join) => row_of_match(alloc, arm, on.as_slice(), from, join),
        None => Ok(None),
    }
}
