//! New rows, and the columns that UPDATE sets.

ghost use Rattle.std.specs.Prelude.{◌≡◌, ◌≤◌, [], flat_map, length, map, slice_index_or};
ghost use Rattle.std.specs.List.{list_all, zip};
ghost use Rattle.bf_base.specs.Limits.{most_columns};
ghost use Rattle.bf_base.specs.Lists.{has, same_name};
ghost use Rattle.bf_tree.specs.Settling.{Settles};
ghost use Rattle.bf_sql.specs.Bound.{set_in};
ghost use Rattle.bf_sql.specs.Objections.{key_names, sets_objections, tuple_objections};
ghost use Rattle.bf_bind.specs.Parts.{is_of_kind, set_names, set_objections_of};

use crate::expression::bind_expression;
use crate::scope::{Scope, column_named, expect_kind, is_same_kind, kind_of_column};
use bf_base::{Column, Name, Row, Sequence, Table, Value};
use bf_tree::{Expr, RawExpr, Refusal, StatementError};
use std::alloc::Global;

/// Whether values are of the kinds of their columns.
fn all_fit(columns: &[Column], values: &[Value]) -> bool
    ensures { result ≡ list_all is_of_kind (zip columns.now values.now) }
{
    columns.iter().zip(values).all(|(column, value)| is_same_kind(
        value.kind(),
        kind_of_column(column),
    ))
}

/// A tuple has a value for each column of a table, of its kind.
fn expect_tuple(table: &Table, tuple: &Row) -> Result<(), StatementError>
    ensures { Settles result (tuple_objections table.now tuple.now) tt }
{
    let columns = table.columns.as_slice();
    let values = tuple.as_slice();
    if values.len() != columns.len() {
        return Err(StatementError::Refused(Refusal::WrongCount));
    }
    if all_fit(columns, values) {
        Ok(())
    } else {
        Err(StatementError::Refused(Refusal::TypeMismatch))
    }
}

/// The rows that INSERT puts into a table.
///
/// # Errors
/// The first objection, from the left: the count of a tuple before the kinds of its values.
pub(crate) fn bind_tuples(
    alloc: Global,
    table: &Table,
    tuples: &Sequence<Row>,
) -> Result<Sequence<Row>, StatementError>
    ensures { Settles result (flat_map (tuple_objections table.now) tuples.now) tuples.now }
{
    for tuple in tuples.as_slice() {
        expect_tuple(table, tuple)?;
    }
    Ok(tuples.copy(alloc)?)
}

/// Whether the column at a place has a name.
fn has_name(columns: &[Column], place: u8, name: &Name) -> bool
    ensures { result ≡ same_name name.now
        (slice_index_or (map (λ column. column.name) columns.now) place []) }
{
    let sought = name.as_bytes();
    match columns.get(place as usize) {
        Some(column) => sought == column.name.as_bytes(),
        None => false,
    }
}

/// Whether a name is that of a key column of a table.
fn is_key(table: &Table, name: &Name) -> bool
    ensures { result ≡ has same_name (key_names table.now) name.now }
{
    let columns = table.columns.as_slice();
    table
        .key
        .as_slice()
        .iter()
        .any(|place| has_name(columns, *place, name))
}

/// Whether a name is one of the columns that are set.
fn is_set(name: &Name, sets: &[(Name, RawExpr)]) -> bool
    ensures { result ≡ has same_name (set_names sets.now) name.now }
{
    sets.iter().any(|set| *name == set.0)
}

/// A column that UPDATE sets, behind those before it, and the expression that it is set to.
fn bind_set(
    alloc: Global,
    table: &Table,
    before: &[(Name, RawExpr)],
    set: &(Name, RawExpr),
) -> Result<(u8, Expr), StatementError>
    requires { length table.now.columns ≤ most_columns }
    ensures { Settles result (set_objections_of table.now before.now set.now)
        (set_in table.now set.now) }
{
    let name = &set.0;
    let Some(column) = column_named(table, name) else {
        return Err(StatementError::Refused(Refusal::NoColumn(name.copy(alloc)?)));
    };
    if is_key(table, name) {
        return Err(StatementError::Refused(Refusal::KeyColumn(name.copy(alloc)?)));
    }
    if is_set(name, before) {
        return Err(StatementError::Refused(Refusal::NameTwice(name.copy(alloc)?)));
    }
    let bound = bind_expression(alloc, &Scope::of(table), &set.1)?;
    expect_kind(bound.kind, column.kind)?;
    Ok((column.place, bound.expr))
}

/// The columns that UPDATE sets, by their places, and their expressions.
///
/// # Errors
/// The first objection, from the left. So no more sets are looked at than the table has columns,
/// and one more.
pub(crate) fn bind_sets(
    alloc: Global,
    table: &Table,
    sets: &[(Name, RawExpr)],
) -> Result<Sequence<(u8, Expr)>, StatementError>
    requires { length table.now.columns ≤ most_columns }
    ensures { Settles result (sets_objections table.now sets.now)
        (map (set_in table.now) sets.now) }
{
    let mut bound = Vec::with_capacity(alloc, sets.len())?;
    for (index, set) in sets.iter().enumerate() {
        bound.push(bind_set(alloc, table, &sets[..index], set)?)?;
    }
    Ok(Sequence::of(bound))
}
