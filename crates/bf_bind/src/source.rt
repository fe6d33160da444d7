//! The tables of an arm: FROM, and JOIN if there is one.

ghost use Rattle.std.specs.Prelude.{◌≡◌, ◌≤◌, ◌+◌, ◌++◌, IfOk, length, map};
ghost use Rattle.bf_base.specs.Limits.{most_columns};
ghost use Rattle.bf_tree.specs.Limits.{HasNarrowTables};
ghost use Rattle.bf_tree.specs.Settling.{Settles};
ghost use Rattle.bf_sql.specs.Bound.{without_rows};
ghost use Rattle.bf_sql.specs.Database.{IsDatabase, table_at};
ghost use Rattle.bf_sql.specs.migrations.MigrationObjections.{source_objections};
ghost use Rattle.bf_bind.specs.Parts.{seen_as};
ghost use Rattle.bf_bind.specs.ArmTables.{arm_tables, both_tables, one_table, tables_objections};

use crate::scope::Scope;
use bf_base::{Column, Memory, Name, Sequence, Table};
use bf_tree::{Arm, Catalog, Refusal, StatementError};
use std::alloc::Global;

/// The columns of an arm: where its refs are looked up, the columns of FROM and then of JOIN, how many
/// FROM has, and the places of the key of each among them.
#[derive(Drop)]
pub struct ArmTables<'a> {
    pub scope: Scope<'a>,
    pub columns: Sequence<Column>,
    pub width: usize,
    pub from_key: Sequence<usize>,
    pub join_key: Sequence<usize>,
}

/// The table of a name, which has to be there. It compares about log n names.
fn expect_source<'a>(
    alloc: Global,
    catalog: &'a Catalog,
    name: &Name,
) -> Result<&'a Table, StatementError>
    requires narrow { HasNarrowTables catalog.now }
    ensures table { Settles (seen_as (λ table. table.now) result)
        (source_objections (without_rows catalog.now) name.now)
        (table_at (without_rows catalog.now) name.now) }
    ensures narrow { IfOk result (λ table. length table.now.columns ≤ most_columns) }
{
    match catalog.table(name) {
        Some(table) => Ok(table),
        None => Err(StatementError::Refused(Refusal::SourceUnknown(name.copy(alloc)?))),
    }
}

/// The places of a key in rows where so many columns stand before the table's own.
pub(crate) fn places_behind(
    alloc: Global,
    before: usize,
    key: &[u8],
) -> Result<Sequence<usize>, Memory>
    requires { before ≤ most_columns }
    ensures { IfOk result (λ places. places ≡ map (λ place. before + place) key.now) }
{
    let mut places = Vec::with_capacity(alloc, key.len())?;
    for place in key {
        places.push(before + *place as usize)?;
    }
    Ok(Sequence::of(places))
}

/// The columns of one table, and then of another.
fn columns_of_both(
    alloc: Global,
    from: &[Column],
    join: &[Column],
) -> Result<Sequence<Column>, Memory>
    ensures { IfOk result (λ columns. columns ≡ from.now ++ join.now) }
{
    let mut columns = Vec::new(alloc);
    for column in from {
        columns.push(column.copy(alloc)?)?;
    }
    for other in join {
        columns.push(other.copy(alloc)?)?;
    }
    Ok(Sequence::of(columns))
}

/// One table.
fn alone<'a>(alloc: Global, from: &'a Table) -> Result<ArmTables<'a>, Memory>
    requires { length from.now.columns ≤ most_columns }
    ensures { IfOk result (λ tables. tables ≡ one_table from.now) }
{
    let columns = from.columns.copy(alloc)?;
    let from_key = places_behind(alloc, 0, from.key.as_slice())?;
    Ok(ArmTables {
        scope: Scope::of(from),
        columns,
        width: from.columns.len(),
        from_key,
        join_key: Sequence::of(Vec::new(alloc)),
    })
}

/// Two tables.
fn joined<'a>(alloc: Global, from: &'a Table, join: &'a Table) -> Result<ArmTables<'a>, Memory>
    requires from { length from.now.columns ≤ most_columns }
    requires join { length join.now.columns ≤ most_columns }
    ensures { IfOk result (λ tables. tables ≡ both_tables from.now join.now) }
{
    let columns = columns_of_both(alloc, from.columns.as_slice(), join.columns.as_slice())?;
    let width = from.columns.len();
    let from_key = places_behind(alloc, 0, from.key.as_slice())?;
    let join_key = places_behind(alloc, width, join.key.as_slice())?;
    Ok(ArmTables {
        scope: Scope::joined(from, join),
        columns,
        width,
        from_key,
        join_key,
    })
}

/// The tables of an arm, with their columns as a row of the one with a row of the other behind it has
/// them. Each is looked up by about log n compares of names, and its columns are copied.
///
/// # Errors
/// The first of FROM and JOIN that is not there, or that both are one table. Or memory ran out.
pub fn bind_tables<'a>(
    alloc: Global,
    catalog: &'a Catalog,
    arm: &Arm,
) -> Result<ArmTables<'a>, StatementError>
    requires narrow { HasNarrowTables catalog.now }
    ensures { Settles result (tables_objections (without_rows catalog.now) arm.now)
        (arm_tables (without_rows catalog.now) arm.now) }
{
    let from = expect_source(alloc, catalog, &arm.from)?;
    let Some(join) = &arm.join else {
        return Ok(alone(alloc, from)?);
    };
    let other = expect_source(alloc, catalog, &join.table)?;
    if arm.from == join.table {
        return Err(StatementError::Refused(Refusal::NameTwice(arm.from.copy(alloc)?)));
    }
    Ok(joined(alloc, from, other)?)
}
