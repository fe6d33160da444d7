//! Statements.

ghost use Rattle.std.specs.Prelude.{◌≡◌, ◌≤◌, ◌++◌, ◌&&◌, false, not, IfOk, Some, flat_map, length, map};
ghost use Rattle.bf_base.specs.Limits.{most_columns};
ghost use Rattle.bf_base.specs.Lists.{when};
ghost use Rattle.bf_sql.specs.Bound.{without_rows, bound_of, changes_schema as changes_schema_of, cond_in, items_over, place_in, set_in, is_planned};
ghost use Rattle.bf_sql.specs.Conditions.{condition_of, fixed_key};
ghost use Rattle.bf_sql.specs.Database.{IsDatabase, table_at};
ghost use Rattle.bf_sql.specs.Objections.{items_objections, sets_objections, tuple_objections};
ghost use Rattle.bf_sql.specs.Scopes.{cond_objections, scope_of};
ghost use Rattle.bf_tree.specs.Limits.{HasNarrowTables, KeepsLimits};
ghost use Rattle.bf_tree.specs.Settling.{Settles};
ghost use Rattle.bf_tree.specs.declared.bound.Action.TheVariants as action;
ghost use Rattle.bf_tree.specs.declared.reply.Refusal.TheVariants as refusal;
ghost use Rattle.bf_tree.specs.declared.statement.Statement.TheVariants as statement;
ghost use Rattle.bf_bind.specs.Actions.{Binds};
ghost use Rattle.bf_bind.specs.Parts.{absence_objections, seen_as};

use crate::create::{bind_index, bind_table};
use crate::fixed::bind_selection;
use crate::list::bind_items;
use crate::tuples_and_sets::{bind_sets, bind_tuples};
use bf_base::{Memory, Name, Row, Sequence, Table};
use bf_tree::{
    Action, Bound, Catalog, ColumnRule, List, RawCond, RawExpr, Refusal, Statement, StatementError,
};
use std::alloc::Global;

/// CREATE and MIGRATE stand outside a block.
fn expect_alone(in_block: bool) -> Result<(), StatementError>
    ensures { Settles result (when in_block refusal.MustBeAlone) tt }
{
    if in_block {
        Err(StatementError::Refused(Refusal::MustBeAlone))
    } else {
        Ok(())
    }
}

/// The table of a name, which has to be there. It compares about log n names.
fn expect_table<'a>(
    alloc: Global,
    catalog: &'a Catalog,
    name: &Name,
) -> Result<&'a Table, StatementError>
    requires database { IsDatabase (without_rows catalog.now) }
    requires narrow { HasNarrowTables catalog.now }
    ensures table { Settles (seen_as (λ table. table.now) result)
        (absence_objections (without_rows catalog.now) name.now)
        (table_at (without_rows catalog.now) name.now) }
    ensures narrow { IfOk result (λ table. length table.now.columns ≤ most_columns) }
{
    match catalog.table(name) {
        Some(table) => Ok(table),
        None => Err(StatementError::Refused(Refusal::NoTable(name.copy(alloc)?))),
    }
}

fn bind_insert(
    alloc: Global,
    table: &Table,
    tuples: &Sequence<Row>,
) -> Result<Action, StatementError>
    ensures { Settles result (flat_map (tuple_objections table.now) tuples.now)
        (action.Insert table.now tuples.now) }
{
    let copy = table.copy(alloc)?;
    let rows = bind_tuples(alloc, table, tuples)?;
    Ok(Action::Insert { table: copy, rows })
}

fn bind_select(
    alloc: Global,
    table: &Table,
    list: &List,
    cond: &Option<RawCond>,
) -> Result<Action, StatementError>
    requires { length table.now.columns ≤ most_columns }
    ensures { Settles result (items_objections (scope_of table.now) list.now
        ++ cond_objections (scope_of table.now) (condition_of cond.now))
        (action.Select table.now (items_over (place_in table.now) list.now)
        (cond_in table.now cond.now) (fixed_key table.now (cond_in table.now cond.now))) }
{
    let copy = table.copy(alloc)?;
    let items = bind_items(alloc, table, list)?;
    let selection = bind_selection(alloc, table, cond)?;
    Ok(Action::Select {
        table: copy,
        items,
        cond: selection.cond,
        fixed: selection.fixed,
    })
}

fn bind_update(
    alloc: Global,
    table: &Table,
    sets: &Sequence<(Name, RawExpr)>,
    cond: &Option<RawCond>,
) -> Result<Action, StatementError>
    requires { length table.now.columns ≤ most_columns }
    ensures { Settles result (sets_objections table.now sets.now
        ++ cond_objections (scope_of table.now) (condition_of cond.now))
        (action.Update table.now (map (set_in table.now) sets.now)
        (cond_in table.now cond.now) (fixed_key table.now (cond_in table.now cond.now))) }
{
    let copy = table.copy(alloc)?;
    let sets = bind_sets(alloc, table, sets.as_slice())?;
    let selection = bind_selection(alloc, table, cond)?;
    Ok(Action::Update {
        table: copy,
        sets,
        cond: selection.cond,
        fixed: selection.fixed,
    })
}

fn bind_delete(
    alloc: Global,
    table: &Table,
    cond: &Option<RawCond>,
) -> Result<Action, StatementError>
    requires { length table.now.columns ≤ most_columns }
    ensures { Settles result (cond_objections (scope_of table.now) (condition_of cond.now))
        (action.Delete table.now (cond_in table.now cond.now)
        (fixed_key table.now (cond_in table.now cond.now))) }
{
    let copy = table.copy(alloc)?;
    let selection = bind_selection(alloc, table, cond)?;
    Ok(Action::Delete {
        table: copy,
        cond: selection.cond,
        fixed: selection.fixed,
    })
}

/// BEGIN stands outside a block.
fn bind_begin(in_block: bool) -> Result<Action, StatementError>
    ensures { Settles result (when in_block refusal.InTransaction) action.Begin }
{
    if in_block {
        Err(StatementError::Refused(Refusal::InTransaction))
    } else {
        Ok(Action::Begin)
    }
}

/// COMMIT stands inside a block.
fn bind_commit(in_block: bool) -> Result<Action, StatementError>
    ensures { Settles result (when (not in_block) refusal.NoTransaction) action.Commit }
{
    if in_block {
        Ok(Action::Commit)
    } else {
        Err(StatementError::Refused(Refusal::NoTransaction))
    }
}

/// ROLLBACK stands inside a block.
fn bind_rollback(in_block: bool) -> Result<Action, StatementError>
    ensures { Settles result (when (not in_block) refusal.NoTransaction) action.Rollback }
{
    if in_block {
        Ok(Action::Rollback)
    } else {
        Err(StatementError::Refused(Refusal::NoTransaction))
    }
}

fn bind_create_table(
    alloc: Global,
    catalog: &Catalog,
    name: &Name,
    rules: &Sequence<ColumnRule>,
    key: &Sequence<Name>,
    in_block: bool,
) -> Result<Action, StatementError>
    requires database { IsDatabase (without_rows catalog.now) }
    requires declared { length rules.now ≤ most_columns }
    ensures { Binds result (without_rows catalog.now) in_block
        (statement.CreateTable name.now rules.now key.now) }
{
    expect_alone(in_block)?;
    let table = bind_table(alloc, catalog, name, rules.as_slice(), key.as_slice())?;
    Ok(Action::CreateTable(table))
}

fn bind_create_index(
    alloc: Global,
    catalog: &Catalog,
    name: &Name,
    table: &Name,
    columns: &Sequence<Name>,
    in_block: bool,
) -> Result<Action, StatementError>
    requires database { IsDatabase (without_rows catalog.now) }
    requires narrow { HasNarrowTables catalog.now }
    ensures { Binds result (without_rows catalog.now) in_block
        (statement.CreateIndex name.now table.now columns.now) }
{
    expect_alone(in_block)?;
    let table = expect_table(alloc, catalog, table)?;
    let index = bind_index(alloc, catalog, name, table, columns.as_slice())?;
    Ok(Action::CreateIndex(index))
}

/// What a statement is to do.
fn bind_action(
    alloc: Global,
    statement: &Statement,
    catalog: &Catalog,
    in_block: bool,
) -> Result<Action, StatementError>
    requires alone { is_planned in_block statement.now ≡ false }
    requires database { IsDatabase (without_rows catalog.now) }
    requires limits { KeepsLimits catalog.now statement.now }
    ensures { Binds result (without_rows catalog.now) in_block statement.now }
{
    match statement {
        Statement::CreateTable { name, columns, key } => {
            bind_create_table(alloc, catalog, name, columns, key, in_block)
        }
        Statement::CreateIndex {
            name,
            table,
            columns,
        } => bind_create_index(alloc, catalog, name, table, columns, in_block),
        Statement::Insert { table, tuples } => {
            bind_insert(alloc, expect_table(alloc, catalog, table)?, tuples)
        }
        Statement::Select { list, table, cond } => {
            bind_select(alloc, expect_table(alloc, catalog, table)?, list, cond)
        }
        Statement::Update { table, sets, cond } => {
            bind_update(alloc, expect_table(alloc, catalog, table)?, sets, cond)
        }
        Statement::Delete { table, cond } => {
            bind_delete(alloc, expect_table(alloc, catalog, table)?, cond)
        }
        Statement::Begin => bind_begin(in_block),
        Statement::Commit => bind_commit(in_block),
        Statement::Rollback => bind_rollback(in_block),
        Statement::Migrate(_) => Err(StatementError::Refused(Refusal::MustBeAlone)),
    }
}

/// Whether a statement outside a block changes the schema.
fn is_schema_change(statement: &Statement) -> bool
    ensures { result ≡ changes_schema_of false statement.now }
{
    matches!(
        statement,
        Statement::CreateTable { .. } | Statement::CreateIndex { .. } | Statement::Migrate(_)
    )
}

/// Whether a statement changes the schema, if nothing stands in its way.
fn changes_schema(statement: &Statement, in_block: bool) -> bool
    ensures { result ≡ (changes_schema_of false statement.now && not in_block) }
{
    is_schema_change(statement) && !in_block
}

/// A statement bound in a catalog, in a block or outside: the first objection of the catalog, or
/// what the statement is to do. Its time is linear in the statement, but that each name is looked
/// up: a table or an index by about log n compares of names, a column among those of its table.
///
/// # Errors
/// Memory ran out.
pub fn bind(
    alloc: Global,
    statement: &Statement,
    catalog: &Catalog,
    in_block: bool,
) -> Result<Bound, Memory>
    requires alone { is_planned in_block statement.now ≡ false }
    requires database { IsDatabase (without_rows catalog.now) }
    requires limits { KeepsLimits catalog.now statement.now }
    ensures { IfOk result (λ bound.
        bound_of (without_rows catalog.now) in_block statement.now ≡ Some bound) }
{
    let schema_change = changes_schema(statement, in_block);
    match bind_action(alloc, statement, catalog, in_block) {
        Ok(action) => Ok(Bound {
            catalog: catalog.number(),
            schema_change,
            action,
        }),
        Err(StatementError::Refused(refusal)) => Ok(Bound {
            catalog: catalog.number(),
            schema_change,
            action: Action::Refused(refusal),
        }),
        Err(StatementError::Memory) => Err(Memory),
    }
}
