//! Records of schema changes.

ghost use Rattle.std.specs.Prelude.{◌≡◌, IfOk, IsTrue, Ok, OnErr, false, map, true};
ghost use Rattle.bf_record.specs.declared.schema.SchemaChange.TheVariants as changes;
ghost use Rattle.bf_sql.specs.Bound.{without_rows};
ghost use Rattle.bf_sql.specs.Database.{IsDatabase, is_within};
ghost use Rattle.bf_tree.specs.Limits.{HasNarrowTables};
ghost use Rattle.bf_recover.specs.Schemas.{created_lazily, is_legal_index, is_legal_schema, is_legal_table, is_refused};
ghost use Rattle.bf_recover.specs.Spoken.{create_index_of, create_table_of, form_of, names_at, rule_of};

use crate::spoken::{is_spoken_index, is_spoken_table};
use bf_base::{Admit, Column, Memory, Name, Sequence, Table};
use bf_bind::bind;
use bf_record::SchemaChange;
use bf_store::Store;
use bf_tree::{Action, Catalog, ColumnForm, ColumnRule, IndexRule, Statement};
use std::alloc::Global;

/// How a column is declared that admits what it does.
fn form_of(alloc: Global, column: &Column) -> Result<ColumnForm, Memory>
    ensures { IfOk result (λ form. form ≡ form_of column.now.name column.now.admits) }
{
    match column.admits {
        Admit::Int => Ok(ColumnForm::Int),
        Admit::Checked(low, high) => Ok(ColumnForm::Checked(column.name.copy(alloc)?, low, high)),
        Admit::Varchar(most) => Ok(ColumnForm::Varchar(u64::from(most))),
    }
}

fn rule_of(alloc: Global, column: &Column) -> Result<ColumnRule, Memory>
    ensures { IfOk result (λ rule. rule ≡ rule_of column.now) }
{
    let form = form_of(alloc, column)?;
    let name = column.name.copy(alloc)?;
    Ok(ColumnRule { name, form })
}

fn rules_of(alloc: Global, columns: &[Column]) -> Result<Sequence<ColumnRule>, Memory>
    ensures { IfOk result (λ rules. rules ≡ map rule_of columns.now) }
{
    let mut rules = Vec::with_capacity(alloc, columns.len())?;
    for column in columns {
        rules.push(rule_of(alloc, column)?)?;
    }
    Ok(Sequence::of(rules))
}

/// The names of the columns at some places.
fn names_at(alloc: Global, table: &Table, places: &[u8]) -> Result<Sequence<Name>, Memory>
    requires { IsTrue (is_within table.now places.now) }
    ensures { IfOk result (λ names. names ≡ names_at table.now places.now) }
{
    let columns = table.columns.as_slice();
    let mut names = Vec::with_capacity(alloc, places.len())?;
    for place in places {
        names.push(columns[*place as usize].name.copy(alloc)?)?;
    }
    Ok(Sequence::of(names))
}

/// The CREATE TABLE that a table stands for.
fn create_table_of(alloc: Global, table: &Table) -> Result<Statement, Memory>
    requires { IsTrue (is_within table.now table.now.key) }
    ensures { IfOk result (λ statement. statement ≡ create_table_of table.now) }
{
    Ok(Statement::CreateTable {
        name: table.name.copy(alloc)?,
        columns: rules_of(alloc, table.columns.as_slice())?,
        key: names_at(alloc, table, table.key.as_slice())?,
    })
}

/// The CREATE INDEX that an index rule on a table stands for.
fn create_index_of(alloc: Global, table: &Table, index: &IndexRule) -> Result<Statement, Memory>
    requires { IsTrue (is_within table.now index.now.columns) }
    ensures { IfOk result (λ statement. statement ≡ create_index_of table.now index.now) }
{
    Ok(Statement::CreateIndex {
        name: index.name.copy(alloc)?,
        table: index.table.copy(alloc)?,
        columns: names_at(alloc, table, index.columns.as_slice())?,
    })
}

fn is_refused(action: &Action) -> bool
    ensures { result ≡ is_refused action.now }
{
    matches!(action, Action::Refused(_))
}

/// Whether a table stands for a CREATE TABLE against which the catalog has nothing. Its time is
/// linear in the table, and it compares about log n names.
fn is_legal_table(alloc: Global, catalog: &Catalog, table: &Table) -> Result<bool, Memory>
    requires database { IsDatabase (without_rows catalog.now) }
    requires narrow { HasNarrowTables catalog.now }
    ensures { IfOk result (λ legal.
        legal ≡ is_legal_table (without_rows catalog.now) table.now) }
{
    if !is_spoken_table(table) {
        return Ok(false);
    }
    let statement = create_table_of(alloc, table)?;
    let bound = bind(alloc, &statement, catalog, false)?;
    Ok(!is_refused(&bound.action))
}

/// Whether an index rule stands for a CREATE INDEX against which the catalog has nothing. Its time is
/// linear in the rule, and it compares about log n names.
fn is_legal_index(alloc: Global, catalog: &Catalog, index: &IndexRule) -> Result<bool, Memory>
    requires database { IsDatabase (without_rows catalog.now) }
    requires narrow { HasNarrowTables catalog.now }
    ensures { IfOk result (λ legal.
        legal ≡ is_legal_index (without_rows catalog.now) index.now) }
{
    let Some(table) = catalog.table(&index.table) else {
        return Ok(false);
    };
    if !is_spoken_index(table, index) {
        return Ok(false);
    }
    let statement = create_index_of(alloc, table, index)?;
    let bound = bind(alloc, &statement, catalog, false)?;
    Ok(!is_refused(&bound.action))
}

/// Adds a table where that is legal; false exactly where it isn't.
///
/// # Errors
/// Where memory runs out, or 2 ^ 64 changes were made. The store is as it was then.
fn add_table(alloc: Global, store: &mut Store, table: Table) -> Result<bool, Memory>
    ensures legal { IfOk result (λ legal. legal ≡ is_legal_table store.old.lazy.live table) }
    ensures applied { result ≡ Ok true
        → store.new.lazy ≡ created_lazily store.old.lazy (changes.Table table) }
    ensures migration { store.new.migration ≡ store.old.migration }
    ensures refused { result ≡ Ok false → store.new ≡ store.old }
    ensures err { OnErr result (store.new ≡ store.old) }
{
    let legal = is_legal_table(alloc, store.live().catalog(), &table)?;
    if !legal {
        return Ok(false);
    }
    store.create_table(table)?;
    Ok(true)
}

/// Adds an index rule where that is legal; false exactly where it isn't.
///
/// # Errors
/// Where memory runs out, or 2 ^ 64 changes were made. The store is as it was then.
fn add_index(alloc: Global, store: &mut Store, index: IndexRule) -> Result<bool, Memory>
    ensures legal { IfOk result (λ legal. legal ≡ is_legal_index store.old.lazy.live index) }
    ensures applied { result ≡ Ok true
        → store.new.lazy ≡ created_lazily store.old.lazy (changes.Index index) }
    ensures migration { store.new.migration ≡ store.old.migration }
    ensures refused { result ≡ Ok false → store.new ≡ store.old }
    ensures err { OnErr result (store.new ≡ store.old) }
{
    let legal = is_legal_index(alloc, store.live().catalog(), &index)?;
    if !legal {
        return Ok(false);
    }
    store.create_index(index)?;
    Ok(true)
}

/// Adds a table or an index rule where that is legal; false exactly where it isn't, and then the
/// store is as it was. Its time is linear in the change, and it compares about log n names.
///
/// # Errors
/// Where memory runs out, or 2 ^ 64 changes were made. The store is as it was then.
pub(crate) fn create(alloc: Global, store: &mut Store, change: SchemaChange) -> Result<bool, Memory>
    ensures legal { IfOk result (λ legal. legal ≡ is_legal_schema store.old.lazy.live change) }
    ensures applied { result ≡ Ok true
        → store.new.lazy ≡ created_lazily store.old.lazy change }
    ensures migration { store.new.migration ≡ store.old.migration }
    ensures refused { result ≡ Ok false → store.new ≡ store.old }
    ensures err { OnErr result (store.new ≡ store.old) }
{
    match change {
        SchemaChange::Table(table) => add_table(alloc, store, table),
        SchemaChange::Index(index) => add_index(alloc, store, index),
    }
}
