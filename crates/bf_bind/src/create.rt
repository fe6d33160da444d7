//! New tables and indexes.

ghost use Rattle.std.specs.Prelude.{◌≡◌, ◌≤◌, length, map};
ghost use Rattle.bf_base.specs.Limits.{most_columns};
ghost use Rattle.bf_base.specs.Lists.{has, same_name};
ghost use Rattle.bf_tree.specs.Settling.{Settles};
ghost use Rattle.bf_sql.specs.Bound.{without_rows};
ghost use Rattle.bf_sql.specs.Database.{IsDatabase};
ghost use Rattle.bf_sql.specs.Meaning.{admit_of, index_of, created_table};
ghost use Rattle.bf_sql.specs.Objections.{form_objections, new_index_objections, new_table_objections, rule_names, rules_objections};
ghost use Rattle.bf_bind.specs.Parts.{new_column, rule_objections};

use crate::scope::places_named;
use bf_base::{Admit, Column, LONGEST_TEXT, Name, Sequence, Table};
use bf_tree::{Catalog, ColumnForm, ColumnRule, IndexRule, Refusal, StatementError};
use std::alloc::Global;

/// What a column of a name admits by its form.
fn admitted(alloc: Global, name: &Name, form: &ColumnForm) -> Result<Admit, StatementError>
    ensures { Settles result (form_objections name.now form.now) (admit_of form.now) }
{
    match form {
        ColumnForm::Int => Ok(Admit::Int),
        ColumnForm::Checked(checked, low, high) => {
            if *name != *checked {
                return Err(StatementError::Refused(Refusal::NoColumn(checked.copy(alloc)?)));
            }
            if *high < *low {
                return Err(StatementError::Refused(Refusal::OutOfRange));
            }
            Ok(Admit::Checked(*low, *high))
        }
        ColumnForm::Varchar(most) => {
            if 1 <= *most && *most <= LONGEST_TEXT as u64 {
                Ok(Admit::Varchar(*most as u8))
            } else {
                Err(StatementError::Refused(Refusal::TooLong))
            }
        }
    }
}

/// Whether a name is that of one of some columns.
fn is_declared(name: &Name, rules: &[ColumnRule]) -> bool
    ensures { result ≡ has same_name (rule_names rules.now) name.now }
{
    rules.iter().any(|rule| *name == rule.name)
}

/// A column of a new table, behind those before it.
fn bind_rule(
    alloc: Global,
    before: &[ColumnRule],
    rule: &ColumnRule,
) -> Result<Column, StatementError>
    ensures { Settles result (rule_objections before.now rule.now) (new_column rule.now) }
{
    if is_declared(&rule.name, before) {
        return Err(StatementError::Refused(Refusal::NameTwice(rule.name.copy(alloc)?)));
    }
    let admits = admitted(alloc, &rule.name, &rule.form)?;
    let name = rule.name.copy(alloc)?;
    Ok(Column { name, admits })
}

fn bind_rules(alloc: Global, rules: &[ColumnRule]) -> Result<Sequence<Column>, StatementError>
    ensures { Settles result (rules_objections rules.now) (map new_column rules.now) }
{
    let mut columns = Vec::with_capacity(alloc, rules.len())?;
    for (index, rule) in rules.iter().enumerate() {
        columns.push(bind_rule(alloc, &rules[..index], rule)?)?;
    }
    Ok(Sequence::of(columns))
}

/// The table that CREATE TABLE makes.
pub(crate) fn bind_table(
    alloc: Global,
    catalog: &Catalog,
    name: &Name,
    rules: &[ColumnRule],
    key: &[Name],
) -> Result<Table, StatementError>
    requires database { IsDatabase (without_rows catalog.now) }
    requires declared { length rules.now ≤ most_columns }
    ensures { Settles result
        (new_table_objections (without_rows catalog.now) name.now rules.now key.now)
        (created_table name.now rules.now key.now) }
{
    if catalog.table(name).is_some() {
        return Err(StatementError::Refused(Refusal::TableExists(name.copy(alloc)?)));
    }
    let columns = bind_rules(alloc, rules)?;
    let mut table = Table {
        name: name.copy(alloc)?,
        columns,
        key: Sequence::of(Vec::new(alloc)),
    };
    table.key = places_named(alloc, &table, key)?;
    Ok(table)
}

/// The index that CREATE INDEX makes on a table.
pub(crate) fn bind_index(
    alloc: Global,
    catalog: &Catalog,
    name: &Name,
    table: &Table,
    columns: &[Name],
) -> Result<IndexRule, StatementError>
    requires database { IsDatabase (without_rows catalog.now) }
    requires narrow { length table.now.columns ≤ most_columns }
    ensures { Settles result
        (new_index_objections (without_rows catalog.now) name.now table.now columns.now)
        (index_of name.now table.now columns.now) }
{
    let places = places_named(alloc, table, columns)?;
    if catalog.index(name).is_some() {
        return Err(StatementError::Refused(Refusal::IndexExists(name.copy(alloc)?)));
    }
    let name = name.copy(alloc)?;
    let on = table.name.copy(alloc)?;
    Ok(IndexRule {
        name,
        table: on,
        columns: places,
    })
}
