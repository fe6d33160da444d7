//! The rows that come from granules, each under its key, table by table.

ghost use Rattle.std.specs.Prelude.{◌≡◌, ◌<◌, ◌++◌, ◌∷◌, [], List, flat_map, length, map, IfOk, IfSome, OnOk};
ghost use Rattle.bf_base.specs.Tables.{cell, key_of};
ghost use Rattle.bf_sql.specs.migrations.Granules.{part_of};
ghost use Rattle.bf_image.specs.FrozenUnits.{IsUnitIn};
ghost use Rattle.bf_image.specs.Migrations.{IsLawfulMigration, old_of, target_at, value_indexes};
ghost use Rattle.bf_store.specs.Puts.{AreImages, ArePuts, Put};

use bf_base::{Granule, Key, Memory, Place, Row, Table, Value};
use bf_image::{FrozenUnit, Migration, ValueIndexes};
use bf_live::Puts;
use std::alloc::Global;
use std::marker::Model;

/// The rows that come from granules of a migration, each under its key, table by table: what a move of
/// them puts. Contracts see the table of each target with its rows.
#[derive(Drop)]
pub struct Images {
    puts: Vec<Puts>,
}

impl Model for Images {
    ghost use Rattle.std.specs.Prelude.{List};
    ghost use Rattle.bf_live.specs.Live.{NamedRows};

    ghost Value = { List NamedRows };

    ghost view = { λ images. images.puts.items };
}

impl Images {
    /// The images of some granules of a migration, by its old rows by their values. It costs what the granules
    /// have. No store is asked, so they can be made beside others that change it.
    ///
    /// # Errors
    /// Where memory runs out.
    pub fn of(
        alloc: Global,
        migration: &Migration,
        indexes: &ValueIndexes,
        granules: &[Granule],
    ) -> Result<Images, Memory>
        requires lawful { IsLawfulMigration migration.now }
        requires indexed { indexes.now ≡ value_indexes migration.now }
        ensures { IfOk result (AreImages migration.now granules.now) }
    {
        let puts = puts(alloc, migration, indexes, granules)?;
        Ok(Images { puts })
    }

    /// What is put.
    pub(crate) fn into_puts(self) -> Vec<Puts>
        ensures { result.items ≡ self }
    {
        self.puts
    }
}

/// The value of a column of a row.
fn value_at(alloc: Global, row: &Row, place: u8) -> Result<Value, Memory>
    ensures { IfOk result (λ value. value ≡ cell row.now place) }
{
    match row.as_slice().get(place as usize) {
        Some(value) => value.copy(alloc),
        None => Ok(Value::Int(0)),
    }
}

/// The key of a row of a table.
fn key_under(alloc: Global, table: &Table, row: &Row) -> Result<Key, Memory>
    ensures { IfOk result (λ key. key ≡ key_of table.now row.now) }
{
    let places = table.key.as_slice();
    let mut values = Vec::with_capacity(alloc, places.len())?;
    for place in places {
        values.push(value_at(alloc, row, *place)?)?;
    }
    Ok(Key::of(values))
}

/// No rows for each target.
fn no_puts(alloc: Global, migration: &Migration) -> Result<Vec<Puts>, Memory>
    requires { IsLawfulMigration migration.now }
    ensures { IfOk result (λ puts. ArePuts migration.now [] puts.items) }
{
    let tables = migration.plan.tables.as_slice();
    let mut puts = Vec::with_capacity(alloc, tables.len())?;
    for table in tables {
        puts.push(Puts::new(alloc, table.name.copy(alloc)?))?;
    }
    Ok(puts)
}

/// Puts a row of a target under its key behind others.
fn put_row(
    alloc: Global,
    migration: &Migration,
    target: u8,
    row: Row,
    puts: &mut Vec<Puts>,
) -> Result<(), Memory>
    requires { IsLawfulMigration migration.now }
    ensures { (so_far : List Put) → ArePuts migration.now so_far puts.old.items → OnOk result
        (0 < length (target_at migration.now target).arms → ArePuts migration.now
        (so_far ++ (target_at migration.now target, row) ∷ []) puts.new.items) }
{
    let Some(table) = migration.plan.tables.as_slice().get(target as usize) else {
        return Ok(());
    };
    let key = key_under(alloc, table, &row)?;
    match puts.get_mut(target as usize) {
        Some(own) => own.push(key, row),
        None => Ok(()),
    }
}

/// The unit of a number: the last one, if it has that number, and else looked up, which costs what
/// [`FrozenUnit::of`] does.
fn unit_of<'a>(
    alloc: Global,
    migration: &'a Migration,
    indexes: &'a ValueIndexes,
    last: Option<FrozenUnit<'a>>,
    number: u8,
) -> Result<FrozenUnit<'a>, Memory>
    requires lawful { IsLawfulMigration migration.now }
    requires indexed { indexes.now ≡ value_indexes migration.now }
    requires last { IfSome last (IsUnitIn migration.now) }
    ensures unit { IfOk result (IsUnitIn migration.now) }
    ensures number { IfOk result (λ unit. unit.number ≡ number) }
{
    match last {
        Some(unit) if unit.number == number => Ok(unit),
        _ => FrozenUnit::of(alloc, migration, indexes, number),
    }
}

/// The position behind the granules at the front that are of one unit and go by rows at positions that
/// follow one another; 0 where the first goes by a value.
fn run_end(granules: &[Granule]) -> u32 {
    let Some(first) = granules.first() else {
        return 0;
    };
    let Place::Row(start) = first.place else {
        return 0;
    };
    let unit = first.unit;
    let mut end = start;
    for granule in granules {
        let place = Place::Row(end);
        if *granule != (Granule { unit, place }) {
            return end;
        }
        end = end.saturating_add(1);
    }
    end
}

/// Reads old rows of a unit ahead of their use from a place on, as [`bf_heap::FrozenHeap::read_on`] does;
/// none where the unit goes by values. Takes no memory.
fn read_on(unit: &FrozenUnit<'_>, place: &Place, end: u32, read: u32) -> u32 {
    match (unit.driver, place) {
        (Some(driver), Place::Row(position)) => driver.rows.heap().read_on(*position, end, read),
        _ => read,
    }
}

/// The rows that come from some granules, in one list, each with the number of its target. The tables of
/// a unit are looked up once for granules of it that stand together.
fn rows_of_all(
    alloc: Global,
    migration: &Migration,
    indexes: &ValueIndexes,
    granules: &[Granule],
) -> Result<Vec<(u8, Row)>, Memory>
    requires lawful { IsLawfulMigration migration.now }
    requires indexed { indexes.now ≡ value_indexes migration.now }
    ensures { IfOk result (λ rows. map (λ p. (target_at migration.now p.0, p.1)) rows.items
        ≡ flat_map (part_of (old_of migration.now) migration.now.plan.migrate) granules.now) }
{
    let mut rows = Vec::with_capacity(alloc, granules.len())?;
    let mut last = None;
    let end = run_end(granules);
    let mut read = 0;
    for granule in granules {
        let unit = unit_of(alloc, migration, indexes, last, granule.unit)?;
        read = read_on(&unit, &granule.place, end, read);
        unit.add_rows_of(alloc, &granule.place, &mut rows)?;
        last = Some(unit);
    }
    Ok(rows)
}

/// The rows that come from some granules, each under its key, table by table. They are gathered in one list and parted.
fn puts(
    alloc: Global,
    migration: &Migration,
    indexes: &ValueIndexes,
    granules: &[Granule],
) -> Result<Vec<Puts>, Memory>
    requires lawful { IsLawfulMigration migration.now }
    requires indexed { indexes.now ≡ value_indexes migration.now }
    ensures { IfOk result (λ puts. AreImages migration.now granules.now puts.items) }
{
    let rows = rows_of_all(alloc, migration, indexes, granules)?;
    let mut puts = no_puts(alloc, migration)?;
    for (target, row) in rows {
        put_row(alloc, migration, target, row, &mut puts)?;
    }
    Ok(puts)
}

/// What a move of some granules puts: their images where these were made, and else the rows that are made now.
///
/// # Errors
/// Where memory runs out.
pub(crate) fn puts_for(
    alloc: Global,
    migration: &Migration,
    indexes: &ValueIndexes,
    granules: &[Granule],
    images: Option<Images>,
) -> Result<Vec<Puts>, Memory>
    requires lawful { IsLawfulMigration migration.now }
    requires indexed { indexes.now ≡ value_indexes migration.now }
    requires images { IfSome images (AreImages migration.now granules.now) }
    ensures { IfOk result (λ puts. AreImages migration.now granules.now puts.items) }
{
    match images {
        Some(images) => Ok(images.into_puts()),
        None => puts(alloc, migration, indexes, granules),
    }
}
