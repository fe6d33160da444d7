//! A catalog of many tables, made in falling order of their names.

ghost use Rattle.std.specs.Prelude.{◌≡◌, IfOk};
ghost use Rattle.bf_base.specs.Names.{folded};

use anyhow::bail;
use bf_base::{Name, Sequence, Table};
use bf_tree::Catalog;
use std::alloc::Global;

const TABLES: u16 = 4000;

/// `t` and four digits.
fn spelt(number: u16) -> [u8; 5] {
    let digit = |place: u16| b'0' + (number / place % 10) as u8;
    [b't', digit(1000), digit(100), digit(10), digit(1)]
}

/// A table without columns.
fn table(alloc: Global, letters: &[u8]) -> anyhow::Result<Table>
    ensures { IfOk result (λ table. table.name ≡ folded letters.now) }
{
    Ok(Table {
        name: Name::of(alloc, letters)?,
        columns: Sequence::of(Vec::new(alloc)),
        key: Sequence::of(Vec::new(alloc)),
    })
}

fn fallen(alloc: Global) -> anyhow::Result<Catalog> {
    let mut catalog = Catalog::new(alloc);
    for number in (0..TABLES).rev() {
        let table = table(alloc, spelt(number).as_slice())?;
        if catalog.table(&table.name).is_some() {
            bail!("a name comes twice");
        }
        catalog.add_table(table)?;
    }
    Ok(catalog)
}

/// The number of the first table that does not stand at its place in the order.
fn first_misplaced(catalog: &Catalog) -> Option<u16> {
    let mut number = 0;
    for table in catalog.tables() {
        if number >= TABLES || table.name.as_bytes() != spelt(number).as_slice() {
            return Some(number);
        }
        number += 1;
    }
    if number == TABLES { None } else { Some(number) }
}

/// Whether there is a table of a number.
fn is_there(alloc: Global, catalog: &Catalog, number: u16) -> anyhow::Result<bool> {
    let name = Name::of(alloc, spelt(number).as_slice())?;
    Ok(catalog.table(&name).is_some())
}

/// Tells of tables that are made in falling order how many changes they are, which is the first that does not stand in
/// rising order, and whether one of them and the one behind the last are there.
pub fn tell_catalog(alloc: Global, told: &mut String) -> anyhow::Result<()> {
    let catalog = fallen(alloc)?;
    let changes = catalog.number();
    let misplaced = first_misplaced(&catalog);
    let one = is_there(alloc, &catalog, 7)?;
    let behind = is_there(alloc, &catalog, TABLES)?;
    write!(
        told,
        "catalog of {changes} changes: misplaced {misplaced:?}, 7 there {one}, 4000 there {behind}"
    )?;
    Ok(())
}
