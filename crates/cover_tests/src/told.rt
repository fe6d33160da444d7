//! Covers as texts: each granule as its unit, a colon, and its position or its value, with a space
//! between.

ghost use Rattle.bf_live.specs.Replies.{IsWellBound};
ghost use Rattle.bf_image.specs.Migrations.{IsLawfulMigration};

use bf_base::{Granule, Memory, Place};
use bf_image::{Migration, ValueIndexes};
use bf_text::{put_number, put_values};
use bf_transpose::cover::{Cover, can_need, cover_of};
use bf_tree::Bound;
use std::alloc::Global;

/// What is told of a cover: its granules, its numbers, or its numbers where there is no migration.
#[derive(Clone, Copy)]
pub enum Part {
    Granules,
    Numbers,
    NumbersAlone,
}

/// Adds a text.
pub fn put(out: &mut Vec<u8>, text: &str) -> Result<(), Memory> {
    out.extend_from_slice(text.as_bytes())?;
    Ok(())
}

fn put_place(out: &mut Vec<u8>, place: &Place) -> Result<(), Memory> {
    match place {
        Place::Row(position) => put_number(out, u64::from(*position)),
        Place::Group(value) => {
            put(out, "(")?;
            put_values(out, value.as_slice())?;
            put(out, ")")
        }
    }
}

fn put_granules(out: &mut Vec<u8>, granules: &[Granule]) -> Result<(), Memory> {
    let mut between = "";
    for granule in granules {
        put(out, between)?;
        put_number(out, u64::from(granule.unit))?;
        put(out, ":")?;
        put_place(out, &granule.place)?;
        between = " ";
    }
    Ok(())
}

/// The cover of a statement while a migration runs.
fn cover_in(alloc: Global, migration: &Migration, bound: &Bound) -> Result<Cover, Memory>
    requires lawful { IsLawfulMigration migration.now }
    requires bound { IsWellBound bound.now.action }
{
    let indexes = ValueIndexes::of(alloc, migration)?;
    cover_of(alloc, bound, Some((migration, &indexes)))
}

/// The granules that a statement needs, as a text, or `nothing` where it can need none.
fn granules_told(alloc: Global, migration: &Migration, bound: &Bound) -> Result<Vec<u8>, Memory>
    requires lawful { IsLawfulMigration migration.now }
    requires bound { IsWellBound bound.now.action }
{
    let cover = cover_in(alloc, migration, bound)?;
    let mut out = Vec::new(alloc);
    put_granules(&mut out, cover.granules.as_slice())?;
    if !can_need(bound, migration) {
        put(&mut out, "nothing")?;
    }
    Ok(out)
}

/// The numbers of a cover, as a text.
fn numbers(alloc: Global, cover: &Cover) -> Result<Vec<u8>, Memory> {
    let mut out = Vec::new(alloc);
    put(&mut out, "catalog ")?;
    put_number(&mut out, cover.catalog)?;
    put(&mut out, " migration ")?;
    put_number(&mut out, u64::from(cover.migration))?;
    Ok(out)
}

/// The numbers of the cover of a statement while a migration runs, as a text.
fn numbers_told(alloc: Global, migration: &Migration, bound: &Bound) -> Result<Vec<u8>, Memory>
    requires lawful { IsLawfulMigration migration.now }
    requires bound { IsWellBound bound.now.action }
{
    let cover = cover_in(alloc, migration, bound)?;
    numbers(alloc, &cover)
}

/// The numbers of the cover of a statement before any migration, as a text.
fn numbers_without(alloc: Global, bound: &Bound) -> Result<Vec<u8>, Memory>
    requires { IsWellBound bound.now.action }
{
    let cover = cover_of(alloc, bound, None)?;
    numbers(alloc, &cover)
}

/// A part of the cover of a statement while a migration runs, as a text.
pub fn part_told(
    alloc: Global,
    part: Part,
    migration: &Migration,
    bound: &Bound,
) -> Result<Vec<u8>, Memory>
    requires lawful { IsLawfulMigration migration.now }
    requires bound { IsWellBound bound.now.action }
{
    match part {
        Part::Granules => granules_told(alloc, migration, bound),
        Part::Numbers => numbers_told(alloc, migration, bound),
        Part::NumbersAlone => numbers_without(alloc, bound),
    }
}
