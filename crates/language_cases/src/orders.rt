//! Orders of keys, rows and granules.

use crate::values::{put_values_of, row_of};
use anyhow::Context;
use bf_base::{Granule, Key, Place};
use std::alloc::Global;
use std::cmp::Ordering;

/// The sign of an order.
fn sign_of(order: Ordering) -> char {
    match order {
        Ordering::Less => '<',
        Ordering::Equal => '=',
        Ordering::Greater => '>',
    }
}

/// The key of the values that words write.
fn key_of(alloc: Global, words: &str) -> anyhow::Result<Key> {
    let mut values = Vec::new(alloc);
    put_values_of(alloc, words, &mut values)?;
    Ok(Key::of(values))
}

/// Adds the order of two keys, and `?` where `==` or `<` tells otherwise.
fn tell_key_order(key: &Key, other: &Key, told: &mut String) -> anyhow::Result<()> {
    let order = key.cmp(other);
    told.push(sign_of(order))?;
    if (key == other) != order.is_eq() || (key < other) != order.is_lt() {
        told.push('?')?;
    }
    Ok(())
}

/// Adds the order of the keys of two lines, and of their rows, of which the first is copied.
fn tell_order(alloc: Global, left: &str, right: &str, told: &mut String) -> anyhow::Result<()> {
    tell_key_order(&key_of(alloc, left)?, &key_of(alloc, right)?, told)?;
    let row = row_of(alloc, left)?.copy(alloc)?;
    told.push(sign_of(row.cmp(&row_of(alloc, right)?)))?;
    Ok(())
}

/// Adds a line for each line, with the orders of its key and row and those of each line.
pub fn tell_keys(alloc: Global, text: &str, told: &mut String) -> anyhow::Result<()> {
    for left in text.split("\n") {
        for right in text.split("\n") {
            tell_order(alloc, left, right, told)?;
        }
        told.push('\n')?;
    }
    Ok(())
}

/// The granule of a unit at a position, or where values stand behind them at the group of these.
fn granule_of(alloc: Global, line: &str) -> anyhow::Result<Granule> {
    let (unit, rest) = line.split_once(" ").context("a unit alone")?;
    let unit = unit.parse::<u8>()?;
    let place = match rest.split_once(" ") {
        Some((_, group)) => Place::Group(key_of(alloc, group)?),
        None => Place::Row(rest.parse::<u32>()?),
    };
    Ok(Granule { unit, place })
}

/// Adds the order of the granules of two lines, of which the first is copied, and `?` where the copy is another.
fn tell_granule(alloc: Global, left: &str, right: &str, told: &mut String) -> anyhow::Result<()> {
    let granule = granule_of(alloc, left)?;
    let copy = granule.copy(alloc)?;
    told.push(sign_of(copy.cmp(&granule_of(alloc, right)?)))?;
    if copy != granule {
        told.push('?')?;
    }
    Ok(())
}

/// Adds a line for each line, with the orders of its granule and that of each line.
pub fn tell_granules(alloc: Global, text: &str, told: &mut String) -> anyhow::Result<()> {
    for left in text.split("\n") {
        for right in text.split("\n") {
            tell_granule(alloc, left, right, told)?;
        }
        told.push('\n')?;
    }
    Ok(())
}
