//! Whether the items of an arm give its key: which item is the column at a place, and which stand in groups.

ghost use Rattle.std.specs.Prelude.{◌≡◌, ◌<◌, ◌≤◌, IfOk, IfSome, Some, is_some, length, map, nat_eq, not, position};
ghost use Rattle.std.specs.List.{list_all};
ghost use Rattle.std.specs.Option.{option_eq};
ghost use Rattle.bf_base.specs.Limits.{most_columns};
ghost use Rattle.bf_plan.specs.Arms.{is_grouped, key_item};

use crate::item::BoundItem;
use bf_base::{Memory, Sequence};
use bf_bind::is_among;
use std::alloc::Global;

/// Whether an item is the column at a place.
fn is_at(item: &BoundItem, place: usize) -> bool
    ensures { result ≡ option_eq nat_eq (Some place) item.now.place }
{
    match item.place {
        Some(own) => place == own as usize,
        None => false,
    }
}

/// The index of the first item that is the column at a place.
fn first_at(items: &[BoundItem], place: usize) -> Option<usize>
    ensures first { result ≡ position (λ item. option_eq nat_eq (Some place) item.place) items.now }
    ensures within { IfSome result (λ index. index < length items.now) }
{
    items.iter().position(|item| is_at(item, place))
}

/// The first item that is the column at a place, if there is one.
fn key_item(items: &[BoundItem], place: usize) -> Option<u8>
    requires { length items.now ≤ most_columns }
    ensures { result ≡ key_item items.now place }
{
    match first_at(items, place) {
        Some(index) => Some(index as u8),
        None => None,
    }
}

/// For each key column, the first item that gives it, if there is one. Each is looked for among the items,
/// which are at most 16.
pub(crate) fn key_items(
    alloc: Global,
    items: &[BoundItem],
    places: &[usize],
) -> Result<Sequence<Option<u8>>, Memory>
    requires { length items.now ≤ most_columns }
    ensures { IfOk result (λ found. found ≡ map (key_item items.now) places.now) }
{
    let mut found = Vec::with_capacity(alloc, places.len())?;
    for place in places {
        found.push(key_item(items, *place))?;
    }
    Ok(Sequence::of(found))
}

/// Whether an item is a total or a column of GROUP BY.
fn is_grouped(item: &BoundItem, group: &[u8]) -> bool
    ensures { result ≡ is_grouped group.now item.now }
{
    if item.is_total {
        return true;
    }
    match item.place {
        Some(place) => is_among(place as usize, group),
        None => false,
    }
}

/// Whether each item of a grouped arm is a total or a column of GROUP BY.
pub(crate) fn are_grouped(items: &[BoundItem], group: &[u8]) -> bool
    ensures { result ≡ list_all (is_grouped group.now) items.now }
{
    items.iter().all(|item| is_grouped(item, group))
}

/// Whether no item is a total.
pub(crate) fn has_no_total(items: &[BoundItem]) -> bool
    ensures { result ≡ list_all (λ item. not item.is_total) items.now }
{
    items.iter().all(|item| !item.is_total)
}

/// Whether each key column has an item.
pub(crate) fn all_given(found: &[Option<u8>]) -> bool
    ensures { result ≡ list_all is_some found.now }
{
    found.iter().all(|item| item.is_some())
}
