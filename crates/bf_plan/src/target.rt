//! What stands behind the arms of a target, and the table that it becomes.

ghost use Rattle.std.specs.Prelude.{◌≡◌, ◌<◌, ◌≤◌, IfOk, IfSome, flat_map, length, map, nat_eq, nat_le, not, position, slice_get, true};
ghost use Rattle.std.specs.List.{list_all, list_any, zip};
ghost use Rattle.std.specs.Option.{option_eq};
ghost use lib.Pointwise.{pointwise};
ghost use Rattle.bf_base.specs.Limits.{most_columns};
ghost use Rattle.bf_base.specs.Lists.{when};
ghost use Rattle.bf_base.specs.Tables.{same_kind};
ghost use Rattle.bf_tree.specs.Limits.{HasNarrowTables, has_small_arms};
ghost use Rattle.bf_tree.specs.Settling.{Settles};
ghost use Rattle.bf_tree.specs.declared.reply.Refusal.TheVariants as refusal;
ghost use Rattle.bf_sql.specs.Bound.{without_rows};
ghost use Rattle.bf_sql.specs.migrations.MigrationObjections.{target_objections};
ghost use Rattle.bf_sql.specs.migrations.Targets.{either_admit, first_arm, item_name};
ghost use Rattle.bf_plan.specs.Targets.{admits_at, are_tagged_apart, bound_target, columns_of, failing, failing_in, first_items, first_key, gives_key, has_one_key, is_miscounted, is_misfit, is_named, is_tagged, key_of_arms, keeps_apart_by, name_objections, names_objections, objections_behind, table_of_arms, with_admit, with_given, key_before};

use crate::arm::{BoundArm, bind_arms};
use crate::item::BoundItem;
use bf_base::{Admit, Column, Memory, Name, Sequence, Table};
use bf_bind::is_same_kind;
use bf_tree::{Catalog, Item, Refusal, StatementError, Target, UnitKind};
use std::alloc::Global;
use std::collections::BTreeSet;

/// A target in a catalog: the table that it becomes, and its arms.
#[derive(Drop)]
pub(crate) struct BoundTarget {
    pub(crate) table: Table,
    pub(crate) arms: Sequence<BoundArm>,
}

/// The items of the first arm.
fn first_items(arms: &[BoundArm]) -> &[BoundItem]
    ensures { result.now ≡ first_items arms.now }
{
    match arms {
        [first, ..] => first.items.as_slice(),
        [] => &[],
    }
}

/// The key items of the first arm.
fn first_key(arms: &[BoundArm]) -> &[Option<u8>]
    ensures { result.now ≡ first_key arms.now }
{
    match arms {
        [first, ..] => first.key_items.as_slice(),
        [] => &[],
    }
}

/// Whether an arm has another count of items than the first.
fn is_miscounted(first: &[BoundItem], arm: &BoundArm) -> bool
    ensures { result ≡ is_miscounted first.now arm.now }
{
    arm.items.len() != first.len()
}

/// Whether one of the arms has another count of items than the first.
fn any_miscounted(first: &[BoundItem], arms: &[BoundArm]) -> bool
    ensures { result ≡ list_any (is_miscounted first.now) arms.now }
{
    arms.iter().any(|arm| is_miscounted(first, arm))
}

/// The arms have one count of items.
fn expect_counts(arms: &[BoundArm]) -> Result<(), StatementError>
    ensures { Settles result
        (when (list_any (is_miscounted (first_items arms.now)) arms.now) refusal.WrongCount) tt }
{
    if any_miscounted(first_items(arms), arms) {
        Err(StatementError::Refused(Refusal::WrongCount))
    } else {
        Ok(())
    }
}

/// Whether items side by side are of one kind.
fn are_alike(first: &[BoundItem], items: &[BoundItem]) -> bool
    ensures { result ≡ list_all (λ p. same_kind p.0.kind p.1.kind) (zip first.now items.now) }
{
    first
        .iter()
        .zip(items)
        .all(|(one, other)| is_same_kind(one.kind, other.kind))
}

/// Whether the items of an arm are of other kinds than those of the first.
fn is_misfit(first: &[BoundItem], arm: &BoundArm) -> bool
    ensures { result ≡ is_misfit first.now arm.now }
{
    let items = arm.items.as_slice();
    if first.len() != items.len() {
        return true;
    }
    !are_alike(first, items)
}

/// Whether the items of one of the arms are of other kinds than those of the first.
fn any_misfit(first: &[BoundItem], arms: &[BoundArm]) -> bool
    ensures { result ≡ list_any (is_misfit first.now) arms.now }
{
    arms.iter().any(|arm| is_misfit(first, arm))
}

/// The items of the arms are of one list of kinds.
fn expect_kinds(arms: &[BoundArm]) -> Result<(), StatementError>
    ensures { Settles result
        (when (list_any (is_misfit (first_items arms.now)) arms.now) refusal.TypeMismatch) tt }
{
    if any_misfit(first_items(arms), arms) {
        Err(StatementError::Refused(Refusal::TypeMismatch))
    } else {
        Ok(())
    }
}

/// The name of the column that an item gives.
fn item_name(item: &Item) -> &Name
    ensures { result.now ≡ item_name item.now }
{
    match item {
        Item::Column(reference) => &reference.column,
        Item::Named(_, name) | Item::Total(_, name) => name,
    }
}

/// Whether a name is that of one of some items.
fn is_named(name: &Name, items: &[Item]) -> bool
    ensures { result ≡ is_named items.now name.now }
{
    items.iter().any(|item| *name == *item_name(item))
}

/// An item has another name than those before it.
fn expect_new_name(alloc: Global, before: &[Item], item: &Item) -> Result<(), StatementError>
    ensures { Settles result (name_objections before.now item.now) tt }
{
    let name = item_name(item);
    if is_named(name, before) {
        Err(StatementError::Refused(Refusal::NameTwice(name.copy(alloc)?)))
    } else {
        Ok(())
    }
}

/// The items of an arm have different names. Each is compared with those before it: an arm has at most 16
/// items.
///
/// # Errors
/// The first name that stood before.
fn expect_names(alloc: Global, items: &[Item]) -> Result<(), StatementError>
    ensures { Settles result (names_objections items.now) tt }
{
    for (index, item) in items.iter().enumerate() {
        expect_new_name(alloc, &items[..index], item)?;
    }
    Ok(())
}

/// The index of the first item that may fail.
fn first_failing(items: &[BoundItem]) -> Option<usize>
    ensures first { result ≡ position (λ item. item.may_fail) items.now }
    ensures within { IfSome result (λ index. index < length items.now) }
{
    items.iter().position(|item| item.may_fail)
}

/// No item of an arm may fail.
///
/// # Errors
/// The first that may, counted from 1.
fn expect_sure(alloc: Global, target: &Name, items: &[BoundItem]) -> Result<(), StatementError>
    requires { length items.now ≤ most_columns }
    ensures { Settles result (failing target.now items.now) tt }
{
    match first_failing(items) {
        Some(index) => Err(StatementError::Refused(Refusal::MayFail(
            target.copy(alloc)?,
            index as u32 + 1,
        ))),
        None => Ok(()),
    }
}

/// No item of an arm of a target may fail.
///
/// # Errors
/// The first that may, arm by arm.
fn expect_all_sure(alloc: Global, target: &Name, arms: &[BoundArm]) -> Result<(), StatementError>
    requires { list_all (λ arm. nat_le (length arm.items) most_columns) arms.now ≡ true }
    ensures { Settles result (flat_map (failing_in target.now) arms.now) tt }
{
    for arm in arms {
        expect_sure(alloc, target, arm.items.as_slice())?;
    }
    Ok(())
}

/// Whether an arm has a row for each row of a table, and a tag.
fn is_tagged(arm: &BoundArm) -> bool
    ensures { result ≡ is_tagged arm.now }
{
    match arm.unit_kind {
        UnitKind::Rows => arm.tag.is_some(),
        UnitKind::Groups | UnitKind::Joins => false,
    }
}

/// Whether no two arms have one tag. Each tag is looked up among those before it, by about log n compares.
fn are_tagged_apart(alloc: Global, arms: &[BoundArm]) -> Result<bool, Memory>
    ensures { IfOk result (λ apart. apart ≡ are_tagged_apart arms.now) }
{
    let mut seen = BTreeSet::new(alloc);
    for arm in arms {
        if !seen.insert(arm.tag)? {
            return Ok(false);
        }
    }
    Ok(true)
}

/// Whether an arm has given key items.
fn has_key(key: &[Option<u8>], arm: &BoundArm) -> bool
    ensures { result ≡ pointwise (option_eq nat_eq) key.now arm.now.key_items }
{
    key == arm.key_items.as_slice()
}

/// Whether each arm has given key items.
fn all_have_key(key: &[Option<u8>], arms: &[BoundArm]) -> bool
    ensures { result
        ≡ list_all (λ arm. pointwise (option_eq nat_eq) key.now arm.key_items) arms.now }
{
    arms.iter().all(|arm| has_key(key, arm))
}

/// Whether the arms have one list of key items.
fn has_one_key(arms: &[BoundArm]) -> bool
    ensures { result ≡ has_one_key arms.now }
{
    all_have_key(first_key(arms), arms)
}

/// Whether each arm is tagged.
fn are_tagged(arms: &[BoundArm]) -> bool
    ensures { result ≡ list_all is_tagged arms.now }
{
    arms.iter().all(|arm| is_tagged(arm))
}

/// Whether the rows of several arms keep apart.
fn keeps_apart(alloc: Global, arms: &[BoundArm]) -> Result<bool, Memory>
    ensures { IfOk result (λ apart. apart ≡ keeps_apart_by arms.now) }
{
    if !are_tagged(arms) {
        return Ok(false);
    }
    let apart = are_tagged_apart(alloc, arms)?;
    Ok(apart && has_one_key(arms))
}

/// Whether each arm gives its key.
fn all_inherit(arms: &[BoundArm]) -> bool
    ensures { result ≡ list_all (λ arm. arm.inherits_key) arms.now }
{
    arms.iter().all(|arm| arm.inherits_key)
}

/// Whether the arms give their target a key.
fn gives_key(alloc: Global, arms: &[BoundArm]) -> Result<bool, Memory>
    ensures { IfOk result (λ gives. gives ≡ gives_key arms.now) }
{
    if !all_inherit(arms) {
        return Ok(false);
    }
    if arms.len() < 2 {
        return Ok(true);
    }
    keeps_apart(alloc, arms)
}

/// The arms of a target give it a key.
fn expect_key(alloc: Global, target: &Name, arms: &[BoundArm]) -> Result<(), StatementError>
    ensures { Settles result
        (when (not (gives_key arms.now)) (refusal.KeyNotInherited target.now)) tt }
{
    if gives_key(alloc, arms)? {
        Ok(())
    } else {
        Err(StatementError::Refused(Refusal::KeyNotInherited(target.copy(alloc)?)))
    }
}

/// The items of the first arm of a target, as they are written.
fn named_items(target: &Target) -> &[Item]
    ensures { result.now ≡ (first_arm target.now.arms).items }
{
    match target.arms.as_slice() {
        [first, ..] => first.items.as_slice(),
        [] => &[],
    }
}

/// What stands behind the arms of a target: counts, kinds, names, what may fail, and the key.
///
/// # Errors
/// The first objection, in this order.
fn expect_behind(alloc: Global, target: &Target, arms: &[BoundArm]) -> Result<(), StatementError>
    requires { list_all (λ arm. nat_le (length arm.items) most_columns) arms.now ≡ true }
    ensures { Settles result (objections_behind target.now arms.now) tt }
{
    expect_counts(arms)?;
    expect_kinds(arms)?;
    expect_names(alloc, named_items(target))?;
    expect_all_sure(alloc, &target.name, arms)?;
    expect_key(alloc, &target.name, arms)
}

/// What a column admits that two arms fill.
fn either_admit(one: Admit, other: Admit) -> Admit
    ensures { result ≡ either_admit one other }
{
    match (one, other) {
        (Admit::Checked(a, b), Admit::Checked(c, d)) => {
            if a == c && b == d {
                Admit::Checked(a, b)
            } else {
                Admit::Int
            }
        }
        (Admit::Varchar(most), Admit::Varchar(other)) => Admit::Varchar(most.max(other)),
        _ => Admit::Int,
    }
}

/// What the column admits that the item at a place alone would fill, if there is one.
fn admit_at(items: &[BoundItem], place: usize) -> Option<Admit>
    ensures { result ≡ slice_get (map (λ item. item.admits) items.now) place }
{
    match items.get(place) {
        Some(item) => Some(item.admits),
        None => None,
    }
}

/// What a column admits that one more arm fills, if it has an item there.
fn with_admit(so_far: Option<Admit>, more: Option<Admit>) -> Option<Admit>
    ensures { result ≡ with_admit so_far more }
{
    match (so_far, more) {
        (Some(admits), Some(more)) => Some(either_admit(admits, more)),
        (None, more) => more,
        (so_far, None) => so_far,
    }
}

/// What the arms make of the column at a place.
fn admits_at(arms: &[BoundArm], place: usize) -> Admit
    ensures { result ≡ admits_at arms.now place }
{
    let mut so_far = None;
    for arm in arms {
        let more = with_admit(so_far, admit_at(arm.items.as_slice(), place));
        so_far = more;
    }
    match so_far {
        Some(admits) => admits,
        None => Admit::Int,
    }
}

/// The columns of a new table, with the names of some items.
fn columns(alloc: Global, items: &[Item], arms: &[BoundArm]) -> Result<Sequence<Column>, Memory>
    ensures { IfOk result (λ columns. columns ≡ columns_of items.now arms.now) }
{
    let mut columns = Vec::with_capacity(alloc, items.len())?;
    for (place, item) in items.iter().enumerate() {
        let name = item_name(item).copy(alloc)?;
        let admits = admits_at(arms, place);
        columns.push(Column { name, admits })?;
    }
    Ok(Sequence::of(columns))
}

/// The place of the tag, where there are several arms.
fn key_before(alloc: Global, arms: &[BoundArm]) -> Result<Vec<u8>, Memory>
    ensures { IfOk result (λ key. key.items ≡ key_before arms.now) }
{
    let mut key = Vec::new(alloc);
    if arms.len() < 2 {
        return Ok(key);
    }
    key.push(0)?;
    Ok(key)
}

/// A key with one more place, if it is there.
fn with_given(mut key: Vec<u8>, place: Option<u8>) -> Result<Vec<u8>, Memory>
    ensures { IfOk result (λ more. more.items ≡ with_given key.items place) }
{
    if let Some(place) = place {
        key.push(place)?;
        return Ok(key);
    }
    Ok(key)
}

/// The key of a new table: the key items of the first arm, behind the tag where there are several arms.
fn target_key(alloc: Global, arms: &[BoundArm]) -> Result<Sequence<u8>, Memory>
    ensures { IfOk result (λ key. key ≡ key_of_arms arms.now) }
{
    let mut key = key_before(alloc, arms)?;
    for place in first_key(arms) {
        let more = with_given(key, *place)?;
        key = more;
    }
    Ok(Sequence::of(key))
}

/// The table that a target becomes.
fn target_table(alloc: Global, target: &Target, arms: &[BoundArm]) -> Result<Table, Memory>
    ensures { IfOk result (λ table. table ≡ table_of_arms target.now arms.now) }
{
    let name = target.name.copy(alloc)?;
    let columns = columns(alloc, named_items(target), arms)?;
    let key = target_key(alloc, arms)?;
    Ok(Table { name, columns, key })
}

/// A target in a catalog.
///
/// # Errors
/// The first objection, to its arms and then to what stands behind them.
pub(crate) fn bind_target(
    alloc: Global,
    catalog: &Catalog,
    target: &Target,
) -> Result<BoundTarget, StatementError>
    requires narrow { HasNarrowTables catalog.now }
    requires few { has_small_arms target.now ≡ true }
    ensures { Settles result (target_objections (without_rows catalog.now) target.now)
        (bound_target (without_rows catalog.now) target.now) }
{
    let arms = bind_arms(alloc, catalog, target)?;
    expect_behind(alloc, target, arms.as_slice())?;
    let table = target_table(alloc, target, arms.as_slice())?;
    Ok(BoundTarget { table, arms })
}
