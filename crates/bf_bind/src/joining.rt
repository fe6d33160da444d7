//! How the rows of an arm come from those of its tables: the pairs of ON, GROUP BY, and what tells the
//! arm's rows apart.

ghost use Rattle.std.specs.Prelude.{◌≡◌, ◌<◌, ◌≤◌, ◌&&◌, ◌||◌, IfOk, IfSome, Some, false, flat_map, is_some, length, map, nat_eq, nat_lt, not, position, true};
ghost use Rattle.std.specs.List.{list_all};
ghost use Rattle.std.specs.Option.{option_eq};
ghost use Rattle.bf_base.specs.Limits.{most_columns};
ghost use Rattle.bf_base.specs.Lists.{has};
ghost use Rattle.bf_tree.specs.Settling.{Settles};
ghost use Rattle.bf_sql.specs.Scopes.{place_of};
ghost use Rattle.bf_sql.specs.migrations.MigrationObjections.{group_objections};
ghost use Rattle.bf_sql.specs.migrations.Placed.{placed_pair};
ghost use Rattle.bf_sql.specs.migrations.Targets.{equalities, kind_by};
ghost use Rattle.bf_bind.specs.ArmTables.{equality_objections, group_ref_objections, is_on, key_places, kind_by_places, placed_on};

use crate::scope::{Scope, column, expect_kind};
use crate::source::{ArmTables, places_behind};
use bf_base::{Memory, Name, Sequence};
use bf_tree::{Arm, ArmKind, Ref, Refusal, StatementError};
use std::alloc::Global;

/// Whether two places are both of FROM's columns, or both of JOIN's.
fn are_of_one_table(left: u8, right: u8, width: usize) -> bool
    ensures { result ≡ ((nat_lt left width && nat_lt right width)
        || not (nat_lt left width || nat_lt right width)) }
{
    ((left as usize) < width) == ((right as usize) < width)
}

/// The places of the columns of an equality.
///
/// # Errors
/// The first objection: to a ref, from the left, or that both columns are of one table, or that they are
/// not of one kind.
fn bind_equality(
    alloc: Global,
    scope: &Scope,
    width: usize,
    target: &Name,
    pair: &(Ref, Ref),
) -> Result<(u8, u8), StatementError>
    ensures { Settles result (equality_objections scope.now width target.now pair.now)
        (placed_pair scope.now pair.now) }
{
    let left = column(alloc, scope, &pair.0)?;
    let right = column(alloc, scope, &pair.1)?;
    if are_of_one_table(left.place, right.place, width) {
        return Err(StatementError::Refused(Refusal::KeyNotInherited(target.copy(alloc)?)));
    }
    expect_kind(left.kind, right.kind)?;
    Ok((left.place, right.place))
}

/// The places of the columns of some equalities.
///
/// # Errors
/// The first objection, from the left.
fn bind_equalities(
    alloc: Global,
    scope: &Scope,
    width: usize,
    target: &Name,
    pairs: &[(Ref, Ref)],
) -> Result<Sequence<(u8, u8)>, StatementError>
    ensures { Settles result
        (flat_map (equality_objections scope.now width target.now) pairs.now)
        (map (placed_pair scope.now) pairs.now) }
{
    let mut places = Vec::with_capacity(alloc, pairs.len())?;
    for pair in pairs {
        places.push(bind_equality(alloc, scope, width, target, pair)?)?;
    }
    Ok(Sequence::of(places))
}

/// The places of the columns of ON, where there is a JOIN.
///
/// # Errors
/// The first objection, equality by equality: to a ref, from the left, or that both columns are of one
/// table, or that they are not of one kind. Or memory ran out.
pub fn bind_on(
    alloc: Global,
    scope: &Scope,
    width: usize,
    target: &Name,
    arm: &Arm,
) -> Result<Option<Sequence<(u8, u8)>>, StatementError>
    ensures { Settles result
        (flat_map (equality_objections scope.now width target.now) (equalities arm.now))
        (placed_on scope.now arm.now) }
{
    match &arm.join {
        Some(join) => {
            let pairs = bind_equalities(alloc, scope, width, target, join.on.as_slice())?;
            Ok(Some(pairs))
        }
        None => Ok(None),
    }
}

/// Whether a place is one of some places.
pub fn is_among(place: usize, places: &[u8]) -> bool
    ensures { result ≡ has nat_eq places.now place }
{
    places.iter().any(|other| place == *other as usize)
}

/// The place of a column of GROUP BY, behind those before it.
fn bind_group_ref(
    alloc: Global,
    scope: &Scope,
    before: &[u8],
    reference: &Ref,
) -> Result<u8, StatementError>
    ensures { Settles result (group_ref_objections scope.now before.now reference.now)
        (place_of scope.now reference.now) }
{
    let found = column(alloc, scope, reference)?;
    if is_among(found.place as usize, before) {
        return Err(StatementError::Refused(Refusal::NameTwice(reference.column.copy(alloc)?)));
    }
    Ok(found.place)
}

/// The places of the columns of GROUP BY. So no more refs are looked at than the arm has columns, and one
/// more.
///
/// # Errors
/// The first objection, ref by ref: to the ref, or that one before it has its column. Or memory ran out.
pub fn bind_group(
    alloc: Global,
    scope: &Scope,
    refs: &[Ref],
) -> Result<Sequence<u8>, StatementError>
    ensures { Settles result (group_objections scope.now refs.now)
        (map (place_of scope.now) refs.now) }
{
    let mut places = Vec::new(alloc);
    for reference in refs {
        let place = bind_group_ref(alloc, scope, places.as_slice(), reference)?;
        places.push(place)?;
    }
    Ok(Sequence::of(places))
}

/// Whether ON names a place.
fn is_on(on: &[(u8, u8)], place: usize) -> bool
    ensures { result ≡ is_on on.now place }
{
    on.iter().any(|pair| place == pair.0 as usize || place == pair.1 as usize)
}

/// Whether ON names each place of a key.
fn has_all(on: &[(u8, u8)], key: &[usize]) -> bool
    ensures { result ≡ list_all (is_on on.now) key.now }
{
    key.iter().all(|place| is_on(on, *place))
}

/// How an arm of two tables makes rows, by the places that ON names.
fn kind_of_join(on: &[(u8, u8)], tables: &ArmTables) -> ArmKind
    ensures { result ≡ kind_by false true
        (list_all (is_on on.now) tables.now.join_key)
        (list_all (is_on on.now) tables.now.from_key) }
{
    if has_all(on, tables.join_key.as_slice()) {
        return ArmKind::ByFrom;
    }
    if has_all(on, tables.from_key.as_slice()) {
        ArmKind::ByJoin
    } else {
        ArmKind::ByPair
    }
}

/// How an arm makes rows, by the places of ON, where there is a JOIN, and of GROUP BY.
pub fn arm_kind(tables: &ArmTables, on: &Option<Sequence<(u8, u8)>>, group: &[u8]) -> ArmKind
    ensures { result ≡ kind_by_places tables.now on.now group.now }
{
    if !group.is_empty() {
        return ArmKind::ByGroup;
    }
    match on {
        None => ArmKind::ByFrom,
        Some(pairs) => kind_of_join(pairs.as_slice(), tables),
    }
}

/// The places of the columns that tell an arm's rows apart: the key of FROM, that of JOIN, the one and then
/// the other, or the columns of GROUP BY.
///
/// # Errors
/// Memory ran out.
pub fn key_places(
    alloc: Global,
    kind: ArmKind,
    tables: &ArmTables,
    group: &[u8],
) -> Result<Sequence<usize>, Memory>
    ensures { IfOk result (λ places. places ≡ key_places tables.now group.now kind) }
{
    let from_key = tables.from_key.as_slice();
    let join_key = tables.join_key.as_slice();
    match kind {
        ArmKind::ByFrom => Ok(Sequence::of(Vec::from_slice(alloc, from_key)?)),
        ArmKind::ByJoin => Ok(Sequence::of(Vec::from_slice(alloc, join_key)?)),
        ArmKind::ByPair => {
            let mut places = Vec::from_slice(alloc, from_key)?;
            places.extend_from_slice(join_key)?;
            Ok(Sequence::of(places))
        }
        ArmKind::ByGroup => places_behind(alloc, 0, group),
    }
}
