//! Whether a row of a new table may satisfy a condition, as far as that can be told without its
//! totals.

ghost use Rattle.std.specs.Prelude.{List, ◌≡◌, ◌≤◌, IfOk, IsTrue, length, nat_eq};
ghost use Rattle.std.specs.List.{enumerate_from, list_any};
ghost use Rattle.bf_base.specs.Lists.{has};
ghost use Rattle.bf_base.specs.Tables.{cell};
ghost use Rattle.bf_base.specs.declared.value.Value.{Value};
ghost use Rattle.bf_tree.specs.Evaluation.{holds_on};
ghost use Rattle.bf_sql.specs.migrations.Need.{columns_in, columns_in_cond, may_satisfy, total_places};
ghost use Rattle.bf_sql.specs.migrations.Targets.{is_total};
ghost use Rattle.bf_tree.specs.Limits.{has_small_arms};
ghost use Rattle.bf_tree.specs.declared.migration.Target.{Target as Seen};
ghost use Rattle.bf_transpose.specs.Totals.{totals_of};

use bf_base::{Memory, Row};
use bf_tree::{Cond, Expr, Item, Node, Target, Test, holds};
use std::alloc::Global;

/// Whether a place is one of some. Takes no memory.
fn is_among(place: u8, places: &[u8]) -> bool
    ensures { result ≡ has nat_eq places.now place }
{
    places.iter().any(|at| place == *at)
}

/// Whether an expression mentions a column at one of some places. Takes no memory.
fn mentions(expr: &Expr, places: &[u8]) -> bool
    ensures { result ≡ list_any (has nat_eq places.now) (columns_in expr.now) }
{
    match expr.node() {
        Node::Value(_) => false,
        Node::Column(place) => is_among(*place, places),
        Node::Neg(a) => mentions(a, places),
        Node::Add(a, b) | Node::Sub(a, b) | Node::Mul(a, b) | Node::Concat(a, b) => {
            mentions(a, places) || mentions(b, places)
        }
    }
}

/// Whether a condition mentions a column at one of some places. Takes no memory.
fn is_about(cond: &Cond, places: &[u8]) -> bool
    ensures { result ≡ list_any (has nat_eq places.now) (columns_in_cond cond.now) }
{
    match cond.node() {
        Test::Always => false,
        Test::Compare(_, a, b) => mentions(a, places) || mentions(b, places),
        Test::Between(a, low, high) => {
            mentions(a, places) || mentions(low, places) || mentions(high, places)
        }
        Test::Not(c) => is_about(c, places),
        Test::And(c, d) | Test::Or(c, d) => is_about(c, places) || is_about(d, places),
    }
}

/// Whether a row satisfies the conjuncts of a condition but for those that mention a column which a
/// total fills, in time linear in the condition, for each of those columns.
///
/// # Errors
/// Where memory runs out, which only an expression that is neither a column nor a literal takes.
pub(crate) fn may_be_met(
    alloc: Global,
    cond: &Cond,
    totals: &[u8],
    row: &Row,
) -> Result<bool, Memory>
    ensures { IfOk result (λ met. (target : Seen) → total_places target ≡ totals.now
        → met ≡ may_satisfy cond.now target row.now) }
{
    match cond.node() {
        Test::And(left, right) => Ok(
            may_be_met(alloc, left, totals, row)? && may_be_met(alloc, right, totals, row)?,
        ),
        _ => Ok(is_about(cond, totals) || holds(alloc, cond, row)?),
    }
}

/// A condition without the conjuncts that mention a column which a total fills: it holds of the
/// rows that may satisfy the whole. It is copied, in time and memory linear in the condition.
///
/// # Errors
/// Where memory runs out.
pub(crate) fn without_totals(alloc: Global, cond: &Cond, totals: &[u8]) -> Result<Cond, Memory>
    ensures { IfOk result (λ part. (target : Seen) (row : List Value)
        → total_places target ≡ totals.now
        → holds_on (cell row) part ≡ may_satisfy cond.now target row) }
{
    match cond.node() {
        Test::And(left, right) => {
            let left = without_totals(alloc, left, totals)?;
            let right = without_totals(alloc, right, totals)?;
            Ok(Cond::of(Test::And(Box::new(alloc, left)?, Box::new(alloc, right)?)))
        }
        _ if is_about(cond, totals) => Ok(Cond::of(Test::Always)),
        _ => cond.copy(alloc),
    }
}

/// Whether a total fills the column of an item.
fn is_total(item: &Item) -> bool
    ensures { result ≡ is_total item.now }
{
    matches!(item, Item::Total(..))
}

/// The places of the items that are totals.
fn totals_among(alloc: Global, items: &[Item]) -> Result<Vec<u8>, Memory>
    requires { length items.now ≤ 64 }
    ensures { IfOk result (λ places. places.items ≡ totals_of (enumerate_from 0 items.now)) }
{
    let mut places = Vec::new(alloc);
    for (place, item) in items.iter().enumerate() {
        if is_total(item) {
            places.push(place as u8)?;
        }
    }
    Ok(places)
}

/// The places of a target's columns that totals fill.
///
/// # Errors
/// Where memory runs out.
pub(crate) fn total_places(alloc: Global, target: &Target) -> Result<Vec<u8>, Memory>
    requires { IsTrue (has_small_arms target.now) }
    ensures { IfOk result (λ places. places.items ≡ total_places target.now) }
{
    match target.arms.as_slice().first() {
        Some(arm) => totals_among(alloc, arm.items.as_slice()),
        None => Ok(Vec::new(alloc)),
    }
}
