//! Conditions.

ghost use Rattle.bf_tree.specs.Settling.{Settles};
ghost use Rattle.bf_tree.specs.Trees.{between, compared, cond_over};
ghost use Rattle.bf_tree.specs.Views.{operand_tree};
ghost use Rattle.bf_sql.specs.Conditions.{condition_of};
ghost use Rattle.bf_sql.specs.Scopes.{cond_objections, expr_objections, place_of};
ghost use Rattle.bf_bind.specs.Parts.{bound_expr, bound_sides, seen_as, sides_objections, unboxed};

use crate::expression::{BoundExpr, bind_column, bind_literal};
use crate::scope::{Scope, expect_kind};
use bf_tree::{Compare, Cond, Operand, RawCond, RawTest, StatementError, Test};
use std::alloc::Global;

/// A literal or a column, and its kind.
fn bind_operand(
    alloc: Global,
    scope: &Scope,
    operand: &Operand,
) -> Result<BoundExpr, StatementError>
    ensures { Settles result (expr_objections scope.now (operand_tree operand.now))
        (bound_expr scope.now (operand_tree operand.now)) }
{
    match operand {
        Operand::Value(value) => bind_literal(alloc, value),
        Operand::Column(reference) => bind_column(alloc, scope, reference),
    }
}

/// A comparison, whose sides are of one kind.
fn bind_comparison(
    alloc: Global,
    scope: &Scope,
    compare: Compare,
    left: &Operand,
    right: &Operand,
) -> Result<Cond, StatementError>
    ensures { Settles result (cond_objections scope.now
        (compared compare (operand_tree left.now) (operand_tree right.now)))
        (cond_over (place_of scope.now)
        (compared compare (operand_tree left.now) (operand_tree right.now))) }
{
    let left = bind_operand(alloc, scope, left)?;
    let right = bind_operand(alloc, scope, right)?;
    expect_kind(left.kind, right.kind)?;
    Ok(Cond::of(Test::Compare(compare, left.expr, right.expr)))
}

/// A BETWEEN, whose ends are of the kind of what is compared with them.
fn bind_between(
    alloc: Global,
    scope: &Scope,
    middle: &Operand,
    low: &Operand,
    high: &Operand,
) -> Result<Cond, StatementError>
    ensures { Settles result (cond_objections scope.now
        (between (operand_tree middle.now) (operand_tree low.now) (operand_tree high.now)))
        (cond_over (place_of scope.now)
        (between (operand_tree middle.now) (operand_tree low.now) (operand_tree high.now))) }
{
    let middle = bind_operand(alloc, scope, middle)?;
    let least = bind_operand(alloc, scope, low)?;
    let greatest = bind_operand(alloc, scope, high)?;
    expect_kind(least.kind, middle.kind)?;
    expect_kind(greatest.kind, middle.kind)?;
    Ok(Cond::of(Test::Between(middle.expr, least.expr, greatest.expr)))
}

/// A condition on the rows of a scope, in time linear in its nodes.
///
/// # Errors
/// The first objection, from the left.
#[cycle(condition)]
fn bind_test(alloc: Global, scope: &Scope, raw: &RawCond) -> Result<Cond, StatementError>
    ensures { Settles result (cond_objections scope.now raw.now)
        (cond_over (place_of scope.now) raw.now) }
{
    match raw.node() {
        RawTest::Compare(compare, left, right) => {
            bind_comparison(alloc, scope, *compare, left, right)
        }
        RawTest::Between(middle, low, high) => bind_between(alloc, scope, middle, low, high),
        RawTest::Not(inner) => {
            let inner = bind_test(alloc, scope, inner)?;
            Ok(Cond::of(Test::Not(Box::new(alloc, inner)?)))
        }
        RawTest::And(left, right) => {
            let (left, right) = bind_sides(alloc, scope, left, right)?;
            Ok(Cond::of(Test::And(left, right)))
        }
        RawTest::Or(left, right) => {
            let (left, right) = bind_sides(alloc, scope, left, right)?;
            Ok(Cond::of(Test::Or(left, right)))
        }
    }
}

/// The two sides of an AND or an OR.
#[cycle(condition)]
fn bind_sides(
    alloc: Global,
    scope: &Scope,
    left: &RawCond,
    right: &RawCond,
) -> Result<(Box<Cond>, Box<Cond>), StatementError>
    ensures { Settles (seen_as unboxed result) (sides_objections scope.now left.now right.now)
        (bound_sides scope.now left.now right.now) }
{
    let left = bind_test(alloc, scope, left)?;
    let right = bind_test(alloc, scope, right)?;
    let left = Box::new(alloc, left)?;
    let right = Box::new(alloc, right)?;
    Ok((left, right))
}

/// A condition on the rows of a scope, each ref as the place of its column in such a row; where there
/// is none, each row satisfies it. Its time is linear in its nodes, but that each ref is compared
/// with the columns of the scope. Each node of the result takes memory.
///
/// # Errors
/// The first objection, from the left, to an expression of the condition as `bind_expression` tells
/// it, or that the sides of a comparison are not of one kind. Or memory ran out.
pub fn bind_condition(
    alloc: Global,
    scope: &Scope,
    cond: &Option<RawCond>,
) -> Result<Cond, StatementError>
    ensures { Settles result (cond_objections scope.now (condition_of cond.now))
        (cond_over (place_of scope.now) (condition_of cond.now)) }
{
    match cond {
        Some(cond) => bind_test(alloc, scope, cond),
        None => Ok(Cond::of(Test::Always)),
    }
}
