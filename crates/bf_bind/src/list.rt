//! What SELECT gives.

ghost use Rattle.std.specs.Prelude.{◌≤◌, flat_map, length, map};
ghost use Rattle.bf_base.specs.Limits.{most_columns};
ghost use Rattle.bf_tree.specs.Settling.{Settles};
ghost use Rattle.bf_tree.specs.Trees.{expr_over};
ghost use Rattle.bf_sql.specs.Bound.{items_over, place_in, total_over};
ghost use Rattle.bf_sql.specs.Objections.{items_objections};
ghost use Rattle.bf_sql.specs.Scopes.{expr_objections, place_of, scope_of, total_objections};

use crate::expression::bind_expression;
use crate::scope::{Scope, expect_kind};
use bf_base::{Kind, Sequence, Table};
use bf_tree::{Aggregate, Expr, Items, List, RawAggregate, RawExpr, StatementError};
use std::alloc::Global;

fn bind_expressions(
    alloc: Global,
    scope: &Scope,
    exprs: &[RawExpr],
) -> Result<Sequence<Expr>, StatementError>
    ensures { Settles result (flat_map (expr_objections scope.now) exprs.now)
        (map (expr_over (place_of scope.now)) exprs.now) }
{
    let mut bound = Vec::with_capacity(alloc, exprs.len())?;
    for raw in exprs {
        bound.push(bind_expression(alloc, scope, raw)?.expr)?;
    }
    Ok(Sequence::of(bound))
}

/// A total over the rows of a scope, each ref as the place of its column in such a row. It costs what
/// its expression costs, as `bind_expression` says.
///
/// # Errors
/// The first objection to its expression, as `bind_expression` tells it, or that a SUM is not over
/// INTs. Or memory ran out.
pub fn bind_total(
    alloc: Global,
    scope: &Scope,
    total: &RawAggregate,
) -> Result<Aggregate, StatementError>
    ensures { Settles result (total_objections scope.now total.now)
        (total_over (place_of scope.now) total.now) }
{
    match total {
        Aggregate::Count => Ok(Aggregate::Count),
        Aggregate::Sum(raw) => {
            let bound = bind_expression(alloc, scope, raw)?;
            expect_kind(bound.kind, Kind::Int)?;
            Ok(Aggregate::Sum(bound.expr))
        }
        Aggregate::Min(raw) => Ok(Aggregate::Min(bind_expression(alloc, scope, raw)?.expr)),
        Aggregate::Max(raw) => Ok(Aggregate::Max(bind_expression(alloc, scope, raw)?.expr)),
    }
}

fn bind_totals(
    alloc: Global,
    scope: &Scope,
    totals: &[RawAggregate],
) -> Result<Sequence<Aggregate>, StatementError>
    ensures { Settles result (flat_map (total_objections scope.now) totals.now)
        (map (total_over (place_of scope.now)) totals.now) }
{
    let mut bound = Vec::with_capacity(alloc, totals.len())?;
    for total in totals {
        bound.push(bind_total(alloc, scope, total)?)?;
    }
    Ok(Sequence::of(bound))
}

/// The items of a SELECT on a table, in time linear in their nodes.
///
/// # Errors
/// The first objection, from the left.
pub(crate) fn bind_items(alloc: Global, table: &Table, list: &List) -> Result<Items, StatementError>
    requires { length table.now.columns ≤ most_columns }
    ensures { Settles result (items_objections (scope_of table.now) list.now)
        (items_over (place_in table.now) list.now) }
{
    let scope = Scope::of(table);
    match list {
        Items::All => Ok(Items::All),
        Items::Exprs(exprs) => Ok(Items::Exprs(bind_expressions(alloc, &scope, exprs.as_slice())?)),
        Items::Aggregates(totals) => Ok(Items::Aggregates(bind_totals(
            alloc,
            &scope,
            totals.as_slice(),
        )?)),
    }
}
