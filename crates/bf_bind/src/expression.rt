//! Expressions.

ghost use Rattle.std.specs.Prelude.{◌≡◌, [], ◌++◌};
ghost use Rattle.bf_tree.specs.Settling.{Settles};
ghost use Rattle.bf_tree.specs.Trees as trees;
ghost use Rattle.bf_tree.specs.Trees.{expr_over};
ghost use Rattle.bf_tree.specs.Views.{bound_tree};
ghost use Rattle.bf_sql.specs.Scopes.{expr_objections, kind_objections, place_of, ref_objections};
ghost use Rattle.bf_bind.specs.Parts.{bound_expr, bound_parts, parts_objections, seen_as, unboxed};

use crate::scope::{Scope, column, expect_kind};
use bf_base::{Kind, Value};
use bf_tree::{Expr, Node, RawExpr, RawNode, Ref, StatementError};
use std::alloc::Global;

/// An expression whose columns are places in a row, and the kind of its values.
#[derive(Drop)]
pub struct BoundExpr {
    pub expr: Expr,
    pub kind: Kind,
}

impl BoundExpr {
    fn of(node: Node, kind: Kind) -> BoundExpr
        ensures expr { result.expr ≡ bound_tree node }
        ensures kind { result.kind ≡ kind }
    {
        BoundExpr {
            expr: Expr::of(node),
            kind,
        }
    }
}

/// A literal.
pub(crate) fn bind_literal(alloc: Global, value: &Value) -> Result<BoundExpr, StatementError>
    ensures { Settles result [] (bound_expr [] (trees.literal value.now)) }
{
    Ok(BoundExpr::of(Node::Value(value.copy(alloc)?), value.kind()))
}

/// The column that a ref means.
///
/// # Errors
/// The first objection to the ref.
pub(crate) fn bind_column(
    alloc: Global,
    scope: &Scope,
    reference: &Ref,
) -> Result<BoundExpr, StatementError>
    ensures { Settles result (ref_objections scope.now reference.now)
        (bound_expr scope.now (trees.column reference.now)) }
{
    let found = column(alloc, scope, reference)?;
    Ok(BoundExpr::of(Node::Column(found.place), found.kind))
}

/// An expression on the rows of a scope, each ref as the place of its column in such a row, and the
/// kind of its values. Its time is linear in its nodes, but that each ref is compared with the
/// columns of the scope. Each node of the result takes memory.
///
/// # Errors
/// The first objection, from the left; a node is judged after its parts: that the qualifier of a ref
/// is no table's name, that no column or more than one is meant, or that a part is of another kind.
/// Or memory ran out.
#[cycle(expression)]
pub fn bind_expression(
    alloc: Global,
    scope: &Scope,
    raw: &RawExpr,
) -> Result<BoundExpr, StatementError>
    ensures { Settles result (expr_objections scope.now raw.now)
        (bound_expr scope.now raw.now) }
{
    match raw.node() {
        RawNode::Value(value) => bind_literal(alloc, value),
        RawNode::Column(reference) => bind_column(alloc, scope, reference),
        RawNode::Neg(inner) => {
            let inner = bind_part(alloc, scope, inner, Kind::Int)?;
            Ok(BoundExpr::of(Node::Neg(inner), Kind::Int))
        }
        RawNode::Add(left, right) => {
            let (left, right) = bind_parts(alloc, scope, left, right, Kind::Int)?;
            Ok(BoundExpr::of(Node::Add(left, right), Kind::Int))
        }
        RawNode::Sub(left, right) => {
            let (left, right) = bind_parts(alloc, scope, left, right, Kind::Int)?;
            Ok(BoundExpr::of(Node::Sub(left, right), Kind::Int))
        }
        RawNode::Mul(left, right) => {
            let (left, right) = bind_parts(alloc, scope, left, right, Kind::Int)?;
            Ok(BoundExpr::of(Node::Mul(left, right), Kind::Int))
        }
        RawNode::Concat(left, right) => {
            let (left, right) = bind_parts(alloc, scope, left, right, Kind::Text)?;
            Ok(BoundExpr::of(Node::Concat(left, right), Kind::Text))
        }
    }
}

/// The part of a node whose parts are of a kind.
#[cycle(expression)]
fn bind_part(
    alloc: Global,
    scope: &Scope,
    part: &RawExpr,
    kind: Kind,
) -> Result<Box<Expr>, StatementError>
    ensures { Settles (seen_as (λ part. part.value) result)
        (expr_objections scope.now part.now
        ++ kind_objections scope.now part.now kind)
        (expr_over (place_of scope.now) part.now) }
{
    let part = bind_expression(alloc, scope, part)?;
    expect_kind(part.kind, kind)?;
    Ok(Box::new(alloc, part.expr)?)
}

/// The two parts of a node whose parts are of a kind.
#[cycle(expression)]
fn bind_parts(
    alloc: Global,
    scope: &Scope,
    left: &RawExpr,
    right: &RawExpr,
    kind: Kind,
) -> Result<(Box<Expr>, Box<Expr>), StatementError>
    ensures { Settles (seen_as unboxed result) (parts_objections scope.now left.now right.now kind)
        (bound_parts scope.now left.now right.now) }
{
    let left = bind_expression(alloc, scope, left)?;
    let right = bind_expression(alloc, scope, right)?;
    expect_kind(left.kind, kind)?;
    expect_kind(right.kind, kind)?;
    let left = Box::new(alloc, left.expr)?;
    let right = Box::new(alloc, right.expr)?;
    Ok((left, right))
}
