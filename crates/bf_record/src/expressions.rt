//! Refs and expressions as bytes.

ghost use Rattle.std.specs.Prelude.{◌≡◌, ◌≢◌, ◌++◌, ◌∷◌, IfNone, IfOk, IfSome, OnOk};
ghost use Rattle.bf_record.specs.Apart.{refs_apart, short_exprs_apart};
ghost use Rattle.bf_record.specs.Expressions.{AreExprs, IsExpr, IsRef, expr_spelling, exprs_spelling, operators, operators_of_both, ref_spelling};
ghost use Rattle.bf_record.specs.Migrations.{IsShortExpr};
ghost use Rattle.bf_record.specs.Operators.{joined_by, operator_code};
ghost use Rattle.bf_record.specs.declared.expressions.Operator.{Operator};
ghost use Rattle.bf_record.specs.Shallow.{IsShallowExpr};
ghost use Rattle.bf_record.specs.Within.{IsTakenWithin};

use crate::part::Part;
use bf_base::{Memory, Name, Value};
use bf_tree::{RawExpr, RawNode, Ref};
use std::alloc::Global;

/// The most nodes beside values and refs of an expression, and of a condition. The readers go no
/// deeper.
pub(crate) const MOST_NODES: usize = 256;

impl Part for Ref {
    ghost HasSpelling = { IsRef };

    ghost spelling = { ref_spelling };

    ghost IsShallow = { λ _. Unit {0} };

    ghost apart = { refs_apart };

    fn put(&self, out: &mut Vec<u8>) -> Result<(), Memory> {
        match &self.table {
            None => {
                out.push(0)?;
                self.column.put(out)
            }
            Some(table) => {
                out.push(1)?;
                table.put(out)?;
                self.column.put(out)
            }
        }
    }

    fn take(alloc: Global, bytes: &[u8]) -> Result<Option<(Ref, usize)>, Memory> {
        match bytes {
            [0, rest @ ..] => match Name::take(alloc, rest)? {
                Some((column, taken)) => {
                    let table = None;
                    Ok(Some((Ref { table, column }, taken + 1)))
                }
                None => Ok(None),
            },
            [1, rest @ ..] => match <(Name, Name)>::take(alloc, rest)? {
                Some(((table, column), taken)) => {
                    let table = Some(table);
                    Ok(Some((Ref { table, column }, taken + 1)))
                }
                None => Ok(None),
            },
            [] | [_, ..] => Ok(None),
        }
    }
}

/// What joins two expressions.
#[derive(Clone, Copy)]
pub(crate) enum Operator {
    Plus,
    Minus,
    Times,
    Concatenation,
}

impl Operator {
    // What stands before the two.
    fn code(self) -> u8
        ensures { result ≡ operator_code self }
    {
        match self {
            Operator::Plus => 4,
            Operator::Minus => 5,
            Operator::Times => 6,
            Operator::Concatenation => 7,
        }
    }

    // The operator of a code.
    fn of_code(code: u8) -> Option<Operator>
        ensures some { IfSome result (λ operator. code ≡ operator_code operator) }
        ensures none { IfNone result ((operator : Operator) → code ≢ operator_code operator) }
    {
        match code {
            4 => Some(Operator::Plus),
            5 => Some(Operator::Minus),
            6 => Some(Operator::Times),
            7 => Some(Operator::Concatenation),
            _ => None,
        }
    }

    // The expression that joins these two.
    fn join(self, alloc: Global, left: RawExpr, right: RawExpr) -> Result<RawExpr, Memory>
        ensures { IfOk result (λ expr. expr ≡ joined_by self left right) }
    {
        let left = Box::new(alloc, left)?;
        let right = Box::new(alloc, right)?;
        match self {
            Operator::Plus => Ok(RawExpr::of(RawNode::Add(left, right))),
            Operator::Minus => Ok(RawExpr::of(RawNode::Sub(left, right))),
            Operator::Times => Ok(RawExpr::of(RawNode::Mul(left, right))),
            Operator::Concatenation => Ok(RawExpr::of(RawNode::Concat(left, right))),
        }
    }
}

// The expression with at most so many nodes whose spelling the bytes begin with.
#[cycle(expression)]
fn take_expr(
    alloc: Global,
    bytes: &[u8],
    budget: usize,
) -> Result<Option<(RawExpr, usize, usize)>, Memory>
    ensures { IfOk result (λ found.
        IsTakenWithin IsExpr expr_spelling operators budget bytes.now found) }
{
    match bytes {
        [1, rest @ ..] => match Value::take(alloc, rest)? {
            Some((value, taken)) => {
                let expr = RawExpr::of(RawNode::Value(value));
                Ok(Some((expr, taken + 1, budget)))
            }
            None => Ok(None),
        },
        [2, rest @ ..] => match Ref::take(alloc, rest)? {
            Some((column, taken)) => {
                let expr = RawExpr::of(RawNode::Column(column));
                Ok(Some((expr, taken + 1, budget)))
            }
            None => Ok(None),
        },
        [code, rest @ ..] => take_operator(alloc, *code, rest, budget),
        [] => Ok(None),
    }
}

// The expression that an operator tops whose code stands first.
#[cycle(expression)]
fn take_operator(
    alloc: Global,
    code: u8,
    rest: &[u8],
    budget: usize,
) -> Result<Option<(RawExpr, usize, usize)>, Memory>
    requires no_value { code ≢ 1 }
    requires no_ref { code ≢ 2 }
    ensures { IfOk result (λ found.
        IsTakenWithin IsExpr expr_spelling operators budget (code ∷ rest.now) found) }
{
    let Some(budget) = budget.checked_sub(1) else {
        return Ok(None);
    };
    if code == 3 {
        return match take_expr(alloc, rest, budget)? {
            Some((inner, taken, left)) => {
                let expr = RawExpr::of(RawNode::Neg(Box::new(alloc, inner)?));
                Ok(Some((expr, taken + 1, left)))
            }
            None => Ok(None),
        };
    }
    let Some(operator) = Operator::of_code(code) else {
        return Ok(None);
    };
    match take_two(alloc, rest, budget)? {
        Some(((left, right), taken, budget)) => {
            let expr = operator.join(alloc, left, right)?;
            Ok(Some((expr, taken + 1, budget)))
        }
        None => Ok(None),
    }
}

// Two expressions, one behind the other.
#[cycle(expression)]
fn take_two(
    alloc: Global,
    bytes: &[u8],
    budget: usize,
) -> Result<Option<((RawExpr, RawExpr), usize, usize)>, Memory>
    ensures { IfOk result (λ found.
        IsTakenWithin AreExprs exprs_spelling operators_of_both budget bytes.now found) }
{
    let Some((first, taken, budget)) = take_expr(alloc, bytes, budget)? else {
        return Ok(None);
    };
    let Some((second, more, budget)) = take_expr(alloc, &bytes[taken..], budget)? else {
        return Ok(None);
    };
    Ok(Some(((first, second), taken + more, budget)))
}

impl Part for RawExpr {
    ghost HasSpelling = { IsShortExpr };

    ghost spelling = { expr_spelling };

    ghost IsShallow = { IsShallowExpr };

    ghost apart = { short_exprs_apart };

    fn put(&self, out: &mut Vec<u8>) -> Result<(), Memory> {
        put_expr(self, out)
    }

    fn take(alloc: Global, bytes: &[u8]) -> Result<Option<(RawExpr, usize)>, Memory> {
        match take_expr(alloc, bytes, MOST_NODES)? {
            Some((expr, taken, _)) => Ok(Some((expr, taken))),
            None => Ok(None),
        }
    }
}

// Writes an expression of any depth.
#[cycle(put_expression)]
fn put_expr(expr: &RawExpr, out: &mut Vec<u8>) -> Result<(), Memory>
    ensures ok { OnOk result (out.new.items ≡ out.old.items ++ expr_spelling expr.now) }
    ensures spelled { OnOk result (IsExpr expr.now) }
{
    match expr.node() {
        RawNode::Value(value) => {
            out.push(1)?;
            value.put(out)
        }
        RawNode::Column(column) => {
            out.push(2)?;
            column.put(out)
        }
        RawNode::Neg(inner) => {
            out.push(3)?;
            put_expr(inner, out)
        }
        RawNode::Add(left, right) => put_two(Operator::Plus, left, right, out),
        RawNode::Sub(left, right) => put_two(Operator::Minus, left, right, out),
        RawNode::Mul(left, right) => put_two(Operator::Times, left, right, out),
        RawNode::Concat(left, right) => put_two(Operator::Concatenation, left, right, out),
    }
}

#[cycle(put_expression)]
fn put_two(
    operator: Operator,
    left: &RawExpr,
    right: &RawExpr,
    out: &mut Vec<u8>,
) -> Result<(), Memory>
    ensures ok { OnOk result (out.new.items
        ≡ out.old.items ++ expr_spelling (joined_by operator left.now right.now)) }
    ensures spelled { OnOk result (IsExpr left.now × IsExpr right.now) }
{
    out.push(operator.code())?;
    put_expr(left, out)?;
    put_expr(right, out)
}
