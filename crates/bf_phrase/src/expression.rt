//! Expressions. Operators and opening parentheses are counted.

ghost use Rattle.std.specs.Prelude.{◌≡◌, ◌+◌, ◌<◌, ◌≤◌, IfErr, IfOk};
ghost use Rattle.bf_tree.specs.Trees.{negated, times};
ghost use Rattle.bf_lex.specs.declared.fault.ScriptKind.TheVariants.{TooDeep as TooDeepKind};
ghost use Rattle.bf_phrase.specs.declared.error.ReadStop.TheVariants.{Limit as BeyondLimit, Memory as OutOfMemory};
ghost use Rattle.bf_phrase.specs.Cursors.{IsPlace, left, words};
ghost use Rattle.bf_phrase.specs.Follow.{follow_product, follow_sum, is_point};
ghost use Rattle.bf_phrase.specs.Expressions.{Factor, Product, Sum, sum_of};
ghost use Rattle.bf_phrase.specs.Limits.{most_counted};
ghost use Rattle.bf_phrase.specs.Outcome.{outcome};
ghost use Rattle.bf_phrase.specs.Reading.{Fits, Read};

use crate::cursor::Cursor;
use crate::error::ReadStop;
use crate::operand::{literal, reference};
use crate::start::Start;
use crate::sum_operator::{SumOperator, next_operator};
use bf_lex::{ScriptKind, Sign};
use bf_tree::{RawExpr, RawNode};
use std::alloc::Global;

/// The most counted words of an expression or a condition.
const DEEPEST: usize = 256;

/// One more than the count, for the counted word at a place.
pub(crate) fn counted(count: usize, cursor: Cursor<'_>) -> Result<usize, ReadStop>
    ensures one_more { IfOk result (λ n. n ≡ count + 1) }
    ensures shallow { IfOk result (λ n. count < most_counted) }
    ensures fault { IfErr result (λ e. e ≡ BeyondLimit TooDeepKind (left cursor.entry)) }
    ensures deep { IfErr result (λ e. most_counted ≤ count) }
{
    if count < DEEPEST {
        Ok(count + 1)
    } else {
        Err(ReadStop::Limit(ScriptKind::TooDeep, cursor.tokens.len()))
    }
}

fn opposite(alloc: Global, inner: RawExpr) -> Result<RawExpr, ReadStop>
    ensures memory { IfErr result (λ e. e ≡ OutOfMemory) }
    ensures value { IfOk result (λ expr. expr ≡ negated inner) }
{
    Ok(RawExpr::of(RawNode::Neg(Box::new(alloc, inner)?)))
}

fn product_of(alloc: Global, left: RawExpr, right: RawExpr) -> Result<RawExpr, ReadStop>
    ensures memory { IfErr result (λ e. e ≡ OutOfMemory) }
    ensures value { IfOk result (λ expr. expr ≡ times left right) }
{
    let left = Box::new(alloc, left)?;
    let right = Box::new(alloc, right)?;
    Ok(RawExpr::of(RawNode::Mul(left, right)))
}

fn joined(
    alloc: Global,
    by: SumOperator,
    left: RawExpr,
    right: RawExpr,
) -> Result<RawExpr, ReadStop>
    ensures memory { IfErr result (λ e. e ≡ OutOfMemory) }
    ensures value { IfOk result (λ expr. expr ≡ sum_of by left right) }
{
    let left = Box::new(alloc, left)?;
    let right = Box::new(alloc, right)?;
    match by {
        SumOperator::Plus => Ok(RawExpr::of(RawNode::Add(left, right))),
        SumOperator::Difference => Ok(RawExpr::of(RawNode::Sub(left, right))),
        SumOperator::Concatenation => Ok(RawExpr::of(RawNode::Concat(left, right))),
    }
}

/// A factor at a place, the count behind it, and the place there.
#[cycle(expression)]
fn factor<'a>(
    alloc: Global,
    cursor: Cursor<'a>,
    count: usize,
) -> Result<(RawExpr, usize, Cursor<'a>), ReadStop>
    requires { IsPlace cursor }
    ensures fits { Fits is_point (Factor count) (words cursor.entry)
        (outcome (λ x. Read (x.0, x.1) (words x.2)) result) }
    ensures place { IfOk result (λ x. IsPlace x.2) }
    ensures shorter { IfOk result (λ x. left x.2 < left cursor.entry) }
{
    match cursor.start() {
        Start::Literal => {
            let (value, rest) = literal(alloc, cursor)?;
            Ok((RawExpr::of(RawNode::Value(value)), count, rest))
        }
        Start::Opposite(behind) => {
            let next = counted(count, cursor)?;
            let (inner, last, rest) = factor(alloc, behind, next)?;
            let expr = opposite(alloc, inner)?;
            Ok((expr, last, rest))
        }
        Start::Parenthesis(behind) => {
            let next = counted(count, cursor)?;
            let (inner, last, rest) = sum(alloc, behind, next)?;
            let rest = rest.expect_sign(Sign::ClosingParenthesis)?;
            Ok((inner, last, rest))
        }
        Start::Other => {
            let (column, rest) = reference(alloc, cursor)?;
            Ok((RawExpr::of(RawNode::Column(column)), count, rest))
        }
    }
}

/// A product at a place, the count behind it, and the place there.
#[cycle(expression)]
fn product<'a>(
    alloc: Global,
    cursor: Cursor<'a>,
    count: usize,
) -> Result<(RawExpr, usize, Cursor<'a>), ReadStop>
    requires { IsPlace cursor }
    ensures fits { Fits follow_product (Product count) (words cursor.entry)
        (outcome (λ x. Read (x.0, x.1) (words x.2)) result) }
    ensures place { IfOk result (λ x. IsPlace x.2) }
    ensures shorter { IfOk result (λ x. left x.2 < left cursor.entry) }
{
    let (first, last, rest) = factor(alloc, cursor, count)?;
    let mut total = first;
    let mut so_far = last;
    let mut rest = rest;
    while let Some(behind) = rest.sign(Sign::Star) {
        let next = counted(so_far, rest)?;
        let (right, last, behind) = factor(alloc, behind, next)?;
        total = product_of(alloc, total, right)?;
        so_far = last;
        rest = behind;
    }
    Ok((total, so_far, rest))
}

/// An expression at a place, the count behind it, and the place there.
#[cycle(expression)]
pub fn sum<'a>(
    alloc: Global,
    cursor: Cursor<'a>,
    count: usize,
) -> Result<(RawExpr, usize, Cursor<'a>), ReadStop>
    requires { IsPlace cursor }
    ensures fits { Fits follow_sum (Sum count) (words cursor.entry)
        (outcome (λ x. Read (x.0, x.1) (words x.2)) result) }
    ensures place { IfOk result (λ x. IsPlace x.2) }
    ensures shorter { IfOk result (λ x. left x.2 < left cursor.entry) }
{
    let (first, last, rest) = product(alloc, cursor, count)?;
    let mut total = first;
    let mut so_far = last;
    let mut rest = rest;
    while let Some((by, behind)) = next_operator(rest) {
        let next = counted(so_far, rest)?;
        let (right, last, behind) = product(alloc, behind, next)?;
        total = joined(alloc, by, total, right)?;
        so_far = last;
        rest = behind;
    }
    Ok((total, so_far, rest))
}
