//! Conditions. Comparisons, BETWEENs, NOTs, ANDs, ORs and opening parentheses are counted.

ghost use Rattle.std.specs.Prelude.{◌≡◌, ◌<◌, IfErr, IfOk};
ghost use Rattle.bf_tree.specs.Trees.{both, either, opposite as opposite_tree};
ghost use Rattle.bf_tree.specs.Views.{operand_tree};
ghost use Rattle.bf_phrase.specs.declared.error.ReadStop.TheVariants.{Memory as OutOfMemory};
ghost use Rattle.bf_phrase.specs.Comparisons.{TestRule};
ghost use Rattle.bf_phrase.specs.Conditions.{Conjunction, Disjunction, Negation, OperandRule};
ghost use Rattle.bf_phrase.specs.Cursors.{IsPlace, left, words};
ghost use Rattle.bf_phrase.specs.Follow.{follow_conjunction, follow_disjunction, is_point};
ghost use Rattle.bf_phrase.specs.Outcome.{outcome};
ghost use Rattle.bf_phrase.specs.Reading.{Fits, Read};

use crate::comparison::next_comparison;
use crate::cursor::Cursor;
use crate::error::ReadStop;
use crate::expression::counted;
use crate::operand::{literal, reference};
use crate::start::Start;
use bf_lex::{Keyword, Sign};
use bf_tree::{Operand, RawCond, RawTest};
use std::alloc::Global;

/// A literal or a column at a place, and the place behind it.
fn operand<'a>(alloc: Global, cursor: Cursor<'a>) -> Result<(Operand, Cursor<'a>), ReadStop>
    requires { IsPlace cursor }
    ensures fits { Fits is_point OperandRule (words cursor.entry)
        (outcome (λ x. Read (operand_tree x.0) (words x.1)) result) }
    ensures place { IfOk result (λ x. IsPlace x.1) }
    ensures shorter { IfOk result (λ x. left x.1 < left cursor.entry) }
{
    match cursor.start() {
        Start::Other => {
            let (column, rest) = reference(alloc, cursor)?;
            Ok((Operand::Column(column), rest))
        }
        _ => {
            let (value, rest) = literal(alloc, cursor)?;
            Ok((Operand::Value(value), rest))
        }
    }
}

/// A comparison or a BETWEEN at a place, the count behind it, and the place there.
fn test<'a>(
    alloc: Global,
    cursor: Cursor<'a>,
    count: usize,
) -> Result<(RawCond, usize, Cursor<'a>), ReadStop>
    requires { IsPlace cursor }
    ensures fits { Fits is_point (TestRule count) (words cursor.entry)
        (outcome (λ x. Read (x.0, x.1) (words x.2)) result) }
    ensures place { IfOk result (λ x. IsPlace x.2) }
    ensures shorter { IfOk result (λ x. left x.2 < left cursor.entry) }
{
    let (first, rest) = operand(alloc, cursor)?;
    match next_comparison(rest) {
        Some((op, behind)) => {
            let next = counted(count, rest)?;
            let (second, behind) = operand(alloc, behind)?;
            Ok((
                RawCond::of(RawTest::Compare(op, first, second)),
                next,
                behind,
            ))
        }
        None => match rest.keyword(Keyword::Between) {
            Some(behind) => {
                let next = counted(count, rest)?;
                let (low, behind) = operand(alloc, behind)?;
                let behind = behind.expect_keyword(Keyword::And)?;
                let (high, behind) = operand(alloc, behind)?;
                Ok((
                    RawCond::of(RawTest::Between(first, low, high)),
                    next,
                    behind,
                ))
            }
            None => Err(ReadStop::Syntax(rest.tokens.len())),
        },
    }
}

fn opposite(alloc: Global, inner: RawCond) -> Result<RawCond, ReadStop>
    ensures memory { IfErr result (λ e. e ≡ OutOfMemory) }
    ensures value { IfOk result (λ cond. cond ≡ opposite_tree inner) }
{
    Ok(RawCond::of(RawTest::Not(Box::new(alloc, inner)?)))
}

fn both_of(alloc: Global, left: RawCond, right: RawCond) -> Result<RawCond, ReadStop>
    ensures memory { IfErr result (λ e. e ≡ OutOfMemory) }
    ensures value { IfOk result (λ cond. cond ≡ both left right) }
{
    let left = Box::new(alloc, left)?;
    let right = Box::new(alloc, right)?;
    Ok(RawCond::of(RawTest::And(left, right)))
}

fn either_of(alloc: Global, left: RawCond, right: RawCond) -> Result<RawCond, ReadStop>
    ensures memory { IfErr result (λ e. e ≡ OutOfMemory) }
    ensures value { IfOk result (λ cond. cond ≡ either left right) }
{
    let left = Box::new(alloc, left)?;
    let right = Box::new(alloc, right)?;
    Ok(RawCond::of(RawTest::Or(left, right)))
}

/// A condition without AND and OR at a place, the count behind it, and the place there.
#[cycle(condition)]
fn negation<'a>(
    alloc: Global,
    cursor: Cursor<'a>,
    count: usize,
) -> Result<(RawCond, usize, Cursor<'a>), ReadStop>
    requires { IsPlace cursor }
    ensures fits { Fits is_point (Negation count) (words cursor.entry)
        (outcome (λ x. Read (x.0, x.1) (words x.2)) result) }
    ensures place { IfOk result (λ x. IsPlace x.2) }
    ensures shorter { IfOk result (λ x. left x.2 < left cursor.entry) }
{
    match cursor.keyword(Keyword::Not) {
        Some(behind) => {
            let next = counted(count, cursor)?;
            let (inner, last, rest) = negation(alloc, behind, next)?;
            let cond = opposite(alloc, inner)?;
            Ok((cond, last, rest))
        }
        None => match cursor.sign(Sign::OpeningParenthesis) {
            Some(behind) => {
                let next = counted(count, cursor)?;
                let (inner, last, rest) = condition(alloc, behind, next)?;
                let rest = rest.expect_sign(Sign::ClosingParenthesis)?;
                Ok((inner, last, rest))
            }
            None => test(alloc, cursor, count),
        },
    }
}

/// A condition without OR at a place, the count behind it, and the place there.
#[cycle(condition)]
fn conjunction<'a>(
    alloc: Global,
    cursor: Cursor<'a>,
    count: usize,
) -> Result<(RawCond, usize, Cursor<'a>), ReadStop>
    requires { IsPlace cursor }
    ensures fits { Fits follow_conjunction (Conjunction count) (words cursor.entry)
        (outcome (λ x. Read (x.0, x.1) (words x.2)) result) }
    ensures place { IfOk result (λ x. IsPlace x.2) }
    ensures shorter { IfOk result (λ x. left x.2 < left cursor.entry) }
{
    let (first, last, rest) = negation(alloc, cursor, count)?;
    let mut total = first;
    let mut so_far = last;
    let mut rest = rest;
    while let Some(behind) = rest.keyword(Keyword::And) {
        let next = counted(so_far, rest)?;
        let (right, last, behind) = negation(alloc, behind, next)?;
        total = both_of(alloc, total, right)?;
        so_far = last;
        rest = behind;
    }
    Ok((total, so_far, rest))
}

/// A condition at a place, the count behind it, and the place there.
#[cycle(condition)]
pub fn condition<'a>(
    alloc: Global,
    cursor: Cursor<'a>,
    count: usize,
) -> Result<(RawCond, usize, Cursor<'a>), ReadStop>
    requires { IsPlace cursor }
    ensures fits { Fits follow_disjunction (Disjunction count) (words cursor.entry)
        (outcome (λ x. Read (x.0, x.1) (words x.2)) result) }
    ensures place { IfOk result (λ x. IsPlace x.2) }
    ensures shorter { IfOk result (λ x. left x.2 < left cursor.entry) }
{
    let (first, last, rest) = conjunction(alloc, cursor, count)?;
    let mut total = first;
    let mut so_far = last;
    let mut rest = rest;
    while let Some(behind) = rest.keyword(Keyword::Or) {
        let next = counted(so_far, rest)?;
        let (right, last, behind) = conjunction(alloc, behind, next)?;
        total = either_of(alloc, total, right)?;
        so_far = last;
        rest = behind;
    }
    Ok((total, so_far, rest))
}
