//! Conditions that may be missing, expressions that count from 0, and aggregates.

ghost use Rattle.std.specs.Prelude.{◌≡◌, ◌<◌, ◌≤◌, IfOk};
ghost use Rattle.bf_phrase.specs.Cursors.{IsPlace, left, words};
ghost use Rattle.bf_phrase.specs.Follow.{follow_sum, follow_where, nothing};
ghost use Rattle.bf_phrase.specs.Outcome.{outcome};
ghost use Rattle.bf_phrase.specs.Phrases.{AggregateRule, Enclosed, ExprRule, WhereRule};
ghost use Rattle.bf_phrase.specs.Pieces.{StarRule, count};
ghost use Rattle.bf_phrase.specs.Reading.{Fits, Read};
ghost use Rattle.bf_phrase.specs.Rules.{Return};

use crate::condition::condition;
use crate::cursor::Cursor;
use crate::error::ReadStop;
use crate::expression::sum;
use bf_lex::{Keyword, Sign};
use bf_tree::{RawAggregate, RawCond, RawExpr};
use std::alloc::Global;

/// The condition behind WHERE, where that stands first, and the place behind it.
pub fn where_clause<'a>(
    alloc: Global,
    cursor: Cursor<'a>,
) -> Result<(Option<RawCond>, Cursor<'a>), ReadStop>
    requires { IsPlace cursor }
    ensures fits { Fits follow_where WhereRule (words cursor.entry)
        (outcome (λ x. Read x.0 (words x.1)) result) }
    ensures place { IfOk result (λ x. IsPlace x.1) }
    ensures shorter { IfOk result (λ x. left x.1 ≤ left cursor.entry) }
{
    match cursor.keyword(Keyword::Where) {
        None => Ok((None, cursor)),
        Some(behind) => {
            let (cond, _, rest) = condition(alloc, behind, 0)?;
            Ok((Some(cond), rest))
        }
    }
}

/// The expression at a place, and the place behind it.
pub(crate) fn expression<'a>(
    alloc: Global,
    cursor: Cursor<'a>,
) -> Result<(RawExpr, Cursor<'a>), ReadStop>
    requires { IsPlace cursor }
    ensures fits { Fits follow_sum ExprRule (words cursor.entry)
        (outcome (λ x. Read x.0 (words x.1)) result) }
    ensures place { IfOk result (λ x. IsPlace x.1) }
    ensures shorter { IfOk result (λ x. left x.1 < left cursor.entry) }
{
    let (expr, _, rest) = sum(alloc, cursor, 0)?;
    Ok((expr, rest))
}

/// The expression between parentheses at a place, and the place behind it.
fn enclosed<'a>(alloc: Global, cursor: Cursor<'a>) -> Result<(RawExpr, Cursor<'a>), ReadStop>
    requires { IsPlace cursor }
    ensures fits { Fits nothing (Enclosed ExprRule (λ e. Return e)) (words cursor.entry)
        (outcome (λ x. Read x.0 (words x.1)) result) }
    ensures place { IfOk result (λ x. IsPlace x.1) }
    ensures shorter { IfOk result (λ x. left x.1 < left cursor.entry) }
{
    let rest = cursor.expect_sign(Sign::OpeningParenthesis)?;
    let (expr, rest) = expression(alloc, rest)?;
    let rest = rest.expect_sign(Sign::ClosingParenthesis)?;
    Ok((expr, rest))
}

/// The place behind a star between parentheses.
fn star<'a>(cursor: Cursor<'a>) -> Result<Cursor<'a>, ReadStop>
    requires { IsPlace cursor }
    ensures fits { Fits nothing StarRule (words cursor.entry)
        (outcome (λ rest. Read count (words rest)) result) }
    ensures place { IfOk result IsPlace }
    ensures shorter { IfOk result (λ rest. left rest < left cursor.entry) }
{
    let rest = cursor.expect_sign(Sign::OpeningParenthesis)?;
    let rest = rest.expect_sign(Sign::Star)?;
    let rest = rest.expect_sign(Sign::ClosingParenthesis)?;
    Ok(rest)
}

/// The aggregate at a place, and the place behind it.
pub(crate) fn aggregate<'a>(
    alloc: Global,
    cursor: Cursor<'a>,
) -> Result<(RawAggregate, Cursor<'a>), ReadStop>
    requires { IsPlace cursor }
    ensures fits { Fits nothing AggregateRule (words cursor.entry)
        (outcome (λ x. Read x.0 (words x.1)) result) }
    ensures place { IfOk result (λ x. IsPlace x.1) }
    ensures shorter { IfOk result (λ x. left x.1 < left cursor.entry) }
{
    match cursor.first_keyword() {
        None => Err(ReadStop::Syntax(cursor.tokens.len())),
        Some((keyword, behind)) => match keyword {
            Keyword::Count => {
                let rest = star(behind)?;
                Ok((RawAggregate::Count, rest))
            }
            Keyword::Sum => {
                let (expr, rest) = enclosed(alloc, behind)?;
                Ok((RawAggregate::Sum(expr), rest))
            }
            Keyword::Min => {
                let (expr, rest) = enclosed(alloc, behind)?;
                Ok((RawAggregate::Min(expr), rest))
            }
            Keyword::Max => {
                let (expr, rest) = enclosed(alloc, behind)?;
                Ok((RawAggregate::Max(expr), rest))
            }
            _ => Err(ReadStop::Syntax(cursor.tokens.len())),
        },
    }
}
