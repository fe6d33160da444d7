//! Columns as CREATE declares them.

ghost use Rattle.std.specs.Prelude.{◌≡◌, ◌<◌, IfOk};
ghost use Rattle.bf_phrase.specs.Columns.{CheckRule, ColumnRuleRule, FormRule};
ghost use Rattle.bf_phrase.specs.Pieces.{RangeRule};
ghost use Rattle.bf_phrase.specs.Cursors.{IsPlace, left, words};
ghost use Rattle.bf_phrase.specs.Expressions.{NumberRule};
ghost use Rattle.bf_phrase.specs.Follow.{is_check, nothing};
ghost use Rattle.bf_phrase.specs.Outcome.{outcome};
ghost use Rattle.bf_phrase.specs.Reading.{Fits, Read};

use crate::cursor::Cursor;
use crate::error::ReadStop;
use crate::operand::{WIDEST, signed};
use crate::start::Front;
use bf_lex::{Keyword, ScriptKind, Sign};
use bf_tree::{ColumnForm, ColumnRule};
use std::alloc::Global;

/// The number at a place, and the place behind it.
fn number<'a>(cursor: Cursor<'a>) -> Result<(u64, Cursor<'a>), ReadStop>
    requires { IsPlace cursor }
    ensures fits { Fits nothing NumberRule (words cursor.entry)
        (outcome (λ x. Read x.0 (words x.1)) result) }
    ensures place { IfOk result (λ x. IsPlace x.1) }
    ensures shorter { IfOk result (λ x. left x.1 < left cursor.entry) }
{
    match cursor.front() {
        Front::Number(number, rest) => {
            if number < WIDEST {
                Ok((number, rest))
            } else {
                Err(ReadStop::Limit(ScriptKind::NumberTooWide, cursor.tokens.len()))
            }
        }
        _ => Err(ReadStop::Syntax(cursor.tokens.len())),
    }
}

/// The column and the bounds of a CHECK at a place, and the place behind them.
fn range<'a>(alloc: Global, cursor: Cursor<'a>) -> Result<(ColumnForm, Cursor<'a>), ReadStop>
    requires { IsPlace cursor }
    ensures fits { Fits nothing RangeRule (words cursor.entry)
        (outcome (λ x. Read x.0 (words x.1)) result) }
    ensures place { IfOk result (λ x. IsPlace x.1) }
    ensures shorter { IfOk result (λ x. left x.1 < left cursor.entry) }
{
    let (checked, rest) = cursor.name(alloc)?;
    let rest = rest.expect_keyword(Keyword::Between)?;
    let (low, rest) = signed(rest)?;
    let rest = rest.expect_keyword(Keyword::And)?;
    let (high, rest) = signed(rest)?;
    Ok((ColumnForm::Checked(checked, low, high), rest))
}

/// The CHECK at a place, and the place behind it.
fn check<'a>(alloc: Global, cursor: Cursor<'a>) -> Result<(ColumnForm, Cursor<'a>), ReadStop>
    requires { IsPlace cursor }
    ensures fits { Fits nothing CheckRule (words cursor.entry)
        (outcome (λ x. Read x.0 (words x.1)) result) }
    ensures place { IfOk result (λ x. IsPlace x.1) }
    ensures shorter { IfOk result (λ x. left x.1 < left cursor.entry) }
{
    let rest = cursor.expect_keyword(Keyword::Check)?;
    let rest = rest.expect_sign(Sign::OpeningParenthesis)?;
    let (form, rest) = range(alloc, rest)?;
    let rest = rest.expect_sign(Sign::ClosingParenthesis)?;
    Ok((form, rest))
}

/// What a column is declared to admit, at a place, and the place behind it.
fn form<'a>(alloc: Global, cursor: Cursor<'a>) -> Result<(ColumnForm, Cursor<'a>), ReadStop>
    requires { IsPlace cursor }
    ensures fits { Fits is_check FormRule (words cursor.entry)
        (outcome (λ x. Read x.0 (words x.1)) result) }
    ensures place { IfOk result (λ x. IsPlace x.1) }
    ensures shorter { IfOk result (λ x. left x.1 < left cursor.entry) }
{
    match cursor.keyword(Keyword::Int) {
        Some(behind) => match behind.keyword(Keyword::Check) {
            None => Ok((ColumnForm::Int, behind)),
            Some(_) => check(alloc, behind),
        },
        None => {
            let rest = cursor.expect_keyword(Keyword::Varchar)?;
            let rest = rest.expect_sign(Sign::OpeningParenthesis)?;
            let (most, rest) = number(rest)?;
            let rest = rest.expect_sign(Sign::ClosingParenthesis)?;
            Ok((ColumnForm::Varchar(most), rest))
        }
    }
}

/// The column at a place, and the place behind it.
pub fn column<'a>(alloc: Global, cursor: Cursor<'a>) -> Result<(ColumnRule, Cursor<'a>), ReadStop>
    requires { IsPlace cursor }
    ensures fits { Fits is_check ColumnRuleRule (words cursor.entry)
        (outcome (λ x. Read x.0 (words x.1)) result) }
    ensures place { IfOk result (λ x. IsPlace x.1) }
    ensures shorter { IfOk result (λ x. left x.1 < left cursor.entry) }
{
    let (name, rest) = cursor.name(alloc)?;
    let (form, rest) = form(alloc, rest)?;
    Ok((ColumnRule { name, form }, rest))
}
