//! Literals and columns.

ghost use Rattle.std.specs.Prelude.{◌≡◌, ◌<◌, ◌≤◌, IfOk, neg_ℤ, pos};
ghost use Rattle.bf_base.specs.Limits.{int_end};
ghost use Rattle.bf_base.specs.declared.value.Value.TheVariants.{Int as IntValue};
ghost use Rattle.bf_phrase.specs.Conditions.{LiteralRule, SignedRule};
ghost use Rattle.bf_phrase.specs.Cursors.{IsPlace, left, words};
ghost use Rattle.bf_phrase.specs.Follow.{is_point, nothing};
ghost use Rattle.bf_phrase.specs.Expressions.{RefRule};
ghost use Rattle.bf_phrase.specs.Outcome.{outcome};
ghost use Rattle.bf_phrase.specs.Reading.{Fits, Read};

use crate::cursor::Cursor;
use crate::error::ReadStop;
use crate::start::Front;
use bf_base::Value;
use bf_lex::{ScriptKind, Sign, content};
use bf_tree::Ref;
use std::alloc::Global;

/// Behind a minus alone this is an INT.
pub(crate) const WIDEST: u64 = 1 << 63;

/// The number, or the minus and the number, at a place, and the place behind it.
pub(crate) fn signed<'a>(cursor: Cursor<'a>) -> Result<(i64, Cursor<'a>), ReadStop>
    requires { IsPlace cursor }
    ensures fits { Fits nothing SignedRule (words cursor.entry)
        (outcome (λ x. Read (IntValue x.0) (words x.1)) result) }
    ensures place { IfOk result (λ x. IsPlace x.1) }
    ensures shorter { IfOk result (λ x. left x.1 < left cursor.entry) }
{
    match cursor.front() {
        Front::Number(number, rest) => {
            if number < WIDEST {
                Ok((number as i64, rest))
            } else {
                Err(ReadStop::Limit(ScriptKind::NumberTooWide, cursor.tokens.len()))
            }
        }
        Front::Negative(number, rest) => Ok((negative(number), rest)),
        Front::Minus(behind) => Err(ReadStop::Syntax(behind.tokens.len())),
        Front::Text(_, _) => Err(ReadStop::Syntax(cursor.tokens.len())),
        Front::Other => Err(ReadStop::Syntax(cursor.tokens.len())),
    }
}

/// The literal at a place, and the place behind it.
pub fn literal<'a>(alloc: Global, cursor: Cursor<'a>) -> Result<(Value, Cursor<'a>), ReadStop>
    requires { IsPlace cursor }
    ensures fits { Fits nothing LiteralRule (words cursor.entry)
        (outcome (λ x. Read x.0 (words x.1)) result) }
    ensures place { IfOk result (λ x. IsPlace x.1) }
    ensures shorter { IfOk result (λ x. left x.1 < left cursor.entry) }
{
    match cursor.front() {
        Front::Text(bytes, rest) => Ok((Value::Text(content(alloc, bytes)?), rest)),
        _ => {
            let (number, rest) = signed(cursor)?;
            Ok((Value::Int(number), rest))
        }
    }
}

fn negative(number: u64) -> i64
    requires { number ≤ int_end }
    ensures { result ≡ neg_ℤ (pos number) }
{
    if number < WIDEST {
        -(number as i64)
    } else {
        i64::MIN
    }
}

/// The column at a place, and the place behind it.
pub fn reference<'a>(alloc: Global, cursor: Cursor<'a>) -> Result<(Ref, Cursor<'a>), ReadStop>
    requires { IsPlace cursor }
    ensures fits { Fits is_point RefRule (words cursor.entry)
        (outcome (λ x. Read x.0 (words x.1)) result) }
    ensures place { IfOk result (λ x. IsPlace x.1) }
    ensures shorter { IfOk result (λ x. left x.1 < left cursor.entry) }
{
    let (first, rest) = cursor.name(alloc)?;
    match rest.sign(Sign::Point) {
        None => Ok((
            Ref {
                table: None,
                column: first,
            },
            rest,
        )),
        Some(behind) => {
            let (second, rest) = behind.name(alloc)?;
            Ok((
                Ref {
                    table: Some(first),
                    column: second,
                },
                rest,
            ))
        }
    }
}
