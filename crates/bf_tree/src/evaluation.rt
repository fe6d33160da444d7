//! The value of an expression and the truth of a condition on a row.

ghost use Rattle.std.specs.Prelude.{◌≡◌, ◌+ℤ◌, ◌-ℤ◌, ◌*ℤ◌, ◌++◌, neg_ℤ, FitsSigned, None, Ok, IfOk, IfSome, option_copied};
ghost use Rattle.std.specs.Int.{w64};
ghost use Rattle.bf_base.specs.Tables.{cell};
ghost use Rattle.bf_base.specs.Texts.{first_bad_of};
ghost use Rattle.bf_base.specs.Values.{value_cmp};
ghost use Rattle.bf_tree.specs.Evaluation.{Gives, bytes_of, compares, exact, holds_on, number_of, short, sure_value, value_of, value_there};
ghost use Rattle.bf_tree.specs.declared.evaluation.Fail.TheVariants as fail;

use crate::compare::Compare;
use crate::tree::{Cond, Expr, Node, Test};
use bf_base::{Memory, Row, Text, TextError, Value};
use std::alloc::{AllocError, Global};
use std::cmp::Ordering;
use thiserror::Error;

/// Why an expression has no value on a row.
#[derive(Clone, Copy, Debug, PartialEq, Eq, Error)]
pub enum Fail {
    /// A sum, difference, product or negation is no i64.
    #[error("out of range")]
    OutOfRange,
    /// A concatenation has more than 255 bytes.
    #[error("too long")]
    TooLong,
    #[error("out of memory")]
    Memory,
}

impl From<Memory> for Fail {
    ghost from_gives = { λ _ e. e ≡ fail.Memory };

    fn from(_e: Memory) -> Fail {
        Fail::Memory
    }
}

impl From<AllocError> for Fail {
    ghost from_gives = { λ _ e. e ≡ fail.Memory };

    fn from(_e: AllocError) -> Fail {
        Fail::Memory
    }
}

/// The value at a place of the row, or 0 past its end.
fn column(alloc: Global, row: &Row, place: u8) -> Result<Value, Memory>
    ensures { IfOk result (λ copy. copy ≡ cell row.now place) }
{
    match row.as_slice().get(place as usize) {
        Some(value) => value.copy(alloc),
        None => Ok(Value::Int(0)),
    }
}

fn number(value: &Value) -> i128
    ensures value { result ≡ number_of value.now }
    ensures range { FitsSigned w64 result }
{
    match value {
        Value::Int(number) => i128::from(*number),
        Value::Text(_) => 0,
    }
}

fn bytes(value: &Value) -> &[u8]
    ensures value { result.now ≡ bytes_of value.now }
    ensures printable { first_bad_of result.now ≡ None }
{
    match value {
        Value::Int(_) => &[],
        Value::Text(text) => text.as_bytes(),
    }
}

fn exactly(number: i128) -> Result<Value, Fail>
    ensures { Gives result (exact number) }
{
    match i64::try_from(number) {
        Ok(number) => Ok(Value::Int(number)),
        Err(_) => Err(Fail::OutOfRange),
    }
}

fn negation(x: &Value) -> Result<Value, Fail>
    ensures { Gives result (exact (neg_ℤ (number_of x.now))) }
{
    exactly(-number(x))
}

fn sum(x: &Value, y: &Value) -> Result<Value, Fail>
    ensures { Gives result (exact (number_of x.now +ℤ number_of y.now)) }
{
    exactly(number(x) + number(y))
}

fn difference(x: &Value, y: &Value) -> Result<Value, Fail>
    ensures { Gives result (exact (number_of x.now -ℤ number_of y.now)) }
{
    exactly(number(x) - number(y))
}

fn product(x: &Value, y: &Value) -> Result<Value, Fail>
    ensures { Gives result (exact (number_of x.now *ℤ number_of y.now)) }
{
    exactly(number(x) * number(y))
}

fn concatenation(alloc: Global, x: &Value, y: &Value) -> Result<Value, Fail>
    ensures { Gives result (short (bytes_of x.now ++ bytes_of y.now)) }
{
    let (left, right) = (bytes(x), bytes(y));
    let mut joined = Vec::with_capacity(alloc, left.len() + right.len())?;
    joined.extend_from_slice(left)?;
    joined.extend_from_slice(right)?;
    match Text::of(alloc, joined.as_slice()) {
        Ok(text) => Ok(Value::Text(text)),
        Err(TextError::TooLong(_)) => Err(Fail::TooLong),
        Err(TextError::BadByte(_)) => unreachable!(),
        Err(TextError::Memory) => Err(Fail::Memory),
    }
}

/// The value of an expression on a row, by exact whole numbers, in time linear in its nodes and
/// texts. A number where a text is asked for counts as the empty text, a text where a number is
/// asked for as 0, and a column that the row lacks as 0: binding lets none of these come.
///
/// # Errors
/// The first failure, the left part of each node first.
pub fn value(alloc: Global, expr: &Expr, row: &Row) -> Result<Value, Fail>
    ensures { Gives result (value_of (cell row.now) expr.now) }
{
    match expr.node() {
        Node::Value(literal) => Ok(literal.copy(alloc)?),
        Node::Column(place) => Ok(column(alloc, row, *place)?),
        Node::Neg(a) => negation(&value(alloc, a, row)?),
        Node::Add(a, b) => sum(&value(alloc, a, row)?, &value(alloc, b, row)?),
        Node::Sub(a, b) => difference(&value(alloc, a, row)?, &value(alloc, b, row)?),
        Node::Mul(a, b) => product(&value(alloc, a, row)?, &value(alloc, b, row)?),
        Node::Concat(a, b) => {
            concatenation(alloc, &value(alloc, a, row)?, &value(alloc, b, row)?)
        }
    }
}

/// The value of a literal or of a column that the row has, where it stands, and `None` of every other
/// expression. Takes no memory.
pub fn operand<'a>(expr: &'a Expr, row: &'a Row) -> Option<&'a Value>
    ensures there { option_copied result ≡ value_there row.now expr.now }
    ensures value { IfSome result (λ found. value_of (cell row.now) expr.now ≡ Ok found.now) }
{
    match expr.node() {
        Node::Value(literal) => Some(literal),
        Node::Column(place) => row.as_slice().get(*place as usize),
        _ => None,
    }
}

/// The value of an expression, or 0 where it has none.
fn value_or_zero(alloc: Global, expr: &Expr, row: &Row) -> Result<Value, Memory>
    ensures { IfOk result (λ found. found ≡ sure_value (cell row.now) expr.now) }
{
    match value(alloc, expr, row) {
        Ok(found) => Ok(found),
        Err(Fail::OutOfRange | Fail::TooLong) => Ok(Value::Int(0)),
        Err(Fail::Memory) => Err(Memory),
    }
}

/// How the values of two expressions compare. It copies nothing where both stand in the
/// expressions or in the row, as in every condition that is read.
fn order(alloc: Global, a: &Expr, b: &Expr, row: &Row) -> Result<Ordering, Memory>
    ensures { IfOk result (λ order.
        order ≡ value_cmp (sure_value (cell row.now) a.now) (sure_value (cell row.now) b.now)) }
{
    if let (Some(a), Some(b)) = (operand(a, row), operand(b, row)) {
        return Ok(a.cmp(b));
    }
    let a = value_or_zero(alloc, a, row)?;
    let b = value_or_zero(alloc, b, row)?;
    Ok(a.cmp(&b))
}

fn is_met(compare: Compare, order: Ordering) -> bool
    ensures { result ≡ compares compare order }
{
    match compare {
        Compare::Equal => order.is_eq(),
        Compare::Unequal => order.is_ne(),
        Compare::Less => order.is_lt(),
        Compare::LessEqual => order.is_le(),
        Compare::Greater => order.is_gt(),
        Compare::GreaterEqual => order.is_ge(),
    }
}

/// Whether a condition is true on a row, in time linear in its nodes. It compares columns and
/// literals where they stand, without a copy. An expression that has no value counts as 0: no
/// condition that is read has one.
pub fn holds(alloc: Global, cond: &Cond, row: &Row) -> Result<bool, Memory>
    ensures { IfOk result (λ truth. truth ≡ holds_on (cell row.now) cond.now) }
{
    match cond.node() {
        Test::Always => Ok(true),
        Test::Compare(compare, a, b) => Ok(is_met(*compare, order(alloc, a, b, row)?)),
        Test::Between(a, low, high) => Ok(
            order(alloc, low, a, row)?.is_le() && order(alloc, a, high, row)?.is_le(),
        ),
        Test::Not(c) => Ok(!holds(alloc, c, row)?),
        Test::And(c, d) => Ok(holds(alloc, c, row)? && holds(alloc, d, row)?),
        Test::Or(c, d) => Ok(holds(alloc, c, row)? || holds(alloc, d, row)?),
    }
}
