//! Literals, expressions and conditions at the front of texts.
//!
//! Of each is told how many words are counted in it, how many tokens are left behind it, and its tree with a pair of
//! parentheses around each operator and what it takes; or where it stops.

use crate::bytes::tell_bytes;
use crate::values::tell_value;
use anyhow::ensure;
use bf_lex::tokens;
use bf_phrase::Cursor;
use bf_phrase::condition::condition;
use bf_phrase::expression::sum;
use bf_phrase::operand::literal;
use bf_tree::{Compare, Operand, RawCond, RawExpr, RawNode, RawTest, Ref};
use std::alloc::Global;

fn write_column(column: &Ref, told: &mut String) -> anyhow::Result<()> {
    if let Some(table) = &column.table {
        tell_bytes(table.as_bytes(), told)?;
        told.push('.')?;
    }
    tell_bytes(column.column.as_bytes(), told)
}

fn write_expression(expr: &RawExpr, told: &mut String) -> anyhow::Result<()> {
    let (left, operator, right) = match expr.node() {
        RawNode::Value(value) => return tell_value(value, told),
        RawNode::Column(column) => return write_column(column, told),
        RawNode::Neg(inner) => {
            told.push_str("(- ")?;
            write_expression(inner, told)?;
            told.push(')')?;
            return Ok(());
        }
        RawNode::Add(left, right) => (left, " + ", right),
        RawNode::Sub(left, right) => (left, " - ", right),
        RawNode::Mul(left, right) => (left, " * ", right),
        RawNode::Concat(left, right) => (left, " || ", right),
    };
    told.push('(')?;
    write_expression(left, told)?;
    told.push_str(operator)?;
    write_expression(right, told)?;
    told.push(')')?;
    Ok(())
}

fn write_operand(operand: &Operand, told: &mut String) -> anyhow::Result<()> {
    match operand {
        Operand::Value(value) => tell_value(value, told),
        Operand::Column(column) => write_column(column, told),
    }
}

fn sign_of(compare: Compare) -> &'static str {
    match compare {
        Compare::Equal => " = ",
        Compare::Unequal => " <> ",
        Compare::Less => " < ",
        Compare::LessEqual => " <= ",
        Compare::Greater => " > ",
        Compare::GreaterEqual => " >= ",
    }
}

/// Writes three operands with two words between.
fn write_range(
    operand: &Operand,
    low: &Operand,
    high: &Operand,
    told: &mut String,
) -> anyhow::Result<()> {
    told.push('(')?;
    write_operand(operand, told)?;
    told.push_str(" BETWEEN ")?;
    write_operand(low, told)?;
    told.push_str(" AND ")?;
    write_operand(high, told)?;
    told.push(')')?;
    Ok(())
}

fn write_comparison(
    compare: Compare,
    left: &Operand,
    right: &Operand,
    told: &mut String,
) -> anyhow::Result<()> {
    told.push('(')?;
    write_operand(left, told)?;
    told.push_str(sign_of(compare))?;
    write_operand(right, told)?;
    told.push(')')?;
    Ok(())
}

fn write_condition(cond: &RawCond, told: &mut String) -> anyhow::Result<()> {
    let (left, word, right) = match cond.node() {
        RawTest::Compare(compare, left, right) => {
            return write_comparison(*compare, left, right, told);
        }
        RawTest::Between(operand, low, high) => return write_range(operand, low, high, told),
        RawTest::Not(inner) => {
            told.push_str("(NOT ")?;
            write_condition(inner, told)?;
            told.push(')')?;
            return Ok(());
        }
        RawTest::And(left, right) => (left, " AND ", right),
        RawTest::Or(left, right) => (left, " OR ", right),
    };
    told.push('(')?;
    write_condition(left, told)?;
    told.push_str(word)?;
    write_condition(right, told)?;
    told.push(')')?;
    Ok(())
}

/// Adds the literal at the front of a text, and how many tokens are left behind it, or where it stops.
pub fn tell_literal(alloc: Global, text: &[u8], told: &mut String) -> anyhow::Result<()> {
    ensure!(text.len() < 10_000, "a long text");
    let tokens = tokens(alloc, text)?;
    match literal(alloc, Cursor::new(text, &tokens)) {
        Ok((value, rest)) => {
            write!(told, "{} ", rest.tokens.len())?;
            tell_value(&value, told)
        }
        Err(stop) => Ok(write!(told, "{stop:?}")?),
    }
}

/// Adds what is told of the expression at the front of a text. Its tree is that of a copy.
pub fn tell_expression(alloc: Global, text: &[u8], told: &mut String) -> anyhow::Result<()> {
    ensure!(text.len() < 10_000, "a long text");
    let tokens = tokens(alloc, text)?;
    match sum(alloc, Cursor::new(text, &tokens), 0) {
        Ok((expr, count, rest)) => {
            write!(told, "{count} {} ", rest.tokens.len())?;
            write_expression(&expr.copy(alloc)?, told)
        }
        Err(stop) => Ok(write!(told, "{stop:?}")?),
    }
}

/// Adds what is told of the condition at the front of a text. Its tree is that of a copy.
pub fn tell_condition(alloc: Global, text: &[u8], told: &mut String) -> anyhow::Result<()> {
    ensure!(text.len() < 10_000, "a long text");
    let tokens = tokens(alloc, text)?;
    match condition(alloc, Cursor::new(text, &tokens), 0) {
        Ok((cond, count, rest)) => {
            write!(told, "{count} {} ", rest.tokens.len())?;
            write_condition(&cond.copy(alloc)?, told)
        }
        Err(stop) => Ok(write!(told, "{stop:?}")?),
    }
}
