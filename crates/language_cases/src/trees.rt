//! Trees that words make, each word behind its parts, and their values on rows.

use crate::values::{row_of, tell_value, value_of};
use anyhow::Context;
use bf_base::Row;
use bf_tree::{Compare, Cond, Expr, Node, Test, holds, value};
use std::alloc::Global;

/// The last expression, taken out.
fn pop(exprs: &mut Vec<Expr>) -> anyhow::Result<Expr> {
    exprs.pop().context("no expression")
}

/// The last condition, taken out.
fn pop_condition(conds: &mut Vec<Cond>) -> anyhow::Result<Cond> {
    conds.pop().context("no condition")
}

/// The column `cN`, or the value that a word writes.
fn leaf(alloc: Global, word: &str) -> anyhow::Result<Expr> {
    Ok(Expr::of(match word.strip_prefix("c") {
        Some(place) => Node::Column(place.parse::<u8>()?),
        None => Node::Value(value_of(alloc, word)?),
    }))
}

/// What an operator makes of the last two expressions.
fn operation(alloc: Global, word: &str, exprs: &mut Vec<Expr>) -> anyhow::Result<Expr> {
    let right = Box::new(alloc, pop(exprs)?)?;
    let left = Box::new(alloc, pop(exprs)?)?;
    Ok(Expr::of(match word {
        "+" => Node::Add(left, right),
        "-" => Node::Sub(left, right),
        "*" => Node::Mul(left, right),
        _ => Node::Concat(left, right),
    }))
}

/// Adds what a word makes of the last expressions.
fn put_expression(alloc: Global, word: &str, exprs: &mut Vec<Expr>) -> anyhow::Result<()> {
    let made = match word {
        "+" | "-" | "*" | "||" => operation(alloc, word, exprs)?,
        "neg" => Expr::of(Node::Neg(Box::new(alloc, pop(exprs)?)?)),
        _ => leaf(alloc, word)?,
    };
    exprs.push(made)?;
    Ok(())
}

/// What a word joins of the last two conditions.
fn junction(alloc: Global, word: &str, conds: &mut Vec<Cond>) -> anyhow::Result<Test> {
    let right = Box::new(alloc, pop_condition(conds)?)?;
    let left = Box::new(alloc, pop_condition(conds)?)?;
    Ok(match word {
        "and" => Test::And(left, right),
        _ => Test::Or(left, right),
    })
}

/// A comparison of the last two expressions.
fn comparison(compare: Compare, exprs: &mut Vec<Expr>) -> anyhow::Result<Test> {
    let right = pop(exprs)?;
    let left = pop(exprs)?;
    Ok(Test::Compare(compare, left, right))
}

/// The range of the last three expressions.
fn range(exprs: &mut Vec<Expr>) -> anyhow::Result<Test> {
    let high = pop(exprs)?;
    let low = pop(exprs)?;
    Ok(Test::Between(pop(exprs)?, low, high))
}

/// The comparison that a word is.
fn compare_of(word: &str) -> Option<Compare> {
    Some(match word {
        "=" => Compare::Equal,
        "<>" => Compare::Unequal,
        "<" => Compare::Less,
        "<=" => Compare::LessEqual,
        ">" => Compare::Greater,
        ">=" => Compare::GreaterEqual,
        _ => return None,
    })
}

/// The test that a word makes of the last expressions or conditions, if it makes one.
fn test_of(
    alloc: Global,
    word: &str,
    exprs: &mut Vec<Expr>,
    conds: &mut Vec<Cond>,
) -> anyhow::Result<Option<Test>> {
    Ok(Some(match word {
        "always" => Test::Always,
        "not" => Test::Not(Box::new(alloc, pop_condition(conds)?)?),
        "and" | "or" => junction(alloc, word, conds)?,
        "between" => range(exprs)?,
        _ => match compare_of(word) {
            Some(compare) => comparison(compare, exprs)?,
            None => return Ok(None),
        },
    }))
}

/// Adds what a word makes of the last expressions and conditions.
fn put(
    alloc: Global,
    word: &str,
    exprs: &mut Vec<Expr>,
    conds: &mut Vec<Cond>,
) -> anyhow::Result<()> {
    match test_of(alloc, word, exprs, conds)? {
        Some(test) => Ok(conds.push(Cond::of(test))?),
        None => put_expression(alloc, word, exprs),
    }
}

/// Adds the value of an expression's copy on a row, or why there is none.
fn tell_expression(alloc: Global, expr: &Expr, row: &Row, told: &mut String) -> anyhow::Result<()> {
    match value(alloc, &expr.copy(alloc)?, row) {
        Ok(value) => tell_value(&value, told),
        Err(fail) => Ok(write!(told, "{fail:?}")?),
    }
}

/// Adds whether a condition's copy holds on a row.
fn tell_condition(alloc: Global, cond: &Cond, row: &Row, told: &mut String) -> anyhow::Result<()> {
    let truth = holds(alloc, &cond.copy(alloc)?, row)?;
    write!(told, "{truth}")?;
    Ok(())
}

/// Adds what the tree of a line's words is on the row in front of them.
pub fn tell_tree(alloc: Global, line: &str, told: &mut String) -> anyhow::Result<()> {
    let (cells, words) = line.split_once(": ").unwrap_or(("", line));
    let row = row_of(alloc, cells)?;
    let mut exprs = Vec::new(alloc);
    let mut conds = Vec::new(alloc);
    for word in words.split_whitespace() {
        put(alloc, word, &mut exprs, &mut conds)?;
    }
    match conds.pop() {
        Some(cond) => tell_condition(alloc, &cond, &row, told),
        None => tell_expression(alloc, &pop(&mut exprs)?, &row, told),
    }
}
