//! Statements, but for MIGRATE.

ghost use Rattle.std.specs.Prelude.{◌≡◌, ◌<◌, IfOk};
ghost use Rattle.bf_phrase.specs.Cursors.{IsPlace, left, words};
ghost use Rattle.bf_phrase.specs.Follow.{nothing, follow_where, is_comma};
ghost use Rattle.bf_phrase.specs.Outcome.{outcome};
ghost use Rattle.bf_phrase.specs.Reading.{Fits, Read};
ghost use Rattle.bf_parse.specs.StatementFollow.{follow_ordinary};
ghost use Rattle.bf_parse.specs.Statements.{DeleteRule, InsertRule, OrdinaryRule, Several, TupleRule, UpdateRule};

use crate::create::create;
use crate::query::select;
use bf_base::{Name, Row, Sequence, Value};
use bf_lex::{Keyword, Sign};
use bf_phrase::clause::where_clause;
use bf_phrase::list::{enclosed_list, list};
use bf_phrase::{Cursor, ReadStop};
use bf_tree::{RawExpr, Statement};
use std::alloc::Global;

/// The tuple at a place, and the place behind it.
fn tuple<'a>(alloc: Global, cursor: Cursor<'a>) -> Result<(Row, Cursor<'a>), ReadStop>
    requires { IsPlace cursor }
    ensures fits { Fits nothing TupleRule (words cursor.entry)
        (outcome (λ x. Read x.0 (words x.1)) result) }
    ensures place { IfOk result (λ x. IsPlace x.1) }
    ensures shorter { IfOk result (λ x. left x.1 < left cursor.entry) }
{
    let (values, rest) = enclosed_list::<Value>(alloc, cursor)?;
    Ok((Row::of(values), rest))
}

/// The tuples at a place, of any number, and the place behind them.
fn tuples<'a>(alloc: Global, cursor: Cursor<'a>) -> Result<(Vec<Row>, Cursor<'a>), ReadStop>
    requires { IsPlace cursor }
    ensures fits { Fits is_comma (Several TupleRule) (words cursor.entry)
        (outcome (λ x. Read x.0.items (words x.1)) result) }
    ensures place { IfOk result (λ x. IsPlace x.1) }
    ensures shorter { IfOk result (λ x. left x.1 < left cursor.entry) }
{
    let (first, rest) = tuple(alloc, cursor)?;
    let mut tuples = Vec::new(alloc);
    tuples.push(first)?;
    let mut rest = rest;
    while let Some(behind) = rest.sign(Sign::Comma) {
        let (next, behind) = tuple(alloc, behind)?;
        tuples.push(next)?;
        rest = behind;
    }
    Ok((tuples, rest))
}

/// The INSERT at a place, and the place behind it.
fn insert<'a>(alloc: Global, cursor: Cursor<'a>) -> Result<(Statement, Cursor<'a>), ReadStop>
    requires { IsPlace cursor }
    ensures fits { Fits is_comma InsertRule (words cursor.entry)
        (outcome (λ x. Read x.0 (words x.1)) result) }
    ensures place { IfOk result (λ x. IsPlace x.1) }
    ensures shorter { IfOk result (λ x. left x.1 < left cursor.entry) }
{
    let rest = cursor.expect_keyword(Keyword::Insert)?;
    let rest = rest.expect_keyword(Keyword::Into)?;
    let (table, rest) = rest.name(alloc)?;
    let rest = rest.expect_keyword(Keyword::Values)?;
    let (tuples, rest) = tuples(alloc, rest)?;
    let tuples = Sequence::of(tuples);
    Ok((Statement::Insert { table, tuples }, rest))
}

/// The UPDATE at a place, and the place behind it.
fn update<'a>(alloc: Global, cursor: Cursor<'a>) -> Result<(Statement, Cursor<'a>), ReadStop>
    requires { IsPlace cursor }
    ensures fits { Fits follow_ordinary UpdateRule (words cursor.entry)
        (outcome (λ x. Read x.0 (words x.1)) result) }
    ensures place { IfOk result (λ x. IsPlace x.1) }
    ensures shorter { IfOk result (λ x. left x.1 < left cursor.entry) }
{
    let rest = cursor.expect_keyword(Keyword::Update)?;
    let (table, rest) = rest.name(alloc)?;
    let rest = rest.expect_keyword(Keyword::Set)?;
    let (sets, rest) = list::<(Name, RawExpr)>(alloc, rest)?;
    let (cond, rest) = where_clause(alloc, rest)?;
    let sets = Sequence::of(sets);
    Ok((Statement::Update { table, sets, cond }, rest))
}

/// The DELETE at a place, and the place behind it.
fn delete<'a>(alloc: Global, cursor: Cursor<'a>) -> Result<(Statement, Cursor<'a>), ReadStop>
    requires { IsPlace cursor }
    ensures fits { Fits follow_where DeleteRule (words cursor.entry)
        (outcome (λ x. Read x.0 (words x.1)) result) }
    ensures place { IfOk result (λ x. IsPlace x.1) }
    ensures shorter { IfOk result (λ x. left x.1 < left cursor.entry) }
{
    let rest = cursor.expect_keyword(Keyword::Delete)?;
    let rest = rest.expect_keyword(Keyword::From)?;
    let (table, rest) = rest.name(alloc)?;
    let (cond, rest) = where_clause(alloc, rest)?;
    Ok((Statement::Delete { table, cond }, rest))
}

/// The statement at a place, if it is no MIGRATE, and the place behind it.
pub(crate) fn ordinary<'a>(
    alloc: Global,
    cursor: Cursor<'a>,
) -> Result<(Statement, Cursor<'a>), ReadStop>
    requires { IsPlace cursor }
    ensures fits { Fits follow_ordinary OrdinaryRule (words cursor.entry)
        (outcome (λ x. Read x.0 (words x.1)) result) }
    ensures place { IfOk result (λ x. IsPlace x.1) }
    ensures shorter { IfOk result (λ x. left x.1 < left cursor.entry) }
{
    match cursor.first_keyword() {
        None => Err(ReadStop::Syntax(cursor.tokens.len())),
        Some((keyword, behind)) => match keyword {
            Keyword::Create => create(alloc, cursor),
            Keyword::Insert => insert(alloc, cursor),
            Keyword::Select => select(alloc, cursor),
            Keyword::Update => update(alloc, cursor),
            Keyword::Delete => delete(alloc, cursor),
            Keyword::Begin => Ok((Statement::Begin, behind)),
            Keyword::Commit => Ok((Statement::Commit, behind)),
            Keyword::Rollback => Ok((Statement::Rollback, behind)),
            _ => Err(ReadStop::Syntax(cursor.tokens.len())),
        },
    }
}
