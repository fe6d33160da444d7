//! Tables and indexes as CREATE declares them.

ghost use Rattle.std.specs.Prelude.{◌≡◌, ◌<◌, IfOk};
ghost use Rattle.bf_phrase.specs.Cursors.{IsPlace, left, words};
ghost use Rattle.bf_phrase.specs.Follow.{nothing};
ghost use Rattle.bf_phrase.specs.Outcome.{outcome};
ghost use Rattle.bf_phrase.specs.Reading.{Fits, Read};
ghost use Rattle.bf_parse.specs.Pieces.{ColumnsRule, CreateRule};
ghost use Rattle.bf_parse.specs.Statements.{IndexRuleRule, TableRule};

use bf_base::{Name, Sequence};
use bf_lex::{Keyword, Sign};
use bf_phrase::column::column;
use bf_phrase::list::{enclosed_list, room};
use bf_phrase::{Cursor, ReadStop};
use bf_tree::{ColumnRule, Statement};
use std::alloc::Global;

/// The columns before PRIMARY at a place, and the place behind that.
fn columns<'a>(alloc: Global, cursor: Cursor<'a>) -> Result<(Vec<ColumnRule>, Cursor<'a>), ReadStop>
    requires { IsPlace cursor }
    ensures fits { Fits nothing ColumnsRule (words cursor.entry)
        (outcome (λ x. Read x.0.items (words x.1)) result) }
    ensures place { IfOk result (λ x. IsPlace x.1) }
    ensures shorter { IfOk result (λ x. left x.1 < left cursor.entry) }
{
    let (first, rest) = column(alloc, cursor)?;
    let mut columns = Vec::new(alloc);
    columns.push(first)?;
    let mut rest = rest.expect_sign(Sign::Comma)?;
    loop {
        match rest.keyword(Keyword::Primary) {
            Some(behind) => return Ok((columns, behind)),
            None => {
                room(columns.len(), rest.begins_name(), rest)?;
                let (next, behind) = column(alloc, rest)?;
                columns.push(next)?;
                rest = behind.expect_sign(Sign::Comma)?;
            }
        }
    }
}

/// The table behind CREATE at a place, and the place behind it.
fn table<'a>(alloc: Global, cursor: Cursor<'a>) -> Result<(Statement, Cursor<'a>), ReadStop>
    requires { IsPlace cursor }
    ensures fits { Fits nothing TableRule (words cursor.entry)
        (outcome (λ x. Read x.0 (words x.1)) result) }
    ensures place { IfOk result (λ x. IsPlace x.1) }
    ensures shorter { IfOk result (λ x. left x.1 < left cursor.entry) }
{
    let rest = cursor.expect_keyword(Keyword::Table)?;
    let (name, rest) = rest.name(alloc)?;
    let rest = rest.expect_sign(Sign::OpeningParenthesis)?;
    let (columns, rest) = columns(alloc, rest)?;
    let rest = rest.expect_keyword(Keyword::Key)?;
    let (key, rest) = enclosed_list::<Name>(alloc, rest)?;
    let rest = rest.expect_sign(Sign::ClosingParenthesis)?;
    let columns = Sequence::of(columns);
    let key = Sequence::of(key);
    Ok((Statement::CreateTable { name, columns, key }, rest))
}

/// The index behind CREATE at a place, and the place behind it.
fn index<'a>(alloc: Global, cursor: Cursor<'a>) -> Result<(Statement, Cursor<'a>), ReadStop>
    requires { IsPlace cursor }
    ensures fits { Fits nothing IndexRuleRule (words cursor.entry)
        (outcome (λ x. Read x.0 (words x.1)) result) }
    ensures place { IfOk result (λ x. IsPlace x.1) }
    ensures shorter { IfOk result (λ x. left x.1 < left cursor.entry) }
{
    let rest = cursor.expect_keyword(Keyword::Index)?;
    let (name, rest) = rest.name(alloc)?;
    let rest = rest.expect_keyword(Keyword::On)?;
    let (table, rest) = rest.name(alloc)?;
    let (columns, rest) = enclosed_list::<Name>(alloc, rest)?;
    let columns = Sequence::of(columns);
    Ok((
        Statement::CreateIndex {
            name,
            table,
            columns,
        },
        rest,
    ))
}

/// The CREATE at a place, and the place behind it.
pub(crate) fn create<'a>(
    alloc: Global,
    cursor: Cursor<'a>,
) -> Result<(Statement, Cursor<'a>), ReadStop>
    requires { IsPlace cursor }
    ensures fits { Fits nothing CreateRule (words cursor.entry)
        (outcome (λ x. Read x.0 (words x.1)) result) }
    ensures place { IfOk result (λ x. IsPlace x.1) }
    ensures shorter { IfOk result (λ x. left x.1 < left cursor.entry) }
{
    let rest = cursor.expect_keyword(Keyword::Create)?;
    match rest.keyword(Keyword::Index) {
        Some(_) => index(alloc, rest),
        None => table(alloc, rest),
    }
}
