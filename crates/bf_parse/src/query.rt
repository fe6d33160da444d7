//! SELECT.

ghost use Rattle.std.specs.Prelude.{◌≡◌, ◌<◌, IfOk};
ghost use Rattle.bf_phrase.specs.Cursors.{IsPlace, left, words};
ghost use Rattle.bf_phrase.specs.Follow.{follow_list, follow_sum, follow_where};
ghost use Rattle.bf_phrase.specs.Outcome.{outcome};
ghost use Rattle.bf_phrase.specs.Reading.{Fits, Read};
ghost use Rattle.bf_parse.specs.Statements.{ListRule, SelectRule};

use bf_base::Sequence;
use bf_lex::{Keyword, Sign};
use bf_phrase::clause::where_clause;
use bf_phrase::list::list;
use bf_phrase::{Cursor, ReadStop};
use bf_tree::{Items, List, RawAggregate, RawExpr, Statement};
use std::alloc::Global;

/// What a SELECT gives, at a place, and the place behind it.
fn select_list<'a>(alloc: Global, cursor: Cursor<'a>) -> Result<(List, Cursor<'a>), ReadStop>
    requires { IsPlace cursor }
    ensures fits { Fits (follow_list follow_sum) ListRule (words cursor.entry)
        (outcome (λ x. Read x.0 (words x.1)) result) }
    ensures place { IfOk result (λ x. IsPlace x.1) }
    ensures shorter { IfOk result (λ x. left x.1 < left cursor.entry) }
{
    match cursor.sign(Sign::Star) {
        Some(behind) => Ok((Items::All, behind)),
        None => {
            if cursor.begins_aggregate() {
                let (totals, rest) = list::<RawAggregate>(alloc, cursor)?;
                Ok((Items::Aggregates(Sequence::of(totals)), rest))
            } else {
                let (exprs, rest) = list::<RawExpr>(alloc, cursor)?;
                Ok((Items::Exprs(Sequence::of(exprs)), rest))
            }
        }
    }
}

/// The SELECT at a place, and the place behind it.
pub(crate) fn select<'a>(
    alloc: Global,
    cursor: Cursor<'a>,
) -> Result<(Statement, Cursor<'a>), ReadStop>
    requires { IsPlace cursor }
    ensures fits { Fits follow_where SelectRule (words cursor.entry)
        (outcome (λ x. Read x.0 (words x.1)) result) }
    ensures place { IfOk result (λ x. IsPlace x.1) }
    ensures shorter { IfOk result (λ x. left x.1 < left cursor.entry) }
{
    let rest = cursor.expect_keyword(Keyword::Select)?;
    let (list, rest) = select_list(alloc, rest)?;
    let rest = rest.expect_keyword(Keyword::From)?;
    let (table, rest) = rest.name(alloc)?;
    let (cond, rest) = where_clause(alloc, rest)?;
    Ok((Statement::Select { list, table, cond }, rest))
}
