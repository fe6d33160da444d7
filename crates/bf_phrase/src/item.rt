//! The items of a MIGRATE.

ghost use Rattle.std.specs.Prelude.{◌≡◌, ◌<◌, ◌≤◌, IfOk};
ghost use Rattle.bf_phrase.specs.Cursors.{IsPlace, left, words};
ghost use Rattle.bf_phrase.specs.First.{begins, first_item};
ghost use Rattle.bf_phrase.specs.Items.{ItemRule};
ghost use Rattle.bf_phrase.specs.Pieces.{IsBare, ItemEnd};
ghost use Rattle.bf_phrase.specs.Follow.{follow_item, is_as};
ghost use Rattle.bf_phrase.specs.Outcome.{outcome};
ghost use Rattle.bf_phrase.specs.Reading.{Fits, Read};

use crate::clause::aggregate;
use crate::cursor::Cursor;
use crate::error::ReadStop;
use crate::expression::sum;
use crate::list::Part;
use bf_lex::Keyword;
use bf_tree::{Item, RawExpr, RawNode, Ref};
use std::alloc::Global;

/// The column that an expression is, if it is nothing else and no parenthesis stood around it.
fn bare(expr: RawExpr, count: usize) -> Option<Ref>
    ensures { IsBare (expr, count) result }
{
    if count > 0 {
        return None;
    }
    match expr.into_node() {
        RawNode::Column(column) => Some(column),
        _ => None,
    }
}

/// The item that an expression is with what stands behind it, and the place behind that.
fn behind<'a>(
    alloc: Global,
    expr: RawExpr,
    count: usize,
    cursor: Cursor<'a>,
) -> Result<(Item, Cursor<'a>), ReadStop>
    requires { IsPlace cursor }
    ensures fits { Fits is_as (ItemEnd (expr, count)) (words cursor.entry)
        (outcome (λ x. Read x.0 (words x.1)) result) }
    ensures place { IfOk result (λ x. IsPlace x.1) }
    ensures shorter { IfOk result (λ x. left x.1 ≤ left cursor.entry) }
{
    match cursor.keyword(Keyword::As) {
        Some(rest) => {
            let (name, rest) = rest.name(alloc)?;
            Ok((Item::Named(expr, name), rest))
        }
        None => match bare(expr, count) {
            Some(column) => Ok((Item::Column(column), cursor)),
            None => Err(ReadStop::Syntax(cursor.tokens.len())),
        },
    }
}

/// The item at a place, and the place behind it.
fn item<'a>(alloc: Global, cursor: Cursor<'a>) -> Result<(Item, Cursor<'a>), ReadStop>
    requires { IsPlace cursor }
    ensures fits { Fits follow_item ItemRule (words cursor.entry)
        (outcome (λ x. Read x.0 (words x.1)) result) }
    ensures place { IfOk result (λ x. IsPlace x.1) }
    ensures shorter { IfOk result (λ x. left x.1 < left cursor.entry) }
{
    if cursor.begins_aggregate() {
        let (total, rest) = aggregate(alloc, cursor)?;
        let rest = rest.expect_keyword(Keyword::As)?;
        let (name, rest) = rest.name(alloc)?;
        Ok((Item::Total(total, name), rest))
    } else {
        let (expr, count, rest) = sum(alloc, cursor, 0)?;
        behind(alloc, expr, count, rest)
    }
}

/// Whether an item begins at a place.
fn begins(cursor: Cursor<'_>) -> bool
    requires { IsPlace cursor }
    ensures { result ≡ begins first_item (words cursor.entry) }
{
    cursor.begins_expression() || cursor.begins_aggregate()
}

impl Part for Item {
    ghost rule = { ItemRule };

    ghost follow = { follow_item };

    ghost first = { first_item };

    fn begins_at(cursor: Cursor<'_>) -> bool {
        begins(cursor)
    }

    fn read<'a>(alloc: Global, cursor: Cursor<'a>) -> Result<(Item, Cursor<'a>), ReadStop> {
        item(alloc, cursor)
    }
}
