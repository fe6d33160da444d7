//! The parts of the lists of statements.

ghost use Rattle.bf_phrase.specs.Conditions.{LiteralRule};
ghost use Rattle.bf_phrase.specs.Follow.{follow_sum, is_point, nothing};
ghost use Rattle.bf_phrase.specs.First.{is_name, first_aggregate, first_constant, first_expression};
ghost use Rattle.bf_phrase.specs.Expressions.{RefRule};
ghost use Rattle.bf_phrase.specs.Phrases.{AggregateRule, ExprRule, NameRule, SetRule};

use crate::clause::{aggregate, expression};
use crate::cursor::Cursor;
use crate::error::ReadStop;
use crate::list::Part;
use crate::operand::{literal, reference};
use bf_base::{Name, Value};
use bf_lex::Sign;
use bf_tree::{RawAggregate, RawExpr, Ref};
use std::alloc::Global;

impl Part for Name {
    ghost rule = { NameRule };

    ghost follow = { nothing };

    ghost first = { is_name };

    fn begins_at(cursor: Cursor<'_>) -> bool {
        cursor.begins_name()
    }

    fn read<'a>(alloc: Global, cursor: Cursor<'a>) -> Result<(Name, Cursor<'a>), ReadStop> {
        cursor.name(alloc)
    }
}

impl Part for Ref {
    ghost rule = { RefRule };

    ghost follow = { is_point };

    ghost first = { is_name };

    fn begins_at(cursor: Cursor<'_>) -> bool {
        cursor.begins_name()
    }

    fn read<'a>(alloc: Global, cursor: Cursor<'a>) -> Result<(Ref, Cursor<'a>), ReadStop> {
        reference(alloc, cursor)
    }
}

impl Part for Value {
    ghost rule = { LiteralRule };

    ghost follow = { nothing };

    ghost first = { first_constant };

    fn begins_at(cursor: Cursor<'_>) -> bool {
        cursor.begins_constant()
    }

    fn read<'a>(alloc: Global, cursor: Cursor<'a>) -> Result<(Value, Cursor<'a>), ReadStop> {
        literal(alloc, cursor)
    }
}

impl Part for RawExpr {
    ghost rule = { ExprRule };

    ghost follow = { follow_sum };

    ghost first = { first_expression };

    fn begins_at(cursor: Cursor<'_>) -> bool {
        cursor.begins_expression()
    }

    fn read<'a>(alloc: Global, cursor: Cursor<'a>) -> Result<(RawExpr, Cursor<'a>), ReadStop> {
        expression(alloc, cursor)
    }
}

impl Part for RawAggregate {
    ghost rule = { AggregateRule };

    ghost follow = { nothing };

    ghost first = { first_aggregate };

    fn begins_at(cursor: Cursor<'_>) -> bool {
        cursor.begins_aggregate()
    }

    fn read<'a>(alloc: Global, cursor: Cursor<'a>) -> Result<(RawAggregate, Cursor<'a>), ReadStop> {
        aggregate(alloc, cursor)
    }
}

/// A column and the expression that it is set to.
impl Part for (Name, RawExpr) {
    ghost rule = { SetRule };

    ghost follow = { follow_sum };

    ghost first = { is_name };

    fn begins_at(cursor: Cursor<'_>) -> bool {
        cursor.begins_name()
    }

    fn read<'a>(
        alloc: Global,
        cursor: Cursor<'a>,
    ) -> Result<((Name, RawExpr), Cursor<'a>), ReadStop> {
        let (column, rest) = cursor.name(alloc)?;
        let rest = rest.expect_sign(Sign::Equal)?;
        let (expr, rest) = expression(alloc, rest)?;
        Ok(((column, expr), rest))
    }
}
