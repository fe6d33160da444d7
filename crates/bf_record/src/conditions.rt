//! Conditions as bytes.

ghost use Rattle.std.specs.Prelude.{◌≡◌, ◌++◌, IfOk, OnOk};
ghost use Rattle.bf_tree.specs.Trees.{both, either, tests};
ghost use Rattle.bf_wire.specs.Taking.{IsTakenFrom};
ghost use Rattle.bf_record.specs.Apart.{compares_apart, operands_apart, short_conds_apart};
ghost use Rattle.bf_record.specs.Conditions.{AreConds, IsCompare, IsCond, IsRawOperand, IsTest, compare_spelling, cond_spelling, conds_spelling, operand_spelling, tests_of_both};
ghost use Rattle.bf_record.specs.Migrations.{IsShortCond};
ghost use Rattle.bf_record.specs.Shallow.{IsShallowCond};
ghost use Rattle.bf_record.specs.Within.{IsTakenWithin};

use crate::expressions::MOST_NODES;
use crate::part::Part;
use bf_base::{Memory, Value};
use bf_tree::{Compare, Operand, RawCond, RawTest, Ref};
use std::alloc::Global;

impl Part for Compare {
    ghost HasSpelling = { IsCompare };

    ghost spelling = { compare_spelling };

    ghost IsShallow = { λ _. Unit {0} };

    ghost apart = { compares_apart };

    fn put(&self, out: &mut Vec<u8>) -> Result<(), Memory> {
        let code = match self {
            Compare::Equal => 1,
            Compare::Unequal => 2,
            Compare::Less => 3,
            Compare::LessEqual => 4,
            Compare::Greater => 5,
            Compare::GreaterEqual => 6,
        };
        out.push(code)?;
        Ok(())
    }

    fn take(_alloc: Global, bytes: &[u8]) -> Result<Option<(Compare, usize)>, Memory> {
        match bytes {
            [1, ..] => Ok(Some((Compare::Equal, 1))),
            [2, ..] => Ok(Some((Compare::Unequal, 1))),
            [3, ..] => Ok(Some((Compare::Less, 1))),
            [4, ..] => Ok(Some((Compare::LessEqual, 1))),
            [5, ..] => Ok(Some((Compare::Greater, 1))),
            [6, ..] => Ok(Some((Compare::GreaterEqual, 1))),
            [] | [_, ..] => Ok(None),
        }
    }
}

impl Part for Operand {
    ghost HasSpelling = { IsRawOperand };

    ghost spelling = { operand_spelling };

    ghost IsShallow = { λ _. Unit {0} };

    ghost apart = { operands_apart };

    fn put(&self, out: &mut Vec<u8>) -> Result<(), Memory> {
        match self {
            Operand::Value(value) => {
                out.push(1)?;
                value.put(out)
            }
            Operand::Column(column) => {
                out.push(2)?;
                column.put(out)
            }
        }
    }

    fn take(alloc: Global, bytes: &[u8]) -> Result<Option<(Operand, usize)>, Memory> {
        match bytes {
            [1, rest @ ..] => match Value::take(alloc, rest)? {
                Some((value, taken)) => Ok(Some((Operand::Value(value), taken + 1))),
                None => Ok(None),
            },
            [2, rest @ ..] => match Ref::take(alloc, rest)? {
                Some((column, taken)) => Ok(Some((Operand::Column(column), taken + 1))),
                None => Ok(None),
            },
            [] | [_, ..] => Ok(None),
        }
    }
}

// The test of literals and columns that begins the bytes, if one does.
fn take_test(alloc: Global, bytes: &[u8]) -> Result<Option<(RawCond, usize)>, Memory>
    ensures { IfOk result (λ found. IsTakenFrom IsTest cond_spelling bytes.now found) }
{
    match bytes {
        [1, rest @ ..] => match <((Compare, Operand), Operand)>::take(alloc, rest)? {
            Some((((op, left), right), taken)) => {
                let cond = RawCond::of(RawTest::Compare(op, left, right));
                Ok(Some((cond, taken + 1)))
            }
            None => Ok(None),
        },
        [2, rest @ ..] => match <((Operand, Operand), Operand)>::take(alloc, rest)? {
            Some((((operand, low), high), taken)) => {
                let cond = RawCond::of(RawTest::Between(operand, low, high));
                Ok(Some((cond, taken + 1)))
            }
            None => Ok(None),
        },
        [] | [_, ..] => Ok(None),
    }
}

// The condition with at most so many nodes whose spelling the bytes begin with.
#[cycle(condition)]
fn take_cond(
    alloc: Global,
    bytes: &[u8],
    budget: usize,
) -> Result<Option<(RawCond, usize, usize)>, Memory>
    ensures { IfOk result (λ found.
        IsTakenWithin IsCond cond_spelling tests budget bytes.now found) }
{
    let Some(budget) = budget.checked_sub(1) else {
        return Ok(None);
    };
    match bytes {
        [3, rest @ ..] => match take_cond(alloc, rest, budget)? {
            Some((inner, taken, left)) => {
                let cond = RawCond::of(RawTest::Not(Box::new(alloc, inner)?));
                Ok(Some((cond, taken + 1, left)))
            }
            None => Ok(None),
        },
        [4, rest @ ..] => match take_two(alloc, rest, budget)? {
            Some(((first, second), taken, left)) => {
                Ok(Some((both_of(alloc, first, second)?, taken + 1, left)))
            }
            None => Ok(None),
        },
        [5, rest @ ..] => match take_two(alloc, rest, budget)? {
            Some(((first, second), taken, left)) => {
                Ok(Some((either_of(alloc, first, second)?, taken + 1, left)))
            }
            None => Ok(None),
        },
        [] => Ok(None),
        [_, ..] => match take_test(alloc, bytes)? {
            Some((cond, taken)) => Ok(Some((cond, taken, budget))),
            None => Ok(None),
        },
    }
}

// Two conditions, one behind the other.
#[cycle(condition)]
fn take_two(
    alloc: Global,
    bytes: &[u8],
    budget: usize,
) -> Result<Option<((RawCond, RawCond), usize, usize)>, Memory>
    ensures { IfOk result (λ found.
        IsTakenWithin AreConds conds_spelling tests_of_both budget bytes.now found) }
{
    let Some((first, taken, budget)) = take_cond(alloc, bytes, budget)? else {
        return Ok(None);
    };
    let Some((second, more, budget)) = take_cond(alloc, &bytes[taken..], budget)? else {
        return Ok(None);
    };
    Ok(Some(((first, second), taken + more, budget)))
}

fn both_of(alloc: Global, left: RawCond, right: RawCond) -> Result<RawCond, Memory>
    ensures { IfOk result (λ cond. cond ≡ both left right) }
{
    let left = Box::new(alloc, left)?;
    let right = Box::new(alloc, right)?;
    Ok(RawCond::of(RawTest::And(left, right)))
}

fn either_of(alloc: Global, left: RawCond, right: RawCond) -> Result<RawCond, Memory>
    ensures { IfOk result (λ cond. cond ≡ either left right) }
{
    let left = Box::new(alloc, left)?;
    let right = Box::new(alloc, right)?;
    Ok(RawCond::of(RawTest::Or(left, right)))
}

// Writes a condition of any depth.
fn put_cond(cond: &RawCond, out: &mut Vec<u8>) -> Result<(), Memory>
    ensures ok { OnOk result (out.new.items ≡ out.old.items ++ cond_spelling cond.now) }
    ensures spelled { OnOk result (IsCond cond.now) }
{
    match cond.node() {
        RawTest::Compare(op, left, right) => {
            out.push(1)?;
            op.put(out)?;
            left.put(out)?;
            right.put(out)
        }
        RawTest::Between(operand, low, high) => {
            out.push(2)?;
            operand.put(out)?;
            low.put(out)?;
            high.put(out)
        }
        RawTest::Not(inner) => {
            out.push(3)?;
            put_cond(inner, out)
        }
        RawTest::And(left, right) => {
            out.push(4)?;
            put_cond(left, out)?;
            put_cond(right, out)
        }
        RawTest::Or(left, right) => {
            out.push(5)?;
            put_cond(left, out)?;
            put_cond(right, out)
        }
    }
}

impl Part for RawCond {
    ghost HasSpelling = { IsShortCond };

    ghost spelling = { cond_spelling };

    ghost IsShallow = { IsShallowCond };

    ghost apart = { short_conds_apart };

    fn put(&self, out: &mut Vec<u8>) -> Result<(), Memory> {
        put_cond(self, out)
    }

    fn take(alloc: Global, bytes: &[u8]) -> Result<Option<(RawCond, usize)>, Memory> {
        match take_cond(alloc, bytes, MOST_NODES)? {
            Some((cond, taken, _)) => Ok(Some((cond, taken))),
            None => Ok(None),
        }
    }
}
