//! Migrations as bytes.

ghost use Rattle.std.specs.Prelude.{All};
ghost use Rattle.bf_record.specs.Apart.{arms_apart, items_apart, joins_apart, migrates_apart, targets_apart, totals_apart};
ghost use Rattle.bf_record.specs.Migrations.{IsArm, IsItem, IsJoin, IsMigrate, IsTarget, IsTotal, arm_spelling, item_spelling, join_spelling, migrate_spelling, target_spelling, total_spelling};
ghost use Rattle.bf_record.specs.Shallow.{IsShallowArm, IsShallowItem, IsShallowMigrate, IsShallowTarget, IsShallowTotal};

use crate::part::Part;
use bf_base::{Memory, Name, Sequence};
use bf_tree::{Arm, Item, Join, Migrate, RawAggregate, RawCond, RawExpr, Ref, Target};
use std::alloc::Global;

impl Part for RawAggregate {
    ghost HasSpelling = { IsTotal };

    ghost spelling = { total_spelling };

    ghost IsShallow = { IsShallowTotal };

    ghost apart = { totals_apart };

    fn put(&self, out: &mut Vec<u8>) -> Result<(), Memory> {
        match self {
            RawAggregate::Count => {
                out.push(1)?;
                Ok(())
            }
            RawAggregate::Sum(expr) => {
                out.push(2)?;
                expr.put(out)
            }
            RawAggregate::Min(expr) => {
                out.push(3)?;
                expr.put(out)
            }
            RawAggregate::Max(expr) => {
                out.push(4)?;
                expr.put(out)
            }
        }
    }

    fn take(alloc: Global, bytes: &[u8]) -> Result<Option<(RawAggregate, usize)>, Memory> {
        match bytes {
            [1, ..] => Ok(Some((RawAggregate::Count, 1))),
            [2, rest @ ..] => match RawExpr::take(alloc, rest)? {
                Some((expr, taken)) => Ok(Some((RawAggregate::Sum(expr), taken + 1))),
                None => Ok(None),
            },
            [3, rest @ ..] => match RawExpr::take(alloc, rest)? {
                Some((expr, taken)) => Ok(Some((RawAggregate::Min(expr), taken + 1))),
                None => Ok(None),
            },
            [4, rest @ ..] => match RawExpr::take(alloc, rest)? {
                Some((expr, taken)) => Ok(Some((RawAggregate::Max(expr), taken + 1))),
                None => Ok(None),
            },
            [] | [_, ..] => Ok(None),
        }
    }
}

impl Part for Item {
    ghost HasSpelling = { IsItem };

    ghost spelling = { item_spelling };

    ghost IsShallow = { IsShallowItem };

    ghost apart = { items_apart };

    fn put(&self, out: &mut Vec<u8>) -> Result<(), Memory> {
        match self {
            Item::Column(column) => {
                out.push(1)?;
                column.put(out)
            }
            Item::Named(expr, name) => {
                out.push(2)?;
                expr.put(out)?;
                name.put(out)
            }
            Item::Total(total, name) => {
                out.push(3)?;
                total.put(out)?;
                name.put(out)
            }
        }
    }

    fn take(alloc: Global, bytes: &[u8]) -> Result<Option<(Item, usize)>, Memory> {
        match bytes {
            [1, rest @ ..] => match Ref::take(alloc, rest)? {
                Some((column, taken)) => Ok(Some((Item::Column(column), taken + 1))),
                None => Ok(None),
            },
            [2, rest @ ..] => match <(RawExpr, Name)>::take(alloc, rest)? {
                Some(((expr, name), taken)) => Ok(Some((Item::Named(expr, name), taken + 1))),
                None => Ok(None),
            },
            [3, rest @ ..] => match <(RawAggregate, Name)>::take(alloc, rest)? {
                Some(((total, name), taken)) => Ok(Some((Item::Total(total, name), taken + 1))),
                None => Ok(None),
            },
            [] | [_, ..] => Ok(None),
        }
    }
}

impl Part for Join {
    ghost HasSpelling = { IsJoin };

    ghost spelling = { join_spelling };

    ghost IsShallow = { λ _. Unit {0} };

    ghost apart = { joins_apart };

    fn put(&self, out: &mut Vec<u8>) -> Result<(), Memory> {
        self.table.put(out)?;
        self.on.put(out)
    }

    fn take(alloc: Global, bytes: &[u8]) -> Result<Option<(Join, usize)>, Memory> {
        match <(Name, Sequence<(Ref, Ref)>)>::take(alloc, bytes)? {
            Some(((table, on), taken)) => Ok(Some((Join { table, on }, taken))),
            None => Ok(None),
        }
    }
}

impl Part for Arm {
    ghost HasSpelling = { IsArm };

    ghost spelling = { arm_spelling };

    ghost IsShallow = { IsShallowArm };

    ghost apart = { arms_apart };

    fn put(&self, out: &mut Vec<u8>) -> Result<(), Memory> {
        self.items.put(out)?;
        self.from.put(out)?;
        self.join.put(out)?;
        self.cond.put(out)?;
        self.group.put(out)
    }

    fn take(alloc: Global, bytes: &[u8]) -> Result<Option<(Arm, usize)>, Memory> {
        match <(
            (((Sequence<Item>, Name), Option<Join>), Option<RawCond>),
            Sequence<Ref>,
        )>::take(alloc, bytes)?
        {
            Some((((((items, from), join), cond), group), taken)) => Ok(Some((
                Arm {
                    items,
                    from,
                    join,
                    cond,
                    group,
                },
                taken,
            ))),
            None => Ok(None),
        }
    }
}

impl Part for Target {
    ghost HasSpelling = { IsTarget };

    ghost spelling = { target_spelling };

    ghost IsShallow = { IsShallowTarget };

    ghost apart = { targets_apart };

    fn put(&self, out: &mut Vec<u8>) -> Result<(), Memory> {
        self.name.put(out)?;
        self.arms.put(out)
    }

    fn take(alloc: Global, bytes: &[u8]) -> Result<Option<(Target, usize)>, Memory> {
        match <(Name, Sequence<Arm>)>::take(alloc, bytes)? {
            Some(((name, arms), taken)) => Ok(Some((Target { name, arms }, taken))),
            None => Ok(None),
        }
    }
}

impl Part for Migrate {
    ghost HasSpelling = { IsMigrate };

    ghost spelling = { migrate_spelling };

    ghost IsShallow = { IsShallowMigrate };

    ghost apart = { migrates_apart };

    fn put(&self, out: &mut Vec<u8>) -> Result<(), Memory> {
        self.targets.put(out)
    }

    fn take(alloc: Global, bytes: &[u8]) -> Result<Option<(Migrate, usize)>, Memory> {
        match <Sequence<Target>>::take(alloc, bytes)? {
            Some((targets, taken)) => Ok(Some((Migrate { targets }, taken))),
            None => Ok(None),
        }
    }
}
