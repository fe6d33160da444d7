//! MIGRATE as it is written: new tables as queries over old ones.

ghost use Rattle.std.specs.Prelude.{◌≡◌, IfOk};

use crate::items::RawAggregate;
use crate::raw::{RawCond, RawExpr, Ref};
use bf_base::{Memory, Name, Sequence, TryClone};
use std::alloc::Global;

/// A column of a new table, as an arm gives it.
#[derive(Drop)]
pub enum Item {
    /// A column of an old table, which keeps its name.
    Column(Ref),
    /// An expression AS a name.
    Named(RawExpr, Name),
    /// A total AS a name.
    Total(RawAggregate, Name),
}

/// JOIN: the other table of an arm, and the pairs of columns that are equal.
#[derive(Drop)]
pub struct Join {
    pub table: Name,
    pub on: Sequence<(Ref, Ref)>,
}

/// SELECT in a MIGRATE: rows of a new table out of those of one old table, or of two.
#[derive(Drop)]
pub struct Arm {
    pub items: Sequence<Item>,
    pub from: Name,
    pub join: Option<Join>,
    pub cond: Option<RawCond>,
    /// The columns of GROUP BY; empty where there is none.
    pub group: Sequence<Ref>,
}

/// A new table, which has the rows of all its arms.
#[derive(Drop)]
pub struct Target {
    pub name: Name,
    pub arms: Sequence<Arm>,
}

/// The new tables that take the place of the old ones which they are made of.
#[derive(Drop)]
pub struct Migrate {
    pub targets: Sequence<Target>,
}

impl Item {
    /// An equal item.
    pub fn copy(&self, alloc: Global) -> Result<Item, Memory>
        ensures { IfOk result (λ copy. copy ≡ self.now) }
    {
        match self {
            Item::Column(column) => Ok(Item::Column(column.copy(alloc)?)),
            Item::Named(expr, name) => Ok(Item::Named(expr.copy(alloc)?, name.copy(alloc)?)),
            Item::Total(total, name) => Ok(Item::Total(total.copy(alloc)?, name.copy(alloc)?)),
        }
    }
}

impl TryClone for Item {
    fn try_clone(&self, alloc: Global) -> Result<Item, Memory> {
        self.copy(alloc)
    }
}

impl Join {
    /// An equal join.
    pub fn copy(&self, alloc: Global) -> Result<Join, Memory>
        ensures { IfOk result (λ copy. copy ≡ self.now) }
    {
        let table = self.table.copy(alloc)?;
        let on = self.on.copy(alloc)?;
        Ok(Join { table, on })
    }
}

impl TryClone for Join {
    fn try_clone(&self, alloc: Global) -> Result<Join, Memory> {
        self.copy(alloc)
    }
}

impl Arm {
    /// An equal arm.
    pub fn copy(&self, alloc: Global) -> Result<Arm, Memory>
        ensures { IfOk result (λ copy. copy ≡ self.now) }
    {
        let items = self.items.copy(alloc)?;
        let from = self.from.copy(alloc)?;
        let join = self.join.try_clone(alloc)?;
        let cond = self.cond.try_clone(alloc)?;
        let group = self.group.copy(alloc)?;
        Ok(Arm {
            items,
            from,
            join,
            cond,
            group,
        })
    }
}

impl TryClone for Arm {
    fn try_clone(&self, alloc: Global) -> Result<Arm, Memory> {
        self.copy(alloc)
    }
}

impl Target {
    /// An equal target.
    pub fn copy(&self, alloc: Global) -> Result<Target, Memory>
        ensures { IfOk result (λ copy. copy ≡ self.now) }
    {
        let name = self.name.copy(alloc)?;
        let arms = self.arms.copy(alloc)?;
        Ok(Target { name, arms })
    }
}

impl TryClone for Target {
    fn try_clone(&self, alloc: Global) -> Result<Target, Memory> {
        self.copy(alloc)
    }
}

impl Migrate {
    /// An equal migration.
    pub fn copy(&self, alloc: Global) -> Result<Migrate, Memory>
        ensures { IfOk result (λ copy. copy ≡ self.now) }
    {
        let targets = self.targets.copy(alloc)?;
        Ok(Migrate { targets })
    }
}
