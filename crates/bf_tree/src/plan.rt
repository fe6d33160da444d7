//! What a MIGRATE is to make, and in which units its rows move, once its catalog has allowed it.

ghost use Rattle.std.specs.Prelude.{◌≡◌, IfOk};

use crate::items::Aggregate;
use crate::migration::Migrate;
use crate::tree::{Cond, Expr};
use bf_base::{Memory, Name, Sequence, Table, TryClone};
use std::alloc::Global;

/// How an arm makes rows: which rows of its tables, that satisfy ON and WHERE, make one new row.
#[derive(Clone, Copy, Debug, PartialEq, Eq)]
pub enum ArmKind {
    /// Each row of FROM at most one, with the one row of JOIN that it meets where there is a JOIN.
    ByFrom,
    /// Each row of JOIN at most one, with the one row of FROM that it meets.
    ByJoin,
    /// Each pair of a row of FROM and one of JOIN at most one.
    ByPair,
    /// The rows of each value of GROUP BY exactly one, where there are any.
    ByGroup,
}

/// An item of an arm, with places for names. Places are those in a row of FROM with a row of JOIN
/// behind it, counted from 0.
#[derive(Drop)]
pub enum PlacedItem {
    /// The value at a place, of a group's first row.
    Column(u8),
    /// The value of an expression, on a group's first row.
    Value(Expr),
    /// A total over the rows of a group.
    Total(Aggregate),
}

/// An arm with places for names.
#[derive(Drop)]
pub struct PlacedArm {
    pub kind: ArmKind,
    pub items: Sequence<PlacedItem>,
    /// Where there is a JOIN: the pairs of ON.
    pub on: Option<Sequence<(u8, u8)>>,
    pub cond: Cond,
    /// The columns of GROUP BY.
    pub group: Sequence<u8>,
}

/// What the granules of a unit stand for.
#[derive(Clone, Copy, Debug, PartialEq, Eq)]
pub enum UnitKind {
    /// The rows of the driver, one by one.
    Rows,
    /// The values of an arm's GROUP BY.
    Groups,
    /// The values of the columns by which an arm joins two tables.
    Joins,
}

/// Arms whose rows move together.
#[derive(Drop)]
pub struct Unit {
    pub kind: UnitKind,
    /// Of rows the table whose rows they are; of groups and joins the table of FROM.
    pub driver: Name,
    /// Each arm by the number of its target and its own number within it, from 0 on.
    pub arms: Sequence<(u8, u32)>,
}

/// A MIGRATE that its catalog allows.
#[derive(Drop)]
pub struct Plan {
    pub migrate: Migrate,
    /// The new tables, in the order of the targets.
    pub tables: Sequence<Table>,
    /// Each target's arms.
    pub arms: Sequence<Sequence<PlacedArm>>,
    /// At most four units of rows, in the order of their drivers' first arms, and then those that go
    /// by values, in the order of their arms.
    pub units: Sequence<Unit>,
    /// The old tables, each once, in the order in which they are first named.
    pub sources: Sequence<Name>,
}

impl PlacedItem {
    /// An equal item.
    pub fn copy(&self, alloc: Global) -> Result<PlacedItem, Memory>
        ensures { IfOk result (λ copy. copy ≡ self.now) }
    {
        match self {
            PlacedItem::Column(place) => Ok(PlacedItem::Column(*place)),
            PlacedItem::Value(expr) => Ok(PlacedItem::Value(expr.copy(alloc)?)),
            PlacedItem::Total(total) => Ok(PlacedItem::Total(total.copy(alloc)?)),
        }
    }
}

impl TryClone for PlacedItem {
    fn try_clone(&self, alloc: Global) -> Result<PlacedItem, Memory> {
        self.copy(alloc)
    }
}

impl PlacedArm {
    /// An equal arm.
    pub fn copy(&self, alloc: Global) -> Result<PlacedArm, Memory>
        ensures { IfOk result (λ copy. copy ≡ self.now) }
    {
        let items = self.items.copy(alloc)?;
        let on = self.on.try_clone(alloc)?;
        let cond = self.cond.copy(alloc)?;
        let group = self.group.copy(alloc)?;
        Ok(PlacedArm {
            kind: self.kind,
            items,
            on,
            cond,
            group,
        })
    }
}

impl TryClone for PlacedArm {
    fn try_clone(&self, alloc: Global) -> Result<PlacedArm, Memory> {
        self.copy(alloc)
    }
}

impl Unit {
    /// An equal unit.
    pub fn copy(&self, alloc: Global) -> Result<Unit, Memory>
        ensures { IfOk result (λ copy. copy ≡ self.now) }
    {
        let driver = self.driver.copy(alloc)?;
        let arms = self.arms.copy(alloc)?;
        Ok(Unit {
            kind: self.kind,
            driver,
            arms,
        })
    }
}

impl TryClone for Unit {
    fn try_clone(&self, alloc: Global) -> Result<Unit, Memory> {
        self.copy(alloc)
    }
}

impl Plan {
    /// An equal plan.
    pub fn copy(&self, alloc: Global) -> Result<Plan, Memory>
        ensures { IfOk result (λ copy. copy ≡ self.now) }
    {
        let migrate = self.migrate.copy(alloc)?;
        let tables = self.tables.copy(alloc)?;
        let arms = self.arms.copy(alloc)?;
        let units = self.units.copy(alloc)?;
        let sources = self.sources.copy(alloc)?;
        Ok(Plan {
            migrate,
            tables,
            arms,
            units,
            sources,
        })
    }
}
