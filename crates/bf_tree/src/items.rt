//! What SELECT gives of the rows that satisfy its condition.

ghost use Rattle.std.specs.Prelude.{◌≡◌, IfOk};

use crate::raw::RawExpr;
use crate::tree::Expr;
use bf_base::{Memory, Sequence, TryClone};
use std::alloc::Global;

/// A total over rows, of an expression on each of them. COUNT of no rows is 0; of no rows the
/// others are NULL.
#[derive(Drop)]
pub enum Aggregate<E = Expr> {
    /// `COUNT(*)`, the number of rows.
    Count,
    Sum(E),
    Min(E),
    Max(E),
}

/// What SELECT gives.
#[derive(Drop)]
pub enum Items<E = Expr> {
    /// `*`, all columns of each row.
    All,
    /// The values of expressions on each row.
    Exprs(Sequence<E>),
    /// One row of totals.
    Aggregates(Sequence<Aggregate<E>>),
}

/// A total as it is written.
pub type RawAggregate = Aggregate<RawExpr>;

/// What SELECT gives, as it is written.
pub type List = Items<RawExpr>;

impl<E: TryClone> Aggregate<E> {
    /// An equal total.
    pub fn copy(&self, alloc: Global) -> Result<Aggregate<E>, Memory>
        ensures { IfOk result (λ copy. copy ≡ self.now) }
    {
        match self {
            Aggregate::Count => Ok(Aggregate::Count),
            Aggregate::Sum(expr) => Ok(Aggregate::Sum(expr.try_clone(alloc)?)),
            Aggregate::Min(expr) => Ok(Aggregate::Min(expr.try_clone(alloc)?)),
            Aggregate::Max(expr) => Ok(Aggregate::Max(expr.try_clone(alloc)?)),
        }
    }
}

impl<E: TryClone> TryClone for Aggregate<E> {
    fn try_clone(&self, alloc: Global) -> Result<Aggregate<E>, Memory> {
        self.copy(alloc)
    }
}

impl<E: TryClone> Items<E> {
    /// Equal items.
    pub fn copy(&self, alloc: Global) -> Result<Items<E>, Memory>
        ensures { IfOk result (λ copy. copy ≡ self.now) }
    {
        match self {
            Items::All => Ok(Items::All),
            Items::Exprs(exprs) => Ok(Items::Exprs(exprs.copy(alloc)?)),
            Items::Aggregates(totals) => Ok(Items::Aggregates(totals.copy(alloc)?)),
        }
    }
}
