//! What locks are on.

ghost use Rattle.std.specs.Prelude.{◌≡◌, IfOk};
ghost use Rattle.std.specs.Ordering.{as_partial_cmp, eq_by_cmp};
ghost use Rattle.std.specs.Cmp.{partial_order_from_total, eq_by_cmp_equiv};
ghost use Rattle.std.specs.Cmp.Rules.{comparing};
ghost use Rattle.std.proofs.Common.{rules};
ghost use Rattle.bf_locks.specs.LockNames.{lock_name_cmp, lock_name_cmp_total};

use bf_base::{Key, Memory, Name, TryClone};
use std::alloc::Global;
use std::cmp::Ordering;

/// What a lock is on. Names are ordered: the catalog, then whole tables, then single keys.
#[derive(Debug, Drop)]
pub enum LockName {
    /// The catalog: which tables there are, and what they look like.
    Catalog,
    /// A whole table.
    Whole(Name),
    /// The row of a table at a key, whether there is one or not.
    One(Name, Key),
}

impl LockName {
    /// An equal name. Linear in the bytes of the table's name and of the key.
    pub fn copy(&self, alloc: Global) -> Result<LockName, Memory>
        ensures { IfOk result (λ name. name ≡ self.now) }
    {
        match self {
            LockName::Catalog => Ok(LockName::Catalog),
            LockName::Whole(table) => Ok(LockName::Whole(table.copy(alloc)?)),
            LockName::One(table, key) => {
                let table = table.copy(alloc)?;
                Ok(LockName::One(table, key.copy(alloc)?))
            }
        }
    }
}

impl TryClone for LockName {
    fn try_clone(&self, alloc: Global) -> Result<LockName, Memory> {
        self.copy(alloc)
    }
}

impl PartialEq for LockName {
    ghost eq = { eq_by_cmp lock_name_cmp };

    ghost laws = { Prim.search (comparing, lock_name_cmp_total, rules) };

    fn eq(&self, other: &LockName) -> bool {
        self.cmp(other) == Ordering::Equal
    }
}

impl Eq for LockName {
    ghost laws = { eq_by_cmp_equiv lock_name_cmp_total };
}

impl Ord for LockName {
    ghost cmp = { lock_name_cmp };

    ghost total = { lock_name_cmp_total };

    ghost matches_partial_cmp = { Prim.search (comparing, rules) };

    ghost matches_eq = { Prim.search (comparing, rules) };

    fn cmp(&self, other: &LockName) -> Ordering {
        match (self, other) {
            (LockName::Catalog, LockName::Catalog) => Ordering::Equal,
            (LockName::Catalog, _) => Ordering::Less,
            (_, LockName::Catalog) => Ordering::Greater,
            (LockName::Whole(a), LockName::Whole(b)) => a.cmp(b),
            (LockName::Whole(_), LockName::One(_, _)) => Ordering::Less,
            (LockName::One(_, _), LockName::Whole(_)) => Ordering::Greater,
            // The keys first: most names are of few tables.
            (LockName::One(a, k), LockName::One(b, l)) => k.cmp(l).then_with(|| a.cmp(b)),
        }
    }
}

impl PartialOrd for LockName {
    ghost partial_cmp = { as_partial_cmp lock_name_cmp };

    ghost laws = { partial_order_from_total lock_name_cmp_total };

    fn partial_cmp(&self, other: &LockName) -> Option<Ordering> {
        Some(self.cmp(other))
    }
}
