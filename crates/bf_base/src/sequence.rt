//! Lists.

ghost use Rattle.std.specs.Prelude.{◌≡◌, ◌==◌, ◌≤◌, IfOk, OnErr, OnOk, insert, length};
ghost use Rattle.std.specs.Cmp.Lexicographic.{pointwise, slice_cmp, slice_partial_cmp, lists_equiv, lists_agrees, lists_total, lists_ties, lists_po, lists_per};

use crate::memory::{Memory, TryClone};
use std::alloc::Global;
use std::cmp::Ordering;
use std::marker::Model;

/// A vector that contracts see as the list of its items. Lists are compared item by item
/// from the left, a front before the longer list.
#[derive(Debug, Drop)]
pub struct Sequence<T> {
    items: Vec<T>,
}

impl<T> Model for Sequence<T> {
    ghost use Rattle.std.specs.Prelude.{List};

    ghost Value = { List T };

    ghost view = { λ sequence. sequence.items.items };
}

impl<T> Sequence<T> {
    /// The list of a vector's items. It takes no memory.
    pub fn of(items: Vec<T>) -> Sequence<T>
        ensures { result ≡ items.items }
    {
        Sequence { items }
    }

    /// The items, in order.
    pub fn as_slice(&self) -> &[T]
        ensures { result.now ≡ self.now }
    {
        self.items.as_slice()
    }

    /// The number of items.
    pub fn len(&self) -> usize
        ensures { result ≡ length self.now }
    {
        self.items.len()
    }

    /// Whether there are no items.
    pub fn is_empty(&self) -> bool
        ensures { result ≡ (length self.now == 0) }
    {
        self.items.is_empty()
    }

    /// The vector of the items. It takes no memory.
    pub fn into_vec(self) -> Vec<T>
        ensures { result.items ≡ self }
    {
        self.items
    }
}

impl<T: Drop> Sequence<T> {
    /// Inserts an item at a place, and moves the items behind it.
    ///
    /// # Errors
    /// Where memory runs out. The list is as it was then.
    pub fn insert(&mut self, place: usize, item: T) -> Result<(), Memory>
        requires within { place ≤ length self.old }
        ensures ok { OnOk result (self.new ≡ insert self.old place item) }
        ensures err { OnErr result (self.new ≡ self.old) }
    {
        self.items.insert(place, item)?;
        Ok(())
    }
}

impl<T: TryClone> Sequence<T> {
    /// An equal list, whose items are copies.
    pub fn copy(&self, alloc: Global) -> Result<Sequence<T>, Memory>
        ensures { IfOk result (λ copy. copy ≡ self.now) }
    {
        let mut items = Vec::with_capacity(alloc, self.items.len())?;
        for item in self.items.as_slice() {
            items.push(item.try_clone(alloc)?)?;
        }
        Ok(Sequence { items })
    }
}

impl<T: TryClone> TryClone for Sequence<T> {
    fn try_clone(&self, alloc: Global) -> Result<Sequence<T>, Memory> {
        self.copy(alloc)
    }
}

impl<T: PartialEq> PartialEq for Sequence<T> {
    ghost eq = { pointwise T.eq };

    ghost laws = { lists_per T.PartialEq.laws };

    fn eq(&self, other: &Sequence<T>) -> bool {
        self.items.as_slice() == other.items.as_slice()
    }
}

impl<T: Eq> Eq for Sequence<T> {
    ghost laws = { lists_equiv T.Eq.laws };
}

impl<T: PartialOrd> PartialOrd for Sequence<T> {
    ghost partial_cmp = { slice_partial_cmp T.partial_cmp };

    ghost laws = { lists_po T.PartialOrd.laws };

    fn partial_cmp(&self, other: &Sequence<T>) -> Option<Ordering> {
        self.items.as_slice().partial_cmp(&other.items.as_slice())
    }
}

impl<T: Ord> Ord for Sequence<T> {
    ghost cmp = { slice_cmp T.cmp };

    ghost total = { lists_total T.total };

    ghost matches_partial_cmp = { lists_agrees T.matches_partial_cmp };

    ghost matches_eq = { lists_ties T.cmp T.matches_eq };

    fn cmp(&self, other: &Sequence<T>) -> Ordering {
        self.items.as_slice().cmp(&other.items.as_slice())
    }
}
