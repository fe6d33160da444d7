//! Conditions on a new table, transposed to an old one from whose rows its rows come.

ghost use Rattle.std.specs.Prelude.{◌≡◌, IfOk};
ghost use Rattle.bf_tree.specs.Trees.{compared};
ghost use Rattle.bf_tree.specs.declared.compare.Compare.TheVariants.{Equal};
ghost use Rattle.bf_transpose.specs.Transposed.{column_copied, fixing, is_always, place_copied, transposed};

use bf_base::{Memory, Value};
use bf_tree::{Compare, Cond, Expr, Node, PlacedItem, Test};
use std::alloc::Global;

/// What the items of an arm copy of one of its tables, whose columns begin at a place of the arm's
/// rows, and are so many.
#[derive(Drop)]
pub(crate) struct Copies<'a> {
    pub(crate) items: &'a [PlacedItem],
    pub(crate) first: usize,
    pub(crate) count: usize,
}

/// The place that an item copies, where it is a column, with or without AS.
pub(crate) fn place_copied(item: &PlacedItem) -> Option<u8>
    ensures { result ≡ place_copied item.now }
{
    match item {
        PlacedItem::Column(place) => Some(*place),
        PlacedItem::Value(expr) => match expr.node() {
            Node::Column(place) => Some(*place),
            _ => None,
        },
        PlacedItem::Total(_) => None,
    }
}

/// A condition that fixes a column to a value, or that is true of each row where there is no column.
fn fixing(alloc: Global, column: Option<u8>, value: &Value) -> Result<Cond, Memory>
    ensures { IfOk result (λ cond. cond ≡ fixing column value.now) }
{
    match column {
        Some(place) => Ok(Cond::of(Test::Compare(
            Compare::Equal,
            Expr::of(Node::Column(place)),
            Expr::of(Node::Value(value.copy(alloc)?)),
        ))),
        None => Ok(Cond::of(Test::Always)),
    }
}

impl<'a> Copies<'a> {
    /// The column of the old table that the new table's column at a place copies. Takes no memory.
    fn column(&self, at: u8) -> Option<u8>
        ensures { result ≡ column_copied self.now.items.now self.now.first self.now.count at }
    {
        let place = place_copied(self.items.get(at as usize)?)? as usize;
        if self.first <= place && place - self.first < self.count {
            Some((place - self.first) as u8)
        } else {
            None
        }
    }

    /// A conjunct `column = literal` of two expressions, transposed.
    fn equality(&self, alloc: Global, left: &Expr, right: &Expr) -> Result<Cond, Memory>
        ensures { IfOk result (λ part. part ≡ transposed (column_copied self.now.items.now
            self.now.first self.now.count) (compared Equal left.now right.now)) }
    {
        match (left.node(), right.node()) {
            (Node::Column(at), Node::Value(value)) => fixing(alloc, self.column(*at), value),
            (Node::Value(value), Node::Column(at)) => fixing(alloc, self.column(*at), value),
            _ => Ok(Cond::of(Test::Always)),
        }
    }

    /// The condition on the old table that a condition on the new one implies: each conjunct
    /// `column = literal` speaks of the old column that its column copies, and any other is true of
    /// each row. Literals are copied, in time and memory linear in the condition.
    ///
    /// # Errors
    /// Where memory runs out.
    pub(crate) fn transposed(&self, alloc: Global, cond: &Cond) -> Result<Cond, Memory>
        ensures { IfOk result (λ part. part ≡ transposed (column_copied self.now.items.now
            self.now.first self.now.count) cond.now) }
    {
        match cond.node() {
            Test::And(left, right) => {
                let left = self.transposed(alloc, left)?;
                let right = self.transposed(alloc, right)?;
                Ok(Cond::of(Test::And(Box::new(alloc, left)?, Box::new(alloc, right)?)))
            }
            Test::Compare(Compare::Equal, left, right) => self.equality(alloc, left, right),
            _ => Ok(Cond::of(Test::Always)),
        }
    }
}

/// Whether a condition has no conjunct but such as are true of each row. Takes no memory.
pub(crate) fn is_always(cond: &Cond) -> bool
    ensures { result ≡ is_always cond.now }
{
    match cond.node() {
        Test::Always => true,
        Test::And(left, right) => is_always(left) && is_always(right),
        _ => false,
    }
}
