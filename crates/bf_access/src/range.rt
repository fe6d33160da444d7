//! The range of keys that a condition leaves.

ghost use Rattle.std.specs.Prelude.{◌≡◌, ◌++◌, ◌∷◌, [], IfOk, unwrap_or};
ghost use Rattle.std.specs.Option.{option_map, option_to_list};
ghost use Rattle.std.specs.Range.Bound.{bound_map};
ghost use Rattle.bf_tree.specs.Trees.{between, compared};
ghost use Rattle.bf_tree.specs.declared.compare.Compare.TheVariants as comparison;
ghost use Rattle.bf_access.specs.declared.range.Side.TheVariants as side;
ghost use Rattle.bf_access.specs.Ranges.{column_end, comparisons, end_behind, end_of as end_on, key_range_of, narrowed, narrower, toward, turned};

use bf_base::{Key, Memory, Table, Value};
use bf_heap::KeyRange;
use bf_tree::{Compare, Cond, Expr, Test, column_fixed, is_column_at, literal};
use std::alloc::Global;
use std::cmp::Ordering;
use std::ops::Bound;

/// The two ends of a range.
#[derive(Clone, Copy)]
pub enum Side {
    Low,
    High,
}

/// The sign of a comparison whose sides have changed places.
fn turned(op: Compare) -> Compare
    ensures { result ≡ turned op }
{
    match op {
        Compare::Equal => Compare::Equal,
        Compare::Unequal => Compare::Unequal,
        Compare::Less => Compare::Greater,
        Compare::LessEqual => Compare::GreaterEqual,
        Compare::Greater => Compare::Less,
        Compare::GreaterEqual => Compare::LessEqual,
    }
}

/// The sign and the literal of a comparison of the column at a place, the column on the left.
fn column_compared<'a>(
    op: Compare,
    left: &'a Expr,
    right: &'a Expr,
    place: u8,
) -> Option<(Compare, &'a Value)>
    ensures { option_to_list (option_map (λ c. (c.0, c.1.now)) result)
        ≡ comparisons place (compared op left.now right.now) }
{
    if is_column_at(left, place) {
        Some((op, literal(right)?))
    } else if is_column_at(right, place) {
        Some((turned(op), literal(left)?))
    } else {
        None
    }
}

/// The ends of a BETWEEN of the column at a place.
fn column_between<'a>(
    expr: &'a Expr,
    low: &'a Expr,
    high: &'a Expr,
    place: u8,
) -> Option<(&'a Value, &'a Value)>
    ensures { unwrap_or (option_map (λ ends. (comparison.GreaterEqual, ends.0.now)
        ∷ (comparison.LessEqual, ends.1.now) ∷ []) result) []
        ≡ comparisons place (between expr.now low.now high.now) }
{
    if is_column_at(expr, place) {
        Some((literal(low)?, literal(high)?))
    } else {
        None
    }
}

/// How two values compare in the order in which ends on a side become narrower.
fn toward(side: Side, a: &Value, b: &Value) -> Ordering
    ensures { result ≡ toward side a.now b.now }
{
    match side {
        Side::Low => a.cmp(b),
        Side::High => b.cmp(a),
    }
}

/// The narrower of two ends on a side.
fn narrower<'a>(side: Side, a: Bound<&'a Value>, b: Bound<&'a Value>) -> Bound<&'a Value>
    ensures { bound_map (λ v. v.now) result
        ≡ narrower side (bound_map (λ v. v.now) a.entry) (bound_map (λ v. v.now) b.entry) }
{
    let first = match (&a, &b) {
        (Bound::Unbounded, _) => false,
        (_, Bound::Unbounded) => true,
        (Bound::Included(x), Bound::Excluded(y)) => toward(side, x, y).is_gt(),
        (Bound::Included(x) | Bound::Excluded(x), Bound::Included(y) | Bound::Excluded(y)) => {
            toward(side, x, y).is_ge()
        }
    };
    if first { a } else { b }
}

/// The end that a comparison with a value gives on a side.
fn end_of(side: Side, op: Compare, value: &Value) -> Bound<&Value>
    ensures { bound_map (λ v. v.now) result ≡ end_on side op value.now }
{
    match (side, op) {
        (_, Compare::Equal) => Bound::Included(value),
        (Side::Low, Compare::GreaterEqual) => Bound::Included(value),
        (Side::Low, Compare::Greater) => Bound::Excluded(value),
        (Side::High, Compare::LessEqual) => Bound::Included(value),
        (Side::High, Compare::Less) => Bound::Excluded(value),
        _ => Bound::Unbounded,
    }
}

/// The narrowest on a side of an end and those that the conjuncts of a condition give a column.
fn narrowed<'a>(side: Side, cond: &'a Cond, place: u8, end: Bound<&'a Value>) -> Bound<&'a Value>
    ensures { bound_map (λ v. v.now) result
        ≡ narrowed side place cond.now (bound_map (λ v. v.now) end.entry) }
{
    match cond.node() {
        Test::And(left, right) => {
            let end = narrowed(side, left, place, end);
            narrowed(side, right, place, end)
        }
        Test::Compare(op, left, right) => match column_compared(*op, left, right, place) {
            Some((op, value)) => narrower(side, end, end_of(side, op, value)),
            None => end,
        },
        Test::Between(expr, low, high) => match column_between(expr, low, high, place) {
            Some((low, high)) => {
                let end = narrower(side, end, end_of(side, Compare::GreaterEqual, low));
                narrower(side, end, end_of(side, Compare::LessEqual, high))
            }
            None => end,
        },
        _ => end,
    }
}

/// A key with one more value.
fn longer(alloc: Global, front: &Key, value: &Value) -> Result<Key, Memory>
    ensures { IfOk result (λ key. key ≡ front.now ++ value.now ∷ []) }
{
    let mut values = front.copy(alloc)?.into_vec();
    values.push(value.copy(alloc)?)?;
    Ok(Key::of(values))
}

/// An end of a column, behind the values of the columns in front of it.
fn end_behind(alloc: Global, front: &Key, end: Bound<&Value>) -> Result<Bound<Key>, Memory>
    ensures { IfOk result (λ behind.
        behind ≡ end_behind front.now (bound_map (λ v. v.now) end.entry)) }
{
    match end {
        Bound::Included(value) => Ok(Bound::Included(longer(alloc, front, value)?)),
        Bound::Excluded(value) => Ok(Bound::Excluded(longer(alloc, front, value)?)),
        Bound::Unbounded => match front.as_slice() {
            [] => Ok(Bound::Unbounded),
            [_, ..] => Ok(Bound::Included(front.copy(alloc)?)),
        },
    }
}

/// The range of the keys that begin with some values and have one of a column between the ends that
/// a condition gives it.
fn range_at(alloc: Global, front: &Key, cond: &Cond, place: u8) -> Result<KeyRange, Memory>
    ensures low { IfOk result (λ range.
        range.low ≡ end_behind front.now (column_end side.Low place cond.now)) }
    ensures high { IfOk result (λ range.
        range.high ≡ end_behind front.now (column_end side.High place cond.now)) }
{
    let low = narrowed(Side::Low, cond, place, Bound::Unbounded);
    let high = narrowed(Side::High, cond, place, Bound::Unbounded);
    Ok(KeyRange {
        low: end_behind(alloc, front, low)?,
        high: end_behind(alloc, front, high)?,
    })
}

/// The range of the keys that a condition on a table leaves, by its comparisons of the key's first
/// columns with literals. It goes over the condition once for each column that is fixed, and three
/// times for the column behind those.
pub fn key_range(alloc: Global, table: &Table, cond: &Cond) -> Result<KeyRange, Memory>
    ensures { IfOk result (λ range. range ≡ key_range_of table.now cond.now) }
{
    let mut front = Vec::new(alloc);
    for place in table.key.as_slice() {
        let Some(value) = column_fixed(cond, *place) else {
            return range_at(alloc, &Key::of(front), cond, *place);
        };
        front.push(value.copy(alloc)?)?;
    }
    let front = Key::of(front);
    Ok(KeyRange {
        low: Bound::Included(front.copy(alloc)?),
        high: Bound::Included(front),
    })
}
