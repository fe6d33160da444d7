//! What an expression is at sight, and the value that a condition fixes a column to.

ghost use Rattle.std.specs.Prelude.{◌≡◌, option_copied};
ghost use Rattle.bf_tree.specs.Fixed.{column_fixed, is_column_at, literal_of, value_fixed};
ghost use Rattle.bf_tree.specs.Trees.{compared};
ghost use Rattle.bf_tree.specs.declared.compare.Compare.TheVariants as comparison;

use crate::compare::Compare;
use crate::tree::{Cond, Expr, Node, Test};
use bf_base::Value;

/// The value of a literal, and `None` of every other expression. Takes no memory.
pub fn literal(expr: &Expr) -> Option<&Value>
    ensures { option_copied result ≡ literal_of expr.now }
{
    match expr.node() {
        Node::Value(value) => Some(value),
        _ => None,
    }
}

/// Whether an expression is the column at a place.
pub fn is_column_at(expr: &Expr, place: u8) -> bool
    ensures { result ≡ is_column_at place expr.now }
{
    match expr.node() {
        Node::Column(at) => *at == place,
        _ => false,
    }
}

/// The value that an equality of two expressions fixes the column at a place to: one is the column,
/// and the other one a literal. Takes no memory.
pub fn value_fixed<'a>(left: &'a Expr, right: &'a Expr, place: u8) -> Option<&'a Value>
    ensures { option_copied result
        ≡ value_fixed place (compared comparison.Equal left.now right.now) }
{
    if is_column_at(left, place) {
        literal(right)
    } else if is_column_at(right, place) {
        literal(left)
    } else {
        None
    }
}

/// The value that the first conjunct which fixes the column at a place fixes it to, in time linear
/// in the condition. Takes no memory.
pub fn column_fixed(cond: &Cond, place: u8) -> Option<&Value>
    ensures { option_copied result ≡ column_fixed place cond.now }
{
    match cond.node() {
        Test::And(left, right) => match column_fixed(left, place) {
            Some(value) => Some(value),
            None => column_fixed(right, place),
        },
        Test::Compare(Compare::Equal, left, right) => value_fixed(left, right, place),
        _ => None,
    }
}
