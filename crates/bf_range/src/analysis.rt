//! How far expressions and totals can go.

ghost use Rattle.std.specs.Prelude.{◌≡◌, List, [], not, IsTrue, IsOk, IsOkAnd, IfSome};
ghost use Rattle.bf_base.specs.declared.value.Value.{Value};
ghost use Rattle.bf_base.specs.Tables.{cell};
ghost use Rattle.bf_tree.specs.Evaluation.{value_of};
ghost use Rattle.bf_tree.specs.Trees.{literal};
ghost use Rattle.bf_sql.specs.migrations.Extents.{extent_of, extent_of_admit, extent_of_total, may_fail, numbers, texts};
ghost use Rattle.bf_range.specs.Seen.{ends_of, most_bytes_of, seen};
ghost use Rattle.bf_sql.specs.migrations.Within.{admitted_at, IsRowOf, IsWithin};

use crate::extents::{Extent, MOST_ROWS, concatenation, difference, negated, product, sum, summed};
use bf_base::{Admit, Column, Value};
use bf_tree::{Aggregate, Expr, Node};

fn admitted(columns: &[Column], place: u8) -> Admit
    ensures { result ≡ admitted_at columns.now place }
{
    match columns.get(place as usize) {
        Some(column) => column.admits,
        None => Admit::Int,
    }
}

fn extent_of_admit(admit: Admit) -> Extent
    ensures { seen (Some result) ≡ extent_of_admit admit }
{
    match admit {
        Admit::Int => Extent::Numbers(i64::MIN, i64::MAX),
        Admit::Checked(low, high) => Extent::Numbers(low, high),
        Admit::Varchar(most) => Extent::Texts(most),
    }
}

fn extent_of_value(value: &Value) -> Extent
    ensures { seen (Some result) ≡ extent_of (admitted_at []) (literal value.now) }
{
    match value {
        Value::Int(number) => Extent::Numbers(*number, *number),
        Value::Text(text) => Extent::Texts(text.as_bytes().len() as u8),
    }
}

/// How far the value of an expression can go on rows that the columns admit, and `None` exactly where a node of it may
/// leave the range of INT, or have more than 255 bytes, or is of the wrong kind for its place. A literal has its value
/// or its length, an INT column its check or all of INT, and a VARCHAR its limit; a sum, difference, product or negation
/// has the exact least and greatest result over the ends of its parts, and a concatenation the sum of their lengths. A
/// place without a column counts as INT. It takes no memory, and time linear in the nodes.
pub fn extent_of(expr: &Expr, columns: &[Column]) -> Option<Extent>
    ensures { seen result ≡ extent_of (admitted_at columns.now) expr.now }
{
    match expr.node() {
        Node::Value(value) => Some(extent_of_value(value)),
        Node::Column(place) => Some(extent_of_admit(admitted(columns, *place))),
        Node::Neg(a) => negated(extent_of(a, columns)),
        Node::Add(a, b) => sum(extent_of(a, columns), extent_of(b, columns)),
        Node::Sub(a, b) => difference(extent_of(a, columns), extent_of(b, columns)),
        Node::Mul(a, b) => product(extent_of(a, columns), extent_of(b, columns)),
        Node::Concat(a, b) => concatenation(extent_of(a, columns), extent_of(b, columns)),
    }
}

/// The same of a total over at most 1,048,576 rows: COUNT goes from 0 to that number, MIN and MAX as far as their
/// argument, and SUM has as many times the ends of its argument. `None` exactly where the total may fail by this. A sum of
/// fewer rows need not reach the ends: it lies between those of one row and these.
pub fn extent_of_total(total: &Aggregate, columns: &[Column]) -> Option<Extent>
    ensures { seen result ≡ extent_of_total (admitted_at columns.now) total.now }
{
    match total {
        Aggregate::Count => Some(Extent::Numbers(0, MOST_ROWS)),
        Aggregate::Sum(expr) => summed(extent_of(expr, columns)),
        Aggregate::Min(expr) | Aggregate::Max(expr) => extent_of(expr, columns),
    }
}

/// Between which numbers the value of an INT expression lies on rows that the columns admit: the least and the greatest
/// result over the ends of its parts. `None` exactly where a node of it may leave the range of INT (or one of its
/// concatenations 255 bytes), or the expression is a text. It takes no memory, and time linear in the nodes.
pub fn interval(expr: &Expr, columns: &[Column]) -> Option<(i64, i64)>
    ensures exact { result ≡ ends_of (extent_of (admitted_at columns.now) expr.now) }
    ensures within { IfSome result (λ ends. (row : List Value) → IsRowOf columns.now row
        → IsOkAnd (value_of (cell row) expr.now) (IsWithin (numbers ends.0 ends.1))) }
{
    match extent_of(expr, columns) {
        Some(Extent::Numbers(low, high)) => Some((low, high)),
        Some(Extent::Texts(_)) | None => None,
    }
}

/// The most bytes that a text expression has on rows that the columns admit: the sum of its parts' most. `None` exactly
/// where one of its concatenations may have more than 255, or the expression is an INT. It takes no memory, and time
/// linear in the nodes.
pub fn longest(expr: &Expr, columns: &[Column]) -> Option<u8>
    ensures exact { result ≡ most_bytes_of (extent_of (admitted_at columns.now) expr.now) }
    ensures within { IfSome result (λ most. (row : List Value) → IsRowOf columns.now row
        → IsOkAnd (value_of (cell row) expr.now) (IsWithin (texts most))) }
{
    match extent_of(expr, columns) {
        Some(Extent::Texts(most)) => Some(most),
        Some(Extent::Numbers(_, _)) | None => None,
    }
}

/// Whether no row that the columns admit makes the expression fail, as far as the ends of its parts tell: `n - n` over an
/// INT column is judged as a difference of any two INTs. It takes no memory, and time linear in the nodes.
pub fn cannot_fail(expr: &Expr, columns: &[Column]) -> bool
    ensures exact { result ≡ not (may_fail (extent_of (admitted_at columns.now) expr.now)) }
    ensures never { IsTrue result → (row : List Value) → IsRowOf columns.now row
        → IsOk (value_of (cell row) expr.now) }
{
    extent_of(expr, columns).is_some()
}
