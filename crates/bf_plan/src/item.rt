//! Items of an arm.

ghost use Rattle.std.specs.Prelude.{◌≡◌, flat_map, map, unwrap_or, option_map};
ghost use Rattle.bf_base.specs.Tables.{kind_admitted};
ghost use Rattle.bf_tree.specs.Settling.{Settles};
ghost use Rattle.bf_sql.specs.migrations.Extents.{admit_of_extent};
ghost use Rattle.bf_sql.specs.migrations.MigrationObjections.{item_objections, tag_of};
ghost use Rattle.bf_sql.specs.migrations.Placed.{placed_item};
ghost use Rattle.bf_range.specs.Seen.{seen};
ghost use Rattle.bf_sql.specs.migrations.Within.{admitted_at};
ghost use Rattle.bf_plan.specs.Items.{bound_item, bound_items, judged, judged_total, kind_at, kind_of_total_at, number_of, plain_place};

use bf_base::{Admit, Column, Kind, Sequence, Value};
use bf_bind::{Scope, bind_expression, bind_total, column};
use bf_range::{Extent, extent_of, extent_of_total};
use bf_tree::{Aggregate, Expr, Item, Node, PlacedItem, RawExpr, RawNode, StatementError};
use std::alloc::Global;

/// An item in the columns of its arm: the kind of its values, what the column admits that it alone would
/// fill, whether it may fail on some row, the place of its column if it is plain, and whether it is a
/// total.
#[derive(Clone, Copy)]
pub(crate) struct BoundItem {
    pub(crate) kind: Kind,
    pub(crate) admits: Admit,
    pub(crate) may_fail: bool,
    pub(crate) place: Option<u8>,
    pub(crate) is_total: bool,
}

/// The items of an arm: what each is judged to be, and each with places for names.
#[derive(Drop)]
pub(crate) struct BoundItems {
    pub(crate) bound: Sequence<BoundItem>,
    pub(crate) placed: Sequence<PlacedItem>,
}

/// What the column at a place admits, an INT where there is none.
fn admitted(columns: &[Column], place: u8) -> Admit
    ensures { result ≡ admitted_at columns.now place }
{
    match columns.get(place as usize) {
        Some(column) => column.admits,
        None => Admit::Int,
    }
}

/// The kind of the values that a column admits.
fn kind_admitted(admits: Admit) -> Kind
    ensures { result ≡ kind_admitted admits }
{
    match admits {
        Admit::Int | Admit::Checked(_, _) => Kind::Int,
        Admit::Varchar(_) => Kind::Text,
    }
}

/// The kind of an expression's values.
fn kind_at(expr: &Expr, columns: &[Column]) -> Kind
    ensures { result ≡ kind_at columns.now expr.now }
{
    match expr.node() {
        Node::Value(value) => value.kind(),
        Node::Column(place) => kind_admitted(admitted(columns, *place)),
        Node::Neg(_) | Node::Add(_, _) | Node::Sub(_, _) | Node::Mul(_, _) => Kind::Int,
        Node::Concat(_, _) => Kind::Text,
    }
}

/// The kind of a total's value.
fn kind_of_total(total: &Aggregate, columns: &[Column]) -> Kind
    ensures { result ≡ kind_of_total_at columns.now total.now }
{
    match total {
        Aggregate::Count | Aggregate::Sum(_) => Kind::Int,
        Aggregate::Min(expr) | Aggregate::Max(expr) => kind_at(expr, columns),
    }
}

/// The place of the column that an expression is.
fn plain_place(expr: &Expr) -> Option<u8>
    ensures { result ≡ plain_place expr.now }
{
    match expr.node() {
        Node::Column(place) => Some(*place),
        _ => None,
    }
}

/// The column that values of an extent stand in.
fn admit_of_extent(extent: Option<Extent>) -> Admit
    ensures { result ≡ admit_of_extent (seen extent) }
{
    match extent {
        Some(Extent::Texts(most)) => Admit::Varchar(1_u8.max(most)),
        Some(Extent::Numbers(_, _)) | None => Admit::Int,
    }
}

/// A plain column keeps what it admits.
fn item_admit(place: Option<u8>, extent: Option<Extent>, columns: &[Column]) -> Admit
    ensures { result ≡ unwrap_or (option_map (admitted_at columns.now) place)
        (admit_of_extent (seen extent)) }
{
    match place {
        Some(place) => admitted(columns, place),
        None => admit_of_extent(extent),
    }
}

/// An item that is an expression over the columns.
fn judged(expr: &Expr, columns: &[Column]) -> BoundItem
    ensures { result ≡ judged columns.now expr.now }
{
    let extent = extent_of(expr, columns);
    let place = plain_place(expr);
    BoundItem {
        kind: kind_at(expr, columns),
        admits: item_admit(place, extent, columns),
        may_fail: extent.is_none(),
        place,
        is_total: false,
    }
}

/// An item that is a total over the columns.
fn judged_total(total: &Aggregate, columns: &[Column]) -> BoundItem
    ensures { result ≡ judged_total columns.now total.now }
{
    let extent = extent_of_total(total, columns);
    BoundItem {
        kind: kind_of_total(total, columns),
        admits: admit_of_extent(extent),
        may_fail: extent.is_none(),
        place: None,
        is_total: true,
    }
}

/// An item, as it is judged and with places for names.
///
/// # Errors
/// The first objection, from the left.
fn bind_item(
    alloc: Global,
    scope: &Scope,
    columns: &[Column],
    item: &Item,
) -> Result<(BoundItem, PlacedItem), StatementError>
    requires { columns.now ≡ map (λ column. column.1) scope.now }
    ensures { Settles result (item_objections scope.now item.now)
        (bound_item scope.now item.now, placed_item scope.now item.now) }
{
    match item {
        Item::Column(reference) => {
            let found = column(alloc, scope, reference)?;
            let judgement = judged(&Expr::of(Node::Column(found.place)), columns);
            Ok((judgement, PlacedItem::Column(found.place)))
        }
        Item::Named(raw, _) => {
            let bound = bind_expression(alloc, scope, raw)?;
            let judgement = judged(&bound.expr, columns);
            Ok((judgement, PlacedItem::Value(bound.expr)))
        }
        Item::Total(raw, _) => {
            let total = bind_total(alloc, scope, raw)?;
            let judgement = judged_total(&total, columns);
            Ok((judgement, PlacedItem::Total(total)))
        }
    }
}

/// The items of an arm, in time linear in their nodes, but that refs are compared with the columns.
///
/// # Errors
/// The first objection, from the left.
pub(crate) fn bind_items(
    alloc: Global,
    scope: &Scope,
    columns: &[Column],
    items: &[Item],
) -> Result<BoundItems, StatementError>
    requires { columns.now ≡ map (λ column. column.1) scope.now }
    ensures { Settles result (flat_map (item_objections scope.now) items.now)
        (bound_items scope.now items.now) }
{
    let mut bound = Vec::with_capacity(alloc, items.len())?;
    let mut placed = Vec::with_capacity(alloc, items.len())?;
    for item in items {
        let (judgement, with_places) = bind_item(alloc, scope, columns, item)?;
        bound.push(judgement)?;
        placed.push(with_places)?;
    }
    Ok(BoundItems {
        bound: Sequence::of(bound),
        placed: Sequence::of(placed),
    })
}

/// The number that an expression is, if it is a literal.
fn number_of(raw: &RawExpr) -> Option<i64>
    ensures { result ≡ number_of raw.now }
{
    match raw.node() {
        RawNode::Value(Value::Int(number)) => Some(*number),
        _ => None,
    }
}

/// The tag of an arm: the number that its first item is, if it is one.
pub(crate) fn tag_of(items: &[Item]) -> Option<i64>
    ensures { result ≡ tag_of items.now }
{
    match items {
        [Item::Named(raw, _), ..] => number_of(raw),
        _ => None,
    }
}
