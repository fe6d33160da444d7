//! What a script could have said: names that are no keywords, and lists within the limits of the
//! language.

ghost use Rattle.std.specs.Prelude.{◌≡◌, ◌&&◌, length, nat_le};
ghost use Rattle.std.specs.List.{list_all};
ghost use Rattle.bf_base.specs.Limits.{most_columns};
ghost use Rattle.bf_sql.specs.Database.{is_within};
ghost use Rattle.bf_tree.specs.Views.{operand_tree};
ghost use Rattle.bf_recover.specs.Spoken.{compares_plain_refs, has_plain_refs, is_list, is_plain, is_plain_if_any, is_plain_ref, is_spoken_arm, is_spoken_index, is_spoken_item, is_spoken_join, is_spoken_migrate, is_spoken_table, is_spoken_target, is_spoken_where, totals_plain_refs};

use bf_base::{Column, MOST_COLUMNS, Name, Table};
use bf_lex::Keyword;
use bf_tree::{
    Arm, IndexRule, Item, Join, MOST_TARGETS, Migrate, Operand, RawAggregate, RawCond, RawExpr,
    RawNode, RawTest, Ref, Target,
};

/// Whether a name is no keyword.
fn is_plain(name: &Name) -> bool
    ensures { result ≡ is_plain name.now }
{
    Keyword::of_word(name.as_bytes()).is_none()
}

/// Whether a list has 1 to 16 parts.
fn is_list<T>(parts: &[T]) -> bool
    ensures { result ≡ is_list parts.now }
{
    1 <= parts.len() && parts.len() <= MOST_COLUMNS
}

/// Whether places are those of a table's columns.
fn are_within(table: &Table, places: &[u8]) -> bool
    ensures { result ≡ is_within table.now places.now }
{
    let count = table.columns.len();
    places.iter().all(|place| usize::from(*place) < count)
}

/// Whether no column has a keyword as its name.
fn are_named_plainly(columns: &[Column]) -> bool
    ensures { result ≡ list_all (λ c. is_plain c.name) columns.now }
{
    columns.iter().all(|column| is_plain(&column.name))
}

/// Whether a table stands for a CREATE TABLE that a script can have. Its time is linear in the table.
pub(crate) fn is_spoken_table(table: &Table) -> bool
    ensures { result ≡ is_spoken_table table.now }
{
    is_plain(&table.name)
        && are_named_plainly(table.columns.as_slice())
        && is_list(table.columns.as_slice())
        && is_list(table.key.as_slice())
        && are_within(table, table.key.as_slice())
}

/// Whether an index rule stands for a CREATE INDEX on a table that a script can have. Its time is
/// linear in the rule.
pub(crate) fn is_spoken_index(table: &Table, index: &IndexRule) -> bool
    ensures { result ≡ is_spoken_index table.now index.now }
{
    is_plain(&index.name)
        && is_plain(&index.table)
        && is_list(index.columns.as_slice())
        && are_within(table, index.columns.as_slice())
}

fn is_plain_if_any(name: &Option<Name>) -> bool
    ensures { result ≡ is_plain_if_any name.now }
{
    match name {
        Some(name) => is_plain(name),
        None => true,
    }
}

/// Whether a ref has no keyword as a name.
fn is_plain_ref(reference: &Ref) -> bool
    ensures { result ≡ is_plain_ref reference.now }
{
    is_plain_if_any(&reference.table) && is_plain(&reference.column)
}

fn are_plain_refs(refs: &[Ref]) -> bool
    ensures { result ≡ list_all is_plain_ref refs.now }
{
    refs.iter().all(|reference| is_plain_ref(reference))
}

/// Whether an expression has no keyword as a name, in time linear in its nodes.
fn has_plain_refs(expr: &RawExpr) -> bool
    ensures { result ≡ has_plain_refs expr.now }
{
    match expr.node() {
        RawNode::Value(_) => true,
        RawNode::Column(reference) => is_plain_ref(reference),
        RawNode::Neg(inner) => has_plain_refs(inner),
        RawNode::Add(left, right) => has_plain_refs(left) && has_plain_refs(right),
        RawNode::Sub(left, right) => has_plain_refs(left) && has_plain_refs(right),
        RawNode::Mul(left, right) => has_plain_refs(left) && has_plain_refs(right),
        RawNode::Concat(left, right) => has_plain_refs(left) && has_plain_refs(right),
    }
}

fn is_plain_operand(operand: &Operand) -> bool
    ensures { result ≡ has_plain_refs (operand_tree operand.now) }
{
    match operand {
        Operand::Value(_) => true,
        Operand::Column(reference) => is_plain_ref(reference),
    }
}

/// Whether a condition has no keyword as a name, in time linear in its nodes.
fn compares_plain_refs(cond: &RawCond) -> bool
    ensures { result ≡ compares_plain_refs cond.now }
{
    match cond.node() {
        RawTest::Compare(_, left, right) => is_plain_operand(left) && is_plain_operand(right),
        RawTest::Between(middle, low, high) => {
            is_plain_operand(middle) && is_plain_operand(low) && is_plain_operand(high)
        }
        RawTest::Not(inner) => compares_plain_refs(inner),
        RawTest::And(left, right) => compares_plain_refs(left) && compares_plain_refs(right),
        RawTest::Or(left, right) => compares_plain_refs(left) && compares_plain_refs(right),
    }
}

fn totals_plain_refs(total: &RawAggregate) -> bool
    ensures { result ≡ totals_plain_refs total.now }
{
    match total {
        RawAggregate::Count => true,
        RawAggregate::Sum(expr) | RawAggregate::Min(expr) | RawAggregate::Max(expr) => {
            has_plain_refs(expr)
        }
    }
}

fn is_spoken_item(item: &Item) -> bool
    ensures { result ≡ is_spoken_item item.now }
{
    match item {
        Item::Column(reference) => is_plain_ref(reference),
        Item::Named(expr, name) => has_plain_refs(expr) && is_plain(name),
        Item::Total(total, name) => totals_plain_refs(total) && is_plain(name),
    }
}

fn are_plain_pairs(pairs: &[(Ref, Ref)]) -> bool
    ensures { result ≡ list_all (λ p. is_plain_ref p.0 && is_plain_ref p.1) pairs.now }
{
    pairs
        .iter()
        .all(|(left, right)| is_plain_ref(left) && is_plain_ref(right))
}

fn is_spoken_join(join: &Option<Join>) -> bool
    ensures { result ≡ is_spoken_join join.now }
{
    match join {
        Some(join) => {
            is_plain(&join.table)
                && is_list(join.on.as_slice())
                && are_plain_pairs(join.on.as_slice())
        }
        None => true,
    }
}

fn is_spoken_where(cond: &Option<RawCond>) -> bool
    ensures { result ≡ is_spoken_where cond.now }
{
    match cond {
        Some(cond) => compares_plain_refs(cond),
        None => true,
    }
}

fn are_spoken_items(items: &[Item]) -> bool
    ensures { result ≡ list_all is_spoken_item items.now }
{
    items.iter().all(|item| is_spoken_item(item))
}

/// Whether there are at most 16 columns to group by, none of which has a keyword as a name.
fn is_spoken_group(group: &[Ref]) -> bool
    ensures { result
        ≡ (nat_le (length group.now) most_columns && list_all is_plain_ref group.now) }
{
    group.len() <= MOST_COLUMNS && are_plain_refs(group)
}

fn is_spoken_arm(arm: &Arm) -> bool
    ensures { result ≡ is_spoken_arm arm.now }
{
    is_list(arm.items.as_slice())
        && are_spoken_items(arm.items.as_slice())
        && is_plain(&arm.from)
        && is_spoken_join(&arm.join)
        && is_spoken_where(&arm.cond)
        && is_spoken_group(arm.group.as_slice())
}

fn are_spoken_arms(arms: &[Arm]) -> bool
    ensures { result ≡ list_all is_spoken_arm arms.now }
{
    arms.iter().all(|arm| is_spoken_arm(arm))
}

fn is_spoken_target(target: &Target) -> bool
    ensures { result ≡ is_spoken_target target.now }
{
    is_plain(&target.name) && 1 <= target.arms.len() && are_spoken_arms(target.arms.as_slice())
}

fn are_spoken_targets(targets: &[Target]) -> bool
    ensures { result ≡ list_all is_spoken_target targets.now }
{
    targets.iter().all(|target| is_spoken_target(target))
}

/// Whether a MIGRATE is one that a script can have, but for its length. Its time is linear in it.
pub(crate) fn is_spoken_migrate(migrate: &Migrate) -> bool
    ensures { result ≡ is_spoken_migrate migrate.now }
{
    let targets = migrate.targets.as_slice();
    1 <= targets.len() && targets.len() <= MOST_TARGETS && are_spoken_targets(targets)
}
