//! The arms of a MIGRATE.

ghost use Rattle.std.specs.Prelude.{◌≡◌, ◌<◌, ◌≤◌, IfOk};
ghost use Rattle.bf_phrase.specs.Cursors.{IsPlace, left, words};
ghost use Rattle.bf_phrase.specs.Follow.{is_point};
ghost use Rattle.bf_parse.specs.MigrationFollow.{ArmsRule, ClausesRule, EqualitiesRule, follow_arm, follow_arms, follow_equalities, follow_group, follow_join};
ghost use Rattle.bf_parse.specs.Migrations.{ArmRule, EqualityRule, GroupRule, JoinRule};
ghost use Rattle.bf_phrase.specs.Outcome.{outcome};
ghost use Rattle.bf_phrase.specs.Reading.{Fits, Read};

use bf_base::Sequence;
use bf_lex::{Keyword, Sign};
use bf_phrase::clause::where_clause;
use bf_phrase::list::{list, room};
use bf_phrase::operand::reference;
use bf_phrase::{Cursor, ReadStop};
use bf_tree::{Arm, Item, Join, RawCond, Ref};
use std::alloc::Global;

/// The equality at a place, and the place behind it.
fn equality<'a>(alloc: Global, cursor: Cursor<'a>) -> Result<((Ref, Ref), Cursor<'a>), ReadStop>
    requires { IsPlace cursor }
    ensures fits { Fits is_point EqualityRule (words cursor.entry)
        (outcome (λ x. Read x.0 (words x.1)) result) }
    ensures place { IfOk result (λ x. IsPlace x.1) }
    ensures shorter { IfOk result (λ x. left x.1 < left cursor.entry) }
{
    let (one, rest) = reference(alloc, cursor)?;
    let rest = rest.expect_sign(Sign::Equal)?;
    let (other, rest) = reference(alloc, rest)?;
    Ok(((one, other), rest))
}

/// The equalities at a place, with AND between them, and the place behind them.
fn equalities<'a>(
    alloc: Global,
    cursor: Cursor<'a>,
) -> Result<(Vec<(Ref, Ref)>, Cursor<'a>), ReadStop>
    requires { IsPlace cursor }
    ensures fits { Fits follow_equalities EqualitiesRule (words cursor.entry)
        (outcome (λ x. Read x.0.items (words x.1)) result) }
    ensures place { IfOk result (λ x. IsPlace x.1) }
    ensures shorter { IfOk result (λ x. left x.1 < left cursor.entry) }
{
    let (first, rest) = equality(alloc, cursor)?;
    let mut found = Vec::new(alloc);
    found.push(first)?;
    let mut rest = rest;
    'equalities: while let Some(behind) = rest.keyword(Keyword::And) {
        room(found.len(), behind.begins_name(), behind)?;
        let (next, behind) = equality(alloc, behind)?;
        found.push(next)?;
        rest = behind;
    }
    Ok((found, rest))
}

/// The JOIN at a place, if one stands there, and the place behind it.
fn join<'a>(alloc: Global, cursor: Cursor<'a>) -> Result<(Option<Join>, Cursor<'a>), ReadStop>
    requires { IsPlace cursor }
    ensures fits { Fits follow_join JoinRule (words cursor.entry)
        (outcome (λ x. Read x.0 (words x.1)) result) }
    ensures place { IfOk result (λ x. IsPlace x.1) }
    ensures shorter { IfOk result (λ x. left x.1 ≤ left cursor.entry) }
{
    match cursor.keyword(Keyword::Join) {
        None => Ok((None, cursor)),
        Some(rest) => {
            let (table, rest) = rest.name(alloc)?;
            let rest = rest.expect_keyword(Keyword::On)?;
            let (found, rest) = equalities(alloc, rest)?;
            let on = Sequence::of(found);
            Ok((Some(Join { table, on }), rest))
        }
    }
}

/// The columns of the GROUP BY at a place, none where none stands there, and the place behind it.
fn group<'a>(alloc: Global, cursor: Cursor<'a>) -> Result<(Vec<Ref>, Cursor<'a>), ReadStop>
    requires { IsPlace cursor }
    ensures fits { Fits follow_group GroupRule (words cursor.entry)
        (outcome (λ x. Read x.0.items (words x.1)) result) }
    ensures place { IfOk result (λ x. IsPlace x.1) }
    ensures shorter { IfOk result (λ x. left x.1 ≤ left cursor.entry) }
{
    match cursor.keyword(Keyword::Group) {
        None => Ok((Vec::new(alloc), cursor)),
        Some(rest) => {
            let rest = rest.expect_keyword(Keyword::By)?;
            list::<Ref>(alloc, rest)
        }
    }
}

/// The JOIN, the condition and the columns of GROUP BY at a place, and the place behind them.
fn clauses<'a>(
    alloc: Global,
    cursor: Cursor<'a>,
) -> Result<(Option<Join>, Option<RawCond>, Vec<Ref>, Cursor<'a>), ReadStop>
    requires { IsPlace cursor }
    ensures fits { Fits follow_arm ClausesRule (words cursor.entry)
        (outcome (λ x. Read (x.0, x.1, x.2.items) (words x.3)) result) }
    ensures place { IfOk result (λ x. IsPlace x.3) }
    ensures shorter { IfOk result (λ x. left x.3 ≤ left cursor.entry) }
{
    let (join, rest) = join(alloc, cursor)?;
    let (cond, rest) = where_clause(alloc, rest)?;
    let (group, rest) = group(alloc, rest)?;
    Ok((join, cond, group, rest))
}

/// The arm at a place, and the place behind it.
fn arm<'a>(alloc: Global, cursor: Cursor<'a>) -> Result<(Arm, Cursor<'a>), ReadStop>
    requires { IsPlace cursor }
    ensures fits { Fits follow_arm ArmRule (words cursor.entry)
        (outcome (λ x. Read x.0 (words x.1)) result) }
    ensures place { IfOk result (λ x. IsPlace x.1) }
    ensures shorter { IfOk result (λ x. left x.1 < left cursor.entry) }
{
    let rest = cursor.expect_keyword(Keyword::Select)?;
    let (items, rest) = list::<Item>(alloc, rest)?;
    let rest = rest.expect_keyword(Keyword::From)?;
    let (from, rest) = rest.name(alloc)?;
    let (join, cond, group, rest) = clauses(alloc, rest)?;
    let items = Sequence::of(items);
    let group = Sequence::of(group);
    Ok((
        Arm {
            items,
            from,
            join,
            cond,
            group,
        },
        rest,
    ))
}

/// The arms at a place, with UNION ALL between them, and the place behind them.
pub(crate) fn arms<'a>(
    alloc: Global,
    cursor: Cursor<'a>,
) -> Result<(Vec<Arm>, Cursor<'a>), ReadStop>
    requires { IsPlace cursor }
    ensures fits { Fits follow_arms ArmsRule (words cursor.entry)
        (outcome (λ x. Read x.0.items (words x.1)) result) }
    ensures place { IfOk result (λ x. IsPlace x.1) }
    ensures shorter { IfOk result (λ x. left x.1 < left cursor.entry) }
{
    let (first, rest) = arm(alloc, cursor)?;
    let mut found = Vec::new(alloc);
    found.push(first)?;
    let mut rest = rest;
    'arms: while let Some(behind) = rest.keyword(Keyword::Union) {
        let behind = behind.expect_keyword(Keyword::All)?;
        let (next, behind) = arm(alloc, behind)?;
        found.push(next)?;
        rest = behind;
    }
    Ok((found, rest))
}
