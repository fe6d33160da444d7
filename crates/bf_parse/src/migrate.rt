//! MIGRATE.

ghost use Rattle.std.specs.Prelude.{◌≡◌, ◌+◌, ◌<◌, IfErr, IfOk, None, Some};
ghost use Rattle.bf_phrase.specs.Cursors.{IsPlace, left, words};
ghost use Rattle.bf_phrase.specs.Follow.{nothing};
ghost use Rattle.bf_parse.specs.MigrationFollow.{TargetsRule, follow_arms, follow_targets};
ghost use Rattle.bf_parse.specs.Migrations.{MigrateRule, TargetRule};
ghost use Rattle.bf_phrase.specs.Outcome.{outcome, stopped};
ghost use Rattle.bf_phrase.specs.Reading.{Fits, Read};
ghost use Rattle.bf_phrase.specs.Rules.{Marked};
ghost use Rattle.bf_phrase.specs.Steps.{Target as TargetMark, fault_at};

use crate::arm::arms;
use bf_base::Sequence;
use bf_lex::{Keyword, ScriptKind, Sign};
use bf_phrase::{Cursor, ReadStop};
use bf_tree::{MOST_TARGETS, Migrate, Target};
use std::alloc::Global;

/// The target at a place, and the place behind it.
fn target<'a>(alloc: Global, cursor: Cursor<'a>) -> Result<(Target, Cursor<'a>), ReadStop>
    requires { IsPlace cursor }
    ensures fits { Fits follow_arms TargetRule (words cursor.entry)
        (outcome (λ x. Read x.0 (words x.1)) result) }
    ensures place { IfOk result (λ x. IsPlace x.1) }
    ensures shorter { IfOk result (λ x. left x.1 < left cursor.entry) }
{
    let rest = cursor.expect_keyword(Keyword::Create)?;
    let rest = rest.expect_keyword(Keyword::Table)?;
    let (name, rest) = rest.name(alloc)?;
    let rest = rest.expect_keyword(Keyword::As)?;
    let (found, rest) = arms(alloc, rest)?;
    let arms = Sequence::of(found);
    Ok((Target { name, arms }, rest))
}

/// Refuses the target behind this many at a place.
fn expect_room(targets: usize, cursor: Cursor<'_>) -> Result<(), ReadStop>
    requires { IsPlace cursor }
    ensures room { IfOk result (λ _. fault_at (TargetMark (targets + 1)) ≡ None) }
    ensures full { IfErr result (λ e.
        Fits follow_arms (Marked (TargetMark (targets + 1)) TargetRule) (words cursor.entry)
        (stopped e)) }
{
    if targets < MOST_TARGETS {
        return Ok(());
    }
    match cursor.keyword(Keyword::Create) {
        Some(_) => Err(ReadStop::Limit(ScriptKind::TooManyTargets, cursor.tokens.len())),
        None => Err(ReadStop::Syntax(cursor.tokens.len())),
    }
}

/// The targets at a place, with semicolons between them, and the place behind them.
fn targets<'a>(alloc: Global, cursor: Cursor<'a>) -> Result<(Vec<Target>, Cursor<'a>), ReadStop>
    requires { IsPlace cursor }
    ensures fits { Fits follow_targets TargetsRule (words cursor.entry)
        (outcome (λ x. Read x.0.items (words x.1)) result) }
    ensures place { IfOk result (λ x. IsPlace x.1) }
    ensures shorter { IfOk result (λ x. left x.1 < left cursor.entry) }
{
    let (first, rest) = target(alloc, cursor)?;
    let mut found = Vec::new(alloc);
    found.push(first)?;
    let mut rest = rest;
    'targets: while let Some(behind) = rest.sign(Sign::Semicolon) {
        expect_room(found.len(), behind)?;
        let (next, behind) = target(alloc, behind)?;
        found.push(next)?;
        rest = behind;
    }
    Ok((found, rest))
}

/// The MIGRATE at a place, and the place behind it.
pub(crate) fn migrate<'a>(
    alloc: Global,
    cursor: Cursor<'a>,
) -> Result<(Migrate, Cursor<'a>), ReadStop>
    requires { IsPlace cursor }
    ensures fits { Fits nothing MigrateRule (words cursor.entry)
        (outcome (λ x. Read x.0 (words x.1)) result) }
    ensures place { IfOk result (λ x. IsPlace x.1) }
    ensures shorter { IfOk result (λ x. left x.1 < left cursor.entry) }
{
    let rest = cursor.expect_keyword(Keyword::Migrate)?;
    let rest = rest.expect_sign(Sign::OpeningParenthesis)?;
    let (found, rest) = targets(alloc, rest)?;
    let rest = rest.expect_sign(Sign::ClosingParenthesis)?;
    let targets = Sequence::of(found);
    Ok((Migrate { targets }, rest))
}
