//! Statements behind a flip, as texts, and the first of which something else is told than it wants.

ghost use Rattle.std.specs.Prelude.{IfOk, IfSome};
ghost use Rattle.bf_live.specs.Replies.{IsWellBound};
ghost use Rattle.bf_image.specs.Migrations.{IsLawfulMigration};

use crate::databases::{Told, bound, migration};
use crate::told::{Part, part_told, put};
use bf_base::Memory;
use bf_image::Migration;
use bf_parse::script;
use bf_tree::{Bound, Script, Statement};
use std::alloc::Global;
use std::process::Abort;
use std::test::Fail;

/// Statements that fill a database, and the MIGRATE behind them.
pub type Setting = (&'static str, &'static str);

/// A statement behind the flip, with those that run before it, and the granules that it needs.
pub type Case = (&'static str, &'static str);

/// A script of three sessions: before a flip, the MIGRATE, and behind.
fn text(alloc: Global, setting: Setting, behind: &str) -> Result<Vec<u8>, Memory> {
    let mut text = Vec::new(alloc);
    put(&mut text, "PHASE; SESSION; ")?;
    put(&mut text, setting.0)?;
    put(&mut text, " SESSION; ")?;
    put(&mut text, setting.1)?;
    put(&mut text, "; SESSION; ")?;
    put(&mut text, behind)?;
    put(&mut text, ";")?;
    Ok(text)
}

/// What a statement needs of the migration that the MIGRATE before it begins, as a text.
fn told_with(
    alloc: Global,
    part: Part,
    begun: Option<Migration>,
    bound: Option<Bound>,
) -> Result<Option<Vec<u8>>, Memory>
    requires lawful { IfSome begun (λ migration. IsLawfulMigration migration) }
    requires bound { IfSome bound (λ bound. IsWellBound bound.action) }
{
    match (begun, bound) {
        (Some(migration), Some(bound)) => Ok(Some(part_told(alloc, part, &migration, &bound)?)),
        _ => Ok(None),
    }
}

/// What the last statement of some sessions needs, if they are such sessions.
fn told_in(alloc: Global, part: Part, told: Told<'_>) -> Result<Option<Vec<u8>>, Memory> {
    let ([Statement::Migrate(migrate)], [behind @ .., last]) = (told.flip, told.behind) else {
        return Ok(None);
    };
    let begun = migration(alloc, told.before, migrate)?;
    let bound = bound(alloc, Told { behind, ..told }, last)?;
    told_with(alloc, part, begun, bound)
}

/// The statements of a script of three sessions.
fn statements(script: &Script) -> Option<Told<'_>> {
    match script.sessions.as_slice() {
        [before, flip, behind] => Some(Told {
            before: before.statements.as_slice(),
            flip: flip.statements.as_slice(),
            behind: behind.statements.as_slice(),
        }),
        _ => None,
    }
}

fn told(alloc: Global, part: Part, setting: Setting, behind: &str) -> Result<Vec<u8>, Fail> {
    let text = text(alloc, setting, behind)?;
    let script = script(alloc, text.as_slice())?;
    let told = statements(&script).ok_or("not three sessions")?;
    Ok(told_in(alloc, part, told)?.ok_or("no migration")?)
}

/// What is told in place of what a case wants.
fn other(alloc: Global, behind: &str, told: &[u8]) -> Result<String, Fail> {
    let mut text = Vec::new(alloc);
    put(&mut text, behind)?;
    put(&mut text, ": ")?;
    text.extend_from_slice(told)?;
    Ok(String::from_utf8_lossy(alloc, text.as_slice())?)
}

fn first_other(
    alloc: Global,
    part: Part,
    setting: Setting,
    cases: &[Case],
) -> Result<Option<String>, Fail> {
    for (behind, want) in cases {
        let told = told(alloc, part, setting, behind)?;
        if told.as_slice() != want.as_bytes() {
            return Ok(Some(other(alloc, behind, told.as_slice())?));
        }
    }
    Ok(None)
}

/// Fails where something else is told of a part of a cover than a case wants.
pub fn expect_told(
    rt: &impl Abort,
    alloc: Global,
    part: Part,
    setting: Setting,
    cases: &[Case],
) -> Result<(), Fail> {
    assert_eq!(rt; first_other(alloc, part, setting, cases)?, None);
    Ok(())
}

/// Fails where a case needs other granules than it wants.
pub fn expect_covers(
    rt: &impl Abort,
    alloc: Global,
    setting: Setting,
    cases: &[Case],
) -> Result<(), Fail> {
    expect_told(rt, alloc, Part::Granules, setting, cases)
}
