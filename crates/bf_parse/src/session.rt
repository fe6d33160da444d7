//! Phases of sessions of statements.

ghost use Rattle.std.specs.Prelude.{◌≡◌, ◌+◌, ◌<◌, ◌≤◌, ◌^◌, None, Some, [], IfErr, IfOk, length};
ghost use Rattle.bf_lex.specs.declared.fault.ScriptKind.TheVariants.{TooManyMigrations as Migrations, TooManySessions as TooMany};
ghost use Rattle.bf_phrase.specs.declared.error.ReadStop.TheVariants.{Limit as BeyondLimit, Memory as OutOfMemory};
ghost use Rattle.bf_phrase.specs.Cursors.{IsPlace, left, words};
ghost use Rattle.bf_phrase.specs.First.{begins};
ghost use Rattle.bf_phrase.specs.Limits.{most_of_phase};
ghost use Rattle.bf_phrase.specs.Outcome.{outcome};
ghost use Rattle.bf_phrase.specs.Reading.{Fits, Read};
ghost use Rattle.bf_parse.specs.ScriptParts.{StatementRule, progress_of};
ghost use Rattle.bf_parse.specs.StatementFollow.{first_statement, follow_phases, follow_sessions, follow_ordinary};
ghost use Rattle.bf_parse.specs.Scripts.{Phases, Sessions, Statements, nothing_yet, with_phase, with_session};
ghost use Rattle.bf_phrase.specs.Steps.{Migration, Session as SessionMark, fault_at};

use crate::migrate::migrate;
use crate::statement::ordinary;
use bf_base::Sequence;
use bf_lex::{Keyword, ScriptKind, Sign, TokenKind};
use bf_phrase::{Cursor, ReadStop};
use bf_tree::{Session, Statement};
use std::alloc::Global;

/// The most sessions of a script.
const MOST_SESSIONS: usize = 64;

/// The most sessions of a phase.
const MOST_OF_PHASE: usize = 16;

/// The most MIGRATEs of a script.
const MOST_MIGRATIONS: usize = 64;

/// How far a script has come.
#[derive(Drop)]
pub(crate) struct SoFar {
    pub(crate) phases: u32,
    pub(crate) sessions: Vec<Session>,
    /// How many of the sessions are of the present phase.
    pub(crate) of_phase: usize,
    pub(crate) migrations: usize,
}

impl SoFar {
    fn new(alloc: Global) -> SoFar
        ensures { progress_of result ≡ nothing_yet }
    {
        SoFar {
            phases: 0,
            sessions: Vec::new(alloc),
            of_phase: 0,
            migrations: 0,
        }
    }

    fn with_phase(self) -> SoFar
        requires { self.phases + 1 < 2 ^ 32 }
        ensures { progress_of result ≡ with_phase (progress_of self) }
    {
        SoFar {
            phases: self.phases + 1,
            sessions: self.sessions,
            of_phase: 0,
            migrations: self.migrations,
        }
    }

    /// Whether a session may begin at a place.
    fn expect_room(&self, cursor: Cursor<'_>) -> Result<(), ReadStop>
        ensures room { IfOk result (λ _.
            fault_at (SessionMark (length self.now.sessions.items + 1) (self.now.of_phase + 1))
            ≡ None) }
        ensures few { IfOk result (λ _. self.now.of_phase < most_of_phase) }
        ensures over { IfErr result (λ _.
            fault_at (SessionMark (length self.now.sessions.items + 1) (self.now.of_phase + 1))
            ≡ Some TooMany) }
        ensures fault { IfErr result (λ e. e ≡ BeyondLimit TooMany (left cursor.entry)) }
    {
        if self.sessions.len() < MOST_SESSIONS && self.of_phase < MOST_OF_PHASE {
            Ok(())
        } else {
            Err(ReadStop::Limit(ScriptKind::TooManySessions, cursor.tokens.len()))
        }
    }

    fn with_session(self, statements: Vec<Statement>, migrations: usize) -> Result<SoFar, ReadStop>
        requires { self.of_phase < most_of_phase }
        ensures memory { IfErr result (λ e. e ≡ OutOfMemory) }
        ensures value { IfOk result (λ s.
            progress_of s ≡ with_session (progress_of self) (statements.items, migrations)) }
    {
        let mut sessions = self.sessions;
        sessions.push(Session {
            phase: self.phases,
            statements: Sequence::of(statements),
        })?;
        Ok(SoFar {
            phases: self.phases,
            sessions,
            of_phase: self.of_phase + 1,
            migrations,
        })
    }
}

/// Whether a statement begins at a place.
fn begins(cursor: Cursor<'_>) -> bool
    requires { IsPlace cursor }
    ensures { result ≡ begins first_statement (words cursor.entry) }
{
    match cursor.next() {
        None => false,
        Some((first, _)) => match first.kind {
            TokenKind::Keyword(keyword) => matches!(
                keyword,
                Keyword::Create
                    | Keyword::Insert
                    | Keyword::Select
                    | Keyword::Update
                    | Keyword::Delete
                    | Keyword::Begin
                    | Keyword::Commit
                    | Keyword::Rollback
                    | Keyword::Migrate
            ),
            _ => false,
        },
    }
}

/// One more than the count of MIGRATEs, for the one at a place.
fn counted_migration(count: usize, cursor: Cursor<'_>) -> Result<usize, ReadStop>
    ensures one_more { IfOk result (λ n. n ≡ count + 1) }
    ensures room { IfOk result (λ _. fault_at (Migration (count + 1)) ≡ None) }
    ensures over { IfErr result (λ _. fault_at (Migration (count + 1)) ≡ Some Migrations) }
    ensures fault { IfErr result (λ e. e ≡ BeyondLimit Migrations (left cursor.entry)) }
{
    if count < MOST_MIGRATIONS {
        Ok(count + 1)
    } else {
        Err(ReadStop::Limit(ScriptKind::TooManyMigrations, cursor.tokens.len()))
    }
}

/// The statement at a place, how many MIGRATEs have come with it, and the place behind it.
fn statement<'a>(
    alloc: Global,
    cursor: Cursor<'a>,
    migrations: usize,
) -> Result<(Statement, usize, Cursor<'a>), ReadStop>
    requires { IsPlace cursor }
    ensures fits { Fits follow_ordinary (StatementRule migrations) (words cursor.entry)
        (outcome (λ x. Read (x.0, x.1) (words x.2)) result) }
    ensures place { IfOk result (λ x. IsPlace x.2) }
    ensures shorter { IfOk result (λ x. left x.2 < left cursor.entry) }
{
    match cursor.keyword(Keyword::Migrate) {
        None => {
            let (statement, rest) = ordinary(alloc, cursor)?;
            Ok((statement, migrations, rest))
        }
        Some(_) => {
            let next = counted_migration(migrations, cursor)?;
            let (migration, rest) = migrate(alloc, cursor)?;
            Ok((Statement::Migrate(migration), next, rest))
        }
    }
}

/// The statements at a place, how many MIGRATEs have come with them, and the place behind them.
fn statements<'a>(
    alloc: Global,
    cursor: Cursor<'a>,
    migrations: usize,
) -> Result<(Vec<Statement>, usize, Cursor<'a>), ReadStop>
    requires { IsPlace cursor }
    ensures fits { Fits first_statement (Statements migrations []) (words cursor.entry)
        (outcome (λ x. Read (x.0.items, x.1) (words x.2)) result) }
    ensures place { IfOk result (λ x. IsPlace x.2) }
    ensures shorter { IfOk result (λ x. left x.2 ≤ left cursor.entry) }
{
    let mut found = Vec::new(alloc);
    let mut so_far = migrations;
    let mut rest = cursor;
    'statements: while begins(rest) {
        let (next, count, behind) = statement(alloc, rest, so_far)?;
        let behind = behind.expect_sign(Sign::Semicolon)?;
        found.push(next)?;
        so_far = count;
        rest = behind;
    }
    Ok((found, so_far, rest))
}

/// How far a script has come behind the sessions at a place, and the place there.
fn sessions<'a>(
    alloc: Global,
    cursor: Cursor<'a>,
    before: SoFar,
) -> Result<(SoFar, Cursor<'a>), ReadStop>
    requires { IsPlace cursor }
    ensures fits { Fits follow_sessions (Sessions (progress_of before)) (words cursor.entry)
        (outcome (λ x. Read (progress_of x.0) (words x.1)) result) }
    ensures phases { IfOk result (λ x. x.0.phases ≡ before.phases) }
    ensures place { IfOk result (λ x. IsPlace x.1) }
    ensures shorter { IfOk result (λ x. left x.1 ≤ left cursor.entry) }
{
    let mut so_far = before;
    let mut rest = cursor;
    'sessions: while let Some(behind) = rest.keyword(Keyword::Session) {
        so_far.expect_room(rest)?;
        let behind = behind.expect_sign(Sign::Semicolon)?;
        let (found, migrations, behind) = statements(alloc, behind, so_far.migrations)?;
        so_far = so_far.with_session(found, migrations)?;
        rest = behind;
    }
    Ok((so_far, rest))
}

/// How far a script has come behind the phases at a place, and the place there.
pub(crate) fn phases<'a>(alloc: Global, cursor: Cursor<'a>) -> Result<(SoFar, Cursor<'a>), ReadStop>
    requires place { IsPlace cursor }
    requires few { left cursor < 2 ^ 32 }
    ensures fits { Fits follow_phases (Phases nothing_yet) (words cursor.entry)
        (outcome (λ x. Read (progress_of x.0) (words x.1)) result) }
    ensures place { IfOk result (λ x. IsPlace x.1) }
{
    let mut so_far = SoFar::new(alloc);
    let mut rest = cursor;
    'phases: while let Some(behind) = rest.keyword(Keyword::Phase) {
        let behind = behind.expect_sign(Sign::Semicolon)?;
        let (progress, behind) = sessions(alloc, behind, so_far.with_phase())?;
        so_far = progress;
        rest = behind;
    }
    Ok((so_far, rest))
}
