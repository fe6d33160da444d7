//! Lists of parts with commas between, each of at most 16 parts.

ghost use Rattle.std.specs.Prelude.{◌≡◌, ◌<◌, ◌≤◌, Bool, List, IfErr, IfOk, if◌then◌else◌};
ghost use Rattle.bf_lex.specs.declared.fault.ScriptKind.TheVariants.{TooManyColumns as TooManyColumnsKind};
ghost use Rattle.bf_phrase.specs.declared.error.ReadStop.TheVariants.{Limit as BeyondLimit, Syntax as NoSyntax};
ghost use Rattle.bf_phrase.specs.Cursors.{IsPlace, left, words};
ghost use Rattle.bf_phrase.specs.First.{begins};
ghost use Rattle.bf_phrase.specs.Follow.{nothing, follow_list};
ghost use Rattle.bf_phrase.specs.Parts.{IsPart};
ghost use Rattle.bf_phrase.specs.Limits.{most_parts};
ghost use Rattle.bf_phrase.specs.Outcome.{outcome};
ghost use Rattle.bf_phrase.specs.Reading.{Fits, Read};
ghost use Rattle.bf_phrase.specs.Rules.{Listed, Return};
ghost use Rattle.bf_phrase.specs.Phrases.{Enclosed};
ghost use Rattle.bf_phrase.specs.Steps.{Step};
ghost use Rattle.bf_phrase.specs.Words.{Word};

use crate::cursor::Cursor;
use crate::error::ReadStop;
use bf_lex::{ScriptKind, Sign};
use std::alloc::Global;

/// The most parts of a list.
const MOST_PARTS: usize = 16;

/// What lists are made of.
pub trait Part: Drop {
    ghost rule: { List Step → Self → Type 0 };

    ghost follow: { Word → Bool };

    ghost first: { Word → Bool };

    /// Whether a part begins at a place.
    fn begins_at(cursor: Cursor<'_>) -> bool
        requires { IsPlace cursor }
        ensures { result ≡ begins first (words cursor.entry) };

    /// The part at a place, and the place behind it.
    fn read<'a>(alloc: Global, cursor: Cursor<'a>) -> Result<(Self, Cursor<'a>), ReadStop>
        requires { IsPlace cursor }
        ensures fits { Fits follow rule (words cursor.entry)
            (outcome (λ x. Read x.0 (words x.1)) result) }
        ensures place { IfOk result (λ x. IsPlace x.1) }
        ensures shorter { IfOk result (λ x. left x.1 < left cursor.entry) };
}

/// Refuses the part behind this many, where a part begins or not, at a place.
pub fn room(parts: usize, begins: bool, cursor: Cursor<'_>) -> Result<(), ReadStop>
    ensures room { IfOk result (λ done. parts < most_parts) }
    ensures full { IfErr result (λ e. most_parts ≤ parts) }
    ensures fault { IfErr result (λ e.
        e ≡ (if begins then BeyondLimit TooManyColumnsKind (left cursor.entry) else NoSyntax
        (left cursor.entry))) }
{
    if parts < MOST_PARTS {
        Ok(())
    } else if begins {
        Err(ReadStop::Limit(ScriptKind::TooManyColumns, cursor.tokens.len()))
    } else {
        Err(ReadStop::Syntax(cursor.tokens.len()))
    }
}

/// The list at a place, and the place behind it.
pub fn list<'a, P: Part>(
    alloc: Global,
    cursor: Cursor<'a>,
) -> Result<(Vec<P>, Cursor<'a>), ReadStop>
    requires part { IsPart P.follow P.first P.rule }
    requires place { IsPlace cursor }
    ensures fits { Fits (follow_list P.follow) (Listed P.rule) (words cursor.entry)
        (outcome (λ x. Read x.0.items (words x.1)) result) }
    ensures place { IfOk result (λ x. IsPlace x.1) }
    ensures shorter { IfOk result (λ x. left x.1 < left cursor.entry) }
{
    let (first, rest) = P::read(alloc, cursor)?;
    let mut parts = Vec::new(alloc);
    parts.push(first)?;
    let mut rest = rest;
    while let Some(behind) = rest.sign(Sign::Comma) {
        room(parts.len(), P::begins_at(behind), behind)?;
        let (part, behind) = P::read(alloc, behind)?;
        parts.push(part)?;
        rest = behind;
    }
    Ok((parts, rest))
}

/// The list between parentheses at a place, and the place behind it.
pub fn enclosed_list<'a, P: Part>(
    alloc: Global,
    cursor: Cursor<'a>,
) -> Result<(Vec<P>, Cursor<'a>), ReadStop>
    requires part { IsPart P.follow P.first P.rule }
    requires place { IsPlace cursor }
    ensures fits { Fits nothing (Enclosed (Listed P.rule) (λ parts. Return parts))
        (words cursor.entry) (outcome (λ x. Read x.0.items (words x.1)) result) }
    ensures place { IfOk result (λ x. IsPlace x.1) }
    ensures shorter { IfOk result (λ x. left x.1 < left cursor.entry) }
{
    let rest = cursor.expect_sign(Sign::OpeningParenthesis)?;
    let (parts, rest) = list(alloc, rest)?;
    let rest = rest.expect_sign(Sign::ClosingParenthesis)?;
    Ok((parts, rest))
}
