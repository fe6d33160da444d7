//! From the bytes of a script to its tree.

ghost use Rattle.std.specs.Prelude.{◌≡◌, ◌<◌, ◌≤◌, ◌^◌, ◌⊎◌, [], Err, IfOk, Ok, length};
ghost use Rattle.bf_base.specs.Limits.{longest_script};
ghost use Rattle.bf_lex.specs.declared.fault.ScriptFault.{ScriptFault as FaultValue};
ghost use Rattle.bf_phrase.specs.Cursors.{IsPlace, left, words};
ghost use Rattle.bf_parse.specs.Faults.{Answers};
ghost use Rattle.bf_phrase.specs.Outcome.{outcome};
ghost use Rattle.bf_phrase.specs.Reading.{Read};
ghost use Rattle.bf_parse.specs.Scripts.{IsScriptText, ScriptRule, place_of};

use crate::session::phases;
use bf_base::{LONGEST_SCRIPT, Sequence};
use bf_lex::{ScriptError, ScriptFault, ScriptKind, Token, tokens};
use bf_phrase::{Cursor, ReadStop};
use bf_tree::Script;
use std::alloc::Global;

/// The script that a text is, in time linear in its bytes.
///
/// # Errors
/// The first fault from the left. The text's length comes before all others, and faults of tokens
/// before those of the grammar.
pub fn script(alloc: Global, text: &[u8]) -> Result<Script, ScriptError>
    ensures read { IfOk result (λ script. IsScriptText text.now (Ok script)) }
    ensures fault { (fault : FaultValue) → result ≡ Err (ScriptError.Fault fault)
        → IsScriptText text.now (Err fault) }
{
    if text.len() > LONGEST_SCRIPT as usize {
        return Err(ScriptError::Fault(ScriptFault {
            at: LONGEST_SCRIPT,
            kind: ScriptKind::ScriptTooLong,
        }));
    }
    let found = tokens(alloc, text)?;
    let tokens = found.as_slice();
    match whole(alloc, Cursor::new(text, tokens)) {
        Ok(script) => Ok(script),
        Err(ReadStop::Syntax(left)) => Err(ScriptError::Fault(ScriptFault {
            at: place(text, tokens, left),
            kind: ScriptKind::Syntax,
        })),
        Err(ReadStop::Limit(kind, left)) => Err(ScriptError::Fault(ScriptFault {
            at: place(text, tokens, left),
            kind,
        })),
        Err(ReadStop::Memory) => Err(ScriptError::Memory),
    }
}

/// The script that all tokens are.
fn whole(alloc: Global, cursor: Cursor<'_>) -> Result<Script, ReadStop>
    requires place { IsPlace cursor }
    requires few { left cursor < 2 ^ 32 }
    ensures { Answers ScriptRule (words cursor.entry) (outcome (λ script. Read script []) result) }
{
    let (progress, rest) = phases(alloc, cursor)?;
    match rest.next() {
        None => Ok(Script {
            phases: progress.phases,
            sessions: Sequence::of(progress.sessions),
        }),
        Some(_) => Err(ReadStop::Syntax(rest.tokens.len())),
    }
}

/// The byte at which so many tokens are left.
fn place(text: &[u8], tokens: &[Token], left: usize) -> u32
    requires { length text.now ≤ longest_script }
    ensures { result ≡ place_of text.now tokens.now left }
{
    match &tokens[tokens.len().saturating_sub(left)..] {
        [] => text.len() as u32,
        [first, ..] => first.at,
    }
}
