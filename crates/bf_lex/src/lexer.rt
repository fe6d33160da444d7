//! From bytes to tokens.

ghost use Rattle.std.specs.Prelude.{◌≡◌, ◌+◌, ◌≤◌, ◌^◌, ℕ, List, Ok, Err, length, IfOk, Result};
ghost use Rattle.bf_base.specs.Texts.{IsText};
ghost use Rattle.bf_base.specs.Limits.{longest_script};
ghost use Rattle.bf_lex.specs.declared.fault.ScriptFault.{ScriptFault as FaultValue};
ghost use Rattle.bf_lex.specs.declared.token.Token.{Token as TokenValue};
ghost use Rattle.bf_lex.specs.Lexemes.{quoted};
ghost use Rattle.bf_lex.specs.Lexing.{IsLexed};
ghost use Rattle.bf_lex.specs.Reading.{IsNextRead};

use crate::fault::{ScriptError, ScriptFault};
use crate::gap::behind_gap;
use crate::lexeme::token_at;
use crate::token::Token;
use bf_base::{LONGEST_TEXT, Memory, Text, TextError};
use std::alloc::Global;

/// The tokens of a text of at most 16,777,216 bytes, in time linear in its bytes.
///
/// # Errors
/// The first fault from the left.
pub fn tokens(alloc: Global, text: &[u8]) -> Result<Vec<Token>, ScriptError>
    requires { length text.now ≤ longest_script }
    ensures ok { IfOk result (λ tokens. IsLexed text.now (Ok tokens.items)) }
    ensures fault { (fault : FaultValue) → result ≡ Err (ScriptError.Fault fault)
        → IsLexed text.now (Err fault) }
{
    let mut found = Vec::new(alloc);
    let mut rest = text;
    let mut place = 0;
    while let Some((token, behind)) = next_token(rest, place)? {
        found.push(token)?;
        rest = behind;
        place = token.end;
    }
    Ok(found)
}

// The token behind the gap at the front of the bytes at a place, and the bytes behind it; `None`
// where only a last gap is left.
fn next_token(bytes: &[u8], place: u32) -> Result<Option<(Token, &[u8])>, ScriptFault>
    requires { place + length bytes.now ≤ longest_script }
    ensures { IsNextRead place bytes.now (λ found. (found.0, found.1.now)) result }
{
    let Some(front) = behind_gap(bytes) else {
        return Ok(None);
    };
    let at = place + (bytes.len() - front.len()) as u32;
    match token_at(front) {
        Ok((kind, length)) => {
            let end = at + length as u32;
            Ok(Some((Token { kind, at, end }, &front[length..])))
        }
        Err((kind, offset)) => Err(ScriptFault {
            at: at + offset as u32,
            kind,
        }),
    }
}

/// The content of a text token, whose bytes these are: what stands between the quotes, each doubled
/// quote counted once.
pub fn content(alloc: Global, bytes: &[u8]) -> Result<Text, Memory>
    requires { (inner : List ℕ) × IsText inner × (bytes.now ≡ quoted inner) }
    ensures { IfOk result (λ text. bytes.now ≡ quoted text) }
{
    let mut inner = [0; LONGEST_TEXT];
    let mut length = 0;
    let mut rest = &bytes[1..bytes.len() - 1];
    while let [byte, behind @ ..] = rest {
        inner[length] = *byte;
        length += 1;
        if *byte == b'\'' {
            rest = &rest[2..];
        } else {
            rest = behind;
        }
    }
    match Text::of(alloc, &inner[..length]) {
        Ok(text) => Ok(text),
        Err(TextError::Memory) => Err(Memory),
        Err(TextError::TooLong(_)) => unreachable!(),
        Err(TextError::BadByte(_)) => unreachable!(),
    }
}

/// A law: a text has one list of tokens, or one first fault.
pub fn one_lexing()
    ensures { (text : List ℕ) (one other : Result (List TokenValue) FaultValue) → IsLexed text one
        → IsLexed text other → one ≡ other }
{}
