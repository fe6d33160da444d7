//! Keywords that stand where names could.

use bf_base::Memory;
use bf_lex::{ScriptError, Token, TokenKind};
use bf_parse::script;
use std::alloc::Global;

/// The keyword of a text that is no script which stands in a name's place: at the first fault, or right before it. With a
/// name in its place a script could go on past the token behind it.
///
/// The text's tokens are those before the fault and those from it on. In time and memory linear in the text.
///
/// # Errors
/// Want of memory.
pub fn keyword_for_name(
    alloc: Global,
    text: &[u8],
    before: &[Token],
    from: &[Token],
) -> Result<Option<Token>, Memory> {
    let [token, rest @ ..] = from else {
        return Ok(None);
    };
    if stands_for_name(alloc, text, token, rest.first())? {
        return Ok(Some(*token));
    }
    let Some(earlier) = before.last() else {
        return Ok(None);
    };
    if stands_for_name(alloc, text, earlier, Some(token))? {
        return Ok(Some(*earlier));
    }
    Ok(None)
}

/// Whether a token is a keyword, and a script could go on past the next token with a name in its place.
fn stands_for_name(
    alloc: Global,
    text: &[u8],
    token: &Token,
    next: Option<&Token>,
) -> Result<bool, Memory> {
    let TokenKind::Keyword(_) = token.kind else {
        return Ok(false);
    };
    let (front, last) = match next {
        Some(next) => (text.get(..next.end as usize).unwrap_or(text), next.at),
        None => (text, token.at),
    };
    let named = with_name(alloc, front, token)?;
    match script(alloc, named.as_slice()) {
        Ok(_) => Ok(true),
        Err(ScriptError::Fault(fault)) => Ok(fault.at > last),
        Err(ScriptError::Memory) => Err(Memory),
    }
}

/// A copy of a text with a name in the place of a word, as long as the word.
fn with_name(alloc: Global, text: &[u8], word: &Token) -> Result<Vec<u8>, Memory> {
    let mut named = Vec::from_slice(alloc, text)?;
    if let Some(bytes) = named
        .as_mut_slice()
        .get_mut(word.at as usize..word.end as usize)
    {
        bytes.fill(b'x');
    }
    Ok(named)
}
