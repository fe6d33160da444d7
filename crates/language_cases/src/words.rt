//! Keywords and signs, and the bytes of names and texts.

use crate::bytes::tell_bytes;
use bf_base::{Name, Text};
use bf_lex::{Keyword, Sign};
use std::alloc::Global;

/// Adds the keyword that a line is, by its number or its word, its number and its word.
pub fn tell_keyword(line: &str, told: &mut String) -> anyhow::Result<()> {
    let found = match line.parse::<u8>() {
        Ok(number) => Keyword::of_number(number),
        Err(_) => Keyword::of_word(line.as_bytes()),
    };
    let Some(keyword) = found else {
        told.push_str("none")?;
        return Ok(());
    };
    let number = keyword.number();
    let word = Keyword::cases().by_number(number).unwrap_or("no word");
    write!(told, "{keyword:?} {number} {word}")?;
    Ok(())
}

/// Adds the sign of a line's number, its number and its word.
pub fn tell_sign(line: &str, told: &mut String) -> anyhow::Result<()> {
    let Some(sign) = Sign::of_number(line.parse::<u8>()?) else {
        told.push_str("none")?;
        return Ok(());
    };
    let number = sign.number();
    let word = Sign::cases().by_number(number).unwrap_or("no word");
    write!(told, "{sign:?} {number} {word}")?;
    Ok(())
}

/// Adds the name that bytes spell, or why there is none.
pub fn tell_name(alloc: Global, bytes: &[u8], told: &mut String) -> anyhow::Result<()> {
    match Name::of(alloc, bytes) {
        Ok(name) => tell_bytes(name.as_bytes(), told),
        Err(error) => Ok(write!(told, "{error:?}")?),
    }
}

/// Adds the text that bytes are, between quotes, or why there is none.
pub fn tell_text(alloc: Global, bytes: &[u8], told: &mut String) -> anyhow::Result<()> {
    match Text::of(alloc, bytes) {
        Ok(text) => {
            told.push('\'')?;
            tell_bytes(text.as_bytes(), told)?;
            told.push('\'')?;
            Ok(())
        }
        Err(error) => Ok(write!(told, "{error:?}")?),
    }
}
