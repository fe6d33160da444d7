//! The token at the front of a text.

ghost use Rattle.std.specs.Prelude.{◌≡◌, ◌<◌, ◌≤◌, IsTrue, MatchOption, length, false};
ghost use Rattle.std.specs.List.{prefix_len};
ghost use Rattle.bf_base.specs.Names.{is_digit};
ghost use Rattle.bf_lex.specs.Bytes.{is_letter, is_word_byte, is_quote, begins};
ghost use Rattle.bf_lex.specs.Reading.{begins_gap, IsRead, IsClosed, IsOpen, long_sign, number_within, short_sign, sign_front};

use crate::fault::ScriptKind;
use crate::keyword::Keyword;
use crate::sign::Sign;
use crate::token::TokenKind;
use bf_base::{LONGEST_NAME, LONGEST_TEXT, first_bad};

const LARGEST_NUMBER: u64 = 1 << 63;

fn is_letter(byte: u8) -> bool
    ensures { result ≡ is_letter byte }
{
    (byte >= b'A' && byte <= b'Z') || (byte >= b'a' && byte <= b'z')
}

fn is_digit(byte: u8) -> bool
    ensures { result ≡ is_digit byte }
{
    byte >= b'0' && byte <= b'9'
}

fn is_word_byte(byte: u8) -> bool
    ensures { result ≡ is_word_byte byte }
{
    is_letter(byte) || is_digit(byte) || byte == b'_'
}

fn word_bytes(text: &[u8]) -> usize
    ensures value { result ≡ prefix_len is_word_byte text.now }
    ensures inside { result ≤ length text.now }
{
    text.iter().take_while(|byte| is_word_byte(**byte)).count()
}

fn digit_bytes(text: &[u8]) -> usize
    ensures value { result ≡ prefix_len is_digit text.now }
    ensures inside { result ≤ length text.now }
{
    text.iter().take_while(|byte| is_digit(**byte)).count()
}

/// The token at the front of a text, and how many bytes it has.
///
/// # Errors
/// What is wrong at the front, and how far from there.
pub fn token_at(text: &[u8]) -> Result<(TokenKind, usize), (ScriptKind, usize)>
    requires some { 0 < length text.now }
    requires behind_gap { begins_gap text.now ≡ false }
    ensures { IsRead text.now result }
{
    match text[0] {
        first if is_letter(first) => word(text),
        first if is_digit(first) => number(text),
        b'\'' => quoted(text),
        _ => sign(text),
    }
}

fn word(text: &[u8]) -> Result<(TokenKind, usize), (ScriptKind, usize)>
    requires { IsTrue (begins is_letter text.now) }
    ensures { IsRead text.now result }
{
    let (word, _) = text.split_at(word_bytes(text));
    match Keyword::of_word(word) {
        Some(keyword) => Ok((TokenKind::Keyword(keyword), word.len())),
        None if word.len() <= LONGEST_NAME => Ok((TokenKind::Name, word.len())),
        None => Err((ScriptKind::NameTooLong, 0)),
    }
}

fn number(text: &[u8]) -> Result<(TokenKind, usize), (ScriptKind, usize)>
    requires { IsTrue (begins is_digit text.now) }
    ensures { IsRead text.now result }
{
    let (digits, _) = text.split_at(digit_bytes(text));
    match value(digits) {
        Some(value) => Ok((TokenKind::Number(value), digits.len())),
        None => Err((ScriptKind::NumberTooWide, 0)),
    }
}

// The number that digits write, if it is at most 2 ^ 63.
fn value(digits: &[u8]) -> Option<u64>
    ensures { result ≡ number_within digits.now }
{
    let mut value = 0u64;
    for digit in digits {
        value = value
            .checked_mul(10)?
            .checked_add(u64::from(digit.saturating_sub(b'0')))?;
    }
    if value <= LARGEST_NUMBER {
        Some(value)
    } else {
        None
    }
}

fn quoted(text: &[u8]) -> Result<(TokenKind, usize), (ScriptKind, usize)>
    requires { IsTrue (begins is_quote text.now) }
    ensures { IsRead text.now result }
{
    let Some((length, content_length)) = closing(&text[1..]) else {
        return Err((ScriptKind::OpenString, 0));
    };
    let (bytes, _) = text.split_at(length + 1);
    if content_length > LONGEST_TEXT {
        return Err((ScriptKind::TextTooLong, 0));
    }
    match first_bad(bytes) {
        Some(bad) => Err((ScriptKind::BadByte, bad)),
        None => Ok((TokenKind::Text, bytes.len())),
    }
}

fn begins_quote(text: &[u8]) -> bool
    ensures { result ≡ begins is_quote text.now }
{
    matches!(text, [b'\'', ..])
}

// How many bytes stand behind an opening quote up to the closing one, which is counted too, and
// how many bytes they mean; `None` where no quote closes.
fn closing(text: &[u8]) -> Option<(usize, usize)>
    ensures { MatchOption result (IsOpen text.now) (λ found. IsClosed text.now found.0 found.1) }
{
    let mut rest = text;
    let mut count = 0;
    while let [first, behind @ ..] = rest {
        if *first != b'\'' {
            rest = behind;
            count += 1;
        } else if begins_quote(behind) {
            rest = &rest[2..];
            count += 1;
        } else {
            return Some((text.len() - behind.len(), count));
        }
    }
    None
}

fn sign(text: &[u8]) -> Result<(TokenKind, usize), (ScriptKind, usize)>
    requires some { 0 < length text.now }
    requires no_gap { begins_gap text.now ≡ false }
    requires no_word { begins is_letter text.now ≡ false }
    requires no_number { begins is_digit text.now ≡ false }
    requires no_quote { begins is_quote text.now ≡ false }
    ensures { IsRead text.now result }
{
    match sign_at(text) {
        Some((sign, length)) => Ok((TokenKind::Sign(sign), length)),
        None => Err((ScriptKind::BadByte, 0)),
    }
}

// The sign at the front of a text, and its length.
fn sign_at(text: &[u8]) -> Option<(Sign, usize)>
    ensures { result ≡ sign_front text.now }
{
    match text {
        [] => None,
        [only] => Some((short_sign(*only)?, 1)),
        [first, second, ..] => match long_sign(*first, *second) {
            Some(sign) => Some((sign, 2)),
            None => Some((short_sign(*first)?, 1)),
        },
    }
}

fn long_sign(first: u8, second: u8) -> Option<Sign>
    ensures { result ≡ long_sign first second }
{
    match (first, second) {
        (b'<', b'>') | (b'!', b'=') => Some(Sign::Unequal),
        (b'<', b'=') => Some(Sign::LessEqual),
        (b'>', b'=') => Some(Sign::GreaterEqual),
        (b'|', b'|') => Some(Sign::Bars),
        _ => None,
    }
}

fn short_sign(byte: u8) -> Option<Sign>
    ensures { result ≡ short_sign byte }
{
    match byte {
        b'(' => Some(Sign::OpeningParenthesis),
        b')' => Some(Sign::ClosingParenthesis),
        b',' => Some(Sign::Comma),
        b';' => Some(Sign::Semicolon),
        b'.' => Some(Sign::Point),
        b'*' => Some(Sign::Star),
        b'+' => Some(Sign::Plus),
        b'-' => Some(Sign::Minus),
        b'=' => Some(Sign::Equal),
        b'<' => Some(Sign::Less),
        b'>' => Some(Sign::Greater),
        _ => None,
    }
}
