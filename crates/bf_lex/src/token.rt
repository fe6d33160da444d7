//! Tokens.

use crate::keyword::Keyword;
use crate::sign::Sign;

/// What a token is. Names and texts are read again from its bytes where they are needed.
#[derive(Clone, Copy, Debug, PartialEq, Eq)]
pub enum TokenKind {
    Keyword(Keyword),
    /// A word of at most 63 bytes that is no keyword.
    Name,
    /// A number of at most 2 ^ 63.
    Number(u64),
    /// At most 255 printable bytes between quotes, where a quote is doubled.
    Text,
    Sign(Sign),
}

/// A token, and its bytes in the text: from `at` to before `end`, counted from 0.
#[derive(Clone, Copy, Debug, PartialEq, Eq)]
pub struct Token {
    pub kind: TokenKind,
    pub at: u32,
    pub end: u32,
}
