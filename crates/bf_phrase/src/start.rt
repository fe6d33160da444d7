//! What stands at the front of an operand.

ghost use Rattle.std.specs.Prelude.{◌≡◌, ◌<◌, ◌≤◌, ◌∷◌};
ghost use Rattle.bf_phrase.specs.Expressions.{begins_with_number};
ghost use Rattle.bf_phrase.specs.Words.{Minus, begins_with_number as tokens_begin_with_number};
ghost use Rattle.bf_phrase.specs.Cursors.{IsPlace, left, words};
ghost use Rattle.bf_phrase.specs.Starts.{BehindFront, BehindStart, IsFront, IsStart};

use crate::cursor::{Cursor, bytes_of};
use bf_lex::{Sign, Token, TokenKind};

/// Which kind of operand begins.
#[derive(Clone, Copy)]
pub(crate) enum Start<'a> {
    /// A number, a number behind a minus, or a text.
    Literal,
    /// A minus with no number behind it, and the place behind the minus.
    Opposite(Cursor<'a>),
    /// An opening parenthesis, and the place behind it.
    Parenthesis(Cursor<'a>),
    /// A name, or what no operand begins with.
    Other,
}

/// The literal that stands first, and the place behind it.
#[derive(Clone, Copy)]
pub(crate) enum Front<'a> {
    Number(u64, Cursor<'a>),
    /// The number behind a minus.
    Negative(u64, Cursor<'a>),
    /// A minus with no number behind it, and the place behind the minus.
    Minus(Cursor<'a>),
    /// The bytes of a text, with its quotes.
    Text(&'a [u8], Cursor<'a>),
    Other,
}

impl<'a> Cursor<'a> {
    /// Which kind of operand begins here.
    pub(crate) fn start(self) -> Start<'a>
        requires { IsPlace self }
        ensures start { IsStart (words self.entry) result }
        ensures place { BehindStart IsPlace result }
        ensures shorter { BehindStart (λ rest. left rest < left self.entry) result }
    {
        match self.next() {
            None => Start::Other,
            Some((first, behind)) => match first.kind {
                TokenKind::Number(_) => Start::Literal,
                TokenKind::Text => Start::Literal,
                TokenKind::Sign(Sign::OpeningParenthesis) => Start::Parenthesis(behind),
                TokenKind::Sign(Sign::Minus) => {
                    if begins_with_number(behind.tokens) {
                        Start::Literal
                    } else {
                        Start::Opposite(behind)
                    }
                }
                _ => Start::Other,
            },
        }
    }

    /// The literal that stands first, or a minus alone.
    pub(crate) fn front(self) -> Front<'a>
        requires { IsPlace self }
        ensures front { IsFront (words self.entry) result }
        ensures place { BehindFront IsPlace result }
        ensures shorter { BehindFront (λ rest. left rest < left self.entry) result }
    {
        match self.next() {
            None => Front::Other,
            Some((first, behind)) => match first.kind {
                TokenKind::Number(number) => Front::Number(number, behind),
                TokenKind::Text => Front::Text(bytes_of(self.text, first), behind),
                TokenKind::Sign(Sign::Minus) => negative(behind),
                _ => Front::Other,
            },
        }
    }
}

// The literal whose minus stands before a place.
fn negative(behind: Cursor<'_>) -> Front<'_>
    requires { IsPlace behind }
    ensures front { IsFront (Minus (begins_with_number (words behind.entry)) ∷ words behind.entry)
        result }
    ensures place { BehindFront IsPlace result }
    ensures shorter { BehindFront (λ rest. left rest ≤ left behind.entry) result }
{
    match behind.next() {
        None => Front::Minus(behind),
        Some((second, rest)) => match second.kind {
            TokenKind::Number(number) => Front::Negative(number, rest),
            _ => Front::Minus(behind),
        },
    }
}

fn begins_with_number(tokens: &[Token]) -> bool
    ensures { result ≡ tokens_begin_with_number tokens.now }
{
    match tokens {
        [] => false,
        [first, ..] => matches!(first.kind, TokenKind::Number(_)),
    }
}
