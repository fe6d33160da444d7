//! The keyword at a place, and whether the parts of lists begin there.

ghost use Rattle.std.specs.Prelude.{◌≡◌, ◌<◌, IfSome};
ghost use Rattle.bf_phrase.specs.Cursors.{IsPlace, left, words};
ghost use Rattle.bf_phrase.specs.First.{begins, is_name, IsFirstKeyword, first_aggregate, first_constant, first_expression};

use crate::cursor::Cursor;
use bf_lex::{Keyword, Sign, TokenKind};

impl<'a> Cursor<'a> {
    /// The keyword that stands first, and the place behind it.
    pub fn first_keyword(self) -> Option<(Keyword, Cursor<'a>)>
        requires { IsPlace self }
        ensures found { IsFirstKeyword (words self.entry) result }
        ensures place { IfSome result (λ x. IsPlace x.1) }
        ensures shorter { IfSome result (λ x. left x.1 < left self.entry) }
    {
        match self.next() {
            None => None,
            Some((first, behind)) => match first.kind {
                TokenKind::Keyword(keyword) => Some((keyword, behind)),
                _ => None,
            },
        }
    }

    /// Whether a name stands first.
    pub fn begins_name(self) -> bool
        requires { IsPlace self }
        ensures { result ≡ begins is_name (words self.entry) }
    {
        match self.next() {
            None => false,
            Some((first, _)) => match first.kind {
                TokenKind::Name => true,
                _ => false,
            },
        }
    }

    /// Whether a literal begins here, or a minus stands where one is due.
    pub(crate) fn begins_constant(self) -> bool
        requires { IsPlace self }
        ensures { result ≡ begins first_constant (words self.entry) }
    {
        match self.next() {
            None => false,
            Some((first, _)) => match first.kind {
                TokenKind::Number(_) => true,
                TokenKind::Text => true,
                TokenKind::Sign(Sign::Minus) => true,
                _ => false,
            },
        }
    }

    /// Whether an expression begins here.
    pub(crate) fn begins_expression(self) -> bool
        requires { IsPlace self }
        ensures { result ≡ begins first_expression (words self.entry) }
    {
        match self.next() {
            None => false,
            Some((first, _)) => match first.kind {
                TokenKind::Name => true,
                TokenKind::Number(_) => true,
                TokenKind::Text => true,
                TokenKind::Sign(Sign::Minus) => true,
                TokenKind::Sign(Sign::OpeningParenthesis) => true,
                _ => false,
            },
        }
    }

    /// Whether an aggregate begins here.
    pub fn begins_aggregate(self) -> bool
        requires { IsPlace self }
        ensures { result ≡ begins first_aggregate (words self.entry) }
    {
        match self.first_keyword() {
            None => false,
            Some((keyword, _)) => match keyword {
                Keyword::Count => true,
                Keyword::Sum => true,
                Keyword::Min => true,
                Keyword::Max => true,
                _ => false,
            },
        }
    }
}
