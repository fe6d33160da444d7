//! The signs of comparisons.

ghost use Rattle.std.specs.Prelude.{◌<◌, IfSome};
ghost use Rattle.bf_phrase.specs.Comparisons.{IsComparison};
ghost use Rattle.bf_phrase.specs.Cursors.{IsPlace, left, words};

use crate::cursor::Cursor;
use bf_lex::{Sign, TokenKind};
use bf_tree::Compare;

/// The comparison whose sign stands first, and the place behind it.
pub(crate) fn next_comparison(cursor: Cursor<'_>) -> Option<(Compare, Cursor<'_>)>
    requires { IsPlace cursor }
    ensures found { IsComparison (words cursor.entry) result }
    ensures place { IfSome result (λ x. IsPlace x.1) }
    ensures shorter { IfSome result (λ x. left x.1 < left cursor.entry) }
{
    match cursor.next() {
        None => None,
        Some((first, behind)) => match first.kind {
            TokenKind::Sign(Sign::Equal) => Some((Compare::Equal, behind)),
            TokenKind::Sign(Sign::Unequal) => Some((Compare::Unequal, behind)),
            TokenKind::Sign(Sign::Less) => Some((Compare::Less, behind)),
            TokenKind::Sign(Sign::LessEqual) => Some((Compare::LessEqual, behind)),
            TokenKind::Sign(Sign::Greater) => Some((Compare::Greater, behind)),
            TokenKind::Sign(Sign::GreaterEqual) => Some((Compare::GreaterEqual, behind)),
            _ => None,
        },
    }
}
