//! What joins the products of a sum.

ghost use Rattle.std.specs.Prelude.{◌<◌, IfSome};
ghost use Rattle.bf_phrase.specs.Cursors.{IsPlace, left, words};
ghost use Rattle.bf_phrase.specs.Sums.{IsNextOperator};

use crate::cursor::Cursor;
use bf_lex::{Sign, TokenKind};

#[derive(Clone, Copy)]
pub(crate) enum SumOperator {
    /// `+`
    Plus,
    /// `-`
    Difference,
    /// `||`
    Concatenation,
}

/// What joins the next product, and the place behind it.
pub(crate) fn next_operator(cursor: Cursor<'_>) -> Option<(SumOperator, Cursor<'_>)>
    requires { IsPlace cursor }
    ensures found { IsNextOperator (words cursor.entry) result }
    ensures place { IfSome result (λ x. IsPlace x.1) }
    ensures shorter { IfSome result (λ x. left x.1 < left cursor.entry) }
{
    match cursor.next() {
        None => None,
        Some((first, behind)) => match first.kind {
            TokenKind::Sign(Sign::Plus) => Some((SumOperator::Plus, behind)),
            TokenKind::Sign(Sign::Minus) => Some((SumOperator::Difference, behind)),
            TokenKind::Sign(Sign::Bars) => Some((SumOperator::Concatenation, behind)),
            _ => None,
        },
    }
}
