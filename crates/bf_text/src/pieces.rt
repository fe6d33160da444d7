//! What texts are made of: words, numbers, and things one behind the other.
//!
//! After an `Err` of a piece a front of its text stands behind what stood there before.

ghost use Rattle.std.specs.Prelude.{ℕ, ◌++◌, List, map, flat_map, codes};
ghost use Rattle.std.specs.Fmt.{decimal, signed_decimal};
ghost use Rattle.bf_text.specs.Puts.{Puts};
ghost use Rattle.bf_text.specs.Replies.{listed, numbered};
ghost use Rattle.bf_text.specs.Report.{texts_from};

use bf_base::{Memory, Name};
use itoa::Buffer;

/// Appends words.
pub(crate) fn put(out: &mut Vec<u8>, words: &[u8]) -> Result<(), Memory>
    ensures { Puts result words.now out.old.items out.new.items }
{
    out.extend_from_slice(words)?;
    Ok(())
}

/// Appends a number in decimal digits.
pub(crate) fn put_decimal(out: &mut Vec<u8>, number: u64) -> Result<(), Memory>
    ensures { Puts result (decimal number) out.old.items out.new.items }
{
    put(out, Buffer::new().format(number).as_bytes())
}

/// Appends a number in decimal digits, a negative one behind a minus.
pub(crate) fn put_signed(out: &mut Vec<u8>, number: i64) -> Result<(), Memory>
    ensures { Puts result (signed_decimal number) out.old.items out.new.items }
{
    put(out, Buffer::new().format(number).as_bytes())
}

/// Appends words before a number.
#[tactic(auto, using(crate::proofs::Putting::putting))]
pub(crate) fn put_numbered(out: &mut Vec<u8>, words: &[u8], number: u64) -> Result<(), Memory>
    ensures { Puts result (numbered words.now number) out.old.items out.new.items }
{
    put(out, words)?;
    put_decimal(out, number)
}

/// Appends words before a name.
#[tactic(auto, using(crate::proofs::Putting::putting))]
pub(crate) fn put_named(out: &mut Vec<u8>, words: &[u8], name: &Name) -> Result<(), Memory>
    ensures { Puts result (words.now ++ name.now) out.old.items out.new.items }
{
    put(out, words)?;
    put(out, name.as_bytes())
}

/// Appends words before a name, and behind it further words before a number.
#[tactic(auto, using(crate::proofs::Putting::putting))]
pub(crate) fn put_named_numbered(
    out: &mut Vec<u8>,
    words: &[u8],
    name: &Name,
    behind: &[u8],
    number: u64,
) -> Result<(), Memory>
    ensures { Puts result ((words.now ++ name.now) ++ numbered behind.now number)
        out.old.items out.new.items }
{
    put_named(out, words, name)?;
    put_numbered(out, behind, number)
}

/// What has a text at a place.
pub(crate) trait Piece {
    /// What the text tells beside the piece.
    type Place: Copy;

    ghost text: { Self.Place → Self → List ℕ };

    /// Appends the piece's text.
    fn put_at(&self, out: &mut Vec<u8>, place: Self::Place) -> Result<(), Memory>
        ensures { Puts result (text place self.now) out.old.items out.new.items };
}

/// Appends the texts of pieces, with nothing between.
pub(crate) fn put_each<T: Piece>(
    out: &mut Vec<u8>,
    place: T::Place,
    pieces: &[T],
) -> Result<(), Memory>
    ensures { Puts result (flat_map (T.text place) pieces.now) out.old.items out.new.items }
{
    for piece in pieces {
        piece.put_at(out, place)?;
    }
    Ok(())
}

// Appends the texts of pieces, each behind a comma and a space.
fn put_further<T: Piece>(out: &mut Vec<u8>, place: T::Place, pieces: &[T]) -> Result<(), Memory>
    ensures { Puts result (flat_map (λ y. codes ", " ++ y) (map (T.text place) pieces.now))
        out.old.items out.new.items }
{
    for piece in pieces {
        put(out, b", ")?;
        piece.put_at(out, place)?;
    }
    Ok(())
}

/// Appends the texts of pieces, with a comma and a space between.
#[tactic(auto, using(crate::proofs::Putting::putting))]
pub(crate) fn put_listed<T: Piece>(
    out: &mut Vec<u8>,
    place: T::Place,
    pieces: &[T],
) -> Result<(), Memory>
    ensures { Puts result (listed (map (T.text place) pieces.now)) out.old.items out.new.items }
{
    match pieces {
        [] => Ok(()),
        [first, rest @ ..] => {
            first.put_at(out, place)?;
            put_further(out, place, rest)
        }
    }
}

/// What has a text that tells its number.
pub(crate) trait Counted {
    /// What the text tells beside the thing and its number.
    type Whole: Copy;

    ghost text: { Self.Whole → ℕ → Self → List ℕ };

    /// Appends the thing's text.
    fn put_counted(&self, out: &mut Vec<u8>, whole: Self::Whole, number: u64) -> Result<(), Memory>
        ensures { Puts result (text whole number self.now) out.old.items out.new.items };
}

/// Appends the texts of things, counted from 1.
pub(crate) fn put_all_counted<T: Counted>(
    out: &mut Vec<u8>,
    whole: T::Whole,
    things: &[T],
) -> Result<(), Memory>
    ensures { Puts result (texts_from (T.text whole) 1 things.now) out.old.items out.new.items }
{
    for (index, thing) in things.iter().enumerate() {
        thing.put_counted(out, whole, index as u64 + 1)?;
    }
    Ok(())
}
