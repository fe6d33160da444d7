//! Tables of numbered words.

ghost use Rattle.std.specs.Prelude.{◌≡◌, Some, None, IsTrue, IfSome, if◌then◌else◌};
ghost use Rattle.std.specs.List.{list_any};
ghost use Rattle.std.specs.Option.{option_map};
ghost use Rattle.bf_tables.specs.Cases.{cases_by, same_word, share, are_apart, number_at, word_at, HasWord};

use std::convert::AsStr;
use std::marker::Model;

/// `N` pairs of a number and a word, of which no two share a number or a word.
/// Words are compared without regard to the case of ASCII letters.
///
/// Contracts see the list of the pairs, each word as its bytes. Nothing here takes memory.
#[derive(Drop)]
pub struct Cases<const N: usize, W: AsStr + Copy = &'static str> {
    pairs: [(u8, W); N],
}

impl<const N: usize, W: AsStr + Copy> Model for Cases<N, W> {
    ghost use Rattle.std.specs.Prelude.{ℕ, List, IsTrue};
    ghost use Rattle.bf_tables.specs.Cases.{cases_by, are_apart};

    ghost Value = { List (ℕ × List ℕ) };

    ghost view = { λ c. cases_by W.text c.pairs };

    ghost invariant = { λ c. IsTrue (are_apart (cases_by W.text c.pairs)) };
}

/// The table of some pairs, and `None` exactly where two of them share a number or a word.
/// Each pair is compared with each later one.
pub fn of_cases<const N: usize, W: AsStr + Copy>(pairs: [(u8, W); N]) -> Option<Cases<N, W>>
    ensures { let cases = cases_by W.text pairs in result
        ≡ (if are_apart cases then Some cases else None) }
{
    if are_apart(&pairs) {
        Some(Cases { pairs })
    } else {
        None
    }
}

impl<const N: usize, W: AsStr + Copy> Cases<N, W> {
    /// The number of the pair that has the word, in whatever case its letters are, and `None`
    /// exactly where no pair has it. One pass over the pairs.
    pub fn by_word(&self, word: &[u8]) -> Option<u8>
        ensures number { result ≡ number_at self.now word.now }
        // The pair of that number has the word.
        ensures one_case { IfSome result (λ number. HasWord self.now number word.now) }
        ensures apart { IsTrue (are_apart self.now) }
    {
        number_of_word(&self.pairs, word)
    }

    /// The word of the pair that has the number, as it was given to `of_cases`, and `None` exactly
    /// where no pair has it. One pass over the pairs.
    pub fn by_number(&self, number: u8) -> Option<W>
        ensures word { option_map W.text result ≡ word_at self.now number }
        // The pair of that word has the number.
        ensures one_case { IfSome result (λ word. number_at self.now (W.text word) ≡ Some number) }
        ensures apart { IsTrue (are_apart self.now) }
    {
        word_of_number(&self.pairs, number)
    }
}

fn number_of_word<W: AsStr + Copy>(pairs: &[(u8, W)], word: &[u8]) -> Option<u8>
    ensures { result ≡ number_at (cases_by W.text pairs.now) word.now }
{
    for (number, found) in pairs {
        if is_same_word(found.as_str().as_bytes(), word) {
            return Some(*number);
        }
    }
    None
}

fn word_of_number<W: AsStr + Copy>(pairs: &[(u8, W)], number: u8) -> Option<W>
    ensures { option_map W.text result ≡ word_at (cases_by W.text pairs.now) number }
{
    for (found, word) in pairs {
        if *found == number {
            return Some(*word);
        }
    }
    None
}

// Whether no two of the pairs share a number or a word.
fn are_apart<W: AsStr + Copy>(pairs: &[(u8, W)]) -> bool
    ensures { result ≡ are_apart (cases_by W.text pairs.now) }
{
    let mut rest = pairs;
    while let [first, later @ ..] = rest {
        if shares_with_any(first, later) {
            return false;
        }
        rest = later;
    }
    true
}

fn shares_with_any<W: AsStr + Copy>(pair: &(u8, W), others: &[(u8, W)]) -> bool
    ensures { result ≡ list_any (share (pair.now.0, W.text pair.now.1))
        (cases_by W.text others.now) }
{
    for other in others {
        if shares(pair, other) {
            return true;
        }
    }
    false
}

fn shares<W: AsStr + Copy>(a: &(u8, W), b: &(u8, W)) -> bool
    ensures { result ≡ share (a.now.0, W.text a.now.1) (b.now.0, W.text b.now.1) }
{
    a.0 == b.0 || is_same_word(a.1.as_str().as_bytes(), b.1.as_str().as_bytes())
}

fn is_same_word(a: &[u8], b: &[u8]) -> bool
    ensures { result ≡ same_word a.now b.now }
{
    a.eq_ignore_ascii_case(b)
}
