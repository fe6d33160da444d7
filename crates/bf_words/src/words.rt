//! What the words ask for.

ghost use Rattle.std.specs.Prelude.{◌≡◌, IfOk, IfErr, None, Some, map};
ghost use Rattle.std.specs.Option.{option_map};
ghost use Rattle.bf_words.specs.Words.{asked, asked_behind, asked_by};

use crate::line::Line;
use crate::verb::Verb;
use thiserror::Error;

/// What the words behind the program's name ask for.
#[derive(Clone, Copy, Debug)]
pub enum Words<'a> {
    /// To make an empty log in the file under this path, which is new or empty.
    Create(&'a str),
    /// To run the script of the input over the database that the log under a path keeps.
    Run {
        path: &'a str,
        /// How many workers move rows beside the sessions, 0 to 8.
        workers: u8,
        /// How often a transaction that died begins again, 0 to 1000.
        retries: u16,
        /// Whether all that is left of the last migration is moved at the end.
        finish: bool,
        /// Whether the rows of each table are counted at the end.
        audit: bool,
    },
    /// To run the script of the input over a database that is not kept.
    Try,
    /// To make a log under a path and to run an example over it.
    Demo {
        /// How large the example is, 1 to 1000.
        count: u16,
        path: &'a str,
    },
}

/// Why words were not read.
#[derive(Clone, Copy, Debug, PartialEq, Eq, Error)]
pub enum WordsError {
    /// They are none of the program's.
    #[error("usage error")]
    Usage,
}

/// Reads the words behind the program's name. They are read in place: it takes no memory, and each path of the answer is
/// one of the words.
///
/// # Errors
/// `Usage` exactly where the words ask for nothing.
pub fn read_words<'a>(words: &[&'a str]) -> Result<Words<'a>, WordsError>
    ensures read { IfOk result (λ read. asked (map (λ word. word.now) words.now) ≡ Some (asked_by read)) }
    ensures refused { IfErr result (λ error. asked (map (λ word. word.now) words.now) ≡ None) }
{
    match asked(words) {
        Some(read) => Ok(read),
        None => Err(WordsError::Usage),
    }
}

/// What the words ask for.
fn asked<'a>(words: &[&'a str]) -> Option<Words<'a>>
    ensures { option_map asked_by result ≡ asked (map (λ word. word.now) words.now) }
{
    match words {
        [first, rest @ ..] => asked_behind(*first, rest),
        [] => None,
    }
}

/// What a first word and those behind it ask for.
fn asked_behind<'a>(first: &str, rest: &[&'a str]) -> Option<Words<'a>>
    ensures { option_map asked_by result ≡ asked_behind first.now (map (λ word. word.now) rest.now) }
{
    let verb = Verb::of(first)?;
    let line = Line::of(verb, rest)?;
    line.ended(verb)
}
