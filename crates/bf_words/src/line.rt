//! The words behind the first one.

ghost use Rattle.std.specs.Prelude.{◌≡◌, Some, map};
ghost use Rattle.std.specs.Option.{option_map};
ghost use Rattle.bf_words.specs.Lines.{begins_with_dash, is_path, nothing_read, with_audit, with_count, with_dashed};
ghost use Rattle.bf_words.specs.Lines.{with_finish, with_free, with_name, with_number, with_option, with_path, with_plain};
ghost use Rattle.bf_words.specs.Lines.{with_retries, with_value, with_word, with_words, with_workers};
ghost use Rattle.bf_words.specs.Words.{asked_by, ended, finished, seen};

use crate::number::number_within;
use crate::verb::Verb;
use crate::words::Words;

const MOST_WORKERS: u16 = 8;

const MOST_RETRIES: u16 = 1000;

const LARGEST_EXAMPLE: u16 = 1000;

const WORKERS: u8 = 2;

const RETRIES: u16 = 15;

/// An option that has a number.
#[derive(Clone, Copy, Debug)]
pub(crate) enum Limit {
    Workers,
    Retries,
}

/// What the next word is.
#[derive(Clone, Copy, Debug)]
pub(crate) enum Place {
    /// An option, or a word that is none.
    Free,
    /// The number of the option whose name stands before it.
    NumberOf(Limit),
    /// Behind `--`: a word that is no option.
    Behind,
}

/// What has been read.
#[derive(Clone, Copy, Debug)]
pub(crate) struct Line<'a> {
    place: Place,
    count: Option<u16>,
    path: Option<&'a str>,
    workers: Option<u8>,
    retries: Option<u16>,
    finish: bool,
    audit: bool,
}

impl<'a> Line<'a> {
    fn nothing_read() -> Line<'a>
        ensures { seen result ≡ nothing_read }
    {
        Line {
            place: Place::Free,
            count: None,
            path: None,
            workers: None,
            retries: None,
            finish: false,
            audit: false,
        }
    }

    /// What the words behind the first one give, where each may stand in its place.
    pub(crate) fn of(verb: Verb, words: &[&'a str]) -> Option<Line<'a>>
        ensures { option_map seen result ≡ with_words verb (map (λ word. word.now) words.now) nothing_read }
    {
        Line::nothing_read().with_words(verb, words)
    }

    /// The line with more words. It goes no deeper than a line has words, some ten.
    fn with_words(self, verb: Verb, words: &[&'a str]) -> Option<Line<'a>>
        ensures { option_map seen result ≡ with_words verb (map (λ word. word.now) words.now) (seen self.entry) }
    {
        match words {
            [] => Some(self),
            [word, rest @ ..] => self.with_word(verb, *word)?.with_words(verb, rest),
        }
    }

    fn with_word(self, verb: Verb, word: &'a str) -> Option<Line<'a>>
        ensures { option_map seen result ≡ with_word verb (seen self.entry) word.entry.now }
    {
        match self.place {
            Place::Free => self.with_free(verb, word),
            Place::NumberOf(limit) => self.with_number(limit, word),
            Place::Behind => self.with_plain(verb, word),
        }
    }

    fn with_free(mut self, verb: Verb, word: &'a str) -> Option<Line<'a>>
        ensures { option_map seen result ≡ with_free verb word.entry.now (seen self.entry) }
    {
        if word == "--" {
            self.place = Place::Behind;
            Some(self)
        } else if begins_with_dash(word) {
            self.with_dashed(verb, word)
        } else {
            self.with_plain(verb, word)
        }
    }

    fn with_dashed(self, verb: Verb, word: &str) -> Option<Line<'a>>
        ensures { option_map seen result ≡ with_dashed verb word.now (seen self.entry) }
    {
        match verb {
            Verb::Run => self.with_option(word),
            Verb::Create => None,
            Verb::Try => None,
            Verb::Demo => None,
        }
    }

    fn with_option(self, word: &str) -> Option<Line<'a>>
        ensures { option_map seen result ≡ with_option word.now (seen self.entry) }
    {
        match word.split_once('=') {
            Some((name, value)) => self.with_value(name, value),
            None => self.with_name(word),
        }
    }

    fn with_value(self, name: &str, value: &str) -> Option<Line<'a>>
        ensures { option_map seen result ≡ with_value name.now value.now (seen self.entry) }
    {
        if name == "--workers" {
            self.with_number(Limit::Workers, value)
        } else if name == "--retries" {
            self.with_number(Limit::Retries, value)
        } else {
            None
        }
    }

    fn with_name(mut self, name: &str) -> Option<Line<'a>>
        ensures { option_map seen result ≡ with_name name.now (seen self.entry) }
    {
        if name == "--workers" {
            self.place = Place::NumberOf(Limit::Workers);
            Some(self)
        } else if name == "--retries" {
            self.place = Place::NumberOf(Limit::Retries);
            Some(self)
        } else if name == "--finish" {
            self.with_finish()
        } else if name == "--audit" {
            self.with_audit()
        } else {
            None
        }
    }

    fn with_finish(mut self) -> Option<Line<'a>>
        ensures { option_map seen result ≡ with_finish (seen self.entry) }
    {
        if self.finish {
            return None;
        }
        self.finish = true;
        Some(self)
    }

    fn with_audit(mut self) -> Option<Line<'a>>
        ensures { option_map seen result ≡ with_audit (seen self.entry) }
    {
        if self.audit {
            return None;
        }
        self.audit = true;
        Some(self)
    }

    fn with_number(self, limit: Limit, word: &str) -> Option<Line<'a>>
        ensures { option_map seen result ≡ with_number limit word.now (seen self.entry) }
    {
        match limit {
            Limit::Workers => self.with_workers(word),
            Limit::Retries => self.with_retries(word),
        }
    }

    fn with_workers(mut self, word: &str) -> Option<Line<'a>>
        ensures { option_map seen result ≡ with_workers word.now (seen self.entry) }
    {
        if self.workers.is_some() {
            return None;
        }
        let number = number_within(0, MOST_WORKERS, word)?;
        self.place = Place::Free;
        self.workers = Some(number as u8);
        Some(self)
    }

    fn with_retries(mut self, word: &str) -> Option<Line<'a>>
        ensures { option_map seen result ≡ with_retries word.now (seen self.entry) }
    {
        if self.retries.is_some() {
            return None;
        }
        let number = number_within(0, MOST_RETRIES, word)?;
        self.place = Place::Free;
        self.retries = Some(number);
        Some(self)
    }

    fn with_plain(self, verb: Verb, word: &'a str) -> Option<Line<'a>>
        ensures { option_map seen result ≡ with_plain verb word.entry.now (seen self.entry) }
    {
        match verb {
            Verb::Create => self.with_path(word),
            Verb::Run => self.with_path(word),
            Verb::Try => None,
            Verb::Demo => {
                if self.count.is_some() {
                    self.with_path(word)
                } else {
                    self.with_count(word)
                }
            }
        }
    }

    fn with_path(mut self, word: &'a str) -> Option<Line<'a>>
        ensures { option_map seen result ≡ with_path word.entry.now (seen self.entry) }
    {
        if self.path.is_some() {
            return None;
        }
        if is_path(word) {
            self.path = Some(word);
            Some(self)
        } else {
            None
        }
    }

    fn with_count(mut self, word: &str) -> Option<Line<'a>>
        ensures { option_map seen result ≡ with_count word.now (seen self.entry) }
    {
        let number = number_within(1, LARGEST_EXAMPLE, word)?;
        self.count = Some(number);
        Some(self)
    }

    /// What the line asks for, where no option lacks its number and the first word lacks nothing.
    pub(crate) fn ended(self, verb: Verb) -> Option<Words<'a>>
        ensures { option_map asked_by result ≡ ended verb (seen self.entry) }
    {
        match self.place {
            Place::NumberOf(_) => None,
            Place::Free => self.finished(verb),
            Place::Behind => self.finished(verb),
        }
    }

    fn finished(self, verb: Verb) -> Option<Words<'a>>
        ensures { option_map asked_by result ≡ finished verb (seen self.entry) }
    {
        match verb {
            Verb::Create => Some(Words::Create(self.path?)),
            Verb::Run => Some(Words::Run {
                path: self.path?,
                workers: self.workers.unwrap_or(WORKERS),
                retries: self.retries.unwrap_or(RETRIES),
                finish: self.finish,
                audit: self.audit,
            }),
            Verb::Try => Some(Words::Try),
            Verb::Demo => {
                let count = self.count?;
                Some(Words::Demo {
                    count,
                    path: self.path?,
                })
            }
        }
    }
}

fn begins_with_dash(word: &str) -> bool
    ensures { result ≡ begins_with_dash word.now }
{
    match word.as_bytes() {
        [] => false,
        [first, ..] => *first == b'-',
    }
}

fn is_path(word: &str) -> bool
    ensures { result ≡ is_path word.now }
{
    match word.as_bytes() {
        [] => false,
        [only] => *only != b'-',
        [_, _, ..] => true,
    }
}
