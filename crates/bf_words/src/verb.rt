//! The first word.

ghost use Rattle.std.specs.Prelude.{◌≡◌};
ghost use Rattle.bf_words.specs.Lines.{verb_of};

/// What is to be done.
#[derive(Clone, Copy, Debug)]
pub(crate) enum Verb {
    /// To make a log.
    Create,
    /// To run a script over a log.
    Run,
    /// To run a script over nothing.
    Try,
    /// To make a log and to run an example over it.
    Demo,
}

impl Verb {
    /// What a first word names.
    pub(crate) fn of(word: &str) -> Option<Verb>
        ensures { result ≡ verb_of word.now }
    {
        if word == "create" {
            Some(Verb::Create)
        } else if word == "run" {
            Some(Verb::Run)
        } else if word == "try" {
            Some(Verb::Try)
        } else if word == "demo" {
            Some(Verb::Demo)
        } else {
            None
        }
    }
}
