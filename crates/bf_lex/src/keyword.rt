//! Keywords.

ghost use Rattle.std.specs.Prelude.{◌≡◌, ◌↔◌, Contains, IfNone, IfSome, IsTrue, false, map};
ghost use Rattle.bf_tables.specs.Cases.{cases_by, word_at};
ghost use Rattle.bf_base.specs.Lists.{has, name_cmp, rises, same_name};
ghost use Rattle.bf_base.specs.Names.{folded, lower_of};
ghost use Rattle.bf_lex.specs.Words.{keyword_of, number_of, word_of};

use bf_tables::{Cases, case_of_number, number_of_case, of_cases};
use std::cmp::Ordering;

/// The words that are no names, in whatever case their letters are.
#[derive(Clone, Copy, Debug, PartialEq, Eq)]
pub enum Keyword {
    All,
    And,
    As,
    Begin,
    Between,
    By,
    Check,
    Commit,
    Count,
    Create,
    Delete,
    From,
    Group,
    Index,
    Insert,
    Int,
    Into,
    Join,
    Keep,
    Key,
    Max,
    Migrate,
    Min,
    Not,
    On,
    Or,
    Phase,
    Primary,
    Rollback,
    Select,
    Session,
    Set,
    Sum,
    Table,
    Union,
    Update,
    Values,
    Varchar,
    Where,
}

macro_rules! keywords {
    ($callback:ident, $value:expr) => {
        $callback!($value; Keyword::All = 0, Keyword::And = 1, Keyword::As = 2, Keyword::Begin = 3, Keyword::Between = 4, Keyword::By = 5, Keyword::Check = 6, Keyword::Commit = 7, Keyword::Count = 8, Keyword::Create = 9, Keyword::Delete = 10, Keyword::From = 11, Keyword::Group = 12, Keyword::Index = 13, Keyword::Insert = 14, Keyword::Int = 15, Keyword::Into = 16, Keyword::Join = 17, Keyword::Keep = 18, Keyword::Key = 19, Keyword::Max = 20, Keyword::Migrate = 21, Keyword::Min = 22, Keyword::Not = 23, Keyword::On = 24, Keyword::Or = 25, Keyword::Phase = 26, Keyword::Primary = 27, Keyword::Rollback = 28, Keyword::Select = 29, Keyword::Session = 30, Keyword::Set = 31, Keyword::Sum = 32, Keyword::Table = 33, Keyword::Union = 34, Keyword::Update = 35, Keyword::Values = 36, Keyword::Varchar = 37, Keyword::Where = 38)
    };
}

// The words of the keywords in order, each with its keyword's number, which is its place.
static WORDS: [(u8, &str); 39] = [
    (0, "all"),
    (1, "and"),
    (2, "as"),
    (3, "begin"),
    (4, "between"),
    (5, "by"),
    (6, "check"),
    (7, "commit"),
    (8, "count"),
    (9, "create"),
    (10, "delete"),
    (11, "from"),
    (12, "group"),
    (13, "index"),
    (14, "insert"),
    (15, "int"),
    (16, "into"),
    (17, "join"),
    (18, "keep"),
    (19, "key"),
    (20, "max"),
    (21, "migrate"),
    (22, "min"),
    (23, "not"),
    (24, "on"),
    (25, "or"),
    (26, "phase"),
    (27, "primary"),
    (28, "rollback"),
    (29, "select"),
    (30, "session"),
    (31, "set"),
    (32, "sum"),
    (33, "table"),
    (34, "union"),
    (35, "update"),
    (36, "values"),
    (37, "varchar"),
    (38, "where"),
];

impl Keyword {
    /// The keyword's number, below 39: its place in the order of the words. Takes no memory.
    pub fn number(self) -> u8
        ensures { result ≡ number_of self }
    {
        keywords!(number_of_case, self)
    }

    /// The keyword of a number, and `None` exactly where no keyword has it. Takes no memory.
    pub fn of_number(number: u8) -> Option<Keyword>
        ensures { (keyword : Keyword) → (result ≡ Some keyword) ↔ (number_of keyword ≡ number) }
    {
        keywords!(case_of_number, number)
    }

    /// The keyword that a word is, in whatever case its letters are, and `None` exactly where it
    /// is none. Takes no memory.
    pub fn of_word(word: &[u8]) -> Option<Keyword>
        ensures { result ≡ keyword_of (folded word.now) }
    {
        Keyword::of_number(number_of_word(&WORDS, word)?)
    }

    /// The words of the keywords, by their numbers. Takes no memory.
    pub fn cases() -> Cases<39>
        ensures { (keyword : Keyword)
            → word_at result (number_of keyword) ≡ Some (word_of keyword) }
    {
        of_cases(WORDS).unwrap()
    }
}

fn lower(byte: u8) -> u8
    ensures { result ≡ lower_of byte }
{
    byte.to_ascii_lowercase()
}

// The number of a word among words in order, in whatever case its letters are.
fn number_of_word(words: &[(u8, &str)], word: &[u8]) -> Option<u8>
    requires { IsTrue (rises name_cmp (map (λ w. w.1.now) words.now)) }
    ensures found { IfSome result
        (λ number. Contains (cases_by (λ w. w.now) words.now) (number, folded word.now)) }
    ensures none { IfNone result (has same_name (map (λ w. w.1.now) words.now) (folded word.now)
        ≡ false) }
{
    match words.binary_search_by(|(_, found)| compare(found, word)) {
        Ok(place) => Some(words[place].0),
        Err(_) => None,
    }
}

// The order of a word in lower case and of bytes whose letters are read as lower-case ones. Most
// differ in their first letters already.
fn compare(word: &str, bytes: &[u8]) -> Ordering
    ensures { result ≡ name_cmp word.now (folded bytes.now) }
{
    let word = word.as_bytes();
    if let ([first, ..], [byte, ..]) = (word, bytes) {
        let (first, byte) = (*first, lower(*byte));
        if first < byte {
            return Ordering::Less;
        }
        if byte < first {
            return Ordering::Greater;
        }
    }
    word.iter()
        .copied()
        .cmp(bytes.iter().map(|byte| lower(*byte)))
}
