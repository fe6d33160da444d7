//! Signs.

ghost use Rattle.std.specs.Prelude.{◌≡◌, ◌↔◌, Some};
ghost use Rattle.bf_tables.specs.Cases.{word_at};
ghost use Rattle.bf_lex.specs.Words.{sign_number, sign_word};

use bf_tables::{Cases, case_of_number, number_of_case, of_cases};

/// The signs of a script.
#[derive(Clone, Copy, Debug, PartialEq, Eq)]
pub enum Sign {
    /// `(`
    OpeningParenthesis,
    /// `)`
    ClosingParenthesis,
    /// `,`
    Comma,
    /// `;`
    Semicolon,
    /// `.`
    Point,
    /// `*`
    Star,
    /// `+`
    Plus,
    /// `-`
    Minus,
    /// `=`
    Equal,
    /// `<>`, which may be written `!=`
    Unequal,
    /// `<`
    Less,
    /// `<=`
    LessEqual,
    /// `>`
    Greater,
    /// `>=`
    GreaterEqual,
    /// `||`
    Bars,
}

macro_rules! signs {
    ($callback:ident, $value:expr) => {
        $callback!($value; Sign::OpeningParenthesis = 0, Sign::ClosingParenthesis = 1, Sign::Comma = 2, Sign::Semicolon = 3, Sign::Point = 4, Sign::Star = 5, Sign::Plus = 6, Sign::Minus = 7, Sign::Equal = 8, Sign::Unequal = 9, Sign::Less = 10, Sign::LessEqual = 11, Sign::Greater = 12, Sign::GreaterEqual = 13, Sign::Bars = 14)
    };
}

impl Sign {
    /// The sign's number, below 15. Takes no memory.
    pub fn number(self) -> u8
        ensures { result ≡ sign_number self }
    {
        signs!(number_of_case, self)
    }

    /// The sign of a number, and `None` exactly where no sign has it. Takes no memory.
    pub fn of_number(number: u8) -> Option<Sign>
        ensures { (sign : Sign) → (result ≡ Some sign) ↔ (sign_number sign ≡ number) }
    {
        signs!(case_of_number, number)
    }

    /// The words of the signs, by their numbers. Takes no memory.
    pub fn cases() -> Cases<15>
        ensures { (sign : Sign) → word_at result (sign_number sign) ≡ Some (sign_word sign) }
    {
        of_cases([
            (0, "("),
            (1, ")"),
            (2, ","),
            (3, ";"),
            (4, "."),
            (5, "*"),
            (6, "+"),
            (7, "-"),
            (8, "="),
            (9, "<>"),
            (10, "<"),
            (11, "<="),
            (12, ">"),
            (13, ">="),
            (14, "||"),
        ])
        .unwrap()
    }
}
