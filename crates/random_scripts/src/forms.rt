//! The forms of statements on tables, and what letters stand for in forms.

use crate::tables::{Choices, Table};

/// What a statement on a table does, where it is not refused.
#[derive(Clone, Copy, Debug, PartialEq, Eq)]
pub enum Verb {
    Select,
    Insert,
    Update,
    Delete,
    /// It makes an index, under a name that may be taken.
    Index,
}

/// Which rows a statement is about.
#[derive(Clone, Copy, Debug, PartialEq, Eq)]
pub enum Reach {
    /// All rows of the table.
    Whole,
    /// Those of one key, or of a few.
    Key,
    /// Those with one value of a column that is no key.
    Fixed,
    /// Those with a number between bounds.
    Range,
    /// Those with a total between bounds.
    Total,
    /// Those that satisfy any condition.
    Any,
}

/// A statement on a table.
pub struct Form {
    pub verb: Verb,
    pub reach: Reach,
    pub text: &'static str,
}

/// The statements on a table, whether in a block or not.
pub const STATEMENTS: &[Form] = &[
    Form {
        verb: Verb::Select,
        reach: Reach::Whole,
        text: "select L from T",
    },
    Form {
        verb: Verb::Select,
        reach: Reach::Key,
        text: "select * from T where K",
    },
    Form {
        verb: Verb::Select,
        reach: Reach::Fixed,
        text: "select L from T where Y",
    },
    Form {
        verb: Verb::Select,
        reach: Reach::Range,
        text: "select * from T where R",
    },
    Form {
        verb: Verb::Select,
        reach: Reach::Total,
        text: "select * from T where V O N",
    },
    Form {
        verb: Verb::Select,
        reach: Reach::Total,
        text: "select L from T where V O N and C",
    },
    Form {
        verb: Verb::Select,
        reach: Reach::Any,
        text: "select L from TW",
    },
    Form {
        verb: Verb::Insert,
        reach: Reach::Key,
        text: "insert into T values U",
    },
    Form {
        verb: Verb::Insert,
        reach: Reach::Key,
        text: "insert into T values U, U",
    },
    Form {
        verb: Verb::Insert,
        reach: Reach::Key,
        text: "insert into T values U, U, U",
    },
    Form {
        verb: Verb::Update,
        reach: Reach::Whole,
        text: "update T set E",
    },
    Form {
        verb: Verb::Update,
        reach: Reach::Key,
        text: "update T set E where K",
    },
    Form {
        verb: Verb::Update,
        reach: Reach::Fixed,
        text: "update T set E where Y",
    },
    Form {
        verb: Verb::Update,
        reach: Reach::Range,
        text: "update T set E where R",
    },
    Form {
        verb: Verb::Update,
        reach: Reach::Total,
        text: "update T set E where V O N",
    },
    Form {
        verb: Verb::Update,
        reach: Reach::Total,
        text: "update T set E where V > M or C",
    },
    Form {
        verb: Verb::Update,
        reach: Reach::Any,
        text: "update T set EW",
    },
    Form {
        verb: Verb::Update,
        reach: Reach::Any,
        text: "update T set E, EW",
    },
    Form {
        verb: Verb::Delete,
        reach: Reach::Key,
        text: "delete from T where K",
    },
    Form {
        verb: Verb::Delete,
        reach: Reach::Fixed,
        text: "delete from T where Y and C",
    },
    Form {
        verb: Verb::Delete,
        reach: Reach::Range,
        text: "delete from T where R and C",
    },
    Form {
        verb: Verb::Delete,
        reach: Reach::Total,
        text: "delete from T where V O N and C",
    },
    Form {
        verb: Verb::Delete,
        reach: Reach::Total,
        text: "delete from T where V = N",
    },
    Form {
        verb: Verb::Delete,
        reach: Reach::Any,
        text: "delete from T where C and D",
    },
    Form {
        verb: Verb::Index,
        reach: Reach::Whole,
        text: "create index B on T (Z)",
    },
];

/// F: a statement that is refused, or may be.
const REFUSED: Choices = &[
    "select nope from T",
    "select * from T where I = N and nope = N",
    "select nope.id from T",
    "select * from T where I = X",
    "select I || X from T",
    "select sum(I * 4611686018427387904) from T",
    "select I * 4611686018427387904 from TW",
    "update T set nope = N",
    "update T set I = NW",
    "update T set I = X",
    "insert into T values (N)",
    "insert into T values U, (N, X, N, X, N)",
    "insert into T values (X, N, X)",
    "create index B on T (I, I)",
    "create index B on T (I, nope)",
    "delete from T where nope.x = N",
    "delete from TW",
];

/// W: the condition of a statement, if it has one.
const CONDITION: Choices = &[
    "",
    "",
    " where C",
    " where C",
    " where K",
    " where D",
    " where Y",
    " where K and C",
    " where C and C",
    " where C or C",
    " where D and C",
    " where D or K",
    " where not C",
    " where not (C or D)",
    " where (K or K) and C",
];

/// S: the condition of an arm of a MIGRATE, if it has one; it mostly leaves many rows.
const ARM_CONDITION: Choices = &[
    "",
    "",
    "",
    " where I <> N",
    " where I >= 0",
    " where I < 5",
    " where C or C",
    " where D or C",
    " where not (C and D)",
    " where not (K or K)",
    " where C",
];

/// C: a comparison of numbers.
const COMPARISON: Choices = &[
    "I O N",
    "I O N",
    "I between N and N",
    "T.I O N",
    "N O I",
    "I O I",
];

/// R: a number between bounds, or above or below one.
const RANGE: Choices = &[
    "I < N",
    "I >= N",
    "N < I",
    "I between M and N",
    "I between -1 and M",
];

/// L: what a SELECT gives.
const LIST: Choices = &[
    "*",
    "*",
    "*",
    "I, I",
    "I + N, I",
    "I * I - N",
    "count(*)",
    "count(*), sum(I)",
    "min(I), max(I), count(*)",
    "sum(I - N)",
];

/// O: a comparison.
const OPERATOR: Choices = &["=", "=", "<", "<=", ">", ">=", "<>"];

/// N: a number, mostly a small one.
const NUMBER: Choices = &[
    "M",
    "M",
    "M",
    "M",
    "M",
    "M",
    "M",
    "M",
    "M",
    "M",
    "M",
    "10",
    "12",
    "-2",
    "100",
    "9223372036854775807",
];

/// M: a small number, mostly one of six, so that keys meet.
const SMALL: Choices = &[
    "0", "1", "2", "3", "4", "5", "0", "1", "2", "3", "4", "5", "0", "1", "2", "3", "4", "5", "6",
    "7", "8", "9", "-1",
];

/// X: a text.
const TEXT: Choices = &["'a'", "'b'", "'c'", "'ab'", "'b'", "'abc'", "'it''s'", "''"];

/// B: the name of an index.
const INDEX_NAME: Choices = &["i1", "i2", "i3", "i4"];

/// What a letter stands for beside a table.
pub fn choices(table: &Table, letter: u8) -> Choices {
    match letter {
        b'T' => table.name,
        b'U' => table.tuple,
        b'K' => table.key,
        b'I' => table.number,
        b'E' => table.set,
        b'D' => table.other,
        b'Z' => table.index,
        b'Y' => table.fixed,
        b'V' if table.total.is_empty() => table.number,
        b'V' => table.total,
        b'F' => REFUSED,
        b'W' => CONDITION,
        b'S' => ARM_CONDITION,
        b'C' => COMPARISON,
        b'R' => RANGE,
        b'L' => LIST,
        b'O' => OPERATOR,
        b'N' => NUMBER,
        b'M' => SMALL,
        b'X' => TEXT,
        _ => INDEX_NAME,
    }
}
