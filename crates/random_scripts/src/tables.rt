//! The tables that random scripts may have, and what statements say of each.

/// What a capital letter may stand for: forms, in which capital letters stand for more.
pub type Choices = &'static [&'static str];

/// The names of tables, of which the last is never there.
#[derive(Clone, Copy, Debug, PartialEq, Eq)]
pub enum Named {
    A,
    B,
    C,
    Extra,
    W,
    P,
    Q,
    J,
    G,
    T,
    R,
    D,
    H,
    E,
    F,
    Never,
}

/// A table, by what letters stand for beside it.
pub struct Table {
    pub named: Named,
    /// T: its name.
    pub name: Choices,
    /// U: a tuple of its columns.
    pub tuple: Choices,
    /// K: what fixes its key.
    pub key: Choices,
    /// I: a column of numbers.
    pub number: Choices,
    /// E: a column that UPDATE sets.
    pub set: Choices,
    /// D: another comparison of its columns.
    pub other: Choices,
    /// Z: the columns of an index.
    pub index: Choices,
    /// Y: what fixes columns that an index has, or that come out of such ones.
    pub fixed: Choices,
    /// V: a column that is a total where GROUP BY has made the table; empty where none is.
    pub total: Choices,
}

/// The columns of no totals.
const NONE: Choices = &[];

const NUMBERS: Choices = &["I O N", "I between N and N"];

const TEXTS: Choices = &["s = X", "s < X", "X <= s", "s between X and X"];

const NAMES: Choices = &["m = X", "m > X", "X = m and I O N"];

/// The tables that may be there.
pub static TABLES: [Table; 15] = [
    Table {
        named: Named::A,
        name: &["a"],
        tuple: &["(N, M, M, X)"],
        key: &["id = N"],
        number: &["id", "x", "y"],
        set: &["x = N", "y = y + N", "x = y - x", "s = s || X", "y = y * 7"],
        other: TEXTS,
        index: &["x", "y, x", "s"],
        fixed: &["x = N", "x = N and N = y", "s = X"],
        total: NONE,
    },
    Table {
        named: Named::B,
        name: &["b"],
        tuple: &["(N, M, M)"],
        key: &["id = N"],
        number: &["id", "x", "z"],
        set: &["x = N", "z = z + N", "z = -z", "x = x * N"],
        other: NUMBERS,
        index: &["x", "z"],
        fixed: &["x = N", "N = z"],
        total: NONE,
    },
    Table {
        named: Named::C,
        name: &["c"],
        tuple: &["(M, X, N)"],
        key: &["k = N and m = X", "m = X and N = k"],
        number: &["k", "n"],
        set: &["n = N", "n = k + n"],
        other: NAMES,
        index: &["n", "k"],
        fixed: &["n = N", "k = N"],
        total: NONE,
    },
    Table {
        named: Named::Extra,
        name: &["extra"],
        tuple: &["(N, M)"],
        key: &["id = N"],
        number: &["id", "x"],
        set: &["x = N", "x = x - N"],
        other: NUMBERS,
        index: &["x"],
        fixed: &["x = N"],
        total: NONE,
    },
    Table {
        named: Named::W,
        name: &["w"],
        tuple: &["(N, X)"],
        key: &["id = N"],
        number: &["id"],
        set: &["m = X", "m = m || 'c'"],
        other: NAMES,
        index: &["m"],
        fixed: &["m = X"],
        total: NONE,
    },
    Table {
        named: Named::P,
        name: &["p"],
        tuple: &["(N, N)"],
        key: &["id = N"],
        number: &["id", "x"],
        set: &["x = N", "x = x + id"],
        other: NUMBERS,
        index: &["x"],
        fixed: &["x = N"],
        total: NONE,
    },
    Table {
        named: Named::Q,
        name: &["q"],
        tuple: &["(N, X, N)"],
        key: &["id = N"],
        number: &["id", "y"],
        set: &["y = y + N", "s = X", "s = s || s"],
        other: TEXTS,
        index: &["y", "s"],
        fixed: &["y = N", "s = X"],
        total: NONE,
    },
    Table {
        named: Named::J,
        name: &["j"],
        tuple: &["(N, N, N, N)"],
        key: &["id = N"],
        number: &["id", "x", "y", "z"],
        set: &["x = N", "y = y + z", "z = z - 1"],
        other: NUMBERS,
        index: &["x", "z"],
        fixed: &["x = N", "z = N", "y = N"],
        total: NONE,
    },
    Table {
        named: Named::G,
        name: &["g"],
        tuple: &["(N, N, N, N)"],
        key: &["x = N"],
        number: &["x", "cnt", "total", "top"],
        set: &["cnt = cnt + 1", "total = N", "top = top - total"],
        other: &["cnt = 1", "total > N", "x > N and cnt < N", "top O total"],
        index: &["cnt", "total"],
        fixed: &["cnt = N", "total = N"],
        total: &["cnt", "total", "top"],
    },
    Table {
        named: Named::T,
        name: &["t"],
        tuple: &["(1, N, N)", "(2, N, N)", "(N, N, N)"],
        key: &["tag = 1 and id = N", "id = N and tag = 2"],
        number: &["tag", "id", "v"],
        set: &["v = N", "v = v + tag"],
        other: &["tag = 1", "tag <> 1 and v O N", "tag = 2 or id = N"],
        index: &["v", "id, tag"],
        fixed: &["v = N", "id = N", "v = N and tag = 2"],
        total: NONE,
    },
    Table {
        named: Named::R,
        name: &["r"],
        tuple: &["(N, N, N)"],
        key: &["aid = N and bid = N"],
        number: &["aid", "bid", "v"],
        set: &["v = N", "v = aid - bid"],
        other: &["aid = N", "bid = N", "v = N and aid < N"],
        index: &["aid", "v"],
        fixed: &["aid = N", "bid = N", "v = N"],
        total: NONE,
    },
    Table {
        named: Named::D,
        name: &["d"],
        tuple: &["(X, N, N)"],
        key: &["m = X"],
        number: &["cnt", "low"],
        set: &["cnt = N", "low = low + cnt"],
        other: NAMES,
        index: &["cnt"],
        fixed: &["cnt = N", "low = N"],
        total: &["cnt", "low"],
    },
    Table {
        named: Named::H,
        name: &["h"],
        tuple: &["(X, N, N)"],
        key: &["s = X and x = N"],
        number: &["x", "cnt"],
        set: &["cnt = cnt * 2", "cnt = N"],
        other: TEXTS,
        index: &["x", "s"],
        fixed: &["x = N", "s = X"],
        total: &["cnt"],
    },
    Table {
        named: Named::E,
        name: &["e"],
        tuple: &["(N, X, N, N)"],
        key: &["aid = N and m = X and k = N"],
        number: &["aid", "k", "n"],
        set: &["n = N", "n = aid + k"],
        other: NAMES,
        index: &["aid", "m"],
        fixed: &["aid = N", "k = N", "m = X"],
        total: NONE,
    },
    Table {
        named: Named::F,
        name: &["f"],
        tuple: &["(N, N, X, N)"],
        key: &["id = N"],
        number: &["id", "x", "n"],
        set: &["n = N", "s = X || X"],
        other: TEXTS,
        index: &["x"],
        fixed: &["x = N", "n = N"],
        total: NONE,
    },
];

/// The table that never is there.
pub static NEVER: Table = Table {
    named: Named::Never,
    name: &["never"],
    tuple: &["(N)"],
    key: &["id = N"],
    number: &["id"],
    set: &["x = N"],
    other: NUMBERS,
    index: &["id"],
    fixed: &["id = N"],
    total: NONE,
};

/// What is said of the table of a name.
pub fn described(named: Named) -> &'static Table {
    TABLES
        .iter()
        .find(|table| table.named == named)
        .unwrap_or(&NEVER)
}
