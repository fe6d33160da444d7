//! Lock modes.

ghost use Rattle.std.specs.Prelude.{◌≡◌, ◌↔◌, not, Some};
ghost use Rattle.bf_tables.specs.Cases.{word_at};
ghost use Rattle.bf_locks.specs.Modes.{are_compatible, interfere, join_of, covers, IsLeastCover, number_of, word_of};

use bf_tables::{Cases, case_of_number, number_of_case, of_cases};

/// In which way an owner holds a name, and with it the parts of what the name stands for.
#[derive(Clone, Copy, Debug, PartialEq, Eq)]
pub enum Mode {
    /// Reads parts, each under a lock of its own.
    IS,
    /// Reads and writes parts, each under a lock of its own.
    IX,
    /// Reads all.
    S,
    /// Reads all, and writes parts, each under a lock of its own.
    SIX,
    /// Reads and writes all.
    X,
}

macro_rules! modes {
    ($callback:ident, $value:expr) => {
        $callback!($value; Mode::IS = 0, Mode::IX = 1, Mode::S = 2, Mode::SIX = 3, Mode::X = 4)
    };
}

impl Mode {
    /// The mode's number, below 5. Takes no memory.
    pub fn number(self) -> u8
        ensures { result ≡ number_of self }
    {
        modes!(number_of_case, self)
    }

    /// The mode of a number, and `None` exactly where no mode has it. Takes no memory.
    pub fn of_number(number: u8) -> Option<Mode>
        ensures { (mode : Mode) → (result ≡ Some mode) ↔ (number_of mode ≡ number) }
    {
        modes!(case_of_number, number)
    }

    /// The words of the modes, by their numbers. Takes no memory.
    pub fn cases() -> Cases<5>
        ensures { (mode : Mode) → word_at result (number_of mode) ≡ Some (word_of mode) }
    {
        of_cases([(0, "IS"), (1, "IX"), (2, "S"), (3, "SIX"), (4, "X")]).unwrap()
    }
}

// A row for each mode, and in it an entry for each mode, both in the order of their numbers.
const COMPATIBLE: [[bool; 5]; 5] = [
    [true, true, true, true, false],
    [true, true, false, false, false],
    [true, false, true, false, false],
    [true, false, false, false, false],
    [false, false, false, false, false],
];

/// Whether two owners may hold one name in these modes. One look into a table; takes no memory.
pub fn compatible(a: Mode, b: Mode) -> bool
    ensures stated { result ≡ are_compatible a b }
    ensures symmetric { result ≡ are_compatible b a }
    // It is no where one may write what the other may read or write.
    ensures meaning { result ≡ not (interfere a b) }
{
    COMPATIBLE[a as usize][b as usize]
}

/// The least mode that covers both. Takes no memory.
pub fn join(a: Mode, b: Mode) -> Mode
    ensures value { result ≡ join_of a b }
    ensures least { IsLeastCover a b result }
{
    if is_covered(b, a) {
        a
    } else if is_covered(a, b) {
        b
    } else {
        Mode::SIX
    }
}

// Whether the second mode covers the first.
fn is_covered(below: Mode, above: Mode) -> bool
    ensures { result ≡ covers above below }
{
    match (below, above) {
        (Mode::IS, _) | (_, Mode::X) => true,
        (Mode::IX, Mode::IX | Mode::SIX) => true,
        (Mode::S, Mode::S | Mode::SIX) => true,
        (Mode::SIX, Mode::SIX) => true,
        _ => false,
    }
}
