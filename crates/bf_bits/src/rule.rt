// The rule of the words, and what each kind of step tells. There are no other steps.
use atomic_table::{Join, Play, Split, TableRule};
use std::collections::LinkedList;

/// What a seat knows. Proofs alone have values of it.
pub struct View {
    /// The positions that it holds, and those that it finished or was made with.
    pub held: LinkedList<u64>,
    pub finished: LinkedList<u64>,
    /// The word that its last step found, and how many steps it made.
    pub found: u64,
    pub steps: u64,
}

/// The rule of a tracker.
pub struct Law;

/// What a tracker is made with: its words, its granules, and the positions that are done already.
#[derive(Drop)]
pub struct Made {
    pub words: usize,
    pub granules: u32,
    pub done: Vec<u32>,
}

impl TableRule<(), View, Made> for Law {
    ghost use Rattle.bf_bits.specs.Tracker.{Tracks, beginner};

    ghost holds = { λ made. Tracks made.words made.granules };

    ghost first = { λ made. beginner made.done.items };
}

/// A load.
pub struct Looks;

impl Play<(), View> for Looks {
    ghost use Rattle.bf_bits.specs.Steps.{looked};

    ghost then = { looked };
}

/// The lock bit is set.
pub struct Claims;

impl Play<(), View> for Claims {
    ghost use Rattle.bf_bits.specs.Steps.{claimed};

    ghost then = { claimed };
}

/// The migrate bit is set.
pub struct Finishes;

impl Play<(), View> for Finishes {
    ghost use Rattle.bf_bits.specs.Steps.{finished_one};

    ghost then = { finished_one };
}

/// The lock bit is cleared.
pub struct GivesBack;

impl Play<(), View> for GivesBack {
    ghost use Rattle.bf_bits.specs.Steps.{given_back};

    ghost then = { given_back };
}

/// A seat is made that knows nothing, or one is spent, whose lists another takes in.
pub struct Seating;

impl Split<View> for Seating {
    ghost use Rattle.bf_bits.specs.Tracker.{nobody};

    ghost left = { λ view. view };

    ghost right = { λ view. nobody };
}

impl Join<View> for Seating {
    ghost use Rattle.bf_bits.specs.Tracker.{both_of, nobody};

    ghost both = { both_of };

    ghost spent = { nobody };
}
