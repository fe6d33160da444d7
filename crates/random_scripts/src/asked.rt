//! What is known of a statement when it is written.

use crate::changes::Kind;
use crate::forms::{Reach, Verb};

/// Where a statement on a table stands.
#[derive(Clone, Copy, Debug, PartialEq, Eq)]
pub enum Moment {
    /// It is on a table that no MIGRATE has made, or not the last one.
    Elsewhere,
    /// It is on a table that the last MIGRATE has made, of which no row has moved yet: no statement on a table stands
    /// between.
    RightBehind,
    /// It is on a table that the last MIGRATE has made, further behind.
    Later,
}

/// A MIGRATE that is taken.
#[derive(Clone, Copy, Debug, PartialEq, Eq)]
pub struct Flip {
    pub kind: Kind,
    /// Whether a target has the name of a source.
    pub is_onto_source: bool,
    /// Whether a source has an index.
    pub is_over_index: bool,
}

/// A statement of a script.
#[derive(Clone, Copy, Debug, PartialEq, Eq)]
pub enum Asked {
    Begin,
    /// ROLLBACK in a block.
    RollBack,
    /// A statement on a table.
    On(Verb, Reach, Moment),
    Migrate(Flip),
    /// What is counted by its reply alone.
    Other,
}
