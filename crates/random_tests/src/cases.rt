//! What random scripts are to try, and how often at least.

use random_scripts::asked::Moment;
use random_scripts::asked::Moment::{Later, RightBehind};
use random_scripts::changes::Kind;
use random_scripts::forms::{Reach, Verb};

/// How replies begin, and how often at least each occurs.
pub const REPLIES: &[(&str, u64)] = &[
    ("created", 5200),
    ("inserted ", 25600),
    ("inserted 3", 150),
    ("updated ", 3800),
    ("updated 1", 660),
    ("deleted ", 3400),
    ("rows ", 6800),
    ("| ", 25400),
    ("| NULL", 240),
    ("migrated 1", 1400),
    ("migrated 2", 440),
    ("begun", 1560),
    ("committed ", 520),
    ("rolled back", 560),
    ("E1 ", 1060),
    ("E2 ", 240),
    ("E3 ", 200),
    ("E4 ", 9000),
    ("E5 ", 800),
    ("E6 ", 1660),
    ("E7 ", 52),
    ("E8 ", 192),
    ("E9 ", 42),
    ("E10 ", 800),
    ("E11 ", 76),
    ("E12 ", 280),
    ("E13 ", 480),
    ("E14 ", 154),
    ("E15 ", 42),
    ("E16 ", 400),
    ("E18 ", 12),
    ("E19 ", 24),
];

/// What scripts are to try.
#[derive(Clone, Copy, Debug, PartialEq, Eq)]
pub enum Case {
    /// A statement on a table that meets rows, makes some, or makes an index.
    Met(Verb, Reach, Moment),
    /// An INSERT that is refused by a key which is there.
    Duplicate(Moment),
    /// A MIGRATE that makes tables of this.
    Migrate(Kind),
    /// A MIGRATE one of whose targets has the name of a source.
    OntoSource,
    /// A MIGRATE one of whose sources has an index.
    OverIndex,
    /// A MIGRATE while rows of the one before it are still to move.
    OverRunning,
    /// ROLLBACK of a block that has changed rows of a table which the last MIGRATE has made.
    RolledBack,
}

/// What comes up, and how often at least.
pub const CASES: &[(Case, u64)] = &[
    (Case::Met(Verb::Select, Reach::Whole, RightBehind), 56),
    (Case::Met(Verb::Select, Reach::Whole, Later), 220),
    (Case::Met(Verb::Select, Reach::Key, RightBehind), 18),
    (Case::Met(Verb::Select, Reach::Key, Later), 78),
    (Case::Met(Verb::Select, Reach::Fixed, RightBehind), 44),
    (Case::Met(Verb::Select, Reach::Fixed, Later), 128),
    (Case::Met(Verb::Select, Reach::Range, RightBehind), 98),
    (Case::Met(Verb::Select, Reach::Range, Later), 380),
    (Case::Met(Verb::Select, Reach::Total, RightBehind), 14),
    (Case::Met(Verb::Select, Reach::Total, Later), 70),
    (Case::Met(Verb::Select, Reach::Any, RightBehind), 34),
    (Case::Met(Verb::Select, Reach::Any, Later), 184),
    (Case::Met(Verb::Insert, Reach::Key, RightBehind), 76),
    (Case::Duplicate(RightBehind), 78),
    (Case::Met(Verb::Insert, Reach::Key, Later), 440),
    (Case::Duplicate(Later), 300),
    (Case::Met(Verb::Update, Reach::Whole, RightBehind), 42),
    (Case::Met(Verb::Update, Reach::Whole, Later), 192),
    (Case::Met(Verb::Update, Reach::Key, RightBehind), 24),
    (Case::Met(Verb::Update, Reach::Key, Later), 66),
    (Case::Met(Verb::Update, Reach::Fixed, RightBehind), 12),
    (Case::Met(Verb::Update, Reach::Fixed, Later), 54),
    (Case::Met(Verb::Update, Reach::Range, RightBehind), 82),
    (Case::Met(Verb::Update, Reach::Range, Later), 360),
    (Case::Met(Verb::Update, Reach::Total, RightBehind), 12),
    (Case::Met(Verb::Update, Reach::Total, Later), 76),
    (Case::Met(Verb::Update, Reach::Any, RightBehind), 32),
    (Case::Met(Verb::Update, Reach::Any, Later), 154),
    (Case::Met(Verb::Delete, Reach::Key, RightBehind), 18),
    (Case::Met(Verb::Delete, Reach::Key, Later), 78),
    (Case::Met(Verb::Delete, Reach::Fixed, RightBehind), 4),
    (Case::Met(Verb::Delete, Reach::Fixed, Later), 26),
    (Case::Met(Verb::Delete, Reach::Range, RightBehind), 46),
    (Case::Met(Verb::Delete, Reach::Range, Later), 156),
    (Case::Met(Verb::Delete, Reach::Total, RightBehind), 6),
    (Case::Met(Verb::Delete, Reach::Total, Later), 24),
    (Case::Met(Verb::Delete, Reach::Any, RightBehind), 18),
    (Case::Met(Verb::Delete, Reach::Any, Later), 50),
    (Case::Met(Verb::Index, Reach::Whole, RightBehind), 52),
    (Case::Met(Verb::Index, Reach::Whole, Later), 176),
    (Case::Migrate(Kind::Rows), 860),
    (Case::Migrate(Kind::Joined), 240),
    (Case::Migrate(Kind::Totals), 360),
    (Case::Migrate(Kind::Pairs), 128),
    (Case::Migrate(Kind::Tagged), 82),
    (Case::Migrate(Kind::Mixed), 184),
    (Case::OntoSource, 440),
    (Case::OverIndex, 540),
    (Case::OverRunning, 480),
    (Case::RolledBack, 108),
];
