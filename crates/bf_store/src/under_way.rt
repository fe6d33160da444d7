//! The last migration, as a store keeps it.

ghost use Rattle.std.specs.Prelude.{◌≡◌, Some};
ghost use Rattle.bf_sql.specs.migrations.Lazy.{sweep_of};
ghost use Rattle.bf_store.specs.Stores.{IsCounted, last_seen};

use crate::anchor::Anchor;
use crate::done::Done;
use bf_image::MigrationPass;
use bf_tree::Sweep;

/// The last migration: its number, what has moved of it, and the first anchor whose granule has
/// not.
#[derive(Drop)]
pub struct UnderWay {
    pub number: u32,
    pub pass: MigrationPass,
    pub done: Done,
    pub next: Option<Anchor>,
}

impl UnderWay {
    /// How far the migration has come. Takes no memory.
    pub(crate) fn sweep(&self) -> Sweep
        requires { IsCounted self.now }
        ensures { result ≡ sweep_of (Some (last_seen self.now)) }
    {
        let moved = self.done.len() as u32;
        match self.next {
            Some(Anchor { unit, position }) => Sweep::Running {
                migration: self.number,
                moved,
                unit,
                position,
            },
            None => Sweep::Complete {
                migration: self.number,
                moved,
            },
        }
    }
}
