//! A file between two calls.

use bf_disk::TapeDisk;
use bf_log::{Log, Opening};

/// A file, and as what it is open.
#[derive(Drop)]
pub enum State {
    File(TapeDisk),
    Reading(Opening<TapeDisk>),
    Log(Log<TapeDisk>),
}

impl State {
    /// The file, as nothing more.
    pub fn into_disk(self) -> TapeDisk {
        match self {
            State::File(disk) => disk,
            State::Reading(opening) => opening.into_disk(),
            State::Log(log) => log.into_disk(),
        }
    }

    /// The file, where it is not being read.
    pub fn disk(&self) -> Option<&TapeDisk> {
        match self {
            State::File(disk) => Some(disk),
            State::Reading(_) => None,
            State::Log(log) => Some(log.disk()),
        }
    }
}
