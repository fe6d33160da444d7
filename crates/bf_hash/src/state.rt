//! States of keys, claims of them, and what a claim answers.

ghost use Rattle.std.specs.Prelude.{◌≡◌};
ghost use Rattle.bf_hash.specs.States.{is_held_under};

use bf_base::Key;

/// What a stripe has of a key that isn't free.
#[derive(Clone, Copy, Debug, PartialEq, Eq)]
pub enum Mark {
    /// It is held under this ticket, by which the stripe knows the claim again.
    Held(u64),
    /// It is done, and stays so.
    Done,
}

/// The state of a key.
#[derive(Clone, Copy, Debug, PartialEq, Eq)]
pub enum HashState {
    /// Nobody holds it, and it isn't done.
    Free,
    /// It is held under this ticket.
    Held(u64),
    /// It is done, and stays so.
    Done,
}

impl HashState {
    /// Whether it is held under this ticket.
    pub fn is_held_under(self, ticket: u64) -> bool
        ensures { result ≡ is_held_under ticket self }
    {
        match self {
            HashState::Held(other) => other == ticket,
            HashState::Free | HashState::Done => false,
        }
    }
}

/// A key that a stripe granted, and the ticket under which it did. `Stripe::claim` alone makes one.
/// It does not say which stripe: at another one it acts on that one's key where this is held under
/// the same ticket.
#[derive(Drop)]
pub struct HashClaim {
    pub(crate) key: Key,
    pub(crate) ticket: u64,
}

impl HashClaim {
    /// The key.
    pub fn key(&self) -> &Key
        ensures { result.now ≡ self.now.key }
    {
        &self.key
    }

    /// The ticket, which is at least 1.
    pub fn ticket(&self) -> u64
        ensures { result ≡ self.now.ticket }
    {
        self.ticket
    }
}

/// What a claim answers.
pub enum HashAnswer {
    /// It was free, and is held by this claim from now on.
    Claimed(HashClaim),
    /// It is held under this ticket.
    Busy(u64),
    /// It is done.
    Done,
}
