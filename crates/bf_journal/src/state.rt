//! The state that the records of a log give in turn, and who reads a record into it.

ghost use Rattle.std.specs.Prelude.{◌≡◌, ℕ, List, IfOk, OnErr, true, false};
ghost use Rattle.bf_journal.specs.Reopening.{IsIllegal};

use bf_base::Memory;
use std::alloc::Global;

/// A state that grows by records, as contracts speak of it. It has no code: who keeps such a state
/// changes it in place.
pub trait State {
    /// What the state is seen as from outside, as a whole database is.
    type View;

    /// What a history has for each change of the view, as a transaction that committed is.
    type Entry;

    /// The state before the first record.
    ghost first: { Self };

    /// What a payload makes of a state: nothing, where it is no legal record there.
    ghost Steps: { Self → List ℕ → Self → Type 0 };

    /// The view of a state.
    ghost view: { Self → Self.View };

    /// The view after one more entry of a history.
    ghost run: { Self.View → Self.Entry → Self.View };

    /// A payload makes one state of another.
    ghost once: { (state : Self) (payload : List ℕ) (a b : Self) → Steps state payload a
        → Steps state payload b → a ≡ b };
}

/// Reads records into what keeps a state.
pub trait Reader<L: State> {
    /// What keeps the state.
    type Kept: Drop;

    /// The state that it keeps.
    ghost kept: { Self.Kept → L };

    /// What a reader and what keeps the state have to do with each other between two records.
    ghost fits: { Self → Self.Kept → Type 0 };

    /// Makes the change of a payload to the state, in place, and answers whether it is a legal
    /// record there. Where it is not, all stays as it was.
    ///
    /// # Errors
    /// Where memory runs out. All is as it was then.
    fn read(
        &mut self,
        alloc: Global,
        state: &mut Self::Kept,
        payload: &[u8],
    ) -> Result<bool, Memory>
        requires { fits self.old state.old }
        ensures legal { IfOk result (λ legal. legal ≡ true
            → L.Steps (kept state.old) payload.now (kept state.new)) }
        ensures illegal { IfOk result (λ legal. legal ≡ false
            → IsIllegal L.Steps (kept state.old) payload.now × (state.new ≡ state.old)) }
        ensures err { OnErr result (state.new ≡ state.old) }
        ensures fits { fits self.new state.new };
}
