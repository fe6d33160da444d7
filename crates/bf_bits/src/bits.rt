//! The tracker, the seats by which threads step, and the claims that they make.

ghost use Rattle.std.specs.Prelude.{◌≡◌, ◌<◌, ◌∷◌, [], ℕ, All, IfErr, IfOk};
ghost use Rattle.std.specs.List.Sorted.{IsStrictlyIncreasing};
ghost use Rattle.bf_bits.specs.Positions.{Has, IsDistinct, without};
ghost use Rattle.bf_bits.specs.Words.{state_in, word_count};
ghost use Rattle.bf_bits.specs.Steps.{held_after};
ghost use Rattle.bf_bits.specs.Seats.{Holds, HasFinished, first_seat, new_seat, after_step, joined};
ghost use Rattle.bf_bits.specs.Answers.{answer_for};
ghost use Rattle.bf_bits.specs.Closing.{ClosesAs};

use crate::answer::Look;
use crate::origin::Origin;
use crate::rule::{Claims, Finishes, GivesBack, Law, Looks, Made, Seating, View};
use crate::words::{
    GRANULES_PER_WORD, gather, lock_mask, marked, migrate_mask, state_of, words_for,
};
use atomic_table::{Seat, Table};
use bf_base::Memory;
use std::alloc::Global;
use std::marker::Model;

/// What a claim answers.
pub enum BitAnswer {
    /// It was free, and the seat holds it from now on.
    Claimed(BitClaim),
    /// A seat holds it.
    Busy,
    /// It is done.
    Done,
}

/// A position of one tracker, which a seat holds. `claim` alone makes one.
#[derive(Drop)]
pub struct BitClaim {
    at: u32,
    origin: Origin,
}

impl Model for BitClaim {
    ghost use Rattle.bf_bits.specs.Seats.{Claim};

    ghost Value = { Claim };

    ghost view = { λ claim. record { table = claim.origin.table; at = claim.at } };
}

impl BitClaim {
    /// The position.
    pub fn at(&self) -> u32
        ensures { result ≡ self.now.at }
    {
        self.at
    }
}

/// The words of a tracker. Threads share it by `&`, each with a seat of its own. Each call but
/// `of_done` and `close` takes constant time.
#[derive(Drop)]
pub struct Bits {
    table: Table<(), View, Made, Law, Global>,
    granules: u32,
}

impl Model for Bits {
    ghost use Rattle.bf_bits.specs.Seats.{Tracker, IsMade};

    ghost Value = { Tracker };

    ghost view = { λ bits. record { granules = bits.granules; table = bits.table.shared.table_id } };

    ghost invariant = { λ bits. IsMade bits.table.shared.table_id bits.table.shared.key bits.granules };
}

/// By what a thread steps on a tracker. It has no bytes.
#[derive(Drop)]
pub struct BitSeat {
    seat: Seat<(), View>,
}

impl Model for BitSeat {
    ghost use Rattle.bf_bits.specs.Seats.{Seat, IsSeated};

    ghost Value = { Seat };

    ghost view = { λ seat. record { table = seat.seat.table_id; view = seat.seat.me.0 } };

    ghost invariant = { λ seat. IsSeated seat.seat.table_id seat.seat.me };
}

impl Bits {
    /// A tracker of this many granules, of which these positions are done and none is held, and its
    /// first seat. Two bits for each granule, and at least one word. Linear in the number of granules.
    pub fn of_done(alloc: Global, granules: u32, done: &[u32]) -> Result<(Bits, BitSeat), Memory>
        requires below { All (λ at. at < granules) done.now }
        requires distinct { IsDistinct done.now }
        ensures granules { IfOk result (λ made. made.0.granules ≡ granules) }
        ensures words { IfOk result (λ made. made.0.table.words ≡ word_count granules) }
        ensures first_seat { IfOk result (λ made. made.1 ≡ first_seat made.0.table done.now) }
    {
        let words = marked(alloc, words_for(granules), done)?;
        let mut kept = Vec::with_capacity(alloc, done.len())?;
        kept.extend_from_slice(done)?;
        let made = Made {
            words: words.len(),
            granules,
            done: kept,
        };
        let (table, seat) = Table::of_words(alloc, words.as_slice(), &made)?;
        Ok((Bits { table, granules }, BitSeat { seat }))
    }

    /// How many granules there are.
    pub fn granules(&self) -> u32
        ensures { result ≡ self.now.granules }
    {
        self.granules
    }

    /// Claims a position by one step: claimed exactly where the step found both of its bits unset,
    /// `Busy` exactly where it found the lock bit alone, and `Done` exactly where it found the migrate
    /// bit. Takes no memory, and waits for nobody.
    pub fn claim(&self, seat: &mut BitSeat, at: u32) -> BitAnswer
        requires at { at < self.now.granules }
        requires own { seat.old.table ≡ self.now.table }
        ensures answer { result ≡ answer_for self.now.table at (state_in seat.new.view.found at) }
        ensures step { seat.new ≡ after_step seat.old seat.new.view.found
            (held_after at (state_in seat.new.view.found at) seat.old.view.held)
            seat.old.view.finished }
        ensures held { Holds seat.old at → result ≡ BitAnswer.Busy }
        ensures finished { HasFinished seat.old at → result ≡ BitAnswer.Done }
    {
        let word = (at / GRANULES_PER_WORD) as usize;
        let found = self
            .table
            .shared
            .fetch_or::<Claims>(&mut seat.seat, word, lock_mask(at));
        match state_of(found, at) {
            Look::Free => BitAnswer::Claimed(self.grant(at)),
            Look::Held => BitAnswer::Busy,
            Look::Done => BitAnswer::Done,
        }
    }

    fn grant(&self, at: u32) -> BitClaim
        ensures { result ≡ record { table = self.now.table; at = at } }
    {
        BitClaim {
            at,
            origin: Origin::of(self),
        }
    }

    /// Looks at a position by one step, which changes nothing. Takes no memory, and waits for nobody.
    pub fn look(&self, seat: &mut BitSeat, at: u32) -> Look
        requires at { at < self.now.granules }
        requires own { seat.old.table ≡ self.now.table }
        ensures answer { result ≡ state_in seat.new.view.found at }
        ensures step { seat.new ≡ after_step seat.old seat.new.view.found seat.old.view.held
            seat.old.view.finished }
        ensures held { Holds seat.old at → result ≡ Look.Held }
        ensures finished { HasFinished seat.old at → result ≡ Look.Done }
    {
        let word = (at / GRANULES_PER_WORD) as usize;
        let found = self.table.shared.load::<Looks>(&mut seat.seat, word);
        state_of(found, at)
    }

    /// Finishes what the seat holds of this tracker, by one step. Takes no memory, and waits for
    /// nobody.
    pub fn finish(&self, seat: &mut BitSeat, claim: BitClaim)
        requires own { seat.old.table ≡ self.now.table }
        requires of_this { claim.table ≡ self.now.table }
        requires held { Holds seat.old claim.at }
        ensures found { state_in seat.new.view.found claim.at ≡ Look.Held }
        ensures step { seat.new ≡ after_step seat.old seat.new.view.found
            (without claim.at seat.old.view.held) (claim.at ∷ seat.old.view.finished) }
    {
        let BitClaim { at, origin: _ } = claim;
        let word = (at / GRANULES_PER_WORD) as usize;
        self.table
            .shared
            .fetch_or::<Finishes>(&mut seat.seat, word, migrate_mask(at));
    }

    /// Gives back what the seat holds of this tracker, by one step. Takes no memory, and waits for
    /// nobody.
    pub fn give_back(&self, seat: &mut BitSeat, claim: BitClaim)
        requires own { seat.old.table ≡ self.now.table }
        requires of_this { claim.table ≡ self.now.table }
        requires held { Holds seat.old claim.at }
        ensures found { state_in seat.new.view.found claim.at ≡ Look.Held }
        ensures step { seat.new ≡ after_step seat.old seat.new.view.found
            (without claim.at seat.old.view.held) seat.old.view.finished }
    {
        let BitClaim { at, origin: _ } = claim;
        let word = (at / GRANULES_PER_WORD) as usize;
        self.table
            .shared
            .fetch_and::<GivesBack>(&mut seat.seat, word, !lock_mask(at));
    }

    /// A seat for another thread, which holds nothing and has finished nothing. Takes no memory.
    pub fn split(&self, seat: &mut BitSeat) -> BitSeat
        requires own { seat.old.table ≡ self.now.table }
        ensures same { seat.new ≡ seat.old }
        ensures other { result ≡ new_seat self.now.table }
    {
        let other = self.table.shared.split_seat::<Seating>(&mut seat.seat);
        BitSeat { seat: other }
    }

    /// The seat takes in all that another holds and has finished. Takes no memory.
    pub fn join_back(&self, seat: &mut BitSeat, other: BitSeat)
        requires own { seat.old.table ≡ self.now.table }
        requires other { other.table ≡ self.now.table }
        ensures joined { seat.new ≡ joined seat.old other }
    {
        let BitSeat { seat: other } = other;
        self.table
            .shared
            .join_seat::<Seating>(&mut seat.seat, other);
    }

    /// The positions that are done, rising: all that the seat has finished, and what other seats have
    /// finished that were never joined into it. Linear in the number of granules.
    ///
    /// # Errors
    /// Where memory runs out. The tracker and the seat come back as they were.
    pub fn close(self, alloc: Global, seat: BitSeat) -> Result<Vec<u32>, (Bits, BitSeat, Memory)>
        requires own { seat.table ≡ self.table }
        requires none_held { seat.view.held ≡ [] }
        ensures rising { IfOk result (λ done. IsStrictlyIncreasing done.items) }
        ensures below { IfOk result (λ done. (at : ℕ) → Has done.items at → at < self.granules) }
        ensures finished { IfOk result (λ done. (at : ℕ) → HasFinished seat at
            → Has done.items at) }
        // Exactly those that are finished in a state that satisfies the rule and has the seat's view.
        ensures told { IfOk result (λ done. ClosesAs self seat done.items) }
        ensures memory { IfErr result (λ back. (back.0 ≡ self) × (back.1 ≡ seat)) }
    {
        let Ok(done) = Vec::with_capacity(alloc, self.granules as usize) else {
            return Err((self, seat, Memory));
        };
        let Bits { table, granules } = self;
        let BitSeat { seat } = seat;
        let closed = table.close_with(seat);
        let done = gather(done, &closed, granules);
        closed.free();
        Ok(done)
    }
}
