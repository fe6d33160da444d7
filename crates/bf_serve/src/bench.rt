//! What the loops of sessions and workers ask for, over what the threads of a run share.

ghost use Rattle.std.specs.Prelude.{◌≡◌, [], IfOk, IfSome, None, OnErr, true};
ghost use Rattle.boxcar.specs.Table.{Shows};
ghost use Rattle.bf_bench.specs.Notes.{noting};
ghost use Rattle.bf_machine.specs.interleaving.Calls.{IsPlace};
ghost use Rattle.bf_serve.specs.Seats.{Hold, IsSeatOf};

use crate::ahead::{Ahead, granules_between, most_granules};
use crate::engine::{Beginning, MovedWork};
use crate::seats::Seats;
use crate::shared::{Shared, Step};
use bf_base::{Granule, Memory};
use bf_bench::{Bench, Carried, Gate, Left, News, Taken, Turn};
use bf_drive::Wip;
use bf_image::MigrationPass;
use bf_machine::Journal;
use bf_store::Images;
use bf_trackers::Work;
use std::sync::Wait;

impl<'r, 'g, N: Beginning<J>, J: Journal, R: Wait, G: Gate> Shared<'r, 'g, N, J, R, G> {
    /// Takes a seat at the trackers of a migration, unless the actor has one there, and tells whether it has one now. It
    /// has none where the migration is not the last one any more.
    ///
    /// # Errors
    /// Where memory runs out.
    fn take_seat(&self, seats: &mut Seats<N>, pass: &MigrationPass) -> Result<bool, Memory>
        requires pass { Shows N.registry.migrations pass.now }
        requires idle { Hold seats.old [] }
        ensures seated { IfOk result (λ is. is ≡ true → IsSeatOf seats.new.seat pass.now.value) }
        ensures notes { noting seats.new.notes None [] ≡ noting seats.old.notes None [] }
        ensures kept { OnErr result (seats.new ≡ seats.old) }
        ensures spent { Hold seats.new [] }
    {
        if seats.are_at(self.registry, pass) {
            return Ok(true);
        }
        match self.seat(pass)? {
            Some(seat) => {
                seats.take(self.alloc, seat);
                Ok(true)
            }
            None => Ok(false),
        }
    }

    /// Does work: makes the images of its granules, and then moves them in one section. `None` where they have not moved.
    ///
    /// # Errors
    /// Where memory runs out.
    fn move_work(
        &self,
        session: Option<u32>,
        work: &Work,
    ) -> Result<Option<MovedWork<N, J>>, Memory>
        requires session { IfSome session (IsPlace N.script) }
        requires pass { Shows N.registry.migrations work.now.pass }
        ensures { IfOk result (λ moved. IfSome moved (λ moved. moved.work.value ≡ work.now)) }
    {
        let lookups = self.lookups(work.pass())?;
        let indexes = lookups.indexes();
        let migration = self.registry.migration(work.pass());
        let images = Images::of(self.alloc, migration, indexes, work.granules())?;
        let moved = self
            .engine()
            .move_granules(self.registry, session, work, indexes, images);
        self.wake();
        moved
    }

    /// Gives back what is claimed, and tells those who wait for it.
    fn free(&self, seats: &mut Seats<N>, wip: Wip)
        requires { Hold seats.old wip }
        ensures noted { seats.new.notes ≡ seats.old.notes }
        ensures spent { Hold seats.new [] }
    {
        seats.free(self.rt, wip);
        self.note_given_back();
    }
}

impl<'r, 'g, N: Beginning<J>, J: Journal, R: Wait, G: Gate> Bench for Shared<'r, 'g, N, J, R, G> {
    ghost use Rattle.bf_serve.specs.Seats.{Hold, one_number};

    type Seats = Seats<N>;

    ghost seen = { λ seats. seats.notes };

    ghost Holds = { Hold };

    ghost one_number = { one_number };

    fn turn(&self, seats: &mut Seats<N>, session: u32) -> Result<Turn, Memory> {
        if !self.is_session(session) {
            seats.note_session_ended(self.alloc, session);
            return Ok(Turn::Ended);
        }
        let mut upcoming = seats.take_upcoming();
        let step = self.take_turn(session, &mut upcoming)?;
        seats.keep_upcoming(upcoming);
        match step {
            Step::Again => {
                seats.note_nothing(self.alloc);
                Ok(Turn::Again)
            }
            Step::Replied(statement) => {
                seats.note_reply(self.alloc);
                Ok(Turn::Replied(statement))
            }
            Step::Wait(seen) => {
                seats.note_nothing(self.alloc);
                Ok(Turn::Wait(seen))
            }
            Step::Ended => {
                seats.note_session_ended(self.alloc, session);
                Ok(Turn::Ended)
            }
            Step::Need(pass, granules, seen) => {
                if !self.take_seat(seats, &pass)? {
                    seats.note_nothing(self.alloc);
                    return Ok(Turn::Again);
                }
                let migration = self.registry.migration(&pass).number;
                seats.note(migration, &granules);
                Ok(Turn::Need {
                    migration,
                    granules,
                    seen,
                })
            }
        }
    }

    fn left(&self, seats: &mut Seats<N>, most: u32) -> Result<Left, Memory> {
        let ahead = self.engine().ahead(self.registry, most)?;
        let anchors = match ahead {
            Ahead::Anchors(anchors) => anchors,
            Ahead::Wait(seen) => {
                seats.note_nothing(self.alloc);
                return Ok(Left::Wait(seen));
            }
            Ahead::Ended => {
                seats.note_phase_ended(self.alloc);
                return Ok(Left::Ended);
            }
        };
        let last = self.registry.migration(&anchors.pass);
        let granules = granules_between(self.alloc, last, &anchors, most)?;
        if granules.is_empty() || !self.take_seat(seats, &anchors.pass)? {
            seats.note_nothing(self.alloc);
            return Ok(Left::Wait(anchors.seen));
        }
        seats.note(last.number, &granules);
        Ok(Left::Granules {
            migration: last.number,
            granules,
            seen: anchors.seen,
        })
    }

    fn claim(&self, seats: &mut Seats<N>, granule: &Granule) -> Result<Taken, Memory> {
        seats.claim(self.rt, granule)
    }

    fn claim_again(&self, seats: &mut Seats<N>, granule: &Granule) -> Result<Taken, Memory> {
        seats.claim_again(self.rt, granule)
    }

    fn carry(&self, seats: &mut Seats<N>, wip: Wip) -> Result<Carried, Memory> {
        let Some(pass) = seats.pass() else {
            unreachable!();
        };
        let work = match Work::of(self.alloc, pass, wip) {
            Ok(work) => work,
            Err((wip, memory)) => {
                self.free(seats, wip);
                return Err(memory);
            }
        };
        let last = self.registry.migration(work.pass());
        let news = News::Moved {
            migration: last.number,
            granules: work.granules().len() as u32,
            most: most_granules(last),
        };
        let moved = self.move_work(seats.session(), &work);
        let wip = work.into_wip();
        match moved {
            Ok(Some(moved)) => {
                seats.finish(self.rt, wip, moved);
                self.note_finished();
                self.gate.tell(news);
                Ok(Carried::Moved)
            }
            Ok(None) => {
                seats.free(self.rt, wip);
                self.note_refused();
                seats.note_refused();
                Ok(Carried::Failed)
            }
            Err(memory) => {
                self.free(seats, wip);
                Err(memory)
            }
        }
    }

    fn give_back(&self, seats: &mut Seats<N>, wip: Wip) {
        self.free(seats, wip);
        seats.note_given_back();
    }

    fn wait(&self, seen_before: u64) {
        self.wait_for(seen_before);
    }

    fn rest(&self, seen_before: u64) {
        self.rest_for(seen_before);
    }
}
