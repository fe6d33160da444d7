// A bench in memory, on one thread: what an actor is told and does stands in its seats.

ghost use Rattle.std.specs.Prelude.{◌≡◌, ◌<◌, ◌≤◌, [], Some, None, IfOk, IfSome, OnErr, OnOk, false, length};
ghost use Rattle.std.specs.List.{AllByRecursion};
ghost use Rattle.bf_bench.specs.Notes.{AreOfOneUnit, fresh, noting};
ghost use Rattle.bf_drive.specs.Lists.{AreDifferent};
ghost use Rattle.bench_tests.specs.Seen.{IsTaken, MayAdd, notes_in, held_with};

use crate::rows::{Rows, position_of};
use bf_base::{Granule, Memory, Place, Sequence};
use bf_bench::{Bench, Carried, Left, Taken, Turn};
use bf_drive::Wip;
use std::alloc::Global;
use std::sync::atomic::{AtomicU64, Ordering};

/// No call, and no move.
pub const NEVER: u32 = u32::MAX;

/// The migration whose rows there are.
pub const MIGRATION: u32 = 7;

/// How often a row is asked for at most before it is busy no longer, so that a loop which never
/// waits ends too, with other counts.
const MOST_ASKED: u32 = 9;

/// Which rows are told as busy.
#[derive(Clone, Copy)]
pub enum Busy {
    Never,
    /// Each third one, the first so many times that it is asked for.
    Thirds(u32),
    /// Each third one at its claim; by the second look another actor has moved it.
    ThirdsElsewhere,
    /// Each, as often as its position tells.
    ByPosition,
    /// All, until so many waits and rests.
    UntilWaits(u64),
}

/// A bench. Its session begins, is served one statement after the other, waits once and has ended;
/// its worker rests once where nothing is left, and is told then that the phase has ended.
#[derive(Drop)]
pub struct Hall {
    pub alloc: Global,
    /// The first row and the end of the rows that each statement needs.
    pub needs: &'static [(u32, u32)],
    pub rows: u32,
    /// The first row of the second unit.
    pub second_unit: u32,
    pub busy: Busy,
    /// The number of the call that has no memory.
    pub fails_at: u32,
    /// The number of the move that is refused.
    pub refuses_at: u32,
    waits: AtomicU64,
    waited: AtomicU64,
    rests: AtomicU64,
    rested: AtomicU64,
}

/// The seats of an actor.
#[derive(Drop)]
pub struct Seats {
    pub rows: Rows,
    stage: u32,
    migration: Option<u32>,
    noted: Sequence<Granule>,
    asked: usize,
    given_back: u32,
    session_ended: Option<u32>,
    phase_ended: bool,
    held: u32,
}

// Which rows are wanted: of one unit or of both, and at most so many.
#[derive(Clone, Copy)]
struct Wanted {
    from: u32,
    to: u32,
    unit: Option<u8>,
    most: usize,
}

impl Wanted {
    fn lacks(&self, unit: u8) -> bool
        ensures { result ≡ false → IfSome self.now.unit (λ wanted. unit ≡ wanted) }
    {
        match self.unit {
            Some(wanted) => wanted != unit,
            None => false,
        }
    }
}

impl Hall {
    /// A hall in which no call fails and no row is busy.
    pub fn new(alloc: Global, needs: &'static [(u32, u32)], rows: u32, second_unit: u32) -> Hall {
        Hall {
            alloc,
            needs,
            rows,
            second_unit,
            busy: Busy::Never,
            fails_at: NEVER,
            refuses_at: NEVER,
            waits: AtomicU64::new(0),
            waited: AtomicU64::new(0),
            rests: AtomicU64::new(0),
            rested: AtomicU64::new(0),
        }
    }

    /// How often a session waited, and the sum of what it waited for.
    pub fn waited(&self) -> (u64, u64) {
        (
            self.waits.load(Ordering::SeqCst),
            self.waited.load(Ordering::SeqCst),
        )
    }

    /// How often a worker rested, and the sum of what it rested for.
    pub fn rested(&self) -> (u64, u64) {
        (
            self.rests.load(Ordering::SeqCst),
            self.rested.load(Ordering::SeqCst),
        )
    }

    /// Seats of an actor that was told nothing yet.
    pub fn seats(&self) -> Result<Seats, Memory>
        ensures fresh { IfOk result (λ seats. notes_in seats ≡ fresh) }
        ensures none { IfOk result (λ seats. seats.held ≡ 0) }
    {
        Ok(Seats {
            rows: Rows::new(self.alloc, self.rows)?,
            stage: 0,
            migration: None,
            noted: Sequence::of(Vec::new(self.alloc)),
            asked: 0,
            given_back: 0,
            session_ended: None,
            phase_ended: false,
            held: 0,
        })
    }

    fn unit_of(&self, position: u32) -> u8 {
        if position < self.second_unit { 0 } else { 1 }
    }

    // Whether a row is told as busy that was asked for so often before.
    fn is_busy(&self, position: usize, before: u32) -> bool {
        let is_third = position % 3 == 2;
        match self.busy {
            Busy::Never => false,
            Busy::Thirds(times) => is_third && before < times,
            Busy::ThirdsElsewhere => is_third && before == 0,
            Busy::ByPosition => (before as usize) < position,
            Busy::UntilWaits(waits) => {
                let (waited, _) = self.waited();
                let (rested, _) = self.rested();
                before < MOST_ASKED && waited.saturating_add(rested) < waits
            }
        }
    }

    // What is answered where a row is asked for.
    fn ask(&self, rows: &mut Rows, granule: &Granule) -> Result<Taken, Memory>
        ensures { IfOk result (IsTaken granule.now) }
    {
        let before = rows.ask(granule);
        let position = position_of(granule);
        if self.is_busy(position, before) {
            return Ok(Taken::Busy);
        }
        if position % 3 == 2 && matches!(self.busy, Busy::ThirdsElsewhere) {
            rows.pass(granule);
            return Ok(Taken::Done);
        }
        rows.take(self.alloc, granule)
    }

    // The rows that are wanted and not done.
    fn undone(&self, rows: &Rows, wanted: Wanted) -> Result<Vec<Granule>, Memory>
        ensures different { IfOk result (λ granules. AreDifferent granules.items) }
        ensures few { IfOk result (λ granules. length granules.items ≤ wanted.most) }
        ensures unit { IfOk result (λ granules. IfSome wanted.unit (λ unit.
            AllByRecursion (λ granule. granule.unit ≡ unit) granules.items)) }
    {
        let mut granules = Vec::new(self.alloc);
        for position in wanted.from..wanted.to {
            self.add(&mut granules, rows, wanted, position)?;
        }
        Ok(granules)
    }

    // Appends a row where it is wanted and not done.
    fn add(
        &self,
        granules: &mut Vec<Granule>,
        rows: &Rows,
        wanted: Wanted,
        position: u32,
    ) -> Result<(), Memory>
        ensures { OnOk result (MayAdd position wanted.most wanted.unit
            granules.old.items granules.new.items) }
    {
        let unit = self.unit_of(position);
        if granules.len() >= wanted.most || rows.is_done(position) || wanted.lacks(unit) {
            return Ok(());
        }
        let place = Place::Row(position);
        granules.push(Granule { unit, place })?;
        Ok(())
    }

    // What a statement needs that is not done.
    fn needed(&self, rows: &Rows, need: (u32, u32)) -> Result<Vec<Granule>, Memory>
        ensures { IfOk result (λ granules. AreDifferent granules.items) }
    {
        let (from, to) = need;
        self.undone(
            rows,
            Wanted {
                from,
                to,
                unit: None,
                most: usize::MAX,
            },
        )
    }

    // What is not done of a unit.
    fn left_of(&self, rows: &Rows, unit: u8, most: u32) -> Result<Vec<Granule>, Memory>
        ensures different { IfOk result (λ granules. AreDifferent granules.items) }
        ensures few { IfOk result (λ granules. length granules.items ≤ most) }
        ensures unit { IfOk result (λ granules.
            AllByRecursion (λ granule. granule.unit ≡ unit) granules.items) }
    {
        self.undone(
            rows,
            Wanted {
                from: 0,
                to: self.rows,
                unit: Some(unit),
                most: most as usize,
            },
        )
    }

    // What is not done of the first unit in which anything is left.
    fn first_left(&self, rows: &Rows, most: u32) -> Result<Vec<Granule>, Memory>
        ensures different { IfOk result (λ granules. AreDifferent granules.items) }
        ensures few { IfOk result (λ granules. length granules.items ≤ most) }
        ensures unit { IfOk result (λ granules. AreOfOneUnit granules.items) }
    {
        let first = self.left_of(rows, 0, most)?;
        if !first.is_empty() {
            return Ok(first);
        }
        let second = self.left_of(rows, 1, most)?;
        Ok(second)
    }
}

impl Seats {
    // Notes that these granules were answered.
    fn note(&mut self, alloc: Global, granules: Vec<Granule>) -> Result<Vec<Granule>, Memory>
        ensures ok { IfOk result (λ same. (same.items ≡ granules.items)
            × (notes_in self.new ≡ noting (notes_in self.old) (Some 7) granules.items)) }
        ensures err { OnErr result (notes_in self.new ≡ notes_in self.old) }
        ensures held { self.new.held ≡ self.old.held }
    {
        let noted = Sequence::of(granules);
        let granules = noted.copy(alloc)?.into_vec();
        self.noted = noted;
        self.migration = Some(MIGRATION);
        self.asked = 0;
        Ok(granules)
    }

    // Notes that no granules were answered, and that the next stage has come.
    fn pass(&mut self, alloc: Global)
        ensures notes { notes_in self.new ≡ noting (notes_in self.old) None [] }
        ensures held { self.new.held ≡ self.old.held }
    {
        self.noted = Sequence::of(Vec::new(alloc));
        self.migration = None;
        self.asked = 0;
        self.stage = self.stage.saturating_add(1);
    }

    // Counts a claim that was granted.
    fn hold(&mut self, taken: &Taken)
        requires { self.old.held < 64 }
        ensures notes { notes_in self.new ≡ notes_in self.old }
        ensures held { self.new.held ≡ held_with taken.now self.old.held }
    {
        if let Taken::Claimed(_) = taken {
            self.held += 1;
        }
    }
}

impl Bench for Hall {
    ghost use Rattle.bench_tests.specs.Seen.{notes_in, HoldsSoMany};
    ghost use Rattle.std.proofs.Common.{◌∙◌, sym};

    type Seats = Seats;

    ghost seen = { notes_in };

    ghost Holds = { HoldsSoMany };

    ghost one_number = { λ seats some others e f. e ∙ sym f };

    fn turn(&self, seats: &mut Seats, session: u32) -> Result<Turn, Memory> {
        seats.rows.call(self.fails_at)?;
        seats.rows.counts.turns = seats.rows.counts.turns.saturating_add(1);
        let stage = seats.stage;
        if stage == 0 {
            seats.pass(self.alloc);
            return Ok(Turn::Again);
        }
        if let Some(need) = self.needs.get(stage as usize - 1) {
            let needed = self.needed(&seats.rows, *need)?;
            if !needed.is_empty() {
                return Ok(Turn::Need {
                    migration: MIGRATION,
                    granules: seats.note(self.alloc, needed)?,
                    seen: seats.rows.counts.happened(),
                });
            }
            seats.pass(self.alloc);
            seats.given_back = 0;
            return Ok(Turn::Replied(stage));
        }
        seats.pass(self.alloc);
        if stage as usize == self.needs.len() + 1 {
            return Ok(Turn::Wait(5));
        }
        seats.session_ended = Some(session);
        Ok(Turn::Ended)
    }

    fn left(&self, seats: &mut Seats, most: u32) -> Result<Left, Memory> {
        seats.rows.call(self.fails_at)?;
        seats.rows.counts.looks = seats.rows.counts.looks.saturating_add(1);
        let left = self.first_left(&seats.rows, most)?;
        if !left.is_empty() {
            return Ok(Left::Granules {
                migration: MIGRATION,
                granules: seats.note(self.alloc, left)?,
                seen: seats.rows.counts.happened(),
            });
        }
        let stage = seats.stage;
        seats.pass(self.alloc);
        if stage == 0 {
            return Ok(Left::Wait(3));
        }
        seats.phase_ended = true;
        Ok(Left::Ended)
    }

    fn claim(&self, seats: &mut Seats, granule: &Granule) -> Result<Taken, Memory> {
        seats.rows.call(self.fails_at)?;
        seats.rows.counts.claims = seats.rows.counts.claims.saturating_add(1);
        let taken = self.ask(&mut seats.rows, granule)?;
        seats.hold(&taken);
        let _noted = seats.noted.len();
        seats.asked += 1;
        Ok(taken)
    }

    fn claim_again(&self, seats: &mut Seats, granule: &Granule) -> Result<Taken, Memory> {
        seats.rows.call(self.fails_at)?;
        seats.rows.counts.again = seats.rows.counts.again.saturating_add(1);
        let taken = self.ask(&mut seats.rows, granule)?;
        seats.hold(&taken);
        Ok(taken)
    }

    fn carry(&self, seats: &mut Seats, wip: Wip) -> Result<Carried, Memory> {
        let called = seats.rows.call(self.fails_at);
        let number = seats.rows.counts.carries;
        seats.rows.counts.carries = number.saturating_add(1);
        let is_refused = number == self.refuses_at;
        seats.rows.spend(wip, called.is_ok() && !is_refused);
        seats.held = 0;
        called?;
        if is_refused {
            seats.asked = seats.noted.len();
            return Ok(Carried::Failed);
        }
        Ok(Carried::Moved)
    }

    fn give_back(&self, seats: &mut Seats, wip: Wip) {
        seats.rows.counts.given_back = seats.rows.counts.given_back.saturating_add(1);
        seats.rows.spend(wip, false);
        seats.held = 0;
        seats.given_back += 1;
    }

    fn wait(&self, seen_before: u64) {
        self.waits.fetch_add(1, Ordering::SeqCst);
        self.waited.fetch_add(seen_before, Ordering::SeqCst);
    }

    fn rest(&self, seen_before: u64) {
        self.rests.fetch_add(1, Ordering::SeqCst);
        self.rested.fetch_add(seen_before, Ordering::SeqCst);
    }
}
