//! What the threads of a run share under one lock.

ghost use Rattle.std.specs.Prelude.{◌≡◌, ◌<◌, [], IfOk, IfSome, IsTrue, Some, length};
ghost use Rattle.std.specs.Option.{option_map};
ghost use Rattle.boxcar.specs.Table.{Shows};
ghost use Rattle.bf_image.specs.Migrations.{value_indexes};
ghost use Rattle.bf_store.specs.Puts.{AreImages};
ghost use Rattle.bf_store.specs.Stores.{IsOf};
ghost use Rattle.bf_machine.specs.interleaving.Calls.{IsPlace};
ghost use Rattle.bf_machine.specs.interleaving.Journals.{AreSaid};
ghost use Rattle.bf_serve.specs.Come.{HasCome, HasMoved};
ghost use Rattle.bf_serve.specs.Seats.{IsFreshSeatOf};
ghost use Rattle.bf_serve.specs.Steps.{IsAhead};
ghost use Rattle.bf_serve.specs.Sections.{AreNeededIfAny, AreNeededIfServed, IsReplied};

use crate::ahead::{Ahead, Anchors, Cursor};
use crate::requests::{Position, Request};
use crate::seats::Seat;
use crate::sections::{Ran, commit, move_for, present_catalog, run_statement};
use bf_base::{Granule, Memory};
use bf_image::{CatalogPass, MigrationPass, Registry, ValueIndexes};
use bf_machine::{Journal, Lookups, Machine, Opened, Stand};
use bf_store::Images;
use bf_trackers::Work;
use bf_tree::Sweep;
use std::alloc::Global;
use std::marker::{Brand, Model, PhantomData};
use std::snapshot::Snapshot;
use std::sync::{Arc, Wait};

/// How a machine stood beside its journal when a run began. It has no functions; contracts alone read it.
pub trait Beginning<J>: Opened {
    ghost use Rattle.bf_machine.specs.interleaving.Machines.{Machine as Seen};

    ghost begins: { Seen → J → Type 0 };
}

impl<J> Beginning<J> for Brand {
    ghost use Rattle.std.specs.Prelude.{⊤};

    ghost begins = { λ m j. ⊤ };
}

/// Sessions that run at the same time, and the workers beside them.
#[derive(Clone, Copy, Debug)]
pub(crate) struct Phase {
    /// How many sessions stand before the first one.
    pub(crate) from: usize,
    pub(crate) sessions: usize,
    pub(crate) workers: usize,
}

impl Phase {
    /// No phase has begun.
    fn none() -> Phase {
        Phase {
            from: 0,
            sessions: 0,
            workers: 0,
        }
    }
}

/// A machine beside its journal, and how much has happened. The type keeps that both have come from the beginning that
/// it names, by events beside the journal, and that the catalog's pass reads the present catalog.
#[derive(Drop)]
pub struct Engine<N: Beginning<J>, J: Journal> {
    alloc: Global,
    machine: Machine<N>,
    journal: J,
    /// Reads the present catalog. `None` where there was no memory to add it to the registry.
    catalog: Option<CatalogPass>,
    /// Commits, ended attempts, moves and ended sessions so far, and claims that were given back.
    count: u64,
    /// Commits that changed the catalog, claims that have ended or were given back, and ended sessions so far: what can give
    /// workers something to move, or end them.
    calls: u64,
    phase: Phase,
    /// How many sessions of the phase have not ended.
    sessions: usize,
    /// Whether memory ran out for an actor, which ends the run.
    out_of_memory: bool,
    /// The old rows of the last migration by their values, once an actor has needed them.
    lookups: Option<Arc<Lookups<N>, Global>>,
    /// The first seat at the trackers of the last migration, once an actor was to claim one of its granules.
    seat: Option<Seat<N>>,
    /// Where workers look next.
    cursor: Cursor,
    /// How much had happened for workers when the journal last refused a move.
    refused: Option<u64>,
}

impl<N: Beginning<J>, J: Journal> Model for Engine<N, J> {
    ghost use Rattle.std.specs.Prelude.{ℕ, ◌≡◌};
    ghost use Rattle.bf_machine.specs.interleaving.Journals.{AreSaid};
    ghost use Rattle.bf_serve.specs.Come.{HasCome, HasMoved};
    ghost use Rattle.bf_serve.specs.Requests.{IsPresentCatalog};

    ghost Value = { ℕ };

    ghost view = { λ e. e.count };

    ghost invariant = { λ e. HasCome J.Answers N.opening N.begins e.machine e.journal
        × (J.ends ≡ N.logged) × AreSaid J.Says N.script
        × IsPresentCatalog N.registry e.machine e.catalog };
}

/// That the granules of some work have moved in this run. Only [`Engine::move_granules`] makes one, and only with one do claims end
/// as moved.
#[derive(Drop)]
pub(crate) struct MovedWork<N: Beginning<J>, J: Journal> {
    work: Snapshot<Work>,
    opened: PhantomData<N>,
    journal: PhantomData<J>,
    ghost moved: { ∥ HasMoved J.Answers N.opening N.begins work.value.pass work.value.granules ∥₁ },
}

/// How a statement was served that was made ready.
#[derive(Drop)]
pub(crate) enum Served {
    /// It has its reply, and its group goes on.
    Replied,
    /// It has its reply, and its group has ended. Where the catalog has changed by it, workers may have something to move.
    Ended { changes_catalog: bool },
    /// These granules of the last migration are to move first; and how much had happened by then.
    Need(Vec<Granule>, u64),
    /// What it needs of the last migration has to be looked for first.
    Uncovered,
    /// It waits for a lock until more has happened than this count tells.
    Waits(u64),
    /// An older group has a lock that it needs, and the attempt has ended.
    Died,
    /// The machine does not stand there any more, or what it was made ready by has changed.
    Elsewhere,
}

impl Served {
    /// Whether it has its reply.
    pub(crate) fn has_reply(&self) -> bool {
        matches!(self, Served::Replied | Served::Ended { .. })
    }
}

/// What a session is to do next.
pub(crate) enum Due<N: Opened> {
    /// Its next group has begun: its next turn.
    Again,
    /// Its group has ended, by this COMMIT or ROLLBACK if by one. Where the catalog has changed by it, workers may have
    /// something to move.
    Ending {
        by: Option<u32>,
        changes_catalog: bool,
    },
    /// It waits until more has happened than this count tells.
    Wait(u64),
    /// Each of its statements has its reply.
    Ended,
    /// A statement is to be made ready.
    Statement(Position<N>),
}

impl<N: Beginning<J>, J: Journal> Engine<N, J> {
    /// The engine of a machine and a journal with which a run begins.
    pub fn of<R: Wait>(
        alloc: Global,
        rt: &R,
        registry: &Registry,
        machine: Machine<N>,
        journal: J,
    ) -> Engine<N, J>
        requires registry { registry.now ≡ N.registry }
        requires begins { N.begins machine journal }
        requires logged { J.ends ≡ N.logged }
        requires said { AreSaid J.Says N.script }
    {
        let catalog = present_catalog(alloc, rt, registry, &machine);
        Engine {
            alloc,
            machine,
            journal,
            catalog,
            count: 0,
            calls: 0,
            phase: Phase::none(),
            sessions: 0,
            out_of_memory: false,
            lookups: None,
            seat: None,
            cursor: Cursor::none(),
            refused: None,
        }
    }

    /// A phase begins.
    pub(crate) fn begin_phase(&mut self, phase: Phase) {
        self.phase = phase;
        self.sessions = phase.sessions;
    }

    /// The present phase.
    pub(crate) fn phase(&self) -> Phase {
        self.phase
    }

    /// How much has happened.
    pub fn count(&self) -> u64
        ensures { result ≡ self.now }
    {
        self.count
    }

    /// How much has happened that workers rest for.
    pub(crate) fn calls(&self) -> u64 {
        self.calls
    }

    /// Whether memory ran out for an actor.
    pub fn is_out_of_memory(&self) -> bool {
        self.out_of_memory
    }

    /// Notes that memory ran out for an actor.
    pub fn run_out(&mut self) {
        self.out_of_memory = true;
    }

    /// The old rows by their values that are shared, if there are any.
    ///
    /// # Errors
    /// Where memory runs out.
    pub(crate) fn lookups(&self) -> Result<Option<Arc<Lookups<N>, Global>>, Memory> {
        match &self.lookups {
            Some(found) => Ok(Some(Arc::try_clone(found)?)),
            None => Ok(None),
        }
    }

    /// Shares the old rows of a migration by their values, in place of those before.
    pub(crate) fn share_lookups(&mut self, lookups: Arc<Lookups<N>, Global>) {
        self.lookups = Some(lookups);
    }

    /// Notes that something has happened that sessions may wait for.
    fn happened(&mut self) {
        self.count = self.count.saturating_add(1);
    }

    /// Notes that something has happened that sessions may wait for and workers may rest for.
    fn happened_to_all(&mut self) {
        self.happened();
        self.calls = self.calls.saturating_add(1);
    }

    /// Notes that the claims of granules that have moved have ended: from then on workers find what is left behind them.
    pub(crate) fn note_finished(&mut self) {
        self.calls = self.calls.saturating_add(1);
    }

    /// Notes that granules are free again.
    pub(crate) fn note_given_back(&mut self) {
        self.happened_to_all();
    }

    /// Notes that granules are free again whose move was refused: workers look no further until more has happened.
    pub(crate) fn note_refused(&mut self) {
        self.happened_to_all();
        self.refused = Some(self.calls);
    }

    /// A seat at the trackers of a migration, which are made where it has none yet, by what of it has moved. `None` where it is not
    /// the last one any more.
    ///
    /// # Errors
    /// Where memory runs out.
    pub(crate) fn seat(
        &mut self,
        registry: &Registry,
        pass: &MigrationPass,
    ) -> Result<Option<Seat<N>>, Memory>
        requires registry { registry.now ≡ N.registry }
        requires pass { Shows N.registry.migrations pass.now }
        ensures { IfOk result (λ seat. IfSome seat (IsFreshSeatOf pass.now.value)) }
    {
        let Engine {
            alloc,
            machine,
            seat,
            ..
        } = self;
        let last = machine.migration();
        if !is_one(registry, last.as_ref(), pass) {
            return Ok(None);
        }
        let mut first = first_seat(*alloc, registry, machine, seat.take(), pass)?;
        let split = first.split(*alloc);
        *seat = Some(first);
        Ok(Some(split?))
    }

    /// What a worker is to do next, and at most so many anchors.
    ///
    /// # Errors
    /// Where memory ran out before.
    pub(crate) fn ahead(&mut self, registry: &Registry, most: u32) -> Result<Ahead, Memory>
        requires registry { registry.now ≡ N.registry }
        ensures { IfOk result (IsAhead N.registry) }
    {
        if self.out_of_memory {
            return Err(Memory);
        }
        if self.sessions == 0 {
            return Ok(Ahead::Ended);
        }
        if self.refused == Some(self.calls) {
            return Ok(Ahead::Wait(self.calls));
        }
        let (Some(pass), Sweep::Running { unit, position, .. }) = (
            self.machine.migration(),
            self.machine.sweep(),
        ) else {
            return Ok(Ahead::Wait(self.calls));
        };
        let last = registry.migration(&pass);
        let (unit, from, to) = self.cursor.take(last, (unit, position), most);
        Ok(Ahead::Anchors(Anchors {
            pass,
            unit,
            from,
            to,
            seen: self.calls,
        }))
    }

    /// Begins a session's next group.
    ///
    /// # Errors
    /// Where memory runs out.
    fn begin(&mut self, session: u32) -> Result<(), Memory>
        requires place { IsPlace N.script session }
    {
        let Engine { machine, .. } = self;
        // Its contract says that the script is the one that the type names.
        let _ = machine.script();
        if machine.stand(session) != Stand::Begin {
            return Ok(());
        }
        machine.begin(session)
    }

    /// Rolls a session's block back.
    fn abort(&mut self, session: u32)
        requires place { IsPlace N.script session }
    {
        let Engine { machine, .. } = self;
        let _ = machine.script();
        let Stand::Abort = machine.stand(session) else {
            return;
        };
        machine.abort(session);
    }

    /// Commits a session's group, and tells whether the catalog has changed by it.
    ///
    /// # Errors
    /// Where memory runs out, or too much has changed.
    fn commit<R: Wait>(&mut self, rt: &R, registry: &Registry, session: u32) -> Result<bool, Memory>
        requires registry { registry.now ≡ N.registry }
        requires place { IsPlace N.script session }
    {
        let Engine {
            alloc,
            machine,
            journal,
            catalog,
            ..
        } = self;
        let _ = machine.script();
        if machine.stand(session) != Stand::Commit {
            return Ok(false);
        }
        commit(*alloc, rt, registry, machine, journal, catalog, session)
    }

    /// Commits a session's group, notes that it has ended, and tells whether the catalog has changed by it.
    ///
    /// # Errors
    /// Where memory runs out, or too much has changed.
    fn end_group<R: Wait>(
        &mut self,
        rt: &R,
        registry: &Registry,
        session: u32,
    ) -> Result<bool, Memory>
        requires registry { registry.now ≡ N.registry }
        requires place { IsPlace N.script session }
    {
        let changes_catalog = self.commit(rt, registry, session)?;
        if changes_catalog {
            self.happened_to_all();
        } else {
            self.happened();
        }
        Ok(changes_catalog)
    }

    /// The COMMIT or ROLLBACK by which a session's group is to end, if by one.
    fn end_of(&self, session: u32) -> Option<u32>
        requires place { IsPlace N.script session }
    {
        // Its contract says that the script is the one that the type names.
        let _ = self.machine.script();
        if self.machine.is_answered(session) {
            return None;
        }
        self.machine.place(session)
    }

    /// Where a session stands whose next statement is to be made ready. `None` where no statement is next, and where there is
    /// no pass of the catalog.
    fn position(&self, session: u32) -> Option<Position<N>>
        requires place { IsPlace N.script session }
    {
        // Their contracts say that the script is the one that the type names, and that the catalog is a database's.
        let _ = self.machine.script();
        let _ = self.machine.catalog();
        let Stand::Statement(place) = self.machine.stand(session) else {
            return None;
        };
        let Some(catalog) = &self.catalog else {
            return None;
        };
        let migration = self.machine.migration();
        let is_left = migration.is_some() && !self.machine.is_complete();
        Some(Position {
            session,
            place,
            in_block: self.machine.is_in_block(session),
            catalog: catalog.copy(),
            migration,
            is_left,
            opened: PhantomData,
        })
    }

    /// Begins a session's next group where that is what it stands at, and tells where its next statement is to be made
    /// ready. `None` as for a position.
    ///
    /// # Errors
    /// Where memory runs out.
    fn begin_and_stand(&mut self, session: u32) -> Result<Option<Position<N>>, Memory>
        requires place { IsPlace N.script session }
    {
        self.begin(session)?;
        Ok(self.position(session))
    }

    /// What a session is to do next; and begins or ends its group, where that is it.
    ///
    /// # Errors
    /// Where memory runs out, or ran out before, or too much has changed.
    pub(crate) fn next<R: Wait>(
        &mut self,
        rt: &R,
        registry: &Registry,
        session: u32,
    ) -> Result<Due<N>, Memory>
        requires registry { registry.now ≡ N.registry }
        requires place { IsPlace N.script session }
    {
        if self.out_of_memory {
            return Err(Memory);
        }
        let _ = self.machine.script();
        match self.machine.stand(session) {
            Stand::Begin => match self.begin_and_stand(session)? {
                Some(at) => Ok(Due::Statement(at)),
                None => Ok(Due::Again),
            },
            Stand::Commit => {
                let by = self.end_of(session);
                let changes_catalog = self.end_group(rt, registry, session)?;
                Ok(Due::Ending {
                    by,
                    changes_catalog,
                })
            }
            Stand::Abort => {
                let by = self.end_of(session);
                self.abort(session);
                self.happened();
                Ok(Due::Ending {
                    by,
                    changes_catalog: false,
                })
            }
            Stand::Statement(_) => match self.position(session) {
                Some(at) => Ok(Due::Statement(at)),
                None => Err(Memory),
            },
            Stand::Named(_) | Stand::Later => Ok(Due::Wait(self.count)),
            Stand::Ended => {
                self.sessions = self.sessions.saturating_sub(1);
                self.happened_to_all();
                Ok(Due::Ended)
            }
        }
    }

    /// Asks for the locks of a statement that was made ready, and replies to it where its group holds them all.
    ///
    /// # Errors
    /// Where memory runs out, or 2 ^ 32 rows or more change.
    fn run_statement(&mut self, registry: &Registry, request: &Request<N>) -> Result<Ran, Memory>
        requires registry { registry.now ≡ N.registry }
        ensures { IfOk result (AreNeededIfAny request.now) }
    {
        let Engine {
            alloc,
            machine,
            catalog,
            ..
        } = self;
        let _ = machine.script();
        let _ = request.at();
        run_statement(*alloc, registry, machine, catalog, request)
    }

    /// Ends a session's group behind a reply, where no statement of it is left that ends it.
    ///
    /// # Errors
    /// Where memory runs out, or too much has changed.
    fn end_behind_reply<R: Wait>(
        &mut self,
        rt: &R,
        registry: &Registry,
        session: u32,
    ) -> Result<Served, Memory>
        requires registry { registry.now ≡ N.registry }
        requires place { IsPlace N.script session }
        ensures { IfOk result IsReplied }
    {
        let _ = self.machine.script();
        if self.machine.stand(session) != Stand::Commit || self.end_of(session).is_some() {
            return Ok(Served::Replied);
        }
        let changes_catalog = self.end_group(rt, registry, session)?;
        Ok(Served::Ended { changes_catalog })
    }

    /// Asks for the locks of a statement that was made ready, replies to it where its group holds them all, and ends its
    /// group where nothing of it is left.
    ///
    /// # Errors
    /// Where memory runs out, 2 ^ 32 rows or more change, or too much has changed.
    fn drive<R: Wait>(
        &mut self,
        rt: &R,
        registry: &Registry,
        request: &Request<N>,
    ) -> Result<Served, Memory>
        requires registry { registry.now ≡ N.registry }
        ensures { IfOk result (AreNeededIfServed request.now) }
    {
        match self.run_statement(registry, request)? {
            Ran::Replied => self.end_behind_reply(rt, registry, request.at().session()),
            Ran::Need(granules) => Ok(Served::Need(granules, self.count)),
            Ran::Uncovered => Ok(Served::Uncovered),
            Ran::Waits => Ok(Served::Waits(self.count)),
            Ran::Died => {
                self.happened();
                Ok(Served::Died)
            }
            Ran::Elsewhere => Ok(Served::Elsewhere),
        }
    }

    /// Serves a statement that was made ready, and tells behind its reply where its session stands then, if at another
    /// one: the reads of a session so take the lock once a statement.
    ///
    /// # Errors
    /// Where memory runs out, or ran out before, 2 ^ 32 rows or more change, or too much has changed.
    pub(crate) fn serve<R: Wait>(
        &mut self,
        rt: &R,
        registry: &Registry,
        request: &Request<N>,
    ) -> Result<(Served, Option<Position<N>>), Memory>
        requires registry { registry.now ≡ N.registry }
        ensures { IfOk result (λ told. AreNeededIfServed request.now told.0) }
    {
        if self.out_of_memory {
            return Err(Memory);
        }
        let served = self.drive(rt, registry, request)?;
        let next = match &served {
            Served::Replied | Served::Ended { .. } => {
                self.begin_and_stand(request.at().session())?
            }
            _ => None,
        };
        Ok((served, next))
    }

    /// Does the work that a session needs, or a worker found, as one record of moves, by the images of its granules. `None`
    /// where the migration is not the last one any more, and where the journal does not keep the move.
    ///
    /// # Errors
    /// Where memory runs out, or 2 ^ 32 granules or 2 ^ 64 changes were made.
    pub(crate) fn move_granules(
        &mut self,
        registry: &Registry,
        session: Option<u32>,
        work: &Work,
        indexes: &ValueIndexes,
        images: Images,
    ) -> Result<Option<MovedWork<N, J>>, Memory>
        requires registry { registry.now ≡ N.registry }
        requires place { IfSome session (IsPlace N.script) }
        requires pass { Shows N.registry.migrations work.now.pass }
        requires indexed { indexes.now ≡ value_indexes work.now.pass.value }
        requires images { AreImages work.now.pass.value work.now.granules images }
        ensures { IfOk result (λ moved. IfSome moved (λ moved. moved.work.value ≡ work.now)) }
    {
        let Engine {
            machine,
            journal,
            ..
        } = self;
        let _ = machine.script();
        let has_moved = move_for(registry, machine, journal, session, work, indexes, images);
        self.happened();
        if !has_moved? {
            return Ok(None);
        }
        Ok(Some(MovedWork {
            work: Snapshot::of(work),
            opened: PhantomData,
            journal: PhantomData,
        }))
    }

    /// The machine and its journal, as they have come.
    pub fn into_parts(self) -> (Machine<N>, J)
        ensures { HasCome J.Answers N.opening N.begins result.0 result.1 }
    {
        (self.machine, self.journal)
    }
}

/// The first seat at the trackers of a machine's last migration: the one that was kept, or that of new trackers by what has moved.
///
/// # Errors
/// Where memory runs out.
fn first_seat<N: Opened>(
    alloc: Global,
    registry: &Registry,
    machine: &Machine<N>,
    kept: Option<Seat<N>>,
    pass: &MigrationPass,
) -> Result<Seat<N>, Memory>
    requires registry { registry.now ≡ N.registry }
    requires pass { Shows N.registry.migrations pass.now }
    requires last { option_map (λ pass. pass.value) machine.now.pass ≡ Some pass.now.value }
    ensures { IfOk result (λ seat. seat.trackers.pass.value ≡ pass.now.value) }
{
    if let Some(seat) = kept
        && seat.is_of(registry, pass)
    {
        return Ok(seat);
    }
    // Its contract says what a machine keeps.
    let _ = machine.script();
    let done = machine.done(alloc)?;
    Seat::first(alloc, registry, pass, done.as_slice())
}

/// Whether a pass is of the last migration, if there is one.
fn is_one(registry: &Registry, last: Option<&MigrationPass>, pass: &MigrationPass) -> bool
    requires last { IsOf registry.now (option_map (λ pass. pass.now) last) }
    requires pass { Shows registry.now.migrations pass.now }
    ensures { IsTrue result → option_map (λ pass. pass.now.value) last.entry ≡ Some pass.now.value }
{
    match last {
        Some(last) => registry.same_migration(last, pass),
        None => false,
    }
}
