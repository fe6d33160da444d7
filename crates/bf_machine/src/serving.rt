//! Sessions served on one thread, in an order that is given, and then to their ends.

ghost use Rattle.std.specs.Prelude.{◌≡◌, ◌≢◌, ◌⊎◌, ℕ, ◌<◌, ◌≤◌, [], IfOk, IfSome, IsTrue, OnErr, OnOk, None, Ok, Some, false, length, slice_get, take};
ghost use Rattle.bf_machine.specs.declared.stand.Stand.TheVariants.{Begin, Statement};
ghost use Rattle.std.specs.List.{AllByRecursion};
ghost use Rattle.std.specs.Option.{option_map};
ghost use Rattle.boxcar.specs.Table.{Shows};
ghost use Rattle.bf_base.specs.declared.granule.Granule.{Granule as Moving};
ghost use Rattle.bf_base.specs.Lists.{rises};
ghost use Rattle.bf_image.specs.Migrations.{value_indexes};
ghost use Rattle.bf_live.specs.Replies.{IsWellBound};
ghost use Rattle.bf_store.specs.States.{AreGranules, AreGranulesIfAny, granule_cmp, most_moved, to_move};
ghost use Rattle.bf_store.specs.Stores.{IsOf, migration_of};
ghost use Rattle.bf_machine.specs.interleaving.Calls.{CanCommit, CanExec, CanRefuse, HasReplied, HasSessionEnded, IsEnough, IsPlace, IsPresent, StandsAs};
ghost use Rattle.bf_machine.specs.interleaving.Events.{Begins, Moves, Reaches};
ghost use Rattle.bf_machine.specs.interleaving.Journals.{AreSaid, IsOneRecord, Keeps, KeepsOrIsRefused};
ghost use Rattle.bf_machine.specs.interleaving.Kept.{IsKept};
ghost use Rattle.bf_machine.specs.interleaving.Machines.{Machine as Seen, Open, open_at, these};
ghost use Rattle.bf_machine.specs.interleaving.Serving.{CanGo, CannotGo, Driven, HasLocked, HasMovedFirst, HasMovedNeed, HasMovedSome, HasReply, IsAlone, IsBoundNext, IsCommit, IsEndIfAnswered, IsFollowed, IsInSequence, IsOfLocks, IsPreparedNext, IsToLock, IsTurn, IsTurnOf, IsYoungest, LeavesStore, MovesAll, Serves, Turned, can_go, deaths_at, unanswered};
ghost use Rattle.bf_machine.specs.declared.stand.Turn.TheVariants.{Served};

use crate::journal::{Journal, KeepError};
use crate::lookups::{Lookups, cover_with, look_up};
use crate::machine::Machine;
use crate::opened::Opened;
use crate::stand::{Ending, MoveError, Stand, Step, Turn};
use bf_base::{Granule, Memory};
use bf_image::{MigrationPass, Registry, ValueIndexes};
use bf_locks::{LockAnswer, LockName, Mode};
use bf_plan::prepare;
use bf_sql::footprint;
use bf_store::MOST_MOVED;
use bf_transpose::Cover;
use bf_tree::Bound;
use std::alloc::Global;
use std::sync::Wait;

/// Asks for the locks of the footprint of a session's next statement, one after the other, until one is not granted. It costs
/// what [`Machine::lock`] does for each.
///
/// # Errors
/// Where memory runs out. Some may be held then.
pub fn lock_all<N: Opened>(
    machine: &mut Machine<N>,
    session: u32,
    locks: &[(LockName, Mode)],
) -> Result<Turn, Memory>
    requires place { IsPlace machine.old.script session }
    requires kept { IsKept N.opening machine.old }
    requires next { (o : Open) × IsToLock machine.old session o locks.now }
    ensures reaches { Reaches N.opening machine.old machine.new }
    ensures leaves { LeavesStore N.opening machine.old machine.new }
    ensures locked { result ≡ Ok Served → HasLocked machine.old session locks.now machine.new }
    ensures turn { IfOk result (λ turn. turn ≢ Served
        → IsTurn machine.old session N.opening turn machine.new) }
    ensures of_locks { IfOk result IsOfLocks }
    ensures same { machine.new.db ≡ machine.old.db }
{
    for (name, mode) in locks {
        match machine.lock(session, name, *mode)? {
            LockAnswer::Granted => {}
            LockAnswer::Wait(_) => return Ok(Turn::Waited),
            LockAnswer::Die(_) => return Ok(Turn::Died),
        }
    }
    Ok(Turn::Served)
}

/// Commits a session's open group, and tells how the turn ends that does.
///
/// # Errors
/// Where [`Machine::commit`] has one. The machine is as it was then.
fn commit<N: Opened, J: Journal, R: Wait>(
    rt: &R,
    registry: &Registry,
    journal: &mut J,
    machine: &mut Machine<N>,
    session: u32,
) -> Result<Turn, Memory>
    requires registry { registry.now ≡ N.registry }
    requires logged { J.ends ≡ N.logged }
    requires said { AreSaid J.Says N.script }
    requires place { IsPlace machine.old.script session }
    requires can { CanCommit machine.old session }
    ensures turn { IfOk result (λ turn. IsCommit machine.old session turn machine.new) }
    ensures err { OnErr result (machine.new ≡ machine.old) }
    ensures keeps { Keeps J.Answers N.opening machine.old journal.old machine.new
        journal.new }
{
    match machine.commit(rt, registry, journal, session)? {
        Ending::Committed(_) => Ok(Turn::Served),
        Ending::Ended(cause) => Ok(Turn::Ended(cause)),
    }
}

/// Ends a session's open group where each statement of it has its reply. The turn that gave the last one
/// is served, or has ended the group by a cause of the log.
fn end_if_answered<N: Opened, J: Journal, R: Wait>(
    rt: &R,
    registry: &Registry,
    journal: &mut J,
    machine: &mut Machine<N>,
    session: u32,
) -> Result<Turn, Memory>
    requires registry { registry.now ≡ N.registry }
    requires logged { J.ends ≡ N.logged }
    requires said { AreSaid J.Says N.script }
    requires place { IsPlace machine.old.script session }
    requires kept { IsKept N.opening machine.old }
    requires has_reply { HasReply machine.old session }
    ensures reaches { Reaches N.opening machine.old machine.new }
    ensures keeps { Keeps J.Answers N.opening machine.old journal.old machine.new
        journal.new }
    ensures turn { IfOk result (λ turn. IsEndIfAnswered machine.old session turn machine.new) }
{
    if !machine.is_answered(session) {
        return Ok(Turn::Served);
    }
    match machine.stand(session) {
        Stand::Commit => commit(rt, registry, journal, machine, session),
        Stand::Abort => {
            machine.abort(session);
            Ok(Turn::Served)
        }
        _ => Ok(Turn::Served),
    }
}

/// A session's next statement, as it is prepared in the present catalog. It costs what
/// [`bf_plan::prepare`] does.
///
/// # Errors
/// Where memory runs out.
pub fn prepare_next<N: Opened>(
    alloc: Global,
    machine: &Machine<N>,
    session: u32,
    place: u32,
) -> Result<Bound, Memory>
    requires place { IsPlace machine.now.script session }
    requires kept { IsKept N.opening machine.now }
    requires stands { StandsAs machine.now session (Statement place) }
    ensures next { IfOk result (λ bound.
        ((o : Open) × IsBoundNext machine.now session o bound) ⊎ CanRefuse machine.now session) }
    ensures prepared { IfOk result (IsPreparedNext machine.now session) }
    ensures number { IfOk result (λ bound. bound.catalog ≡ machine.now.db.number) }
    ensures well_bound { IfOk result (λ bound. IsWellBound bound.action) }
{
    let sessions = machine.script().sessions.as_slice();
    let statement = &sessions[session as usize - 1].statements.as_slice()[place as usize - 1];
    prepare(
        alloc,
        statement,
        machine.catalog(),
        machine.is_in_block(session),
    )
}

/// How many of some granules, which stand in the order of unit and place, one record may move: the first
/// of one unit, 64 at most. It looks at as many.
fn record_len(granules: &[Granule]) -> usize
    ensures within { result ≤ length granules.now }
    ensures some { 0 < length granules.now → 0 < result }
    ensures few { result ≤ most_moved }
    ensures one_unit { (first : Moving) → slice_get granules.now 0 ≡ Some first
        → AllByRecursion (λ g. g.unit ≡ first.unit) (take result granules.now) }
    ensures whole { (first next : Moving) → slice_get granules.now 0 ≡ Some first
        → slice_get granules.now result ≡ Some next
        → (result ≡ most_moved) ⊎ (next.unit ≢ first.unit) }
{
    for (count, granule) in granules.iter().enumerate() {
        if granule.unit != granules[0].unit || count == MOST_MOVED {
            return count;
        }
    }
    granules.len()
}

/// Moves granules of the last migration that one record may move.
///
/// # Errors
/// Where [`Machine::moved`] has one. The machine is as it was then.
fn move_record<N: Opened, J: Journal>(
    registry: &Registry,
    journal: &mut J,
    machine: &mut Machine<N>,
    pass: &MigrationPass,
    indexes: &ValueIndexes,
    granules: &[Granule],
) -> Result<(), KeepError>
    requires registry { registry.now ≡ N.registry }
    requires logged { J.ends ≡ N.logged }
    requires present { machine.old.pass ≡ Some pass.now }
    requires shown { Shows N.registry.migrations pass.now }
    requires indexed { indexes.now ≡ value_indexes pass.now.value }
    requires granules { IsOneRecord (Some (migration_of pass.now.value [])) granules.now }
    ensures moves { OnOk result (Moves machine.old granules.now machine.new) }
    ensures err { OnErr result (machine.new ≡ machine.old) }
    ensures keeps { KeepsOrIsRefused J.Answers J.ends N.opening machine.old journal.old
        machine.new journal.new result }
{
    match machine.moved(registry, journal, pass, indexes, granules, None) {
        Ok(_) => Ok(()),
        Err(MoveError::Ended(cause)) => Err(KeepError::Ended(cause)),
        Err(MoveError::Memory) => Err(KeepError::Memory),
        Err(MoveError::Old(_)) => unreachable!(),
    }
}

/// Moves granules of the last migration, in the order of unit and place, by records of at most 64 granules
/// of one unit. It costs what [`Machine::moved`] does for each record.
///
/// # Errors
/// `Ended` where the journal does not keep a move, with the cause that it tells; and where memory runs out, or
/// 2 ^ 32 granules or 2 ^ 64 changes were made. The records before have moved then.
pub fn move_records<N: Opened, J: Journal>(
    registry: &Registry,
    journal: &mut J,
    machine: &mut Machine<N>,
    pass: &MigrationPass,
    indexes: &ValueIndexes,
    granules: &[Granule],
) -> Result<(), KeepError>
    requires registry { registry.now ≡ N.registry }
    requires logged { J.ends ≡ N.logged }
    requires present { machine.old.pass ≡ Some pass.now }
    requires shown { Shows N.registry.migrations pass.now }
    requires indexed { indexes.now ≡ value_indexes pass.now.value }
    requires granules { AreGranules (migration_of pass.now.value []) granules.now }
    requires in_order { IsTrue (rises granule_cmp granules.now) }
    ensures moves { OnOk result (MovesAll machine.old granules.now machine.new) }
    ensures err { OnErr result (HasMovedFirst machine.old granules.now machine.new) }
    ensures keeps { KeepsOrIsRefused J.Answers J.ends N.opening machine.old journal.old
        machine.new journal.new result }
{
    let mut left = granules;
    while !left.is_empty() {
        let count = record_len(left);
        let (record, later) = left.split_at(count);
        move_record(registry, journal, machine, pass, indexes, record)?;
        left = later;
    }
    Ok(())
}

/// Moves what is left of a need of the last migration, in the order of unit and place, by records of at
/// most 64 granules of one unit.
///
/// # Errors
/// The cause by which the group ends that needs it; and where memory runs out, or 2 ^ 32 granules or
/// 2 ^ 64 changes were made. Some of it may have moved then.
fn move_need<N: Opened, J: Journal>(
    alloc: Global,
    registry: &Registry,
    journal: &mut J,
    lookups: &mut Option<Lookups<N>>,
    machine: &mut Machine<N>,
    granules: &[Granule],
) -> Result<(), KeepError>
    requires registry { registry.now ≡ N.registry }
    requires logged { J.ends ≡ N.logged }
    requires granules { AreGranulesIfAny machine.old.lazy.last granules.now }
    requires in_order { IsTrue (rises granule_cmp granules.now) }
    ensures moves { OnOk result (MovesAll machine.old granules.now machine.new) }
    ensures err { OnErr result (HasMovedFirst machine.old granules.now machine.new) }
    ensures keeps { KeepsOrIsRefused J.Answers J.ends N.opening machine.old journal.old
        machine.new journal.new result }
{
    let Some(pass) = machine.migration() else {
        return Ok(());
    };
    look_up(alloc, registry, lookups, &pass)?;
    let Some(found) = lookups else {
        unreachable!();
    };
    move_records(registry, journal, machine, &pass, found.indexes(), granules)
}

/// Replies to a session's next statement, as it is prepared in the present catalog, of whose cover
/// nothing is left to move.
///
/// # Errors
/// Where memory runs out, or 2 ^ 32 rows or more change. The machine is as it was then.
fn reply_behind_moves<N: Opened>(
    registry: &Registry,
    machine: &mut Machine<N>,
    session: u32,
    migration: Option<&MigrationPass>,
    bound: &Bound,
    cover: &Cover,
) -> Result<(), Memory>
    requires registry { registry.now ≡ N.registry }
    requires place { IsPlace machine.old.script session }
    requires can { CanExec machine.old session N.opening bound.now }
    requires pass { IsOf N.registry (option_map (λ pass. pass.now) migration) }
    requires cover { IsEnough machine.old (option_map (λ pass. pass.now.value) migration)
        bound.now cover.now }
    requires present { IsPresent machine.old (option_map (λ pass. pass.now) migration) bound.now }
    requires moved { to_move machine.old.lazy.last cover.now.granules.items ≡ [] }
    ensures replied { OnOk result (HasReplied machine.old session bound.now machine.new) }
    ensures err { OnErr result (machine.new ≡ machine.old) }
{
    match machine.exec(registry, session, migration, bound, cover)? {
        Step::Replied => Ok(()),
        _ => unreachable!(),
    }
}

/// Replies to a session's next statement, as it is prepared in the present catalog, once what it
/// needs of the last migration has moved.
///
/// # Errors
/// The cause by which its group ends, where the journal does not keep a move; and where memory runs out,
/// 2 ^ 32 rows or more change, or 2 ^ 32 granules or 2 ^ 64 changes were made. A first part of what it
/// needs may have moved then, and else the machine is as it was.
fn reply_to<N: Opened, J: Journal>(
    alloc: Global,
    registry: &Registry,
    journal: &mut J,
    lookups: &mut Option<Lookups<N>>,
    machine: &mut Machine<N>,
    session: u32,
    bound: &Bound,
) -> Result<(), KeepError>
    requires registry { registry.now ≡ N.registry }
    requires logged { J.ends ≡ N.logged }
    requires place { IsPlace machine.old.script session }
    requires kept { IsKept N.opening machine.old }
    requires can { CanExec machine.old session N.opening bound.now }
    requires present { bound.now.catalog ≡ machine.old.db.number }
    requires well_bound { IsWellBound bound.now.action }
    ensures replied { OnOk result ((now : Seen) × HasMovedNeed machine.old bound.now now
        × HasReplied now session bound.now machine.new) }
    ensures err { OnErr result (HasMovedSome machine.old bound.now machine.new) }
    ensures keeps { KeepsOrIsRefused J.Answers J.ends N.opening machine.old journal.old
        machine.new journal.new result }
{
    let pass = machine.migration();
    let migration = pass.as_ref();
    let cover = cover_with(alloc, registry, lookups, machine, migration, bound)?;
    match machine.exec(registry, session, migration, bound, &cover)? {
        Step::Replied => Ok(()),
        Step::Need(granules) => {
            move_need(
                alloc,
                registry,
                journal,
                lookups,
                machine,
                granules.as_slice(),
            )?;
            reply_behind_moves(registry, machine, session, migration, bound, &cover)?;
            Ok(())
        }
        Step::Stale(_) => unreachable!(),
    }
}

/// Gives the next statement of a session's open group its reply: asks for the locks of its
/// footprint in their order, moves what it needs, and ends the group where it is the last. Where the
/// journal does not keep a move, the group ends by the journal's cause.
fn serve_in_group<N: Opened, J: Journal, R: Wait>(
    alloc: Global,
    rt: &R,
    registry: &Registry,
    journal: &mut J,
    lookups: &mut Option<Lookups<N>>,
    machine: &mut Machine<N>,
    session: u32,
    bound: &Bound,
) -> Result<Turn, Memory>
    requires registry { registry.now ≡ N.registry }
    requires logged { J.ends ≡ N.logged }
    requires said { AreSaid J.Says N.script }
    requires place { IsPlace machine.old.script session }
    requires kept { IsKept N.opening machine.old }
    requires next { (o : Open) × IsBoundNext machine.old session o bound.now }
    requires well_bound { IsWellBound bound.now.action }
    ensures reaches { Reaches N.opening machine.old machine.new }
    ensures keeps { Keeps J.Answers N.opening machine.old journal.old machine.new
        journal.new }
    ensures turn { IfOk result (λ turn. IsTurn machine.old session N.opening turn machine.new) }
{
    let locks = footprint(alloc, bound)?;
    match lock_all(machine, session, locks.as_slice())? {
        Turn::Served => {}
        turn => return Ok(turn),
    }
    match reply_to(alloc, registry, journal, lookups, machine, session, bound) {
        Ok(()) => end_if_answered(rt, registry, journal, machine, session),
        Err(KeepError::Ended(cause)) => {
            machine.fail(session, cause);
            Ok(Turn::Ended(cause))
        }
        Err(KeepError::Memory) => Err(Memory),
    }
}

/// Replies to a session's next statement where no group of it is open: a COMMIT or ROLLBACK, which needs
/// nothing of the last migration and is refused.
///
/// # Errors
/// Where memory runs out. The machine is as it was then.
fn refuse<N: Opened>(
    alloc: Global,
    registry: &Registry,
    lookups: &mut Option<Lookups<N>>,
    machine: &mut Machine<N>,
    session: u32,
    bound: &Bound,
) -> Result<(), Memory>
    requires registry { registry.now ≡ N.registry }
    requires place { IsPlace machine.old.script session }
    requires kept { IsKept N.opening machine.old }
    requires can { CanRefuse machine.old session }
    requires prepared { IsPreparedNext machine.old session bound.now }
    requires present { bound.now.catalog ≡ machine.old.db.number }
    requires well_bound { IsWellBound bound.now.action }
    ensures replied { OnOk result (HasReplied machine.old session bound.now machine.new) }
    ensures err { OnErr result (machine.new ≡ machine.old) }
{
    let pass = machine.migration();
    let migration = pass.as_ref();
    let cover = cover_with(alloc, registry, lookups, machine, migration, bound)?;
    reply_behind_moves(registry, machine, session, migration, bound, &cover)
}

/// Gives a session's next statement its reply, or asks for its locks until one is not granted.
fn serve<N: Opened, J: Journal, R: Wait>(
    alloc: Global,
    rt: &R,
    registry: &Registry,
    journal: &mut J,
    lookups: &mut Option<Lookups<N>>,
    machine: &mut Machine<N>,
    session: u32,
    place: u32,
) -> Result<Turn, Memory>
    requires registry { registry.now ≡ N.registry }
    requires logged { J.ends ≡ N.logged }
    requires said { AreSaid J.Says N.script }
    requires place { IsPlace machine.old.script session }
    requires kept { IsKept N.opening machine.old }
    requires stands { StandsAs machine.old session (Statement place) }
    ensures reaches { Reaches N.opening machine.old machine.new }
    ensures keeps { Keeps J.Answers N.opening machine.old journal.old machine.new
        journal.new }
    ensures turn { IfOk result (λ turn. IsTurn machine.old session N.opening turn machine.new) }
{
    let bound = prepare_next(alloc, machine, session, place)?;
    if machine.start(session).is_some() {
        return serve_in_group(
            alloc, rt, registry, journal, lookups, machine, session, &bound,
        );
    }
    refuse(alloc, registry, lookups, machine, session, &bound)?;
    Ok(Turn::Served)
}

/// Begins a session's next group where it is to begin, and tells where the session stands then.
fn begin_if_due<N: Opened>(machine: &mut Machine<N>, session: u32) -> Result<Stand, Memory>
    requires place { IsPlace machine.old.script session }
    requires kept { IsKept N.opening machine.old }
    ensures reaches { Reaches N.opening machine.old machine.new }
    ensures leaves { LeavesStore N.opening machine.old machine.new }
    ensures begins { OnOk result
        ((machine.new ≡ machine.old) ⊎ Begins machine.old session machine.new) }
    ensures stands { IfOk result (λ stand. StandsAs machine.new session stand) }
    ensures begun { IfOk result (λ stand. stand ≢ Begin) }
    ensures passed { IfOk result (λ stand. can_go stand ≡ false → machine.new ≡ machine.old) }
{
    let stand = machine.stand(session);
    if stand != Stand::Begin {
        return Ok(stand);
    }
    machine.begin(session)?;
    Ok(machine.stand(session))
}

/// One turn of a session: drives its next statement until it has its reply, waits or dies. A group
/// begins with its first statement's turn and, but for its COMMIT or ROLLBACK, ends with its last
/// one's.
fn take_turn<N: Opened, J: Journal, R: Wait>(
    alloc: Global,
    rt: &R,
    registry: &Registry,
    journal: &mut J,
    lookups: &mut Option<Lookups<N>>,
    machine: &mut Machine<N>,
    session: u32,
) -> Result<Turn, Memory>
    requires registry { registry.now ≡ N.registry }
    requires logged { J.ends ≡ N.logged }
    requires said { AreSaid J.Says N.script }
    requires place { IsPlace machine.old.script session }
    requires kept { IsKept N.opening machine.old }
    ensures reaches { Reaches N.opening machine.old machine.new }
    ensures keeps { Keeps J.Answers N.opening machine.old journal.old machine.new
        journal.new }
    ensures turn { IfOk result (λ turn. IsTurn machine.old session N.opening turn machine.new) }
{
    match begin_if_due(machine, session)? {
        Stand::Statement(place) => serve(
            alloc, rt, registry, journal, lookups, machine, session, place,
        ),
        Stand::Commit => commit(rt, registry, journal, machine, session),
        Stand::Abort => {
            machine.abort(session);
            Ok(Turn::Served)
        }
        _ => Ok(Turn::Passed),
    }
}

/// A turn of the session of a number, if it is one of so many.
fn turn_of<N: Opened, J: Journal, R: Wait>(
    alloc: Global,
    rt: &R,
    registry: &Registry,
    journal: &mut J,
    lookups: &mut Option<Lookups<N>>,
    machine: &mut Machine<N>,
    count: u32,
    session: u32,
) -> Result<(), Memory>
    requires registry { registry.now ≡ N.registry }
    requires logged { J.ends ≡ N.logged }
    requires said { AreSaid J.Says N.script }
    requires count { count ≡ length machine.old.script.sessions }
    requires kept { IsKept N.opening machine.old }
    ensures reaches { Reaches N.opening machine.old machine.new }
    ensures keeps { Keeps J.Answers N.opening machine.old journal.old machine.new
        journal.new }
    ensures turn { OnOk result (IsTurnOf N.opening machine.old session machine.new) }
{
    if session == 0 || count < session {
        return Ok(());
    }
    take_turn(alloc, rt, registry, journal, lookups, machine, session)?;
    Ok(())
}

/// The session whose open group is the youngest, and `None` exactly where none is open. It looks at
/// each session.
fn youngest<N: Opened>(machine: &Machine<N>) -> Option<u32>
    ensures none { result ≡ None → (s : ℕ) → open_at machine.now s ≡ None }
    ensures place { IfSome result (IsPlace machine.now.script) }
    ensures youngest { IfSome result (IsYoungest machine.now) }
{
    let mut youngest = None;
    let mut latest = 0;
    for place in 0..machine.session_count() {
        if let Some(start) = machine.start(place + 1)
            && start > latest
        {
            latest = start;
            youngest = Some(place + 1);
        }
    }
    youngest
}

/// The first session of which a call can come, and `None` exactly where there is none.
fn first_to_go<N: Opened>(machine: &Machine<N>) -> Option<u32>
    ensures none { result ≡ None
        → (s : ℕ) → IsPlace machine.now.script s → CannotGo machine.now s }
    ensures place { IfSome result (IsPlace machine.now.script) }
    ensures goes { IfSome result (CanGo machine.now) }
    ensures first { IfSome result (λ first.
        (s : ℕ) → 1 ≤ s → s < first → CannotGo machine.now s) }
{
    for place in 0..machine.session_count() {
        if machine.stand(place + 1).can_go() {
            return Some(place + 1);
        }
    }
    None
}

/// Drives the open groups to their ends, the youngest first. No group begins.
fn end_open_groups<N: Opened, J: Journal, R: Wait>(
    alloc: Global,
    rt: &R,
    registry: &Registry,
    journal: &mut J,
    lookups: &mut Option<Lookups<N>>,
    machine: &mut Machine<N>,
) -> Result<(), Memory>
    requires registry { registry.now ≡ N.registry }
    requires logged { J.ends ≡ N.logged }
    requires said { AreSaid J.Says N.script }
    requires kept { IsKept N.opening machine.old }
    ensures reaches { Reaches N.opening machine.old machine.new }
    ensures keeps { Keeps J.Answers N.opening machine.old journal.old machine.new
        journal.new }
    ensures closed { OnOk result ((s : ℕ) → open_at machine.new s ≡ None) }
    ensures driven { OnOk result (Driven N.opening machine.old machine.new) }
    ensures nothing { ((s : ℕ) → open_at machine.old s ≡ None) → machine.new ≡ machine.old }
    ensures alone { OnOk result ((s : ℕ) → IsAlone machine.old s
        → Serves machine.old s machine.new
        × (unanswered machine.new s ≤ unanswered machine.old s)) }
    ensures followed { OnOk result (machine.old.may_end ≡ these []
        → (s : ℕ) → IsAlone machine.old s
        → IsFollowed machine.old s N.opening → IsFollowed machine.new s N.opening) }
{
    while let Some(session) = youngest(machine) {
        take_turn(alloc, rt, registry, journal, lookups, machine, session)?;
    }
    Ok(())
}

/// Drives sessions of which no group is open to their ends, one group after the other.
fn end_sessions<N: Opened, J: Journal, R: Wait>(
    alloc: Global,
    rt: &R,
    registry: &Registry,
    journal: &mut J,
    lookups: &mut Option<Lookups<N>>,
    machine: &mut Machine<N>,
) -> Result<(), Memory>
    requires registry { registry.now ≡ N.registry }
    requires logged { J.ends ≡ N.logged }
    requires said { AreSaid J.Says N.script }
    requires kept { IsKept N.opening machine.old }
    requires closed { (s : ℕ) → open_at machine.old s ≡ None }
    ensures reaches { Reaches N.opening machine.old machine.new }
    ensures keeps { Keeps J.Answers N.opening machine.old journal.old machine.new
        journal.new }
    ensures driven { OnOk result (Driven N.opening machine.old machine.new) }
    ensures ended { OnOk result
        ((s : ℕ) → IsPlace machine.new.script s → HasSessionEnded machine.new s) }
    ensures deaths { OnOk result ((n : ℕ) → deaths_at machine.new n ≡ deaths_at machine.old n) }
    ensures sequence { OnOk result
        (IsInSequence N.opening machine.old → IsInSequence N.opening machine.new) }
{
    while let Some(session) = first_to_go(machine) {
        take_turn(alloc, rt, registry, journal, lookups, machine, session)?;
        end_open_groups(alloc, rt, registry, journal, lookups, machine)?;
    }
    Ok(())
}

/// Serves the sessions of a machine on one thread. Each number of the order is one turn of that
/// session: its next statement is driven until it has its reply, or waits, or dies. A number of no
/// session, and a session that has ended, is of a later phase or waits for the end of another
/// group, is passed over. Then all that is left is driven, the youngest open group first, and where
/// none is open the first session that can go on. What a statement needs of the last migration
/// moves in its turn, and nothing else of it, by records of at most 64 granules of one unit. The
/// journal keeps each change of the store before it is made; where it refuses one by a cause, the group
/// that was to make it or needs it ends by that cause.
///
/// Linear in the turns, each of which looks at each session of the script, 64 at most in one that
/// is read, and costs what its statement's cover, moves and reply do. The old rows of a migration
/// are put in order by their values once, when a statement first can need some of it.
///
/// # Errors
/// Where memory runs out, 2 ^ 32 rows or more change, or 2 ^ 32 granules or migrations or 2 ^ 64
/// changes were made. The machine stands after some of the turns then, and maybe in the midst of
/// one: its group has begun, holds some of its locks, has moved what it needs, or has its last
/// reply and has not ended.
pub fn in_order<N: Opened, J: Journal, R: Wait>(
    alloc: Global,
    rt: &R,
    registry: &Registry,
    journal: &mut J,
    machine: &mut Machine<N>,
    order: &[u32],
) -> Result<(), Memory>
    requires registry { registry.now ≡ N.registry }
    requires logged { J.ends ≡ N.logged }
    requires said { AreSaid J.Says N.script }
    ensures reaches { Reaches N.opening machine.old machine.new }
    ensures keeps { Keeps J.Answers N.opening machine.old journal.old machine.new
        journal.new }
    ensures turns { OnOk result ((behind : Seen)
        × Turned N.opening machine.old order.now behind
        × Driven N.opening behind machine.new) }
    ensures answered { OnOk result
        ((s : ℕ) → IsPlace machine.new.script s → HasSessionEnded machine.new s) }
    ensures no_death { OnOk result (order.now ≡ [] → ((s : ℕ) → open_at machine.old s ≡ None)
        → (n : ℕ) → deaths_at machine.new n ≡ deaths_at machine.old n) }
    ensures sequence { OnOk result (order.now ≡ []
        → IsInSequence N.opening machine.old → IsInSequence N.opening machine.new) }
{
    let count = machine.session_count();
    let mut lookups = None;
    for session in order {
        turn_of(
            alloc,
            rt,
            registry,
            journal,
            &mut lookups,
            machine,
            count,
            *session,
        )?;
    }
    end_open_groups(alloc, rt, registry, journal, &mut lookups, machine)?;
    end_sessions(alloc, rt, registry, journal, &mut lookups, machine)
}
