//! What a thread does to the machine and its journal under their lock: a statement's locks are asked for and it has its reply, a
//! group ends, granules move. Each is some events beside the journal, or none.

ghost use Rattle.std.specs.Prelude.{◌≡◌, ◌≢◌, ◌⊎◌, ◌<◌, ℕ, All, IfOk, IfSome, IsSomeAnd, IsTrue, None, Ok, Some, false, length, nat_eq, not, true};
ghost use Rattle.std.specs.Option.{option_map};
ghost use Rattle.boxcar.specs.Table.{Shows};
ghost use Rattle.bf_image.specs.Migrations.{value_indexes};
ghost use Rattle.bf_store.specs.Puts.{AreImages};
ghost use Rattle.bf_store.specs.Stores.{IsOf};
ghost use Rattle.bf_store.specs.States.{IsComplete};
ghost use Rattle.bf_sql.specs.Bound.{catalog_of};
ghost use Rattle.bf_machine.specs.interleaving.Calls.{CanCommit, IsCovered, IsPlace, slot_of};
ghost use Rattle.bf_machine.specs.interleaving.Events.{EndsByLog, Moves};
ghost use Rattle.bf_machine.specs.interleaving.Journals.{AreSaid, IsRefused, IsUnkeptMove, Keeps};
ghost use Rattle.bf_tree.specs.declared.reply.Cause.{Cause as Told};
ghost use Rattle.bf_machine.specs.interleaving.Kept.{is_of_log};
ghost use Rattle.bf_machine.specs.interleaving.Machines.{Open, open_at};
ghost use Rattle.bf_machine.specs.interleaving.Serving.{LeavesStore};
ghost use Rattle.bf_serve.specs.Requests.{HoldsIfOpen, IsCoverAt, IsPresentCatalog, IsReady, NeedsNothing, StandsAt};
ghost use Rattle.bf_serve.specs.Sections.{IsAskedAs, IsRanAs, IsRanHeld};

use crate::catalogs::copy_of;
use crate::requests::{Position, Request};
use bf_base::{Granule, Memory};
use bf_image::{CatalogPass, MigrationPass, Registry, ValueIndexes};
use bf_machine::{Journal, Machine, MoveError, Opened, Stand, Step, Turn, lock_all};
use bf_store::Images;
use bf_trackers::Work;
use bf_transpose::Cover;
use bf_tree::Cause;
use std::alloc::Global;
use std::sync::Wait;

/// A pass of a machine's catalog, which is added to the registry. `None` where memory runs out.
pub(crate) fn present_catalog<N: Opened, R: Wait>(
    alloc: Global,
    rt: &R,
    registry: &Registry,
    machine: &Machine<N>,
) -> Option<CatalogPass>
    ensures { IsPresentCatalog registry.now machine.now result }
{
    let Ok(catalog) = copy_of(alloc, machine.catalog()) else {
        return None;
    };
    registry.add_catalog(rt, catalog).ok()
}

/// Whether a machine still stands where a statement was made ready, in the catalog in which it is bound.
fn stands_at<N: Opened>(
    registry: &Registry,
    machine: &Machine<N>,
    catalog: &Option<CatalogPass>,
    at: &Position<N>,
) -> bool
    requires registry { registry.now ≡ N.registry }
    requires place { IsPlace machine.now.script at.now.session }
    requires present { IsPresentCatalog N.registry machine.now catalog.now }
    ensures { IsTrue result → StandsAt machine.now at.now }
{
    let session = at.session();
    let Some(pass) = catalog else {
        return false;
    };
    let Stand::Statement(place) = machine.stand(session) else {
        return false;
    };
    if place != at.place() {
        return false;
    }
    if !are_equal(machine.is_in_block(session), at.in_block()) {
        return false;
    }
    registry.same_catalog(at.catalog(), pass)
}

/// Whether two answers are equal.
fn are_equal(one: bool, other: bool) -> bool
    ensures { IsTrue result → one ≡ other }
{
    one == other
}

/// How the locks of a statement were asked for.
#[derive(Clone, Copy, Debug, PartialEq, Eq)]
pub(crate) enum Asked {
    /// Its group holds them all.
    Granted,
    /// Others hold one of them, all of them younger.
    Waits,
    /// An older group holds one of them, and the attempt has ended.
    Died,
    /// The machine does not stand there any more.
    Elsewhere,
}

/// Asks for the locks of a statement that was made ready, one after the other up to the first that is not granted, if the
/// machine still stands there.
///
/// # Errors
/// Where memory runs out. Some may be held then.
#[tactic(auto, using(crate::proofs::threads::Coming::leaves_same))]
fn ask_for_all<N: Opened>(
    registry: &Registry,
    machine: &mut Machine<N>,
    catalog: &Option<CatalogPass>,
    request: &Request<N>,
) -> Result<Asked, Memory>
    requires registry { registry.now ≡ N.registry }
    requires place { IsPlace machine.old.script request.now.at.session }
    requires present { IsPresentCatalog N.registry machine.old catalog.now }
    ensures leaves { LeavesStore N.opening machine.old machine.new }
    ensures present { IsPresentCatalog N.registry machine.new catalog.now }
    ensures same { machine.new.script ≡ machine.old.script }
    ensures asked { IfOk result (IsAskedAs N.opening machine.old request.now machine.new) }
{
    // Its contract says that the script is the one that the type names, and what a machine keeps.
    let _ = machine.script();
    let session = request.at().session();
    if request.locks().is_empty() {
        return Ok(Asked::Granted);
    }
    if !stands_at(registry, machine, catalog, request.at()) {
        return Ok(Asked::Elsewhere);
    }
    let Some(_) = machine.start(session) else {
        return Ok(Asked::Elsewhere);
    };
    match lock_all(machine, session, request.locks())? {
        Turn::Served => Ok(Asked::Granted),
        Turn::Waited => Ok(Asked::Waits),
        Turn::Died => Ok(Asked::Died),
        Turn::Passed | Turn::Ended(_) => unreachable!(),
    }
}

/// Whether two passes of a registry are of one migration, or there is neither.
fn are_one(registry: &Registry, one: Option<&MigrationPass>, other: Option<&MigrationPass>) -> bool
    requires one { IsOf registry.now (option_map (λ pass. pass.now) one) }
    requires other { IsOf registry.now (option_map (λ pass. pass.now) other) }
    ensures { IsTrue result → option_map (λ pass. pass.now.value) one.entry
        ≡ option_map (λ pass. pass.now.value) other.entry }
{
    match (one, other) {
        (Some(one), Some(other)) => registry.same_migration(one, other),
        (None, None) => true,
        (Some(_), None) | (None, Some(_)) => false,
    }
}

/// How a statement went that was made ready.
#[derive(Debug, Drop)]
pub(crate) enum Ran {
    /// It has its reply.
    Replied,
    /// These granules of the last migration are to move first.
    Need(Vec<Granule>),
    /// Others hold a lock of it, all of them younger.
    Waits,
    /// An older group holds a lock of it, and the attempt has ended.
    Died,
    /// What it needs of the last migration has to be looked for first.
    Uncovered,
    /// The machine does not stand there any more, or what it was made ready by has changed.
    Elsewhere,
}

/// Whether a statement whose locks are held may have its reply, or be told what it needs: the machine still stands there, in the
/// same catalog and with the same last migration.
fn is_ready<N: Opened>(
    registry: &Registry,
    machine: &Machine<N>,
    catalog: &Option<CatalogPass>,
    request: &Request<N>,
) -> bool
    requires registry { registry.now ≡ N.registry }
    requires place { IsPlace machine.now.script request.now.at.session }
    requires present { IsPresentCatalog N.registry machine.now catalog.now }
    requires held { HoldsIfOpen machine.now request.now }
    ensures { IsTrue result → IsReady machine.now request.now }
{
    let at = request.at();
    let pass = machine.migration();
    if !stands_at(registry, machine, catalog, at) {
        return false;
    }
    are_one(registry, at.migration(), pass.as_ref())
}

/// Whether nothing that a statement needs is left to move, as far as that is told without a row made: nothing of the last
/// migration is left, or all its candidates have moved.
///
/// # Errors
/// Where memory runs out.
fn needs_nothing<N: Opened>(
    alloc: Global,
    machine: &Machine<N>,
    request: &Request<N>,
) -> Result<bool, Memory>
    requires { IsReady machine.now request.now }
    ensures { IfOk result (λ nothing. IsTrue nothing → NeedsNothing machine.now request.now) }
{
    // Their contracts say what a machine and a request keep.
    let _ = machine.script();
    let _ = request.at();
    if machine.is_complete() {
        return Ok(true);
    }
    let Some(candidates) = request.candidates() else {
        return Ok(false);
    };
    let left = machine.need(alloc, candidates)?;
    Ok(left.is_empty())
}

/// Replies to a statement that may have its reply, or tells what is to move first.
///
/// # Errors
/// Where memory runs out, or 2 ^ 32 rows or more change. The machine is as it was then.
#[tactic(auto, using(crate::proofs::threads::Coming::leaves_same, crate::proofs::threads::Coming::leaves_replied))]
fn run_ready<N: Opened>(
    registry: &Registry,
    machine: &mut Machine<N>,
    request: &Request<N>,
    cover: &Cover,
) -> Result<Ran, Memory>
    requires registry { registry.now ≡ N.registry }
    requires place { IsPlace machine.old.script request.now.at.session }
    requires ready { IsReady machine.old request.now }
    requires cover { IsCoverAt machine.old request.now cover.now }
    ensures leaves { LeavesStore N.opening machine.old machine.new }
    ensures same { machine.new.db ≡ machine.old.db }
    ensures ran { IfOk result (IsRanHeld request.now) }
{
    // Its contract says that the script is the one that the type names, and what a machine keeps.
    let _ = machine.script();
    let pass = machine.migration();
    let session = request.at().session();
    match machine.exec(registry, session, pass.as_ref(), request.bound(), cover)? {
        Step::Replied => Ok(Ran::Replied),
        Step::Need(granules) => Ok(Ran::Need(granules)),
        Step::Stale(_) => Ok(Ran::Elsewhere),
    }
}

/// Replies to a statement whose locks are held, if the machine still stands there, and nothing that it needs is left to move.
///
/// # Errors
/// Where memory runs out, or 2 ^ 32 rows or more change. The machine is as it was then.
#[tactic(auto, using(crate::proofs::threads::Coming::leaves_same))]
fn run_held<N: Opened>(
    alloc: Global,
    registry: &Registry,
    machine: &mut Machine<N>,
    catalog: &Option<CatalogPass>,
    request: &Request<N>,
) -> Result<Ran, Memory>
    requires registry { registry.now ≡ N.registry }
    requires place { IsPlace machine.old.script request.now.at.session }
    requires present { IsPresentCatalog N.registry machine.old catalog.now }
    requires held { HoldsIfOpen machine.old request.now }
    ensures leaves { LeavesStore N.opening machine.old machine.new }
    ensures present { IsPresentCatalog N.registry machine.new catalog.now }
    ensures ran { IfOk result (IsRanHeld request.now) }
{
    if !is_ready(registry, machine, catalog, request) {
        return Ok(Ran::Elsewhere);
    }
    if let Some(cover) = request.cover() {
        return run_ready(registry, machine, request, cover);
    }
    if !needs_nothing(alloc, machine, request)? {
        return Ok(Ran::Uncovered);
    }
    let nothing = Cover {
        catalog: 0,
        migration: 0,
        granules: Vec::new(alloc),
    };
    run_ready(registry, machine, request, &nothing)
}

/// Asks for the locks of a statement that was made ready, and replies to it where its group holds them all.
///
/// # Errors
/// Where memory runs out, or 2 ^ 32 rows or more change. Some of its locks may be held then.
pub(crate) fn run_statement<N: Opened>(
    alloc: Global,
    registry: &Registry,
    machine: &mut Machine<N>,
    catalog: &Option<CatalogPass>,
    request: &Request<N>,
) -> Result<Ran, Memory>
    requires registry { registry.now ≡ N.registry }
    requires place { IsPlace machine.old.script request.now.at.session }
    requires present { IsPresentCatalog N.registry machine.old catalog.now }
    ensures leaves { LeavesStore N.opening machine.old machine.new }
    ensures present { IsPresentCatalog N.registry machine.new catalog.now }
    ensures ran { IfOk result (IsRanAs N.opening machine.old request.now machine.new) }
{
    match ask_for_all(registry, machine, catalog, request)? {
        Asked::Granted => run_held(alloc, registry, machine, catalog, request),
        Asked::Waits => Ok(Ran::Waits),
        Asked::Died => Ok(Ran::Died),
        Asked::Elsewhere => Ok(Ran::Elsewhere),
    }
}

/// Commits a session's group, adds the catalog to the registry where it has changed, and tells whether it has.
///
/// # Errors
/// Where [`Machine::commit`] has one. The machine is as it was then.
pub(crate) fn commit<N: Opened, J: Journal, R: Wait>(
    alloc: Global,
    rt: &R,
    registry: &Registry,
    machine: &mut Machine<N>,
    journal: &mut J,
    catalog: &mut Option<CatalogPass>,
    session: u32,
) -> Result<bool, Memory>
    requires registry { registry.now ≡ N.registry }
    requires logged { J.ends ≡ N.logged }
    requires said { AreSaid J.Says N.script }
    requires place { IsPlace machine.old.script session }
    requires can { CanCommit machine.old session }
    requires present { IsPresentCatalog N.registry machine.old catalog.old }
    ensures keeps { Keeps J.Answers N.opening machine.old journal.old machine.new
        journal.new }
    ensures present { IsPresentCatalog N.registry machine.new catalog.new }
    ensures changed { IfOk result (λ has_changed.
        has_changed ≡ not (nat_eq machine.new.db.number machine.old.db.number)) }
{
    let number = machine.catalog().number();
    machine.commit(rt, registry, journal, session)?;
    if machine.catalog().number() != number {
        *catalog = present_catalog(alloc, rt, registry, machine);
        return Ok(true);
    }
    Ok(false)
}

/// Does work by the images of its granules, and tells whether they have moved. Where the journal does not keep the move, the open
/// group of the session that needs them ends by the journal's cause, if a session does.
///
/// # Errors
/// Where memory runs out, or 2 ^ 32 granules or 2 ^ 64 changes were made. The machine is as it was then.
pub(crate) fn move_for<N: Opened, J: Journal>(
    registry: &Registry,
    machine: &mut Machine<N>,
    journal: &mut J,
    session: Option<u32>,
    work: &Work,
    indexes: &ValueIndexes,
    images: Images,
) -> Result<bool, Memory>
    requires registry { registry.now ≡ N.registry }
    requires logged { J.ends ≡ N.logged }
    requires place { IfSome session (IsPlace machine.old.script) }
    requires pass { Shows N.registry.migrations work.now.pass }
    requires indexed { indexes.now ≡ value_indexes work.now.pass.value }
    requires images { AreImages work.now.pass.value work.now.granules images }
    ensures moves { result ≡ Ok true → Moves machine.old work.now.granules machine.new }
    ensures of_it { result ≡ Ok true
        → option_map (λ pass. pass.value) machine.old.pass ≡ Some work.now.pass.value }
    ensures refused { result ≡ Ok false → (slot_of machine.old.pass ≢ Some work.now.pass.index)
        ⊎ ((cause : Told) × IsRefused J.Answers (IsUnkeptMove machine.old.lazy cause)
        machine.old.lazy journal.old journal.new cause) }
    ensures keeps { Keeps J.Answers N.opening machine.old journal.old machine.new
        journal.new }
    ensures same { catalog_of machine.new.db ≡ catalog_of machine.old.db }
{
    let pass = work.pass();
    let granules = work.granules();
    match machine.moved(registry, journal, pass, indexes, granules, Some(images)) {
        Ok(_) => Ok(true),
        Err(MoveError::Old(_)) => Ok(false),
        Err(MoveError::Ended(cause)) => {
            end_needing(machine, session, cause);
            Ok(false)
        }
        Err(MoveError::Memory) => Err(Memory),
    }
}

/// Ends the open group of a session by a cause of the log, if there is one.
fn end_needing<N: Opened>(machine: &mut Machine<N>, session: Option<u32>, cause: Cause)
    requires place { IfSome session (IsPlace machine.old.script) }
    requires logged { N.logged ≡ true }
    requires of_log { is_of_log cause ≡ true }
    ensures { (machine.new ≡ machine.old)
        ⊎ ((s : ℕ) × (by : EndsByLog machine.old s machine.new) × (by.cause ≡ cause)) }
{
    if let Some(session) = session
        && machine.is_current(session)
        && machine.start(session).is_some()
    {
        machine.fail(session, cause);
    }
}
