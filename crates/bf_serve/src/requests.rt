//! Statements that are made ready outside the lock: bound in the catalog of the moment at which their session stood there, with
//! their locks and with what they need of the last migration.

ghost use Rattle.std.specs.Prelude.{◌≡◌, IfOk, IfSome, IsTrue};
ghost use Rattle.std.specs.Option.{option_map};
ghost use Rattle.bf_live.specs.Replies.{IsWellBound};
ghost use Rattle.bf_store.specs.Stores.{AreIndexesOf, IsOf};
ghost use Rattle.bf_transpose.specs.Covers.{IsCoverOf};
ghost use Rattle.boxcar.specs.Table.{Shows};
ghost use Rattle.bf_serve.specs.Requests.{AreCandidatesOf, IsPosition, IsPreparedAt, IsRequest, IsSelect};

use bf_base::{Granule, Memory};
use bf_image::{CatalogPass, MigrationPass, Registry, ValueIndexes};
use bf_locks::{LockName, Mode};
use bf_machine::Opened;
use bf_plan::prepare;
use bf_sql::footprint;
use bf_transpose::{Cover, can_need, candidates_of, cover_of};
use bf_tree::{Bound, Script, Statement};
use std::alloc::Global;
use std::marker::{Model, PhantomData};

/// Where a session stands whose next statement is to have its reply. Contracts see the session, the
/// statement, whether it stands in an open block, and the passes of the catalog and of the last migration at
/// that moment. The type keeps that the run's script has the statement and that the passes are those of its
/// registry.
#[derive(Drop)]
pub struct Position<N: Opened> {
    pub(crate) session: u32,
    pub(crate) place: u32,
    pub(crate) in_block: bool,
    pub(crate) catalog: CatalogPass,
    pub(crate) migration: Option<MigrationPass>,
    /// Whether anything of the migration was left to move.
    pub(crate) is_left: bool,
    pub(crate) opened: PhantomData<N>,
}

impl<N: Opened> Model for Position<N> {
    ghost use Rattle.std.specs.Coded.{codes};
    ghost use Rattle.boxcar.specs.Table.{where_coded};
    ghost use Rattle.bf_image.specs.contracts.migration.Migration as migrations;
    ghost use Rattle.bf_serve.specs.Requests.{IsPosition, Position as Seen};

    ghost Value = { Seen };

    ghost coded = { Prim.hlevel (codes, where_coded migrations.the_row.coded) };

    ghost view = { λ p. record {
      session = p.session;
      place = p.place;
      in_block = p.in_block;
      catalog = p.catalog;
      migration = p.migration;
    } };

    ghost invariant = { λ p. IsPosition N.registry N.script
        (record {
          session = p.session;
          place = p.place;
          in_block = p.in_block;
          catalog = p.catalog;
          migration = p.migration;
        }) };
}

/// A session's next statement, made ready. Contracts see where its session stood, how it is bound, the locks of
/// its footprint, its cover, if it has been made, and its candidates, if its keys tell them. The type keeps that
/// all of this is the statement's own.
#[derive(Drop)]
pub struct Request<N: Opened> {
    pub(crate) at: Position<N>,
    pub(crate) bound: Bound,
    pub(crate) locks: Vec<(LockName, Mode)>,
    pub(crate) cover: Option<Cover>,
    pub(crate) candidates: Option<Vec<Granule>>,
}

impl<N: Opened> Model for Request<N> {
    ghost use Rattle.std.specs.Coded.{codes};
    ghost use Rattle.boxcar.specs.Table.{where_coded};
    ghost use Rattle.bf_image.specs.contracts.migration.Migration as migrations;
    ghost use Rattle.bf_tree.specs.contracts.bound.Bound as bounds;
    ghost use Rattle.bf_serve.specs.Requests.{IsRequest, Request as Seen};

    ghost Value = { Seen };

    ghost coded = { Prim.hlevel (codes, bounds.the_row.coded, where_coded migrations.the_row.coded) };

    ghost view = { λ r. record {
      at = r.at;
      bound = r.bound;
      locks = r.locks.items;
      cover = r.cover;
      candidates = r.candidates;
    } };

    ghost invariant = { λ r. IsRequest N.registry N.script
        (record {
          at = r.at;
          bound = r.bound;
          locks = r.locks.items;
          cover = r.cover;
          candidates = r.candidates;
        }) };
}

impl<N: Opened> Position<N> {
    /// The session.
    pub fn session(&self) -> u32
        ensures session { result ≡ self.now.session }
        ensures own { IsPosition N.registry N.script self.now }
    {
        self.session
    }

    /// The number of its next statement.
    pub fn place(&self) -> u32
        ensures { result ≡ self.now.place }
    {
        self.place
    }

    /// Whether that stands in an open block.
    pub fn in_block(&self) -> bool
        ensures { result ≡ self.now.in_block }
    {
        self.in_block
    }

    /// What reads the catalog of that moment.
    pub fn catalog(&self) -> &CatalogPass
        ensures pass { result.now ≡ self.now.catalog }
        ensures own { Shows N.registry.catalogs self.now.catalog }
    {
        &self.catalog
    }

    /// What reads the last migration of that moment, if there was one.
    pub fn migration(&self) -> Option<&MigrationPass>
        ensures pass { option_map (λ pass. pass.now) result ≡ self.now.migration }
        ensures own { IsOf N.registry self.now.migration }
    {
        self.migration.as_ref()
    }
}

impl<N: Opened> Position<N> {
    /// Where the session is to stand behind its reply, where both the statement and the next one are SELECTs, which leave the
    /// catalog and the block as they are, and nothing of the last migration was left to move. `None` elsewhere.
    pub(crate) fn behind_select(&self, script: &Script) -> Option<Position<N>>
        requires { script.now ≡ N.script }
    {
        let place = self.place.checked_add(1)?;
        let sessions = script.sessions.as_slice();
        let statements = sessions[self.session as usize - 1].statements.as_slice();
        let here = self.place as usize - 1;
        let next = statements.get(here + 1)?;
        if self.is_left || !is_select(&statements[here]) || !is_select(next) {
            return None;
        }
        Some(Position {
            session: self.session,
            place,
            in_block: self.in_block,
            catalog: self.catalog.copy(),
            migration: copy_of_pass(&self.migration),
            is_left: false,
            opened: PhantomData,
        })
    }
}

impl<N: Opened> Request<N> {
    /// Where its session stood.
    pub fn at(&self) -> &Position<N>
        ensures at { result.now ≡ self.now.at }
        ensures own { IsRequest N.registry N.script self.now }
    {
        &self.at
    }

    /// The statement as it is bound, and planned.
    pub fn bound(&self) -> &Bound
        ensures { result.now ≡ self.now.bound }
    {
        &self.bound
    }

    /// The locks of its footprint, in the order of asking.
    pub fn locks(&self) -> &[(LockName, Mode)]
        ensures { result.now ≡ self.now.locks }
    {
        self.locks.as_slice()
    }

    /// Whether it locks no whole table: it names the rows that it reads or writes by their keys.
    pub(crate) fn is_of_rows(&self) -> bool {
        for (name, mode) in self.locks.as_slice() {
            if let LockName::Whole(_) = name
                && !matches!(mode, Mode::IS | Mode::IX)
            {
                return false;
            }
        }
        true
    }

    /// What it needs moved, whether it has moved or not. `None` where that has not been looked for: nothing of the migration
    /// was left to move, or its candidates are told.
    pub fn cover(&self) -> Option<&Cover>
        ensures { option_map (λ cover. cover.now) result ≡ self.now.cover }
    {
        self.cover.as_ref()
    }

    /// Granules among which are all that it needs, where the keys tell them that it fixes, and something of the migration was
    /// left to move.
    pub fn candidates(&self) -> Option<&Vec<Granule>>
        ensures { option_map (λ granules. granules.now) result ≡ self.now.candidates }
    {
        self.candidates.as_ref()
    }
}

/// Whether a statement is a SELECT.
fn is_select(statement: &Statement) -> bool
    ensures { IsTrue result → IsSelect statement.now }
{
    matches!(statement, Statement::Select { .. })
}

/// Another pass of a migration, if there is one.
fn copy_of_pass(migration: &Option<MigrationPass>) -> Option<MigrationPass>
    ensures { result ≡ migration.now }
{
    match migration {
        Some(pass) => Some(pass.copy()),
        None => None,
    }
}

/// A statement as it is bound in the catalog of a position, and planned where it is a MIGRATE. It costs what
/// [`bf_plan::prepare`] does.
///
/// # Errors
/// Where memory runs out.
fn bound_at<N: Opened>(
    alloc: Global,
    registry: &Registry,
    script: &Script,
    at: &Position<N>,
) -> Result<Bound, Memory>
    requires registry { registry.now ≡ N.registry }
    requires script { script.now ≡ N.script }
    ensures position { IsPosition N.registry N.script at.now }
    ensures prepared { IfOk result (IsPreparedAt N.script at.now) }
    ensures well_bound { IfOk result (λ bound. IsWellBound bound.action) }
{
    let sessions = script.sessions.as_slice();
    let statements = sessions[at.session as usize - 1].statements.as_slice();
    prepare(
        alloc,
        &statements[at.place as usize - 1],
        registry.catalog(&at.catalog),
        at.in_block,
    )
}

/// The cover of a statement that is bound at a position, where no granule has to be looked for: none where there is a
/// migration of which it can need something.
///
/// # Errors
/// Where memory runs out.
fn cover_at<N: Opened>(
    alloc: Global,
    registry: &Registry,
    at: &Position<N>,
    bound: &Bound,
) -> Result<Option<Cover>, Memory>
    requires registry { registry.now ≡ N.registry }
    requires well_bound { IsWellBound bound.now.action }
    ensures cover { IfOk result (λ cover. IfSome cover
        (IsCoverOf (option_map (λ pass. pass.value) at.now.migration) bound.now)) }
{
    let Some(pass) = &at.migration else {
        return Ok(Some(cover_of(alloc, bound, None)?));
    };
    let last = registry.migration(pass);
    if can_need(bound, last) {
        return Ok(None);
    }
    Ok(Some(Cover {
        catalog: bound.catalog,
        migration: last.number,
        granules: Vec::new(alloc),
    }))
}

/// The granules among which are all that a statement needs that is bound at a position, as its keys tell; none where it
/// fixes no key, where there is no migration, and where nothing of it is left to move.
///
/// # Errors
/// Where memory runs out.
fn candidates_at<N: Opened>(
    alloc: Global,
    registry: &Registry,
    at: &Position<N>,
    bound: &Bound,
) -> Result<Option<Vec<Granule>>, Memory>
    requires registry { registry.now ≡ N.registry }
    requires well_bound { IsWellBound bound.now.action }
    ensures { IfOk result (λ found. IfSome found
        (λ granules. AreCandidatesOf at.now.migration bound.now granules.items)) }
{
    match &at.migration {
        Some(pass) if at.is_left => candidates_of(alloc, bound, registry.migration(pass)),
        Some(_) | None => Ok(None),
    }
}

impl<N: Opened> Request<N> {
    /// The statement at a position, made ready: bound, with its locks, with its cover where no granule has to be looked for,
    /// and with its candidates where its keys tell them and something of the migration is left to move. It costs what
    /// [`bf_plan::prepare`] and [`bf_transpose::candidates_of`] do, and waits for nobody.
    ///
    /// # Errors
    /// Where memory runs out.
    pub fn of(
        alloc: Global,
        registry: &Registry,
        script: &Script,
        at: Position<N>,
    ) -> Result<Request<N>, Memory>
        requires registry { registry.now ≡ N.registry }
        requires script { script.now ≡ N.script }
        ensures { IfOk result (λ request. request.at ≡ at) }
    {
        let bound = bound_at(alloc, registry, script, &at)?;
        let locks = footprint(alloc, &bound)?;
        let cover = cover_at(alloc, registry, &at, &bound)?;
        let candidates = candidates_at(alloc, registry, &at, &bound)?;
        Ok(Request {
            at,
            bound,
            locks,
            cover,
            candidates,
        })
    }

    /// The statement with its cover, by the old rows of the last migration by their values. It costs what
    /// [`bf_transpose::cover_of`] does, and waits for nobody.
    ///
    /// # Errors
    /// Where memory runs out.
    pub(crate) fn covered(
        self,
        alloc: Global,
        registry: &Registry,
        indexes: &ValueIndexes,
    ) -> Result<Request<N>, Memory>
        requires registry { registry.now ≡ N.registry }
        requires indexes { AreIndexesOf self.at.migration indexes.now }
        ensures { IfOk result (λ request. request.at ≡ self.at) }
    {
        let Some(pass) = self.at.migration() else {
            return Ok(self);
        };
        let last = registry.migration(pass);
        let cover = cover_of(alloc, &self.bound, Some((last, indexes)))?;
        Ok(Request {
            cover: Some(cover),
            ..self
        })
    }
}
