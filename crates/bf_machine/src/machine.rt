//! The machine: sessions that take turns over the store, under locks.

mod ends;
mod moves;
mod stands;
mod statements;
mod turns;

ghost use Rattle.std.specs.Prelude.{◌≡◌, ◌↔◌, IfOk, None, length, true};
ghost use Rattle.std.specs.Arc.{arc_value};
ghost use Rattle.std.specs.Option.{option_map};
ghost use Rattle.bf_tree.specs.Limits.{HasNarrowTables};
ghost use Rattle.bf_sql.specs.Bound.{catalog_of};
ghost use Rattle.bf_sql.specs.Database.{IsDatabase};
ghost use Rattle.bf_sql.specs.History.{replayed};
ghost use Rattle.bf_sql.specs.migrations.Lazy.{view_of};
ghost use Rattle.bf_store.specs.Stores.{IsOf};
ghost use Rattle.bf_machine.specs.interleaving.Calls.{IsCovered, IsPlace, next_place, reply_at};
ghost use Rattle.bf_machine.specs.interleaving.Serving.{is_answered, is_in_block};
ghost use Rattle.bf_machine.specs.interleaving.Kept.{IsKept, IsWithinLimits, TranscriptsLegal, fresh};
ghost use Rattle.bf_machine.specs.interleaving.Machines.{open_at, transcripts_of};

use crate::opened::Opened;
use crate::so_far::{Began, SessionSoFar, all_replies, least_left, sessions_so_far};
use bf_base::{Memory, Sequence, next_number};
use bf_locks::{LockName, LockTable, Mode, join};
use bf_store::Store;
use bf_tree::{Catalog, Entry, History, Reply, Script, Transcripts};
use std::alloc::Global;
use std::marker::{Model, PhantomData};
use std::sync::Arc;

/// Sessions that take turns over a store, under locks. Contracts see the script, how often a group may
/// begin again, the database that sessions see, what the store keeps and the pass of its last migration,
/// the locks, the groups that have begun, those that are open, the replies before them, and the history.
/// The type names what the run began with.
#[derive(Drop)]
pub struct Machine<N: Opened> {
    alloc: Global,
    script: Arc<Script, Global>,
    retries: u16,
    store: Store,
    locks: LockTable,
    /// By start number, from 1 on.
    began: Vec<Began>,
    sessions: Vec<SessionSoFar>,
    /// The place, from 0 on, of a session that has not ended, of the earliest phase of those that have
    /// not. `None` where all have ended.
    least_left: Option<usize>,
    history: Vec<Entry>,
    /// How many entries are commits.
    commits: u64,
    /// Empty, with room for the transcript of each session.
    transcripts: Vec<Sequence<Reply>>,
    opened: PhantomData<N>,
}

/// What a machine leaves: the store, and what its sessions were told.
#[derive(Drop)]
pub struct Parts {
    pub store: Store,
    pub transcripts: Transcripts,
    pub history: History,
}

impl<N: Opened> Model for Machine<N> {
    ghost use Rattle.bf_machine.specs.interleaving.Machines.{Machine as Seen};
    ghost use Rattle.std.specs.Coded.{codes};
    ghost use Rattle.bf_tree.specs.contracts.raw.RawExpr as exprs;
    ghost use Rattle.bf_tree.specs.contracts.raw.RawCond as conds;
    ghost use Rattle.bf_tree.specs.contracts.plan.Plan as plans;
    ghost use Rattle.bf_locks.specs.contracts.table.LockTable as tables;
    ghost use Rattle.boxcar.specs.Table.{where_coded};
    ghost use Rattle.bf_image.specs.contracts.migration.Migration as migrations;

    ghost Value = { Seen };

    ghost coded = { Prim.hlevel (codes, exprs.the_row.coded, conds.the_row.coded, plans.the_row.coded, tables.the_row.coded, where_coded migrations.the_row.coded) };

    ghost use Rattle.std.specs.Prelude.{length};
    ghost use Rattle.std.specs.Arc.{arc_value};
    ghost use Rattle.bf_machine.specs.interleaving.Seen.{IsLeastLeft, IsSound, seen};

    ghost view = { λ m. seen N.logged (arc_value m.script) m.retries m.store m.locks m.began.items m.sessions.items m.history.items };

    ghost invariant = { λ m. IsSound N.opening N.registry N.script N.logged (arc_value m.script) m.retries m.store m.locks m.began.items m.sessions.items m.history m.commits m.transcripts
        × IsLeastLeft (arc_value m.script).sessions m.sessions.items (length m.sessions.items) m.least_left };
}

impl<N: Opened> Machine<N> {
    /// A machine over a store, in which nothing has begun. It makes room for the reply to each
    /// statement.
    ///
    /// # Errors
    /// Where memory runs out, or 2 ^ 32 - 1 sessions or more, or statements of a session, stand in the
    /// script. The store and the script are dropped then.
    pub fn new(
        alloc: Global,
        store: Store,
        script: Arc<Script, Global>,
        retries: u16,
    ) -> Result<Machine<N>, Memory>
        requires opening { view_of store.lazy ≡ N.opening }
        requires registry { IsOf N.registry store.migration }
        requires script { arc_value script ≡ N.script }
        requires limits { IsWithinLimits (arc_value script) }
        ensures { IfOk result (λ machine. machine ≡ fresh N.logged store (arc_value script) retries) }
    {
        // Their contracts say that the store is a lazy state, and that the pass reads its migration.
        let _ = store.live();
        let _ = store.migration();
        let text: &Script = &script;
        next_number(text.sessions.len())?;
        let sessions = sessions_so_far(alloc, text.sessions.as_slice())?;
        let transcripts = Vec::with_capacity(alloc, sessions.len())?;
        let least_left = least_left(text.sessions.as_slice(), &sessions);
        Ok(Machine {
            alloc,
            script,
            retries,
            store,
            locks: LockTable::new(alloc),
            began: Vec::new(alloc),
            sessions,
            least_left,
            history: Vec::new(alloc),
            commits: 0,
            transcripts,
            opened: PhantomData,
        })
    }

    /// The script.
    pub fn script(&self) -> &Script
        ensures script { result.now ≡ self.now.script }
        ensures opened { result.now ≡ N.script }
        ensures within { IsWithinLimits self.now.script }
        ensures kept { IsKept N.opening self.now }
    {
        &self.script
    }

    /// How many sessions the script has.
    pub fn session_count(&self) -> u32
        ensures count { result ≡ length self.now.script.sessions }
        ensures kept { IsKept N.opening self.now }
    {
        self.sessions.len() as u32
    }

    /// The catalog, which is that behind the whole history. The tables of the opening database are
    /// narrow.
    pub fn catalog(&self) -> &Catalog
        ensures catalog { result.now ≡ catalog_of self.now.db }
        ensures database { IsDatabase self.now.db }
        ensures narrow { HasNarrowTables (catalog_of N.opening) }
        ensures replay { self.now.db
            ≡ (replayed self.now.script N.opening self.now.history).1 }
    {
        self.store.live().catalog()
    }

    /// The reply to a statement of a session, both counted from 1, as it stands now, that of an open
    /// group included. `None` exactly where the statement has no reply.
    pub fn reply(&self, session: u32, statement: u32) -> Option<&Reply>
        requires { IsPlace self.now.script session }
        ensures { option_map (λ reply. reply.now) result ≡ reply_at self.now session statement }
    {
        let so_far = &self.sessions[session as usize - 1];
        so_far.replies.get(statement.checked_sub(1)? as usize)
    }

    /// The number of a session's next statement, and `None` exactly at its end.
    pub fn place(&self, session: u32) -> Option<u32>
        requires { IsPlace self.now.script session }
        ensures { result ≡ next_place self.now session }
    {
        let place = session as usize - 1;
        let answered = self.sessions[place].replies.len();
        if answered < self.script.sessions.as_slice()[place].statements.len() {
            Some(answered as u32 + 1)
        } else {
            None
        }
    }

    /// The start number of a session's open group, and `None` exactly where none is open.
    pub fn start(&self, session: u32) -> Option<u64>
        requires { IsPlace self.now.script session }
        ensures { result ≡ option_map (λ o. o.start) (open_at self.now session) }
    {
        let place = session as usize - 1;
        match &self.sessions[place].open {
            Some(group) => Some(group.start),
            None => None,
        }
    }

    /// Whether a session's next statement stands in a block that is open.
    pub fn is_in_block(&self, session: u32) -> bool
        requires { IsPlace self.now.script session }
        ensures { result ≡ is_in_block self.now session }
    {
        let so_far = &self.sessions[session as usize - 1];
        match &so_far.open {
            Some(group) => so_far.replies.len() >= group.first as usize,
            None => false,
        }
    }

    /// Whether a session has an open group, and each statement of it has its reply.
    pub fn is_answered(&self, session: u32) -> bool
        requires { IsPlace self.now.script session }
        ensures { result ≡ is_answered self.now session }
    {
        let so_far = &self.sessions[session as usize - 1];
        match &so_far.open {
            Some(group) => so_far.replies.len() >= group.last as usize,
            None => false,
        }
    }

    /// Whether a session's open group holds a name in a mode that covers this one. It costs a look-up
    /// in the lock table, in time logarithmic in what is held.
    pub fn covers(&self, session: u32, name: &LockName, mode: Mode) -> bool
        requires { IsPlace self.now.script session }
        ensures { (result ≡ true) ↔ IsCovered self.now session name.now mode }
    {
        let Some(start) = self.start(session) else {
            return false;
        };
        match self.locks.holds(start, name) {
            Some(held) => join(held, mode) == held,
            None => false,
        }
    }

    /// Ends a session of which each statement has its reply, which changes nothing that is seen.
    pub fn finish_session(&mut self, session: u32)
        requires place { IsPlace self.old.script session }
        requires answered { next_place self.old session ≡ None }
        ensures { self.new ≡ self.old }
    {
        let _ = session;
    }

    /// What the machine leaves. Transcripts and history are legal, but for the groups that are open.
    pub fn into_parts(self) -> Parts
        ensures store { result.store ≡ record { lazy = self.lazy; migration = self.pass } }
        ensures database { view_of result.store.lazy ≡ self.db }
        ensures transcripts { result.transcripts.sessions ≡ transcripts_of self }
        ensures history { result.history.entries ≡ self.history }
        ensures legal { TranscriptsLegal N.opening self }
    {
        let sessions = all_replies(self.sessions, self.transcripts);
        Parts {
            store: self.store,
            transcripts: Transcripts {
                sessions: Sequence::of(sessions),
            },
            history: History {
                entries: Sequence::of(self.history),
            },
        }
    }
}
