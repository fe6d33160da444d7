//! Ends of groups.

ghost use Rattle.std.specs.Prelude.{◌≡◌, ◌≢◌, ◌+◌, ◌<◌, ◌++◌, ◌∷◌, [], IfOk, None, OnErr, if◌then◌else◌, length, nat_lt, true, vec_capacity};
ghost use Rattle.bf_machine.specs.declared.stand.Ending.TheVariants.{Ended};
ghost use Rattle.bf_tree.specs.declared.reply.Cause.{Cause};
ghost use Rattle.bf_machine.specs.interleaving.Calls.{CanAbort, CanCommit, CanFail, IsEnding, IsPlace};
ghost use Rattle.bf_machine.specs.interleaving.Events.{Aborts, EndsByLog};
ghost use Rattle.bf_machine.specs.interleaving.Journals.{AreSaid, IsBeside, IsLeftFor, IsRefused};
ghost use Rattle.bf_machine.specs.interleaving.Kept.{is_of_log};

use crate::journal::{Journal, KeepError};
use crate::machine::Machine;
use crate::opened::Opened;
use crate::settle::settle;
use crate::so_far::{SessionSoFar, close_by, least_left_behind};
use crate::stand::Ending;
use bf_base::Memory;
use bf_image::Registry;
use bf_tree::{Cause, Entry, Outcome, Reply};
use std::sync::Wait;

impl<N: Opened> Machine<N> {
    /// Commits a session's open group: what it was to leave is kept in the journal and becomes part of
    /// the store, its locks are freed, and its entry comes last. Where the journal does not keep it, the
    /// group ends by the journal's cause. It costs what the journal does, what
    /// [`bf_store::Store::commit`] does, or where a migration begins [`bf_store::Store::flip`], and the
    /// freeing of the locks.
    ///
    /// # Errors
    /// Where memory runs out, or 2 ^ 32 migrations or 2 ^ 64 changes were made. The machine is as it
    /// was then.
    pub fn commit<J: Journal, R: Wait>(
        &mut self,
        rt: &R,
        registry: &Registry,
        journal: &mut J,
        session: u32,
    ) -> Result<Ending, Memory>
        requires registry { registry.now ≡ N.registry }
        requires logged { J.ends ≡ N.logged }
        requires said { AreSaid J.Says N.script }
        requires place { IsPlace self.old.script session }
        requires can { CanCommit self.old session }
        ensures ending { IfOk result (λ ending. IsEnding self.old session self.new ending) }
        ensures err { OnErr result (self.new ≡ self.old) }
        ensures beside { ((cause : Cause) → result ≢ Ok (Ended cause))
            → IsBeside J.Answers (IsLeftFor self.old session) self.old.lazy self.new.lazy
            journal.old journal.new }
        ensures refused { (cause : Cause) → result ≡ Ok (Ended cause)
            → IsRefused J.Answers (IsLeftFor self.old session) self.old.lazy journal.old
            journal.new cause }
    {
        let place = session as usize - 1;
        let so_far = &mut self.sessions[place];
        let Some(mut group) = so_far.open.take() else {
            unreachable!();
        };
        if let Err(error) = settle(
            self.alloc,
            rt,
            registry,
            journal,
            &mut self.store,
            &mut group.pending,
        ) {
            so_far.open = Some(group);
            return match error {
                KeepError::Memory => Err(Memory),
                KeepError::Ended(cause) => {
                    self.fail(session, cause);
                    Ok(Ending::Ended(cause))
                }
            };
        }
        let (start, first, last) = (group.start, group.first, group.last);
        let number = self.commits + 1;
        close(so_far, last, Reply::Committed(number));
        self.locks.free_all(start);
        self.history.push_reserved(Entry {
            session,
            first,
            last,
            outcome: Outcome::Committed(number),
        });
        self.commits = number;
        self.least_left = least_left_behind(
            self.script.sessions.as_slice(),
            &self.sessions,
            self.least_left,
            place,
        );
        Ok(Ending::Committed(number))
    }

    /// Ends a session's open group by a cause of the log, which each of its statements is told: what it
    /// was to leave is dropped, and its locks are freed. No entry comes. Takes no memory.
    pub fn fail(&mut self, session: u32, cause: Cause)
        requires place { IsPlace self.old.script session }
        requires logged { N.logged ≡ true }
        requires of_log { is_of_log cause ≡ true }
        requires open { CanFail self.old session }
        ensures { (by : EndsByLog self.old session self.new) × (by.cause ≡ cause) }
    {
        let place = session as usize - 1;
        let so_far = &mut self.sessions[place];
        let Some(group) = &so_far.open else {
            unreachable!();
        };
        let (start, first, last) = (group.start, group.first, group.last);
        close_by(so_far, first, last - first + 1, cause);
        self.locks.free_all(start);
        self.least_left = least_left_behind(
            self.script.sessions.as_slice(),
            &self.sessions,
            self.least_left,
            place,
        );
    }

    /// Rolls a session's open block back: what it was to leave is dropped, its locks are freed, and
    /// its entry comes last. Takes no memory.
    pub fn abort(&mut self, session: u32)
        requires place { IsPlace self.old.script session }
        requires can { CanAbort self.old session }
        ensures { Aborts self.old session self.new }
    {
        let place = session as usize - 1;
        let so_far = &mut self.sessions[place];
        let Some(group) = &so_far.open else {
            unreachable!();
        };
        let (start, first, last) = (group.start, group.first, group.last);
        close(so_far, last, Reply::RolledBack);
        self.locks.free_all(start);
        self.history.push_reserved(Entry {
            session,
            first,
            last,
            outcome: Outcome::RolledBack,
        });
        self.least_left = least_left_behind(
            self.script.sessions.as_slice(),
            &self.sessions,
            self.least_left,
            place,
        );
    }
}

/// Closes a session's open group, up to its last statement, which has this reply where it has none.
/// Takes no memory.
fn close(so_far: &mut SessionSoFar, last: u32, reply: Reply)
    requires { length so_far.old.replies.items < last
        → length so_far.old.replies.items < vec_capacity so_far.old.replies }
    ensures closed { so_far.new.open ≡ None }
    ensures latest { so_far.new.latest ≡ so_far.old.latest }
    ensures capacity { vec_capacity so_far.new.replies ≡ vec_capacity so_far.old.replies }
    ensures replies { so_far.new.replies.items
        ≡ (if nat_lt (length so_far.old.replies.items) last
        then so_far.old.replies.items ++ reply ∷ [] else so_far.old.replies.items) }
{
    if so_far.replies.len() < last as usize {
        so_far.replies.push_reserved(reply);
    }
    so_far.open = None;
}
