//! Groups that begin, and ask for locks.

ghost use Rattle.std.specs.Prelude.{◌≡◌, ◌⊎◌, ◌-◌, ◌<◌, ◌≤◌, [], IfOk, IfSome, None, OnErr, OnOk, Some, length, slice_index_or};
ghost use Rattle.bf_machine.specs.declared.so_far.Began.{Began as Group};
ghost use Rattle.bf_machine.specs.declared.so_far.Pending.TheVariants.{Rows};
ghost use Rattle.bf_machine.specs.interleaving.Calls.{CanAsk, CanBegin, IsPlace};
ghost use Rattle.bf_machine.specs.interleaving.Events.{Asks, Begins};

use crate::machine::Machine;
use crate::opened::Opened;
use crate::so_far::{
    Began, OpenGroup, Pending, SessionSoFar, close_by, last_of_group, least_left_behind, told_count,
};
use bf_base::Memory;
use bf_locks::{LockAnswer, LockName, Mode};
use bf_tree::Cause;
use bf_txn::Workspace;
use std::alloc::Global;

impl<N: Opened> Machine<N> {
    /// Begins a session's next group, and makes room for its entry. A group that begins for the first
    /// time draws the next start number; one that died begins again at its first statement, with its
    /// own. Linear in the group's statements.
    ///
    /// # Errors
    /// Where memory runs out. The machine is as it was then.
    pub fn begin(&mut self, session: u32) -> Result<(), Memory>
        requires place { IsPlace self.old.script session }
        requires can { CanBegin self.old session }
        ensures begins { OnOk result (Begins self.old session self.new) }
        ensures err { OnErr result (self.new ≡ self.old) }
    {
        let place = session as usize - 1;
        self.history.reserve(self.sessions.len())?;
        let so_far = &self.sessions[place];
        let first = so_far.replies.len() as u32 + 1;
        let latest = so_far.latest;
        if let Some(last) = last_again(&self.began, latest, first) {
            open_group(self.alloc, &mut self.sessions[place], latest, first, last);
            return Ok(());
        }
        let statements = self.script.sessions.as_slice()[place].statements.as_slice();
        let last = last_of_group(statements, first);
        self.began.push(Began {
            session,
            first,
            last,
            deaths: Vec::new(self.alloc),
        })?;
        let start = self.began.len() as u64;
        open_group(self.alloc, &mut self.sessions[place], start, first, last);
        Ok(())
    }

    /// Asks for a lock of the footprint of a session's next statement, and gives the answer of the
    /// lock table. At `Die` the attempt is undone: its replies and what it was to leave are dropped,
    /// and its locks are freed. Where it has died once more than the retries, each of its statements
    /// is told the cause.
    ///
    /// # Errors
    /// Where memory runs out. The machine is as it was then.
    pub fn lock(&mut self, session: u32, name: &LockName, mode: Mode) -> Result<LockAnswer, Memory>
        requires place { IsPlace self.old.script session }
        requires can { CanAsk self.old session N.opening name.now mode }
        ensures asks { IfOk result (λ answer.
            Asks self.old session N.opening name.now mode answer self.new) }
        ensures err { OnErr result (self.new ≡ self.old) }
    {
        let place = session as usize - 1;
        let Some(group) = &self.sessions[place].open else {
            unreachable!();
        };
        let (start, first, last) = (group.start, group.first, group.last);
        let answer = self.locks.ask(start, name, mode)?;
        let LockAnswer::Die(older) = &answer else {
            return Ok(answer);
        };
        let deaths = &mut self.began[start as usize - 1].deaths;
        deaths.push(*older)?;
        let told = told_count(first, last, deaths.len(), self.retries);
        close_by(&mut self.sessions[place], first, told, Cause::Died(*older));
        self.locks.free_all(start);
        self.least_left = least_left_behind(
            self.script.sessions.as_slice(),
            &self.sessions,
            self.least_left,
            place,
        );
        Ok(answer)
    }
}

/// The last statement of the group at a statement, if it is the one that began last in its session,
/// with this start number, or 0 where none has begun: then it begins again.
fn last_again(began: &[Began], latest: u64, first: u32) -> Option<u32>
    requires { latest ≤ length began.now }
    ensures again { IfSome result (λ last. (0 < latest)
        × (b : Group) × (b ≡ slice_index_or began.now (latest - 1) b)
        × (b.first ≡ first) × (b.last ≡ last)) }
    ensures another { result ≡ None → (latest ≡ 0)
        ⊎ ((b : Group) × (b ≡ slice_index_or began.now (latest - 1) b) × (b.first ≡ first → ⊥)) }
{
    if latest == 0 {
        return None;
    }
    let group = &began[latest as usize - 1];
    if group.first == first {
        Some(group.last)
    } else {
        None
    }
}

/// Opens a group of a session, which has written nothing.
fn open_group(alloc: Global, so_far: &mut SessionSoFar, start: u64, first: u32, last: u32)
    ensures opened { so_far.new.«open»
        ≡ Some (record { start = start; first = first; last = last; pending = Rows [] }) }
    ensures latest { so_far.new.latest ≡ start }
    ensures replies { so_far.new.replies ≡ so_far.old.replies }
{
    so_far.latest = start;
    so_far.open = Some(OpenGroup {
        start,
        first,
        last,
        pending: Pending::Rows(Workspace::new(alloc)),
    });
}
