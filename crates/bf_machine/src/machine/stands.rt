//! Where a session stands.

ghost use Rattle.std.specs.Prelude.{◌≡◌, ◌↔◌, ◌≤◌, ◌<◌, ◌+◌, Contains, IfSome, IsTrue, None, is_some, length, true};
ghost use Rattle.bf_sql.specs.Groups.{groups_in};
ghost use Rattle.bf_machine.specs.interleaving.Seen.{told_seen};
ghost use Rattle.bf_machine.specs.interleaving.Calls.{IsPlace, StandsAs, statements_at};
ghost use Rattle.bf_machine.specs.interleaving.Kept.{IsCurrent};
ghost use Rattle.bf_machine.specs.interleaving.Machines.{Group, open_at, told_at};

use crate::machine::Machine;
use crate::opened::Opened;
use crate::so_far::{SessionSoFar, has_ended, is_no_later};
use crate::stand::Stand;
use bf_tree::Statement;

/// How many statements of a session have the replies that stay, whatever becomes of its open group.
fn count_told(so_far: &SessionSoFar) -> usize
    requires { IfSome so_far.now.open (λ group. (1 ≤ group.first)
        × (group.first ≤ length so_far.now.replies.items + 1)) }
    ensures { result ≡ length (told_seen so_far.now) }
{
    match &so_far.open {
        Some(group) => group.first as usize - 1,
        None => so_far.replies.len(),
    }
}

impl<N: Opened> Machine<N> {
    /// Where a session stands: which call is its next, if one is. It costs a constant time, with a look
    /// at the group that its last death named, and takes no memory.
    pub fn stand(&self, session: u32) -> Stand
        requires { IsPlace self.now.script session }
        ensures { StandsAs self.now session result }
    {
        let place = session as usize - 1;
        let so_far = &self.sessions[place];
        if has_ended(&self.script.sessions.as_slice()[place], so_far) {
            return Stand::Ended;
        }
        if !self.is_current(session) {
            return Stand::Later;
        }
        if so_far.open.is_some() {
            self.stand_in_group(session)
        } else {
            self.stand_between_groups(session)
        }
    }

    /// Whether the sessions of phases before a session's have ended. It costs a constant time: the
    /// machine keeps a session of the earliest phase that is left.
    pub fn is_current(&self, session: u32) -> bool
        requires { IsPlace self.now.script session }
        ensures { (result ≡ true) ↔ IsCurrent self.now session }
    {
        let sessions = self.script.sessions.as_slice();
        match self.least_left {
            Some(least) => is_no_later(sessions, session as usize - 1, least),
            None => true,
        }
    }

    /// Where a session stands that has an open group: at the group's next statement, or at its end.
    fn stand_in_group(&self, session: u32) -> Stand
        requires place { IsPlace self.now.script session }
        requires current { IsCurrent self.now session }
        requires opened { IsTrue (is_some (open_at self.now session)) }
        ensures { StandsAs self.now session result }
    {
        let place = session as usize - 1;
        let so_far = &self.sessions[place];
        let statements = self.script.sessions.as_slice()[place].statements.as_slice();
        let Some(group) = &so_far.open else {
            unreachable!();
        };
        let answered = so_far.replies.len();
        if answered < group.last as usize {
            return match &statements[answered] {
                Statement::Commit => Stand::Commit,
                Statement::Rollback => Stand::Abort,
                _ => Stand::Statement(answered as u32 + 1),
            };
        }
        match &statements[group.first as usize - 1] {
            Statement::Begin => Stand::Abort,
            _ => Stand::Commit,
        }
    }

    /// Where a session stands that has no open group, but a statement left: at a COMMIT or ROLLBACK
    /// in no group, or before its next group.
    fn stand_between_groups(&self, session: u32) -> Stand
        requires place { IsPlace self.now.script session }
        requires current { IsCurrent self.now session }
        requires closed { open_at self.now session ≡ None }
        requires left { length (told_at self.now session)
            < length (statements_at self.now session) }
        ensures { StandsAs self.now session result }
    {
        let place = session as usize - 1;
        let answered = self.sessions[place].replies.len();
        let statements = self.script.sessions.as_slice()[place].statements.as_slice();
        match &statements[answered] {
            Statement::Commit | Statement::Rollback => Stand::Statement(answered as u32 + 1),
            _ => self.stand_before_group(session),
        }
    }

    /// Where a session stands before its next group: that may begin, or begin again, but where its
    /// last death named a group that has not ended.
    fn stand_before_group(&self, session: u32) -> Stand
        requires place { IsPlace self.now.script session }
        requires current { IsCurrent self.now session }
        requires closed { open_at self.now session ≡ None }
        requires next { (group : Group) × Contains (groups_in self.now.script session) group
            × (group.0 ≡ length (told_at self.now session) + 1) }
        ensures { StandsAs self.now session result }
    {
        let so_far = &self.sessions[session as usize - 1];
        if so_far.latest == 0 {
            return Stand::Begin;
        }
        let began = &self.began[so_far.latest as usize - 1];
        if began.first as usize != so_far.replies.len() + 1 {
            return Stand::Begin;
        }
        let Some(older) = began.deaths.last() else {
            return Stand::Begin;
        };
        let named = &self.began[*older as usize - 1];
        if count_told(&self.sessions[named.session as usize - 1]) < named.first as usize {
            return Stand::Named(*older);
        }
        Stand::Begin
    }
}
