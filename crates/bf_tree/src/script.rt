//! Scripts: the statements of clients, in phases.

ghost use Rattle.std.specs.Prelude.{◌≡◌, IfOk};

use crate::statement::Statement;
use bf_base::{Memory, Sequence, TryClone};
use std::alloc::Global;

/// The statements of one client, in order. Phases are counted from 1.
#[derive(Drop)]
pub struct Session {
    pub phase: u32,
    pub statements: Sequence<Statement>,
}

/// The sessions of a script, in the order of its text, and the number of its phases.
#[derive(Drop)]
pub struct Script {
    pub phases: u32,
    pub sessions: Sequence<Session>,
}

impl Session {
    /// An equal session.
    pub fn copy(&self, alloc: Global) -> Result<Session, Memory>
        ensures { IfOk result (λ copy. copy ≡ self.now) }
    {
        let statements = self.statements.copy(alloc)?;
        Ok(Session {
            phase: self.phase,
            statements,
        })
    }
}

impl TryClone for Session {
    fn try_clone(&self, alloc: Global) -> Result<Session, Memory> {
        self.copy(alloc)
    }
}

impl Script {
    /// An equal script.
    pub fn copy(&self, alloc: Global) -> Result<Script, Memory>
        ensures { IfOk result (λ copy. copy ≡ self.now) }
    {
        let sessions = self.sessions.copy(alloc)?;
        Ok(Script {
            phases: self.phases,
            sessions,
        })
    }
}
