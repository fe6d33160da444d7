//! What the one-thread database tells of a script whose sessions run one behind the other.

use bf_base::Sequence;
use bf_parse::script;
use bf_text::report;
use bf_tree::{Entry, History, Refusal, Reply, Script, Session, Statement, Transcripts};
use random_scripts::group::ends_block;
use random_scripts::{Replay, front};
use std::alloc::Global;
use std::test::Fail;

/// What is told of a script.
#[derive(Drop)]
pub struct Told {
    /// The replies by session.
    pub transcripts: Transcripts,
    /// The report up to how far the last migration has come, which no reply tells.
    pub report: Vec<u8>,
    /// How many migrations were taken.
    pub migrations: u32,
}

/// The sessions of a script, one behind the other.
#[derive(Drop)]
struct Sessions {
    alloc: Global,
    replay: Replay,
    entries: Vec<Entry>,
    /// Which session runs, the replies to its statements so far, and the statements of its group that has begun.
    session: u32,
    replies: Vec<Reply>,
    group: Vec<Statement>,
}

impl Sessions {
    fn new(alloc: Global) -> Sessions {
        Sessions {
            alloc,
            replay: Replay::new(alloc),
            entries: Vec::new(alloc),
            session: 0,
            replies: Vec::new(alloc),
            group: Vec::new(alloc),
        }
    }

    /// Runs the group that has begun.
    fn run_group(&mut self) -> Result<(), Fail> {
        let told = self.replay.run_group(self.group.as_slice())?;
        let (mut replies, outcome) = told.ok_or("no whole group")?;
        let before = self.replies.len();
        self.replies.append(&mut replies)?;
        self.group.clear();
        let entry = Entry {
            session: self.session,
            first: u32::try_from(before.saturating_add(1))?,
            last: u32::try_from(self.replies.len())?,
            outcome,
        };
        self.entries.push(entry)?;
        Ok(())
    }

    /// Goes on with a statement of the session.
    fn step(&mut self, statement: &Statement) -> Result<(), Fail> {
        let is_first = self.group.is_empty();
        if is_first && ends_block(statement) {
            self.replies.push(Reply::Refused(Refusal::NoTransaction))?;
            return Ok(());
        }
        self.group.push(statement.copy(self.alloc)?)?;
        let goes_on = if is_first {
            matches!(statement, Statement::Begin)
        } else {
            !ends_block(statement)
        };
        if goes_on {
            return Ok(());
        }
        self.run_group()
    }

    /// The replies to a further session.
    fn run_session(&mut self, session: &Session) -> Result<Sequence<Reply>, Fail> {
        self.session = self.session.saturating_add(1);
        for statement in session.statements.as_slice() {
            self.step(statement)?;
        }
        if !self.group.is_empty() {
            self.run_group()?;
        }
        let replies = std::mem::replace(&mut self.replies, Vec::new(self.alloc));
        Ok(Sequence::of(replies))
    }

    fn run(&mut self, script: &Script) -> Result<Transcripts, Fail> {
        let mut sessions = Vec::new(self.alloc);
        for session in script.sessions.as_slice() {
            sessions.push(self.run_session(session)?)?;
        }
        Ok(Transcripts {
            sessions: Sequence::of(sessions),
        })
    }
}

/// What the one-thread database tells of a script, which makes each new table whole at its MIGRATE.
pub fn tell(alloc: Global, text: &[u8]) -> Result<Told, Fail> {
    let mut sessions = Sessions::new(alloc);
    let transcripts = sessions.run(&script(alloc, text)?)?;
    let sweep = sessions.replay.sweep();
    let migrations = sessions.replay.migrations();
    let history = History {
        entries: Sequence::of(sessions.entries),
    };
    let report = report(alloc, &transcripts, &history, None, &sweep)?;
    Ok(Told {
        transcripts,
        report: front(report),
        migrations,
    })
}
