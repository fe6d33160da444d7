//! Whether a report is what its own history tells.

use crate::entries::entry_of;
use anyhow::{Context, bail};
use bf_base::Sequence;
use bf_parse::script;
use bf_text::report;
use bf_tree::{Entry, History, Refusal, Reply, Session, Transcripts};
use random_scripts::{Replay, front};
use std::alloc::Global;

/// The replies to the sessions of a script, as far as the transactions have run.
#[derive(Drop)]
struct Rerun {
    alloc: Global,
    replies: Vec<Vec<Reply>>,
    entries: Vec<Entry>,
}

/// Adds the replies to statements that end a block where none has begun, up to so many replies.
fn put_strays(replies: &mut Vec<Reply>, count: usize) -> anyhow::Result<()> {
    for _ in replies.len()..count {
        replies.push(Reply::Refused(Refusal::NoTransaction))?;
    }
    Ok(())
}

impl Rerun {
    fn new(alloc: Global, sessions: usize) -> anyhow::Result<Rerun> {
        let mut replies = Vec::new(alloc);
        for _ in 0..sessions {
            replies.push(Vec::new(alloc))?;
        }
        Ok(Rerun {
            alloc,
            replies,
            entries: Vec::new(alloc),
        })
    }

    /// Runs a transaction, whose outcome is told anew.
    fn run(
        &mut self,
        replay: &mut Replay,
        sessions: &[Session],
        entry: Entry,
    ) -> anyhow::Result<()> {
        let place = entry.session.saturating_sub(1) as usize;
        let before = entry.first.saturating_sub(1) as usize;
        let session = sessions.get(place).context("a session that is not there")?;
        let group = session
            .statements
            .as_slice()
            .get(before..entry.last as usize);
        let told = replay.run_group(group.context("statements that are not there")?)?;
        let (mut told, outcome) = told.context("no whole group")?;
        let replies = self.replies.get_mut(place).context("no replies")?;
        put_strays(replies, before)?;
        replies.append(&mut told)?;
        self.entries.push(Entry { outcome, ..entry })?;
        Ok(())
    }

    /// The report up to how far the last migration has come, which no reply tells.
    fn report(self, replay: &Replay, sessions: &[Session]) -> anyhow::Result<Vec<u8>> {
        let mut transcripts = Vec::new(self.alloc);
        for (mut replies, session) in self.replies.into_iter().zip(sessions) {
            put_strays(&mut replies, session.statements.len())?;
            transcripts.push(Sequence::of(replies))?;
        }
        let transcripts = Transcripts {
            sessions: Sequence::of(transcripts),
        };
        let history = History {
            entries: Sequence::of(self.entries),
        };
        Ok(front(report(self.alloc, &transcripts, &history, None, &replay.sweep())?))
    }
}

/// Runs the transactions that a report tells, in its order, and fails where it tells other replies or numbers than
/// these. Of how far the last migration has come it may tell anything.
pub fn check(alloc: Global, replay: &mut Replay, text: &[u8], told: &str) -> anyhow::Result<()> {
    if told.contains(" died older ") {
        bail!("a death is told:\n{told}");
    }
    let script = script(alloc, text)?;
    let sessions = script.sessions.as_slice();
    replay.begin_run();
    let mut rerun = Rerun::new(alloc, sessions.len())?;
    for line in told.lines() {
        if let Some(entry) = entry_of(line) {
            rerun.run(replay, sessions, entry)?;
        }
    }
    let wanted = rerun.report(replay, sessions)?;
    if !told.as_bytes().starts_with(wanted.as_slice()) {
        let wanted = String::from_utf8_lossy(alloc, wanted.as_slice())?;
        bail!("wanted:\n{wanted}\ntold:\n{told}");
    }
    Ok(())
}
