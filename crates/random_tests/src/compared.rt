//! Random scripts, each told by the top call and by the one-thread database.

use crate::cases::Case;
use crate::counts::Counts;
use crate::sequence::{Told, tell};
use bf_disk::MemoryShelf;
use bf_io::{CalmSource, MemorySink};
use bf_run::{OpenGate, Status, bullfrog};
use bf_tree::{Reply, Transcripts};
use random_scripts::Writer;
use random_scripts::asked::Asked;
use std::alloc::Global;
use std::sync::Wait;
use std::test::Fail;
use std::thread::Threads;

/// How many scripts there are, of the seeds from 0.
const SCRIPTS: u64 = 1000;

/// How far the last migration has come.
#[derive(Clone, Copy, Debug, PartialEq, Eq)]
enum Progress {
    Never,
    Complete,
    Running,
}

/// What is told of one script.
#[derive(Drop)]
struct Both {
    /// By the one-thread database.
    told: Told,
    /// By the top call.
    report: Vec<u8>,
}

/// The report of the top call on a script.
fn reported(
    rt: &(impl Threads + Wait + Sync),
    alloc: Global,
    text: &[u8],
) -> Result<Vec<u8>, Fail> {
    let mut input = CalmSource::new(text.to_vec(alloc)?);
    let mut output = MemorySink::new(alloc, 1 << 16, Vec::new(alloc))?;
    let mut shelf = MemoryShelf::new(alloc);
    let status = bullfrog(
        rt,
        alloc,
        &["try"],
        &mut input,
        &mut output,
        &mut shelf,
        &OpenGate,
    );
    if status != Status::Done {
        return Err("no report".into());
    }
    Ok(output.bytes().to_vec(alloc)?)
}

/// How far the last migration has come by the last words of a report, which are its last line's.
fn told_by(words: &[u8]) -> Option<Progress> {
    let words = words.strip_suffix(b"\n")?;
    if words.contains(&b'\n') {
        return None;
    }
    match words {
        b"none" => Some(Progress::Never),
        _ if words.starts_with(b"complete ") => Some(Progress::Complete),
        _ => words.starts_with(b"moved ").then_some(Progress::Running),
    }
}

impl Both {
    fn of(rt: &(impl Threads + Wait + Sync), alloc: Global, text: &[u8]) -> Result<Both, Fail> {
        Ok(Both {
            told: tell(alloc, text)?,
            report: reported(rt, alloc, text)?,
        })
    }

    /// How far the last migration has come, where both sides tell the same but for that: each reply with all rows,
    /// the transactions, and how many there were and how many migrations.
    fn agreed(&self) -> Option<Progress> {
        let report = self.report.as_slice();
        let words = report.strip_prefix(self.told.report.as_slice())?;
        let progress = told_by(words)?;
        let is_never = self.told.migrations == 0;
        ((progress == Progress::Never) == is_never).then_some(progress)
    }
}

/// Counts statements with their replies, and answers whether there is one reply to each, and a MIGRATE is taken where
/// it is to be.
fn counted(counts: &mut Counts, asked: &[Asked], transcripts: &Transcripts) -> bool {
    let mut asked = asked.iter();
    for session in transcripts.sessions.as_slice() {
        for reply in session.as_slice() {
            let Some(asked) = asked.next() else {
                return false;
            };
            let is_taken = matches!(reply, Reply::Migrated(_));
            if is_taken != matches!(asked, Asked::Migrate(_)) {
                return false;
            }
            counts.add_statement(*asked, reply);
        }
    }
    asked.next().is_none()
}

#[test]
fn the_top_call_tells_what_the_one_thread_database_tells(rt: HostRuntime) -> Result<(), Fail> {
    let alloc = rt.alloc();
    let mut counts = Counts::new(alloc)?;
    for seed in 0..SCRIPTS {
        let mut writer = Writer::new(alloc, seed);
        writer.put_script()?;
        let whole = Both::of(&rt, alloc, writer.text())?;
        assert!(&rt; whole.agreed().is_some(), "the script of seed {seed}");
        let is_counted = counted(
            &mut counts,
            writer.asked.as_slice(),
            &whole.told.transcripts,
        );
        assert!(&rt; is_counted, "the statements of seed {seed}");
        counts.add_changes(writer.taken.as_slice());
        counts.add_report(whole.report.as_slice());
        let front = Both::of(&rt, alloc, writer.front())?;
        let agreed = front.agreed();
        assert!(&rt; agreed.is_some(), "the front of the script of seed {seed}");
        if agreed == Some(Progress::Running) {
            counts.add(Case::OverRunning);
        }
    }
    assert_eq!(&rt; counts.first_rare_reply(), None);
    assert_eq!(&rt; counts.first_rare_case(), None);
    assert_eq!(&rt; counts.first_untaken(), None);
    Ok(())
}
