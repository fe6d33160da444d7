//! The text of a report.

ghost use Rattle.std.specs.Prelude.{◌≡◌, ◌++◌, IfOk, codes};
ghost use Rattle.std.specs.Option.{option_copied};
ghost use Rattle.bf_text.specs.Puts.{Puts};
ghost use Rattle.bf_text.specs.Replies.{numbered};
ghost use Rattle.bf_text.specs.Report.{texts_from, session_text, outcome_text, entry_text, table_line, audit_text, commits_of, sweep_text, end_text, report_text};

use crate::pieces::{
    Counted, Piece, put, put_all_counted, put_decimal, put_each, put_named_numbered, put_numbered,
};
use bf_base::{Memory, Name};
use bf_tree::{Entry, History, Outcome, Sweep, Transcripts};
use std::alloc::Global;

fn put_outcome(out: &mut Vec<u8>, outcome: Outcome) -> Result<(), Memory>
    ensures { Puts result (outcome_text outcome) out.old.items out.new.items }
{
    match outcome {
        Outcome::Committed(number) => put_numbered(out, b"committed ", number),
        Outcome::RolledBack => put(out, b"rolled back"),
    }
}

/// Appends a transaction's number, its session and its first and last statement.
fn put_span(out: &mut Vec<u8>, number: u64, entry: &Entry) -> Result<(), Memory>
    ensures { Puts result (numbered (codes "entry ") number
        ++ numbered (codes " session ") entry.now.session
        ++ numbered (codes " from ") entry.now.first ++ numbered (codes " to ") entry.now.last)
        out.old.items out.new.items }
{
    put_numbered(out, b"entry ", number)?;
    put_numbered(out, b" session ", u64::from(entry.session))?;
    put_numbered(out, b" from ", u64::from(entry.first))?;
    put_numbered(out, b" to ", u64::from(entry.last))
}

/// A transaction, by its number in the history.
impl Counted for Entry {
    type Whole = ();

    ghost text = { λ _. entry_text };

    fn put_counted(&self, out: &mut Vec<u8>, _whole: (), number: u64) -> Result<(), Memory> {
        put_span(out, number, self)?;
        put(out, b" ")?;
        put_outcome(out, self.outcome)?;
        put(out, b"\n")
    }
}

/// A table's name and the number of its rows.
impl Piece for (Name, u32) {
    type Place = ();

    ghost text = { λ _. table_line };

    fn put_at(&self, out: &mut Vec<u8>, _place: ()) -> Result<(), Memory> {
        put_named_numbered(out, b"audit table ", &self.0, b" rows ", u64::from(self.1))?;
        put(out, b"\n")
    }
}

fn put_audit(out: &mut Vec<u8>, audit: Option<&[(Name, u32)]>) -> Result<(), Memory>
    ensures { Puts result (audit_text (option_copied audit.entry)) out.old.items out.new.items }
{
    match audit {
        Some(tables) => put_each(out, (), tables),
        None => Ok(()),
    }
}

fn commits_in(entries: &[Entry]) -> u64
    ensures { result ≡ commits_of entries.now }
{
    entries
        .iter()
        .filter(|entry| matches!(entry.outcome, Outcome::Committed(_)))
        .count() as u64
}

fn put_running(
    out: &mut Vec<u8>,
    migration: u64,
    moved: u64,
    unit: u64,
    position: u64,
) -> Result<(), Memory>
    ensures { Puts result (sweep_text (Sweep.Running migration moved unit position))
        out.old.items out.new.items }
{
    put_decimal(out, migration)?;
    put_numbered(out, b" moved ", moved)?;
    put_numbered(out, b" next unit ", unit)?;
    put_numbered(out, b" position ", position)
}

fn put_sweep(out: &mut Vec<u8>, sweep: Sweep) -> Result<(), Memory>
    ensures { Puts result (sweep_text sweep) out.old.items out.new.items }
{
    match sweep {
        Sweep::Never => put(out, b"none"),
        Sweep::Complete { migration, moved } => {
            put_decimal(out, u64::from(migration))?;
            put_numbered(out, b" complete ", u64::from(moved))
        }
        Sweep::Running {
            migration,
            moved,
            unit,
            position,
        } => put_running(
            out,
            u64::from(migration),
            u64::from(moved),
            u64::from(unit),
            u64::from(position),
        ),
    }
}

fn put_end(out: &mut Vec<u8>, commits: u64, sweep: Sweep) -> Result<(), Memory>
    ensures { Puts result (end_text commits sweep) out.old.items out.new.items }
{
    put_numbered(out, b"end commits ", commits)?;
    put(out, b" migration ")?;
    put_sweep(out, sweep)?;
    put(out, b"\n")
}

/// The report of a run: the replies that its sessions got, its transactions, the number of rows
/// of each table where an audit was asked for, and the number of commits with how far the last
/// migration has come. It takes time linear in its bytes.
pub fn report(
    alloc: Global,
    transcripts: &Transcripts,
    history: &History,
    audit: Option<&[(Name, u32)]>,
    last: &Sweep,
) -> Result<Vec<u8>, Memory>
    ensures { IfOk result (λ text.
        text.items ≡ report_text transcripts.now.sessions history.now.entries
        (option_copied audit.entry) last.now) }
{
    let entries = history.entries.as_slice();
    let mut text = Vec::new(alloc);
    put_all_counted(&mut text, (), transcripts.sessions.as_slice())?;
    put_all_counted(&mut text, (), entries)?;
    put_audit(&mut text, audit)?;
    put_end(&mut text, commits_in(entries), *last)?;
    Ok(text)
}
