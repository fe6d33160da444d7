//! How a call ends.

ghost use Rattle.std.specs.Prelude.{◌≡◌, IfOk};
ghost use Rattle.bf_run.specs.Outcome.{fault_of_disk, fault_text, not_a_log_text, not_empty_text, number_of_status};

use bf_base::Memory;
use bf_lex::ScriptFault;
use bf_text::put_number;
use std::alloc::Global;

/// How a call of the program ends.
#[derive(Clone, Copy, Debug, PartialEq, Eq)]
pub enum Status {
    /// The script was run, and its report is written; or the log was made.
    Done,
    /// The words are none of the program's.
    Usage,
    /// The input is no script, and this is its first fault.
    Script(ScriptFault),
    /// The source failed.
    ReadFault,
    /// The sink failed.
    WriteFault,
    /// The disk failed, or the folder that a file stands in. Where it failed in the course of a run, the report is
    /// written.
    DiskFault,
    /// The file is no log, or the log is none of a database. The first thing that is wrong stands at this offset.
    NotALog(u64),
    /// The file that was to be made a log has so many bytes already.
    NotEmpty(u64),
    /// Memory ran out, and nothing is written.
    Memory,
}

impl Status {
    /// The number that the program ends with.
    pub fn number(self) -> u8
        ensures { result ≡ number_of_status self }
    {
        match self {
            Status::Done => 0,
            Status::Usage => 1,
            Status::Script(_) => 2,
            Status::ReadFault => 3,
            Status::WriteFault => 4,
            Status::DiskFault => 5,
            Status::NotALog(_) => 6,
            Status::Memory => 7,
            Status::NotEmpty(_) => 8,
        }
    }
}

/// The text of a fault.
pub(crate) fn fault_line(alloc: Global, fault: ScriptFault) -> Result<Vec<u8>, Memory>
    ensures { IfOk result (λ text. text.items ≡ fault_text fault) }
{
    let mut text = Vec::from_slice(alloc, b"script error at ")?;
    put_number(&mut text, u64::from(fault.at))?;
    text.extend_from_slice(b": ")?;
    text.extend_from_slice(fault.kind.words())?;
    text.extend_from_slice(b"\n")?;
    Ok(text)
}

/// What refuses a file that has so many bytes.
pub(crate) fn not_empty_line(alloc: Global, bytes: u64) -> Result<Vec<u8>, Memory>
    ensures { IfOk result (λ text. text.items ≡ not_empty_text bytes) }
{
    let mut text = Vec::from_slice(alloc, b"not empty: ")?;
    put_number(&mut text, bytes)?;
    text.extend_from_slice(b" bytes\n")?;
    Ok(text)
}

/// What refuses a file that is no log, for the offset of the first thing that is wrong.
pub(crate) fn not_a_log_line(alloc: Global, at: u64) -> Result<Vec<u8>, Memory>
    ensures { IfOk result (λ text. text.items ≡ not_a_log_text at) }
{
    let mut text = Vec::from_slice(alloc, b"not a log at ")?;
    put_number(&mut text, at)?;
    text.extend_from_slice(b"\n")?;
    Ok(text)
}

/// The status of a disk that failed before anything was done, and its whole text.
pub(crate) fn disk_fault(alloc: Global) -> Result<(Status, Vec<u8>), Memory>
    ensures { IfOk result (λ a. (a.0 ≡ Status.DiskFault) × (a.1.items ≡ fault_of_disk)) }
{
    Ok((Status::DiskFault, Vec::from_slice(alloc, b"disk fault\n")?))
}
