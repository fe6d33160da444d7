//! Makes the calls of the cases of the files that its words name, of a disk in memory and of a log on it, and tells how
//! many each has.
//!
//! Each line of a case is a call, with bytes in hexadecimal, and what is told of it is a line, its first word and the
//! answer. The first case of which something else is told ends the program with status 1.
//!
//! - `file FAILS BYTES` is a file, of which calls fail: `-` for none, their numbers with commas between, or `>` and the
//!   number behind which all do. `copy` is one of the same bytes of which none fail.
//! - `create`, `open` and `read` make a log of a file, open it, and read its payloads, each with a bar behind it;
//!   `append LARGEST LIMIT: BYTES` tells what refuses an append, and its answer; `halted` how many faults halted a log;
//!   `close` goes back to the file.
//! - `write AT BYTES`, `len`, `read-nothing`, `cut-all` and `sync` are calls of a disk; `bytes`, `calls` and `faults` tell
//!   what it has, and how many calls and faults there were.
//! - `crash TORN` and `crash-at CALL TORN` go on with what a crash now, or before a call, leaves where the bytes that are
//!   pending are these in turn; `image CALL TORN` tells these bytes, and `left CALL TORN` their payloads. Behind the last
//!   call stands `end`.
#![tactic(auto)]

mod disks;
mod lines;
mod logs;
mod state;

use case_files::compare_files;
use lines::Lines;

fn main(rt: HostRuntime) -> anyhow::Result<()> {
    compare_files(&rt, &Lines)
}
