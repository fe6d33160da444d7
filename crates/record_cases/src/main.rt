//! Reads and writes bytes as the cases of the files say that its words name, and tells how many each has.
//!
//! A line of a case's text is a kind and bytes in hexadecimal, or `write`, a kind and what is to be written. Of the
//! first is told `none`, or how many bytes were taken and what was read as it is written again; of the second, all that
//! the case wrote up to there. `whole` stands in place of the number where all bytes were taken, and no proper front of
//! them begins with what can be read. The first case of which something else is told ends the program with status 1.
#![tactic(auto)]

mod reading;
mod spelling;
mod writing;

use bf_record::a_record_has_one_spelling;
use bf_wire::spellings_are_apart;
use case_files::compare_files;
use spelling::Spelling;

fn main(rt: HostRuntime) -> anyhow::Result<()> {
    spellings_are_apart();
    a_record_has_one_spelling();
    compare_files(&rt, &Spelling)
}
