//! Makes the statements of cases ready, and tells how many cases each of the files has that its words name.
//!
//! A case is a script. The first of its sessions creates tables and indexes. Of each statement of the others one line is
//! told: of those of the first phase what it is made ready as, and of those of later ones what it locks. The first case
//! of which something else is told ends the program with status 1, and is told with that. Behind the files it tells of a
//! catalog of thousands of tables.
#![tactic(auto)]

mod catalogs;
mod locks;
mod plans;
mod ready;
mod told;

use case_files::compare_files;
use catalogs::tell_catalog;
use ready::Ready;

fn main(rt: HostRuntime) -> anyhow::Result<()> {
    compare_files(&rt, &Ready)?;
    let mut told = String::new(rt.alloc());
    tell_catalog(rt.alloc(), &mut told)?;
    println!(&rt; "{told}")?;
    Ok(())
}
