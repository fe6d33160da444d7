//! Disks and shelves of disks: what a read gives, and what every crash may leave.
#![tactic(auto)]

pub mod call;
pub mod disk;
pub mod error;
mod file;
pub mod laws;
pub mod memory_disk;
pub mod memory_shelf;
mod replay;
pub mod shelf;
pub mod slot;
pub mod tape_disk;

pub use call::{Act, Call};
pub use disk::Disk;
pub use error::DiskError;
pub use memory_disk::MemoryDisk;
pub use memory_shelf::MemoryShelf;
pub use shelf::Shelf;
pub use slot::Slot;
pub use tape_disk::TapeDisk;
