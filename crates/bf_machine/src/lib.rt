//! The machine: sessions whose transactions take turns over the store under locks, the history of
//! what has ended, and sessions served on one thread.
#![tactic(auto)]

mod answer;
pub mod interleaving_laws;
pub mod journal;
pub mod lookups;
pub mod machine;
pub mod opened;
pub mod serving;
mod settle;
pub mod so_far;
pub mod stand;

pub use journal::{Journal, KeepError, Unkept};
pub use lookups::Lookups;
pub use machine::{Machine, Parts};
pub use opened::Opened;
pub use serving::{in_order, lock_all, move_records, prepare_next};
pub use so_far::Pending;
pub use stand::{Ending, MoveError, Stand, Step, Turn};
