//! Plans of migrations: a MIGRATE is bound in a catalog, target by target, and either the first
//! objection of the catalog is told or the plan is made. Rows are not looked at.
#![tactic(auto)]

mod arm;
mod inheriting;
mod item;
pub mod planning;
pub mod preparing;
mod target;
mod units;

pub use planning::plan;
pub use preparing::prepare;
