//! Statements bound in a catalog: their tables and columns are looked up, and the first objection
//! of the catalog stands in the action. Rows are not looked at. Refs, and what is made of them, are
//! bound over the columns of one table or of two. So are the tables of an arm of a migration, the
//! pairs of its ON and its GROUP BY.
#![tactic(auto)]

pub mod binding;
pub mod condition;
mod create;
pub mod expression;
mod fixed;
pub mod joining;
pub mod list;
pub mod scope;
pub mod source;
mod tuples_and_sets;

pub use binding::bind;
pub use condition::bind_condition;
pub use expression::{BoundExpr, bind_expression};
pub use joining::{arm_kind, bind_group, bind_on, is_among, key_places};
pub use list::bind_total;
pub use scope::{ColumnPlace, Scope, column, expect_kind, is_same_kind};
pub use source::{ArmTables, bind_tables};
