//! The trees that the language is made of: expressions and conditions with their values on a row, and statements,
//! scripts, catalogs, bound statements, replies and histories. What statements mean stands in `bf_sql`.
#![tactic(auto)]

pub mod bound;
pub mod catalog;
pub mod compare;
pub mod evaluation;
pub mod fixed;
pub mod history;
pub mod items;
pub mod laws;
pub mod limits;
pub mod migration;
pub mod plan;
pub mod raw;
pub mod reply;
pub mod script;
pub mod statement;
pub mod statement_error;
pub mod tree;

pub use bound::{Action, Bound};
pub use catalog::{Catalog, IndexRule};
pub use compare::Compare;
pub use evaluation::{Fail, holds, operand, value};
pub use fixed::{column_fixed, is_column_at, literal, value_fixed};
pub use history::{Entry, History, Outcome, Sweep, Transcripts};
pub use items::{Aggregate, Items, List, RawAggregate};
pub use limits::{MOST_TARGETS, have_few_arms};
pub use migration::{Arm, Item, Join, Migrate, Target};
pub use plan::{ArmKind, PlacedArm, PlacedItem, Plan, Unit, UnitKind};
pub use raw::{Operand, RawCond, RawExpr, RawNode, RawTest, Ref};
pub use reply::{Cause, Cell, Refusal, Reply};
pub use script::{Script, Session};
pub use statement::{ColumnForm, ColumnRule, Statement};
pub use statement_error::StatementError;
pub use tree::{Cond, Expr, Node, Test};
