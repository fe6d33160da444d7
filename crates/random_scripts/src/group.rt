//! Whole groups of statements.

ghost use Rattle.std.specs.Prelude.{◌≡◌, [], ◌∷◌, IfSome, length, true};
ghost use Rattle.std.specs.List.{AllByRecursion, list_all};
ghost use Rattle.bf_sql.specs.Groups.{commits, ends_block, groups_of, last_is_commit};
ghost use Rattle.bf_tree.specs.Limits.{IsNarrowIfMigrate, is_narrow_statement};
ghost use Rattle.bf_eager.specs.Eager.{IsWholeGroup};
ghost use Rattle.random_scripts.specs.Blocks.{IsInBlock};

use bf_eager::is_narrow;
use bf_tree::Statement;

/// The most columns of a table.
const MOST_COLUMNS: usize = 16;

/// Whether a statement ends a block.
pub fn ends_block(statement: &Statement) -> bool
    ensures { result ≡ ends_block statement.now }
{
    matches!(statement, Statement::Commit | Statement::Rollback)
}

/// Whether the last of some statements is a COMMIT.
fn is_commit(statement: &Statement) -> bool
    ensures { result ≡ last_is_commit (statement.now ∷ []) }
{
    matches!(statement, Statement::Commit)
}

/// Whether a block commits whose statements behind BEGIN are these, and `None` where it ends before the last.
#[tactic(auto, using(crate::proofs::Blocks::nothing, crate::proofs::Blocks::the_last, crate::proofs::Blocks::one_more, crate::proofs::Blocks::last_behind))]
fn block_commits(body: &[Statement]) -> Option<bool>
    ensures whole { IfSome result (λ committed. IsInBlock body.now) }
    ensures ends { IfSome result (λ committed. last_is_commit body.now ≡ committed) }
{
    match body {
        [] => Some(false),
        [last] => Some(is_commit(last)),
        [first, rest @ ..] => {
            if ends_block(first) {
                return None;
            }
            block_commits(rest)
        }
    }
}

/// Whether a statement and those behind it commit where they are one group, and `None` where they are none.
#[tactic(auto, using(crate::proofs::Blocks::begun))]
fn group_commits(first: &Statement, behind: &[Statement]) -> Option<bool>
    ensures whole { IfSome result (λ committed.
        groups_of (first.now ∷ behind.now) ≡ (1, length (first.now ∷ behind.now)) ∷ []) }
    ensures ends { IfSome result (λ committed. commits (first.now ∷ behind.now) ≡ committed) }
{
    match first {
        Statement::Begin => Some(block_commits(behind)?),
        Statement::Commit | Statement::Rollback => None,
        _ => {
            if !behind.is_empty() {
                return None;
            }
            Some(true)
        }
    }
}

/// Whether a statement is of a size that a script can have.
fn is_small(statement: &Statement) -> bool
    ensures columns { result ≡ true → is_narrow_statement statement.now ≡ true }
    ensures migrate { result ≡ true → IsNarrowIfMigrate statement.now }
{
    match statement {
        Statement::CreateTable { columns, .. } => columns.len() <= MOST_COLUMNS,
        Statement::Migrate(migrate) => is_narrow(migrate),
        _ => true,
    }
}

fn are_small(statements: &[Statement]) -> bool
    ensures columns { result ≡ true → list_all is_narrow_statement statements.now ≡ true }
    ensures migrates { result ≡ true → AllByRecursion IsNarrowIfMigrate statements.now }
{
    for statement in statements {
        if !is_small(statement) {
            return false;
        }
    }
    true
}

/// Whether a whole group commits, and `None` of statements that are none.
pub fn whole_commits(statements: &[Statement]) -> Option<bool>
    ensures { IfSome result (λ committed. IsWholeGroup committed statements.now) }
{
    if !are_small(statements) {
        return None;
    }
    match statements {
        [] => None,
        [first, behind @ ..] => group_commits(first, behind),
    }
}
