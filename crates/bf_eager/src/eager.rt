//! The one-thread database.

ghost use Rattle.std.specs.List.{AllByRecursion, list_all};
ghost use Rattle.std.specs.Option.{option_map};
ghost use Rattle.std.specs.Prelude.{◌≡◌, ◌≤◌, [], ◌∷◌, IfOk, IsTrue, OnErr, false, length, true};
ghost use Rattle.bf_tree.specs.Limits.{HasNarrowTables, IsNarrowIfMigrate, IsNarrowMigrate, is_narrow_statement};
ghost use Rattle.bf_sql.specs.Bound.{catalog_of, changes_schema};
ghost use Rattle.bf_sql.specs.Database.{IsDatabase, empty_database, stored_at};
ghost use Rattle.bf_sql.specs.History.{commits_with};
ghost use Rattle.bf_eager.specs.Beginnings.{IsBegun};
ghost use Rattle.bf_eager.specs.Eager.{IsWholeGroup, outcome_of, ran_entry};
ghost use Rattle.bf_eager.specs.Groups.{leave_schema};
ghost use Rattle.bf_eager.specs.Starting.{CanStart, database_with, named_tables};

use crate::flip::begun;
use crate::rows::{replies_on_rows, settle};
use crate::schema::{change_schema, changes_schema};
use crate::starting::live_tables;
use bf_base::{Memory, Name, Row};
use bf_image::Migration;
use bf_live::LiveTables;
use bf_plan::plan;
use bf_tree::{Catalog, Migrate, Refusal, Reply, Statement};
use bf_txn::Workspace;
use std::alloc::Global;
use std::marker::Model;

/// A database that runs one group of statements after the other, each to its end. Contracts see how
/// many groups have committed, and the database.
#[derive(Drop)]
pub struct Eager {
    alloc: Global,
    commits: u64,
    live: LiveTables,
}

impl Model for Eager {
    ghost use Rattle.bf_tree.specs.Limits.{HasNarrowTables};
    ghost use Rattle.bf_sql.specs.Bound.{catalog_of};
    ghost use Rattle.bf_sql.specs.Database.{IsDatabase};
    ghost use Rattle.bf_eager.specs.Eager.{Ran};

    ghost Value = { Ran };

    ghost view = { λ eager. record { commits = eager.commits; database = eager.live } };

    ghost invariant = { λ eager. IsDatabase eager.live × HasNarrowTables (catalog_of eager.live) };
}

/// How many groups have committed behind one more, which commits or not.
///
/// # Errors
/// Where 2 ^ 64 groups would have committed.
fn commits_behind(commits: u64, committed: bool) -> Result<u64, Memory>
    ensures ok { IfOk result (λ n. n ≡ commits_with commits (outcome_of committed)) }
    ensures err { OnErr result
        (18446744073709551616 ≤ commits_with commits (outcome_of committed)) }
{
    if committed {
        commits.checked_add(1).ok_or(Memory)
    } else {
        Ok(commits)
    }
}

impl Eager {
    /// The empty database, before any commit. Takes no memory.
    pub fn new(alloc: Global) -> Eager
        ensures { result ≡ record { commits = 0; database = empty_database } }
    {
        Eager {
            alloc,
            commits: 0,
            live: LiveTables::new(alloc),
        }
    }

    /// The database of a catalog and these rows, before any commit. A table has the rows that are given
    /// under its name, in any order; of several the last. It costs about log n compares of keys for each
    /// row, and of names for each table.
    ///
    /// # Errors
    /// Where memory runs out, or a table has 2 ^ 32 rows or more.
    pub fn of(
        alloc: Global,
        catalog: &Catalog,
        rows: Vec<(Name, Vec<Row>)>,
    ) -> Result<Eager, Memory>
        requires { CanStart catalog.now (named_tables rows.items) }
        ensures { IfOk result (λ eager. eager ≡ record {
          commits = 0;
          database = database_with catalog.now (named_tables rows.items);
        }) }
    {
        let live = live_tables(alloc, catalog, rows)?;
        Ok(Eager {
            alloc,
            commits: 0,
            live,
        })
    }

    /// The catalog, in which statements may be prepared: it is that of a database, and its tables are
    /// within the limits of the language. Takes no memory.
    pub fn catalog(&self) -> &Catalog
        ensures catalog { result.now ≡ catalog_of self.now.database }
        ensures database { IsDatabase self.now.database }
        ensures narrow { HasNarrowTables result.now }
    {
        self.live.catalog()
    }

    /// The number of rows of the table of a name, and `None` exactly where no table has the name. It
    /// compares about log n names, and takes no memory.
    pub fn rows(&self, name: &Name) -> Option<u32>
        ensures { result ≡ option_map (λ s. length s.rows) (stored_at self.now.database name.now) }
    {
        self.live.heap(name).map(|heap| heap.len())
    }

    /// The migration that a MIGRATE would begin on the database as it is, or the first refusal of the
    /// statement. Nothing changes; the rows of the old tables are copied.
    ///
    /// # Errors
    /// Where memory runs out.
    pub fn begun(&self, migrate: &Migrate) -> Result<Result<Migration, Refusal>, Memory>
        requires narrow { IsNarrowMigrate migrate.now }
        ensures { IfOk result (λ begun. IsBegun self.now.database migrate.now begun) }
    {
        match plan(self.alloc, migrate, self.live.catalog())? {
            Ok(plan) => begun(self.alloc, &self.live, plan),
            Err(refusal) => Ok(Err(refusal)),
        }
    }

    /// Runs one whole group of statements, and answers their replies. A group that commits leaves what
    /// it has written; one that is rolled back, or does not end, leaves the database as it was. It costs
    /// what its statements read and write of their tables, and a MIGRATE all rows of its old tables.
    ///
    /// # Errors
    /// Where memory runs out, 2 ^ 32 rows or more change, or 2 ^ 64 groups would have committed or schema
    /// changes been made. The database is as it was then.
    pub fn run_entry(
        &mut self,
        statements: &[Statement],
        committed: bool,
    ) -> Result<Vec<Reply>, Memory>
        requires { IsWholeGroup committed statements.now }
        ensures ok { IfOk result
            (λ replies. (replies.items, self.new) ≡ ran_entry self.old committed statements.now) }
        ensures err { OnErr result (self.new ≡ self.old) }
    {
        match statements.first() {
            Some(first) if changes_schema(first) => self.run_schema_change(first),
            _ => self.run_on_rows(statements, committed),
        }
    }

    /// Runs a CREATE or a MIGRATE, which stands alone in its group.
    ///
    /// # Errors
    /// As `run_entry` says.
    fn run_schema_change(&mut self, statement: &Statement) -> Result<Vec<Reply>, Memory>
        requires alone { changes_schema false statement.now ≡ true }
        requires narrow { IsTrue (is_narrow_statement statement.now) }
        requires migrates { IsNarrowIfMigrate statement.now }
        ensures ok { IfOk result (λ replies. (replies.items, self.new)
            ≡ ran_entry self.old true (statement.now ∷ [])) }
        ensures err { OnErr result (self.new ≡ self.old) }
    {
        let commits = commits_behind(self.commits, true)?;
        let mut replies = Vec::with_capacity(self.alloc, 1)?;
        let reply = change_schema(self.alloc, &mut self.live, statement)?;
        self.commits = commits;
        replies.push(reply).unwrap();
        Ok(replies)
    }

    /// Runs a group whose statements leave the catalog.
    ///
    /// # Errors
    /// As `run_entry` says.
    fn run_on_rows(
        &mut self,
        statements: &[Statement],
        committed: bool,
    ) -> Result<Vec<Reply>, Memory>
        requires leaves { IsTrue (leave_schema statements.now) }
        requires narrow { IsTrue (list_all is_narrow_statement statements.now) }
        requires migrates { AllByRecursion IsNarrowIfMigrate statements.now }
        ensures ok { IfOk result
            (λ replies. (replies.items, self.new) ≡ ran_entry self.old committed statements.now) }
        ensures err { OnErr result (self.new ≡ self.old) }
    {
        let commits = commits_behind(self.commits, committed)?;
        let mut writes = Workspace::new(self.alloc);
        let replies = replies_on_rows(self.alloc, &self.live, &mut writes, statements, commits)?;
        settle(&mut self.live, &mut writes, committed)?;
        self.commits = commits;
        Ok(replies)
    }
}
