//! Laws of the definitions. Each is the contract of a function that does nothing.

ghost use Rattle.std.specs.Prelude.{ℕ, IsTrue, false};
ghost use Rattle.bf_tree.specs.declared.statement.Statement.{Statement};
ghost use Rattle.bf_sql.specs.Database.{Database, IsDatabase, empty_database};
ghost use Rattle.bf_sql.specs.Meaning.{executed};
ghost use Rattle.bf_live.specs.Aside.{OneMoreIsBack, OneMoreIsTaken, RowsComeBack, RowsLeaveUnread};
ghost use Rattle.bf_live.specs.Autocommit.{is_autocommit};

/// The empty database is one, and a statement that is a transaction of its own and no MIGRATE leaves a
/// database a database, refused or not.
pub fn statements_keep_a_database()
    ensures empty { IsDatabase empty_database }
    ensures next { (commit : ℕ) (db : Database) (s : Statement) → IsTrue (is_autocommit s)
        → IsDatabase db → IsDatabase (executed commit db false s).1 }
{}

/// Rows that are taken out of tables and put back leave the database as it was, table by table, and
/// an exchange does not read those of tables that leave.
pub fn rows_may_stand_aside()
    ensures back { RowsComeBack }
    ensures one_more_taken { OneMoreIsTaken }
    ensures one_more_back { OneMoreIsBack }
    ensures unread { RowsLeaveUnread }
{}
