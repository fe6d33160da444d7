//! The script of the demonstration, statement by statement.

ghost use Rattle.std.specs.Prelude.{◌≡◌, ◌∷◌, ◌≤◌, [], IfOk, IsTrue};
ghost use Rattle.bf_base.specs.Names.{folded, is_name};
ghost use Rattle.bf_demo.specs.Script.{account, bal, count_and_sum, credit, credits, demonstration, from_acct, half, id, in_phase, int_column, kept_items, new_table, number, opened_by, opening, openings, owner, split, sum_up, sums};
ghost use Rattle.bf_sql.specs.Scopes.{unqualified};
ghost use Rattle.bf_tree.specs.Trees.{column, compared, literal, plus};
ghost use Rattle.bf_tree.specs.declared.compare.Compare.TheVariants.{Equal};

use crate::words::{column_named, column_value, int_column, name, number};
use bf_base::{Memory, Name, Row, Sequence};
use bf_tree::{
    Aggregate, Arm, ColumnRule, Compare, Item, Items, Migrate, Operand, RawCond, RawExpr, RawNode,
    RawTest, Script, Session, Statement, Target,
};
use std::alloc::Global;

/// How many accounts an INSERT opens.
const OPENED_AT_ONCE: u32 = 16;

/// `id INT, owner INT, bal INT`
fn columns(alloc: Global) -> Result<Sequence<ColumnRule>, Memory>
    ensures { IfOk result (λ columns.
        columns ≡ int_column id ∷ int_column owner ∷ int_column bal ∷ []) }
{
    let mut columns = Vec::new(alloc);
    columns.push(int_column(alloc, b"id")?)?;
    columns.push(int_column(alloc, b"owner")?)?;
    columns.push(int_column(alloc, b"bal")?)?;
    Ok(Sequence::of(columns))
}

/// `(id)`
fn key(alloc: Global) -> Result<Sequence<Name>, Memory>
    ensures { IfOk result (λ key. key ≡ id ∷ []) }
{
    let mut key = Vec::new(alloc);
    key.push(name(alloc, b"id")?)?;
    Ok(Sequence::of(key))
}

/// `CREATE TABLE acct (id INT, owner INT, bal INT, PRIMARY KEY (id))`
fn new_table(alloc: Global) -> Result<Statement, Memory>
    ensures { IfOk result (λ statement. statement ≡ new_table) }
{
    let columns = columns(alloc)?;
    let key = key(alloc)?;
    Ok(Statement::CreateTable {
        name: name(alloc, b"acct")?,
        columns,
        key,
    })
}

/// The i-th account, `(i, i mod 7, 100)`.
fn account(alloc: Global, i: u32) -> Result<Row, Memory>
    ensures { IfOk result (λ row. row ≡ account i) }
{
    let mut values = Vec::new(alloc);
    values.push(number(i))?;
    values.push(number(i % 7))?;
    values.push(number(100))?;
    Ok(Row::of(values))
}

/// The rows of the b-th INSERT, 16 accounts.
#[tactic(auto, using(crate::proofs::Steps::account_more))]
fn opened(alloc: Global, b: u32) -> Result<Sequence<Row>, Memory>
    requires low { 1 ≤ b }
    requires high { b ≤ 65535 }
    ensures { IfOk result (λ rows. rows ≡ opened_by b) }
{
    let first = OPENED_AT_ONCE * (b - 1) + 1;
    let mut rows = Vec::new(alloc);
    for k in 0..OPENED_AT_ONCE {
        rows.push(account(alloc, first + k)?)?;
    }
    Ok(Sequence::of(rows))
}

/// The b-th INSERT.
fn opening(alloc: Global, b: u32) -> Result<Statement, Memory>
    requires low { 1 ≤ b }
    requires high { b ≤ 65535 }
    ensures { IfOk result (λ statement. statement ≡ opening b) }
{
    let tuples = opened(alloc, b)?;
    Ok(Statement::Insert {
        table: name(alloc, b"acct")?,
        tuples,
    })
}

/// The statements of the first session.
fn openings(alloc: Global, n: u32) -> Result<Vec<Statement>, Memory>
    requires { n ≤ 65535 }
    ensures { IfOk result (λ statements. statements.items ≡ openings n) }
{
    let mut statements = Vec::new(alloc);
    statements.push(new_table(alloc)?)?;
    for b in 0..n {
        statements.push(opening(alloc, b + 1)?)?;
    }
    Ok(statements)
}

/// The number of each account and one more column.
fn kept(alloc: Global, word: &[u8]) -> Result<Sequence<Item>, Memory>
    requires { IsTrue (is_name (folded word.now)) }
    ensures { IfOk result (λ items. items ≡ kept_items (folded word.now)) }
{
    let mut items = Vec::new(alloc);
    items.push(Item::Column(column_named(alloc, b"id")?))?;
    items.push(Item::Column(column_named(alloc, word)?))?;
    Ok(Sequence::of(items))
}

/// `SELECT id, kept FROM acct`
fn arm(alloc: Global, word: &[u8]) -> Result<Arm, Memory>
    requires { IsTrue (is_name (folded word.now)) }
    ensures { IfOk result (λ arm. arm ≡ from_acct (folded word.now)) }
{
    let items = kept(alloc, word)?;
    Ok(Arm {
        items,
        from: name(alloc, b"acct")?,
        join: None,
        cond: None,
        group: Sequence::of(Vec::new(alloc)),
    })
}

/// A new table that keeps the number of each account and one more column.
fn half(alloc: Global, table: &[u8], kept: &[u8]) -> Result<Target, Memory>
    requires named { IsTrue (is_name (folded table.now)) }
    requires kept { IsTrue (is_name (folded kept.now)) }
    ensures { IfOk result (λ target. target ≡ half (folded table.now) (folded kept.now)) }
{
    let mut arms = Vec::new(alloc);
    arms.push(arm(alloc, kept)?)?;
    Ok(Target {
        name: name(alloc, table)?,
        arms: Sequence::of(arms),
    })
}

/// The MIGRATE, by which `acct` is split into `acct` and `who`.
fn split(alloc: Global) -> Result<Statement, Memory>
    ensures { IfOk result (λ statement. statement ≡ split) }
{
    let mut targets = Vec::new(alloc);
    targets.push(half(alloc, b"acct", b"bal")?)?;
    targets.push(half(alloc, b"who", b"owner")?)?;
    Ok(Statement::Migrate(Migrate {
        targets: Sequence::of(targets),
    }))
}

/// `bal + amount`
fn increased(alloc: Global, amount: u32) -> Result<RawExpr, Memory>
    ensures { IfOk result (λ sum.
        sum ≡ plus (column (unqualified bal)) (literal (number amount))) }
{
    let more = Box::new(alloc, RawExpr::of(RawNode::Value(number(amount))))?;
    let before = Box::new(alloc, column_value(alloc, b"bal")?)?;
    Ok(RawExpr::of(RawNode::Add(before, more)))
}

/// `id = at`
fn is_at(alloc: Global, at: u32) -> Result<RawCond, Memory>
    ensures { IfOk result (λ cond.
        cond ≡ compared Equal (column (unqualified id)) (literal (number at))) }
{
    let id = column_named(alloc, b"id")?;
    Ok(RawCond::of(RawTest::Compare(
        Compare::Equal,
        Operand::Column(id),
        Operand::Value(number(at)),
    )))
}

/// `SET bal = bal + amount`
fn increase(alloc: Global, amount: u32) -> Result<Sequence<(Name, RawExpr)>, Memory>
    ensures { IfOk result (λ sets.
        sets ≡ (bal, plus (column (unqualified bal)) (literal (number amount))) ∷ []) }
{
    let sum = increased(alloc, amount)?;
    let bal = name(alloc, b"bal")?;
    let mut sets = Vec::new(alloc);
    sets.push((bal, sum))?;
    Ok(Sequence::of(sets))
}

/// `UPDATE acct SET bal = bal + amount WHERE id = at`
fn addition(alloc: Global, amount: u32, at: u32) -> Result<Statement, Memory>
    ensures { IfOk result (λ statement. credit amount at
        ≡ Statement.Begin ∷ statement ∷ Statement.Commit ∷ []) }
{
    let sets = increase(alloc, amount)?;
    let cond = is_at(alloc, at)?;
    Ok(Statement::Update {
        table: name(alloc, b"acct")?,
        sets,
        cond: Some(cond),
    })
}

/// The statements of the s-th session of four.
fn credits(alloc: Global, n: u32, s: u32) -> Result<Vec<Statement>, Memory>
    requires size { n ≤ 65535 }
    requires low { 1 ≤ s }
    requires high { s ≤ 4 }
    ensures { IfOk result (λ statements. statements.items ≡ credits n s) }
{
    let before = 4 * n * (s - 1);
    let mut statements = Vec::new(alloc);
    for j in 0..n {
        statements.push(Statement::Begin)?;
        statements.push(addition(alloc, s, before + (j + 1))?)?;
        statements.push(Statement::Commit)?;
    }
    Ok(statements)
}

/// `COUNT(*), SUM(summed)`
fn count_and_sum(alloc: Global, summed: &[u8]) -> Result<Items<RawExpr>, Memory>
    requires { IsTrue (is_name (folded summed.now)) }
    ensures { IfOk result (λ items. items ≡ count_and_sum (folded summed.now)) }
{
    let mut aggregates = Vec::new(alloc);
    aggregates.push(Aggregate::Count)?;
    aggregates.push(Aggregate::Sum(column_value(alloc, summed)?))?;
    Ok(Items::Aggregates(Sequence::of(aggregates)))
}

/// `SELECT COUNT(*), SUM(summed) FROM table`
fn sum_up(alloc: Global, table: &[u8], summed: &[u8]) -> Result<Statement, Memory>
    requires named { IsTrue (is_name (folded table.now)) }
    requires summed { IsTrue (is_name (folded summed.now)) }
    ensures { IfOk result (λ statement. statement ≡ sum_up (folded table.now) (folded summed.now)) }
{
    let list = count_and_sum(alloc, summed)?;
    Ok(Statement::Select {
        list,
        table: name(alloc, table)?,
        cond: None,
    })
}

/// The statements of the last session.
fn sums(alloc: Global) -> Result<Vec<Statement>, Memory>
    ensures { IfOk result (λ statements. statements.items ≡ sums) }
{
    let mut statements = Vec::new(alloc);
    statements.push(sum_up(alloc, b"acct", b"bal")?)?;
    statements.push(sum_up(alloc, b"who", b"owner")?)?;
    Ok(statements)
}

/// A session of a phase.
fn in_phase(phase: u32, statements: Vec<Statement>) -> Session
    ensures { result ≡ in_phase phase statements.items }
{
    Session {
        phase,
        statements: Sequence::of(statements),
    }
}

/// The session that splits the table.
fn splitting(alloc: Global) -> Result<Session, Memory>
    ensures { IfOk result (λ session. session ≡ in_phase 2 (split ∷ [])) }
{
    let mut statements = Vec::new(alloc);
    statements.push(split(alloc)?)?;
    Ok(in_phase(2, statements))
}

/// The demonstration of a size. It takes time and memory in proportion to the size.
///
/// # Errors
/// Where memory runs out.
pub fn demonstration(alloc: Global, n: u16) -> Result<Script, Memory>
    ensures { IfOk result (λ script. script ≡ demonstration n) }
{
    let n = n as u32;
    let mut sessions = Vec::new(alloc);
    sessions.push(in_phase(1, openings(alloc, n)?))?;
    sessions.push(splitting(alloc)?)?;
    sessions.push(in_phase(3, credits(alloc, n, 1)?))?;
    sessions.push(in_phase(3, credits(alloc, n, 2)?))?;
    sessions.push(in_phase(3, credits(alloc, n, 3)?))?;
    sessions.push(in_phase(3, credits(alloc, n, 4)?))?;
    sessions.push(in_phase(4, sums(alloc)?))?;
    Ok(Script {
        phases: 4,
        sessions: Sequence::of(sessions),
    })
}
