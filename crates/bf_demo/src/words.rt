//! Words of the demonstration's statements: names, refs, numbers.

ghost use Rattle.std.specs.Prelude.{◌≡◌, IfOk, IsTrue, pos};
ghost use Rattle.bf_base.specs.Names.{folded, is_name};
ghost use Rattle.bf_tree.specs.Trees.{column, literal};
ghost use Rattle.bf_sql.specs.Scopes.{unqualified};
ghost use Rattle.bf_demo.specs.Script.{int_column, number};

use bf_base::{Memory, Name, NameError, Value};
use bf_tree::{ColumnForm, ColumnRule, RawExpr, RawNode, Ref};
use std::alloc::Global;

/// A name, in lower-case letters.
pub(crate) fn name(alloc: Global, word: &[u8]) -> Result<Name, Memory>
    requires { IsTrue (is_name (folded word.now)) }
    ensures { IfOk result (λ name. name ≡ folded word.now) }
{
    match Name::of(alloc, word) {
        Ok(name) => Ok(name),
        Err(NameError::Memory) => Err(Memory),
        Err(NameError::BadName) => unreachable!(),
    }
}

/// A number as a value.
pub(crate) fn number(n: u32) -> Value
    ensures { result ≡ number n }
{
    Value::Int(n as i64)
}

/// A column by its name alone.
pub(crate) fn column_named(alloc: Global, word: &[u8]) -> Result<Ref, Memory>
    requires { IsTrue (is_name (folded word.now)) }
    ensures { IfOk result (λ column. column ≡ unqualified (folded word.now)) }
{
    let column = name(alloc, word)?;
    Ok(Ref {
        table: None,
        column,
    })
}

/// Its value on a row.
pub(crate) fn column_value(alloc: Global, word: &[u8]) -> Result<RawExpr, Memory>
    requires { IsTrue (is_name (folded word.now)) }
    ensures { IfOk result (λ value. value ≡ column (unqualified (folded word.now))) }
{
    Ok(RawExpr::of(RawNode::Column(column_named(alloc, word)?)))
}

/// A column of numbers, as CREATE TABLE declares it.
pub(crate) fn int_column(alloc: Global, word: &[u8]) -> Result<ColumnRule, Memory>
    requires { IsTrue (is_name (folded word.now)) }
    ensures { IfOk result (λ rule. rule ≡ int_column (folded word.now)) }
{
    let name = name(alloc, word)?;
    Ok(ColumnRule {
        name,
        form: ColumnForm::Int,
    })
}
