//! Expressions and conditions as they are written, whose columns are refs.

ghost use Rattle.std.specs.Prelude.{◌≡◌, IfOk};
ghost use Rattle.bf_tree.specs.Views.{raw_cond, raw_tree};

use crate::compare::Compare;
use bf_base::{Memory, Name, TryClone, Value};
use std::alloc::Global;
use std::marker::Model;

/// A column by its name, which may stand behind its table's.
#[derive(Debug, Drop, PartialEq, Eq)]
pub struct Ref {
    pub table: Option<Name>,
    pub column: Name,
}

/// An expression, as its topmost node.
#[derive(Drop)]
#[cycle(raw_expr)]
pub struct RawExpr {
    node: RawNode,
}

#[derive(Drop)]
#[cycle(raw_expr)]
pub enum RawNode {
    Value(Value),
    Column(Ref),
    Neg(Box<RawExpr>),
    Add(Box<RawExpr>, Box<RawExpr>),
    Sub(Box<RawExpr>, Box<RawExpr>),
    Mul(Box<RawExpr>, Box<RawExpr>),
    Concat(Box<RawExpr>, Box<RawExpr>),
}

impl Model for RawExpr {
    ghost use Rattle.std.specs.Prelude.{ℕ};
    ghost use Rattle.bf_tree.specs.Trees.{Expr as Tree, nodes};
    ghost use Rattle.bf_tree.specs.Codes.{expr_code};
    ghost use Rattle.bf_tree.specs.declared.raw.Ref.{Ref};
    ghost use Rattle.bf_tree.specs.Codes.{ref_code};

    ghost Value = { Tree (Ref) };

    ghost coded = { expr_code ref_code };

    ghost use Rattle.bf_tree.specs.Views.{raw_tree};

    ghost view = { λ e. raw_tree e.node };

    ghost size = { nodes };

    ghost use Rattle.std.proofs.Common.{arith};

    ghost size_decreases = { λ a h. Prim.grind (arith) };
}

/// What a condition compares.
#[derive(Debug, Drop, PartialEq, Eq)]
pub enum Operand {
    Value(Value),
    Column(Ref),
}

/// A condition, as its topmost test.
#[derive(Drop)]
#[cycle(raw_cond)]
pub struct RawCond {
    node: RawTest,
}

#[derive(Drop)]
#[cycle(raw_cond)]
pub enum RawTest {
    Compare(Compare, Operand, Operand),
    /// The first from the second to the third, both included.
    Between(Operand, Operand, Operand),
    Not(Box<RawCond>),
    And(Box<RawCond>, Box<RawCond>),
    Or(Box<RawCond>, Box<RawCond>),
}

impl Model for RawCond {
    ghost use Rattle.std.specs.Prelude.{ℕ};
    ghost use Rattle.bf_tree.specs.Trees.{Cond as Tree, tests};
    ghost use Rattle.bf_tree.specs.Codes.{cond_code};
    ghost use Rattle.bf_tree.specs.declared.raw.Ref.{Ref};
    ghost use Rattle.bf_tree.specs.Codes.{ref_code};

    ghost Value = { Tree (Ref) };

    ghost coded = { cond_code ref_code };

    ghost use Rattle.bf_tree.specs.Views.{raw_cond};

    ghost view = { λ c. raw_cond c.node };

    ghost size = { tests };

    ghost use Rattle.std.proofs.Common.{arith};

    ghost size_decreases = { λ a h. Prim.grind (arith) };
}

impl Ref {
    /// An equal ref.
    pub fn copy(&self, alloc: Global) -> Result<Ref, Memory>
        ensures { IfOk result (λ copy. copy ≡ self.now) }
    {
        let column = self.column.copy(alloc)?;
        match &self.table {
            Some(table) => Ok(Ref {
                table: Some(table.copy(alloc)?),
                column,
            }),
            None => Ok(Ref {
                table: None,
                column,
            }),
        }
    }
}

impl TryClone for Ref {
    fn try_clone(&self, alloc: Global) -> Result<Ref, Memory> {
        self.copy(alloc)
    }
}

impl Operand {
    /// An equal operand.
    pub fn copy(&self, alloc: Global) -> Result<Operand, Memory>
        ensures { IfOk result (λ copy. copy ≡ self.now) }
    {
        match self {
            Operand::Value(value) => Ok(Operand::Value(value.copy(alloc)?)),
            Operand::Column(column) => Ok(Operand::Column(column.copy(alloc)?)),
        }
    }
}

impl RawExpr {
    /// The expression that a node makes. Takes no memory.
    pub fn of(node: RawNode) -> RawExpr
        ensures { result ≡ raw_tree node }
    {
        RawExpr { node }
    }

    /// Its topmost node.
    pub fn node(&self) -> &RawNode
        ensures { raw_tree result.now ≡ self.now }
    {
        &self.node
    }

    /// Its topmost node, taken out. Takes no memory.
    pub fn into_node(self) -> RawNode
        ensures { raw_tree result ≡ self }
    {
        self.node
    }

    /// An equal expression, in time linear in its nodes.
    pub fn copy(&self, alloc: Global) -> Result<RawExpr, Memory>
        ensures { IfOk result (λ copy. copy ≡ self.now) }
    {
        match &self.node {
            RawNode::Value(value) => Ok(RawExpr::of(RawNode::Value(value.copy(alloc)?))),
            RawNode::Column(column) => Ok(RawExpr::of(RawNode::Column(column.copy(alloc)?))),
            RawNode::Neg(a) => Ok(RawExpr::of(RawNode::Neg(Box::new(alloc, a.copy(alloc)?)?))),
            RawNode::Add(a, b) => Ok(RawExpr::of(RawNode::Add(
                Box::new(alloc, a.copy(alloc)?)?,
                Box::new(alloc, b.copy(alloc)?)?,
            ))),
            RawNode::Sub(a, b) => Ok(RawExpr::of(RawNode::Sub(
                Box::new(alloc, a.copy(alloc)?)?,
                Box::new(alloc, b.copy(alloc)?)?,
            ))),
            RawNode::Mul(a, b) => Ok(RawExpr::of(RawNode::Mul(
                Box::new(alloc, a.copy(alloc)?)?,
                Box::new(alloc, b.copy(alloc)?)?,
            ))),
            RawNode::Concat(a, b) => Ok(RawExpr::of(RawNode::Concat(
                Box::new(alloc, a.copy(alloc)?)?,
                Box::new(alloc, b.copy(alloc)?)?,
            ))),
        }
    }
}

impl TryClone for RawExpr {
    fn try_clone(&self, alloc: Global) -> Result<RawExpr, Memory> {
        self.copy(alloc)
    }
}

impl RawCond {
    /// The condition that a test makes. Takes no memory.
    pub fn of(node: RawTest) -> RawCond
        ensures { result ≡ raw_cond node }
    {
        RawCond { node }
    }

    /// Its topmost test.
    pub fn node(&self) -> &RawTest
        ensures { raw_cond result.now ≡ self.now }
    {
        &self.node
    }

    /// An equal condition, in time linear in its nodes.
    pub fn copy(&self, alloc: Global) -> Result<RawCond, Memory>
        ensures { IfOk result (λ copy. copy ≡ self.now) }
    {
        match &self.node {
            RawTest::Compare(op, a, b) => Ok(RawCond::of(RawTest::Compare(
                *op,
                a.copy(alloc)?,
                b.copy(alloc)?,
            ))),
            RawTest::Between(a, low, high) => Ok(RawCond::of(RawTest::Between(
                a.copy(alloc)?,
                low.copy(alloc)?,
                high.copy(alloc)?,
            ))),
            RawTest::Not(c) => Ok(RawCond::of(RawTest::Not(Box::new(alloc, c.copy(alloc)?)?))),
            RawTest::And(c, d) => Ok(RawCond::of(RawTest::And(
                Box::new(alloc, c.copy(alloc)?)?,
                Box::new(alloc, d.copy(alloc)?)?,
            ))),
            RawTest::Or(c, d) => Ok(RawCond::of(RawTest::Or(
                Box::new(alloc, c.copy(alloc)?)?,
                Box::new(alloc, d.copy(alloc)?)?,
            ))),
        }
    }
}

impl TryClone for RawCond {
    fn try_clone(&self, alloc: Global) -> Result<RawCond, Memory> {
        self.copy(alloc)
    }
}
