//! Expressions and conditions, whose columns are places in a row.

ghost use Rattle.std.specs.Prelude.{◌≡◌, IfOk};
ghost use Rattle.bf_tree.specs.Views.{bound_cond, bound_tree};

use crate::compare::Compare;
use bf_base::{Memory, TryClone, Value};
use std::alloc::Global;
use std::marker::Model;

/// An expression, as its topmost node.
#[derive(Drop)]
#[cycle(expr)]
pub struct Expr {
    node: Node,
}

#[derive(Drop)]
#[cycle(expr)]
pub enum Node {
    Value(Value),
    /// By its place in the row, counted from 0.
    Column(u8),
    Neg(Box<Expr>),
    Add(Box<Expr>, Box<Expr>),
    Sub(Box<Expr>, Box<Expr>),
    Mul(Box<Expr>, Box<Expr>),
    Concat(Box<Expr>, Box<Expr>),
}

impl Model for Expr {
    ghost use Rattle.std.specs.Prelude.{ℕ};
    ghost use Rattle.bf_tree.specs.Trees.{Expr as Tree, nodes};
    ghost use Rattle.bf_tree.specs.Codes.{expr_code};
    ghost use Rattle.std.specs.Coded.{coded_ℕ};

    ghost Value = { Tree (ℕ) };

    ghost coded = { expr_code coded_ℕ };

    ghost use Rattle.bf_tree.specs.Views.{bound_tree};

    ghost view = { λ e. bound_tree e.node };

    ghost size = { nodes };

    ghost use Rattle.std.proofs.Common.{arith};

    ghost size_decreases = { λ a h. Prim.grind (arith) };
}

/// A condition, as its topmost test.
#[derive(Drop)]
#[cycle(cond)]
pub struct Cond {
    node: Test,
}

#[derive(Drop)]
#[cycle(cond)]
pub enum Test {
    /// True of each row.
    Always,
    Compare(Compare, Expr, Expr),
    /// The first from the second to the third, both included.
    Between(Expr, Expr, Expr),
    Not(Box<Cond>),
    And(Box<Cond>, Box<Cond>),
    Or(Box<Cond>, Box<Cond>),
}

impl Model for Cond {
    ghost use Rattle.std.specs.Prelude.{ℕ};
    ghost use Rattle.bf_tree.specs.Trees.{Cond as Tree, tests};
    ghost use Rattle.bf_tree.specs.Codes.{cond_code};
    ghost use Rattle.std.specs.Coded.{coded_ℕ};

    ghost Value = { Tree (ℕ) };

    ghost coded = { cond_code coded_ℕ };

    ghost use Rattle.bf_tree.specs.Views.{bound_cond};

    ghost view = { λ c. bound_cond c.node };

    ghost size = { tests };

    ghost use Rattle.std.proofs.Common.{arith};

    ghost size_decreases = { λ a h. Prim.grind (arith) };
}

impl Expr {
    /// The expression that a node makes. Takes no memory.
    pub fn of(node: Node) -> Expr
        ensures { result ≡ bound_tree node }
    {
        Expr { node }
    }

    /// Its topmost node.
    pub fn node(&self) -> &Node
        ensures { bound_tree result.now ≡ self.now }
    {
        &self.node
    }

    /// An equal expression, in time linear in its nodes.
    pub fn copy(&self, alloc: Global) -> Result<Expr, Memory>
        ensures { IfOk result (λ copy. copy ≡ self.now) }
    {
        match &self.node {
            Node::Value(value) => Ok(Expr::of(Node::Value(value.copy(alloc)?))),
            Node::Column(place) => Ok(Expr::of(Node::Column(*place))),
            Node::Neg(a) => Ok(Expr::of(Node::Neg(Box::new(alloc, a.copy(alloc)?)?))),
            Node::Add(a, b) => Ok(Expr::of(Node::Add(
                Box::new(alloc, a.copy(alloc)?)?,
                Box::new(alloc, b.copy(alloc)?)?,
            ))),
            Node::Sub(a, b) => Ok(Expr::of(Node::Sub(
                Box::new(alloc, a.copy(alloc)?)?,
                Box::new(alloc, b.copy(alloc)?)?,
            ))),
            Node::Mul(a, b) => Ok(Expr::of(Node::Mul(
                Box::new(alloc, a.copy(alloc)?)?,
                Box::new(alloc, b.copy(alloc)?)?,
            ))),
            Node::Concat(a, b) => Ok(Expr::of(Node::Concat(
                Box::new(alloc, a.copy(alloc)?)?,
                Box::new(alloc, b.copy(alloc)?)?,
            ))),
        }
    }
}

impl TryClone for Expr {
    fn try_clone(&self, alloc: Global) -> Result<Expr, Memory> {
        self.copy(alloc)
    }
}

impl Cond {
    /// The condition that a test makes. Takes no memory.
    pub fn of(node: Test) -> Cond
        ensures { result ≡ bound_cond node }
    {
        Cond { node }
    }

    /// Its topmost test.
    pub fn node(&self) -> &Test
        ensures { bound_cond result.now ≡ self.now }
    {
        &self.node
    }

    /// An equal condition, in time linear in its nodes.
    pub fn copy(&self, alloc: Global) -> Result<Cond, Memory>
        ensures { IfOk result (λ copy. copy ≡ self.now) }
    {
        match &self.node {
            Test::Always => Ok(Cond::of(Test::Always)),
            Test::Compare(op, a, b) => Ok(Cond::of(Test::Compare(
                *op,
                a.copy(alloc)?,
                b.copy(alloc)?,
            ))),
            Test::Between(a, low, high) => Ok(Cond::of(Test::Between(
                a.copy(alloc)?,
                low.copy(alloc)?,
                high.copy(alloc)?,
            ))),
            Test::Not(c) => Ok(Cond::of(Test::Not(Box::new(alloc, c.copy(alloc)?)?))),
            Test::And(c, d) => Ok(Cond::of(Test::And(
                Box::new(alloc, c.copy(alloc)?)?,
                Box::new(alloc, d.copy(alloc)?)?,
            ))),
            Test::Or(c, d) => Ok(Cond::of(Test::Or(
                Box::new(alloc, c.copy(alloc)?)?,
                Box::new(alloc, d.copy(alloc)?)?,
            ))),
        }
    }
}

impl TryClone for Cond {
    fn try_clone(&self, alloc: Global) -> Result<Cond, Memory> {
        self.copy(alloc)
    }
}
