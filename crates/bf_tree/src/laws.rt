//! Laws of the definitions. Each is the contract of a function that does nothing.

ghost use Rattle.std.specs.Prelude.{◌≡◌};
ghost use Rattle.bf_base.specs.declared.value.Value.{Value};
ghost use Rattle.bf_tree.specs.Evaluation.{holds_on, value_of};
ghost use Rattle.bf_tree.specs.Trees.{Cond, Expr, cond_over, expr_over};

/// An expression over other columns has the value that it has where each of its columns is read
/// as the other column.
pub fn an_expression_over_other_columns<R, S>()
    ensures { (read : S → Value) (to : R → S) (e : Expr R)
        → value_of read (expr_over to e) ≡ value_of (λ r. read (to r)) e }
{}

/// A condition over other columns is true where it is true with each of its columns read as the
/// other column.
pub fn a_condition_over_other_columns<R, S>()
    ensures { (read : S → Value) (to : R → S) (c : Cond R)
        → holds_on read (cond_over to c) ≡ holds_on (λ r. read (to r)) c }
{}
