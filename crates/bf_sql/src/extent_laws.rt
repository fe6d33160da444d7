//! Laws of the analysis. Each is the contract of a function that does nothing.

ghost use Rattle.std.specs.Prelude.{◌≡◌, ◌≤◌, ◌++◌, ℕ, List, [], false, flat_map, length, IsOkAnd, IsTrue};
ghost use Rattle.std.specs.List.{AllByRecursion};
ghost use Rattle.bf_base.specs.Limits.{most_rows};
ghost use Rattle.bf_base.specs.declared.value.Value.{Value};
ghost use Rattle.bf_base.specs.declared.table.Admit.{Admit};
ghost use Rattle.bf_base.specs.declared.table.Column.{Column};
ghost use Rattle.bf_base.specs.Tables.{cell};
ghost use Rattle.bf_tree.specs.Evaluation.{value_of};
ghost use Rattle.bf_tree.specs.Trees.{Expr, expr_over};
ghost use Rattle.bf_tree.specs.declared.items.Aggregate.{Aggregate};
ghost use Rattle.bf_sql.specs.Bound.{total_over};
ghost use Rattle.bf_tree.specs.ValueObjections.{argument_objections, sum_objections};
ghost use Rattle.bf_tree.specs.Totals.{total_of};
ghost use Rattle.bf_sql.specs.migrations.Extents.{extent_of, extent_of_total, may_fail};
ghost use Rattle.bf_sql.specs.migrations.Within.{admitted_at, IsHeld, IsRowOf, IsWithin, cell_within, span_of_total};

/// Where columns admit what is read of them, an expression whose extent is not beyond the values has a value, and it
/// lies within the extent. So it does not fail.
pub fn a_value_lies_within<R>()
    ensures { (admitted : R → Admit) (read : R → Value) → ((r : R) → IsHeld (admitted r) (read r))
        → (e : Expr R) → may_fail (extent_of admitted e) ≡ false
        → IsOkAnd (value_of read e) (IsWithin (extent_of admitted e)) }
{}

/// On a row that the columns admit, each place is read as its column admits.
pub fn an_admitted_row_is_read_so()
    ensures { (columns : List Column) (row : List Value) → IsRowOf columns row
        → (place : ℕ) → IsHeld (admitted_at columns place) (cell row place) }
{}

/// A total over at most as many rows as a source may have is NULL or a value within its span. Where its extent is not
/// beyond the values, no row and no sum is an objection to it.
pub fn a_total_lies_within<R>()
    ensures within { (admitted : R → Admit) (read : List Value → R → Value) (rows : List (List Value))
        → AllByRecursion (λ row. (r : R) → IsHeld (admitted r) (read row r)) rows → length rows ≤ most_rows
        → (total : Aggregate (Expr R))
        → IsTrue (cell_within (span_of_total admitted total) (total_of read rows total)) }
    ensures unobjected { (admitted : R → Admit) (read : List Value → R → Value) (rows : List (List Value))
        → AllByRecursion (λ row. (r : R) → IsHeld (admitted r) (read row r)) rows → length rows ≤ most_rows
        → (total : Aggregate (Expr R)) → may_fail (extent_of_total admitted total) ≡ false
        → flat_map (λ row. argument_objections read row total) rows ++ sum_objections read rows total ≡ [] }
{}

/// An expression, and a total, bound to places has the extent that it has by the refs that stand for them.
pub fn binding_keeps_extents<R, S>()
    ensures expression { (to : R → S) (admitted : S → Admit) (e : Expr R)
        → extent_of admitted (expr_over to e) ≡ extent_of (λ r. admitted (to r)) e }
    ensures total { (to : R → S) (admitted : S → Admit) (t : Aggregate (Expr R))
        → extent_of_total admitted (total_over to t) ≡ extent_of_total (λ r. admitted (to r)) t }
{}
