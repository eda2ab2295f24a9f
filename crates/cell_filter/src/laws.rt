// What holds of every predicate.
ghost use Rattle.std.specs.Prelude.{◌≡◌, ℕ, List, map, true};
ghost use Rattle.mdc_values.specs.declared.value.Value.{Value};
ghost use Rattle.mdc_ast.specs.Truth.{is_true, truth, value_at};
ghost use Rattle.mdc_ast.specs.declared.predicate.Pred.{Pred};
ghost use Rattle.cell_filter.specs.Cells.{may_hold_at};

/// A predicate that is true of a row may hold in the row's cell: in the values of the row in any columns.
pub fn what_is_true_may_hold()
    ensures { (places : List ℕ) (values : List Value) (pred : Pred) → is_true (truth values pred) ≡ true → may_hold_at places (map (value_at values) places) pred ≡ true }
{}
