// What holds of every plan that is chosen.
ghost use Rattle.std.specs.Prelude.{◌≡◌, ◌<◌, ℕ, List, flat_map, length, map, true, Some};
ghost use Rattle.mdc_values.specs.declared.value.Value.{Value};
ghost use Rattle.mdc_ast.specs.declared.definition.ColumnDef.{ColumnDef};
ghost use Rattle.mdc_ast.specs.declared.definition.TableDef.{TableDef};
ghost use Rattle.mdc_ast.specs.declared.predicate.Pred.{Pred};
ghost use Rattle.mdc_ast.specs.declared.statement.PlanMode.{PlanMode};
ghost use Rattle.mdc_ast.specs.Truth.{is_true, may_judge, truth, value_at};
ghost use Rattle.cell_filter.specs.Cells.{may_hold_at};
ghost use Rattle.key_codec.specs.Keys.{has_key, type_of_column};
ghost use Rattle.plan_chooser.specs.Kinds.{has_kinds, samples};
ghost use Rattle.plan_chooser.specs.PlanRows.{fits_plan, plan_row};
ghost use Rattle.plan_chooser.specs.Rule.{goes_by_cells, plan_of};

/// The plan of a predicate has each row of which the predicate is true, where it may be judged.
pub fn chosen_plans_cover()
    ensures { (def : TableDef) (mode : PlanMode) (pred : Pred) (values : List Value) → may_judge values pred ≡ true → is_true (truth values pred) ≡ true
        → plan_row def values (plan_of def mode (Some pred)) ≡ true }
{}

/// In modes AUTO and BLOCK a predicate may hold in the cell of each row that its plan has, so that no other block is read.
pub fn chosen_plans_stay_in_cells()
    ensures { (def : TableDef) (mode : PlanMode) (pred : Pred) (values : List Value) → goes_by_cells mode ≡ true → may_judge values pred ≡ true
        → plan_row def values (plan_of def mode (Some pred)) ≡ true
        → may_hold_at (flat_map (λ dim. dim) def.dims) (map (value_at values) (flat_map (λ dim. dim) def.dims)) pred ≡ true }
{}

/// The plan of a predicate whose literals are of their columns' kinds names dimensions and record indexes that are there, with spans
/// of their columns' kinds.
pub fn chosen_plans_may_be_asked()
    ensures { (def : TableDef) (mode : PlanMode) (pred : Pred) → has_kinds def pred ≡ true → fits_plan def (plan_of def mode (Some pred)) ≡ true }
{}

/// A predicate that may be judged on each row with a key in each column has such literals: it may be on a row of samples, and that one
/// has these keys.
pub fn judged_predicates_have_kinds()
    ensures kinds { (def : TableDef) (pred : Pred) → may_judge (samples def.columns) pred ≡ true → has_kinds def pred ≡ true }
    ensures keys { (columns : List ColumnDef) (place : ℕ) → place < length columns
        → (place < length (samples columns)) × (has_key (type_of_column columns place) (value_at (samples columns) place) ≡ true) }
{}
