// What holds of the plans that the plan rule chooses.
ghost use Rattle.std.specs.Prelude.{◌≡◌, ℕ, IsTrue, Option, true};
ghost use Rattle.mdc_ast.specs.declared.definition.TableDef.{TableDef};
ghost use Rattle.mdc_ast.specs.declared.predicate.Pred.{Pred};
ghost use Rattle.mdc_ast.specs.declared.row.Row.{Row};
ghost use Rattle.mdc_ast.specs.declared.statement.PlanMode.{PlanMode};
ghost use Rattle.store_api.specs.declared.shape.Shape.{Shape};
ghost use Rattle.row_filter.specs.Filtering.{may_filter};
ghost use Rattle.block_rows.specs.HeldRows.{HasReadValues};
ghost use Rattle.plan_chooser.specs.PlanRows.{fits_plan};
ghost use Rattle.plan_chooser.specs.Rule.{goes_by_cells, plan_of};
ghost use Rattle.executor.specs.Planned.{CoversIfAny, IsChosenPageIfSound, IsPlannedRowPage};

use store_api::Pages;

/// The plan of a predicate that may be judged on each row that was read may be asked of its table, and covers the predicate.
pub fn chosen_plans_can_be_matched()
    ensures fits { (def : TableDef) (mode : PlanMode) (pred : Option Pred) → ((row : Row) → HasReadValues def.columns row → IsTrue (may_filter pred row.values)) → IsTrue (fits_plan def (plan_of def mode pred)) }
    ensures covers { (def : TableDef) (mode : PlanMode) (pred : Option Pred) → CoversIfAny def (plan_of def mode pred) pred }
{}

/// In modes AUTO and BLOCK the row pages that come to hand for such a plan lie in Used blocks in whose cells a row may qualify, and none
/// of them behind the last row of its block.
pub fn chosen_plans_read_few_blocks<P: Pages>()
    ensures { (shape : Shape) (s : P) (def : TableDef) (mode : PlanMode) (pred : Option Pred) → ((row : Row) → HasReadValues def.columns row → IsTrue (may_filter pred row.values)) → goes_by_cells mode ≡ true
        → (p : ℕ) → IsPlannedRowPage P.Pages shape s def (plan_of def mode pred) p → IsChosenPageIfSound P.Pages shape s def pred p }
{}
