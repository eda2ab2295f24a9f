// The rows of a table that qualify, gone over by a plan.
ghost use Rattle.std.specs.Prelude.{◌≡◌, List, false, IsTrue, IfOk, OnOk};
ghost use Rattle.mdc_ast.specs.declared.row.Row.{Row};
ghost use Rattle.mdc_ast.specs.TableLimits.{IsTableDef};
ghost use Rattle.store_api.specs.Causes.{fault_of};
ghost use Rattle.store_api.specs.Frame.{NoPage};
ghost use Rattle.store_api.specs.RunsOverPages.{RunsOverPages};
ghost use Rattle.extent_map.specs.declared.kind.Kind.{Kind};
ghost use Rattle.row_filter.specs.Filtering.{may_filter};
ghost use Rattle.block_rows.specs.HeldRows.{HasReadValues};
ghost use Rattle.mdc_sound.specs.BlockRules.{AreTableIndexesSound};
ghost use Rattle.mdc_sound.specs.StandingTable.{BreaksExpected, StandsTable, TableForests, pages_of, view_of};
ghost use Rattle.row_entries.specs.SoundEntries.{HasSoundIndexes};
ghost use Rattle.plan_chooser.specs.PlanRows.{fits_plan};
ghost use Rattle.table_scan.specs.FoundRows.{GivesRows};
ghost use Rattle.executor.specs.Planned.{CountsPlanned, CoversIfAny, GivesSome, IsFoundPage};
ghost use Rattle.executor.specs.SeenParts.{HasSeenPlan};

use crate::parts::scan_parts;
use block_lists::Merge;
use mdc_ast::{Pred, TableDef};
use mdc_table::RowSink;
use mdc_words::Steps;
use plan_chooser::Plan;
use plan_lists::tree_of_plan;
use std::alloc::Global;
use std::sync::ledger::Ledger;
use store_api::{Pages, Shape, StoreFault};

/// Gives a sink the rows of a table that qualify, by rising block and slot, and says how many Used blocks hold a row of the plan. The
/// plan has to cover the predicate, which may be judged on each row that was read. Index entries are read as the plan names them, and
/// counted; then the lists of the plan are gone over block by block, and of row pages those of such blocks alone come to hand: of a block
/// that is listed whole the pages up to its last row by its line, and of others those of the places that are listed. A place in a block
/// that isn't Used is passed over, and what is given are rows of the table even where a record index isn't sound. Damaged where a
/// dimension lists a block that isn't Used, where such a block is as `scan_counted_block` finds damaged, and where a place in a Used
/// block is listed that has no row.
pub(crate) fn scan_planned<P: Pages, K: RowSink, E: Ledger>(
    alloc: Global,
    def: &TableDef,
    shape: Shape,
    pages: &mut P,
    plan: &Plan,
    pred: &Option<Pred>,
    entries: &mut Steps<E>,
    sink: &mut K,
) -> Result<u64, StoreFault>
    requires defined { IsTableDef def.now.number def.now }
    requires asked { IsTrue (fits_plan def.now plan.now) }
    requires covers { CoversIfAny def.now plan.now pred.now }
    requires judged { (row : Row) → HasReadValues def.now.columns row → IsTrue (may_filter pred.now row.values) }
    requires fits { K.RowSink.is_for def.now.columns sink.old }
    requires going { (P.state pages.old).ended ≡ false }
    ensures gives { OnOk result ((owners : List Kind) (forests : TableForests) → StandsTable P.Pages shape pages.old def.now owners forests
        → AreTableIndexesSound shape (pages_of P.Pages pages.old) (view_of def.now forests) → GivesRows K.RowSink sink.old sink.new P.Pages shape pages.old def.now pred.now forests) }
    ensures lie { OnOk result ((owners : List Kind) (forests : TableForests) → StandsTable P.Pages shape pages.old def.now owners forests
        → GivesSome K.RowSink sink.old sink.new P.Pages shape pages.old def.now pred.now forests) }
    ensures counts { IfOk result (λ blocks. (owners : List Kind) (forests : TableForests) → StandsTable P.Pages shape pages.old def.now owners forests
        → AreTableIndexesSound shape (pages_of P.Pages pages.old) (view_of def.now forests) → CountsPlanned P.Pages shape pages.old def.now plan.now forests blocks) }
    ensures seen { OnOk result (IsTrue (P.state pages.old).is_told → HasSeenPlan P.Pages shape pages.old def.now plan.now) }
    ensures fits { OnOk result (K.RowSink.is_for def.now.columns sink.new) }
    ensures same { (P.state pages.new).work ≡ (P.state pages.old).work }
    ensures runs { RunsOverPages P.Pages NoPage (IsFoundPage P.Pages shape pages.old def.now plan.now) (BreaksExpected P.Pages shape pages.old def.now (HasSoundIndexes P.Pages shape pages.old def.now)) pages.old pages.new (fault_of result) }
{
    let tree = tree_of_plan(alloc, def, shape, pages, plan, entries)?;
    let mut merge = Merge::over(alloc, &tree)?;
    scan_parts(alloc, def, shape, pages, &mut merge, pred, sink)
}
