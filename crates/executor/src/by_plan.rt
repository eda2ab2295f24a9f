// The rows of a table that qualify, found by a plan.
ghost use Rattle.std.specs.Prelude.{◌≡◌, List, false, IsTrue, IfOk};
ghost use Rattle.mdc_ast.specs.declared.row.Row.{Row};
ghost use Rattle.mdc_ast.specs.TableLimits.{IsTableDef};
ghost use Rattle.store_api.specs.Causes.{fault_of};
ghost use Rattle.store_api.specs.Frame.{NoPage};
ghost use Rattle.store_api.specs.RunsOverPages.{RunsOverPages};
ghost use Rattle.extent_map.specs.declared.kind.Kind.{Kind};
ghost use Rattle.row_filter.specs.Filtering.{may_filter};
ghost use Rattle.block_rows.specs.HeldRows.{HasReadValues, HaveReadValues};
ghost use Rattle.mdc_sound.specs.BlockRules.{AreTableIndexesSound};
ghost use Rattle.mdc_sound.specs.StandingTable.{BreaksExpected, StandsTable, TableForests, pages_of, view_of};
ghost use Rattle.row_entries.specs.SoundEntries.{HasSoundIndexes};
ghost use Rattle.plan_chooser.specs.PlanRows.{fits_plan};
ghost use Rattle.table_scan.specs.FoundRows.{FindsRows};
ghost use Rattle.executor.specs.Planned.{CountsPlanned, CoversIfAny, IsFoundPage, LieInTable};
ghost use Rattle.executor.specs.SeenParts.{HasSeenPlan};

use crate::found::Found;
use crate::planned::scan_planned;
use mdc_ast::{Pred, TableDef};
use mdc_words::Steps;
use plan_chooser::Plan;
use std::alloc::Global;
use std::sync::ledger::Ledger;
use store_api::{Pages, Shape, StoreFault};

/// Copies of the rows of a table that qualify, each with its place, by rising row number, and the number of Used blocks that hold a row
/// of the plan. Pages come to hand and are judged as `scan_by_plan` says. The plan has to cover the predicate, and the index entries
/// that are read for it are counted.
pub fn matching<P: Pages, E: Ledger>(
    alloc: Global,
    def: &TableDef,
    shape: Shape,
    pages: &mut P,
    plan: &Plan,
    pred: &Option<Pred>,
    entries: &mut Steps<E>,
) -> Result<Found, StoreFault>
    requires defined { IsTableDef def.now.number def.now }
    requires fits { IsTrue (fits_plan def.now plan.now) }
    requires covers { CoversIfAny def.now plan.now pred.now }
    requires judged { (row : Row) → HasReadValues def.now.columns row → IsTrue (may_filter pred.now row.values) }
    requires going { (P.state pages.old).ended ≡ false }
    ensures finds { IfOk result (λ found. (owners : List Kind) (forests : TableForests) → StandsTable P.Pages shape pages.old def.now owners forests
        → AreTableIndexesSound shape (pages_of P.Pages pages.old) (view_of def.now forests) → FindsRows P.Pages shape pages.old def.now pred.now found.hits.items forests) }
    ensures lie { IfOk result (λ found. (owners : List Kind) (forests : TableForests) → StandsTable P.Pages shape pages.old def.now owners forests
        → LieInTable P.Pages shape pages.old def.now pred.now found.hits.items forests) }
    ensures counts { IfOk result (λ found. (owners : List Kind) (forests : TableForests) → StandsTable P.Pages shape pages.old def.now owners forests
        → AreTableIndexesSound shape (pages_of P.Pages pages.old) (view_of def.now forests) → CountsPlanned P.Pages shape pages.old def.now plan.now forests found.blocks) }
    ensures seen { IfOk result (λ found. IsTrue (P.state pages.old).is_told → HasSeenPlan P.Pages shape pages.old def.now plan.now) }
    ensures keyed { IfOk result (λ found. HaveReadValues def.now.columns found.hits.items) }
    ensures same { (P.state pages.new).work ≡ (P.state pages.old).work }
    ensures runs { RunsOverPages P.Pages NoPage (IsFoundPage P.Pages shape pages.old def.now plan.now) (BreaksExpected P.Pages shape pages.old def.now (HasSoundIndexes P.Pages shape pages.old def.now)) pages.old pages.new (fault_of result) }
{
    let mut hits = Vec::new(alloc);
    let blocks = scan_planned(alloc, def, shape, pages, plan, pred, entries, &mut hits)?;
    Ok(Found::by_number(hits, blocks))
}
