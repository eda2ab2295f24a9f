// The rows of a table that qualify, by the plan that the plan rule gives in a mode.
ghost use Rattle.std.specs.Prelude.{◌≡◌, ◌<◌, List, false, IsTrue, IfOk, OnOk};
ghost use Rattle.mdc_ast.specs.declared.row.Row.{Row};
ghost use Rattle.mdc_ast.specs.TableLimits.{IsTableDef};
ghost use Rattle.store_api.specs.Causes.{fault_of};
ghost use Rattle.store_api.specs.Frame.{NoPage};
ghost use Rattle.store_api.specs.RunsOverPages.{RunsOverPages};
ghost use Rattle.extent_map.specs.declared.kind.Kind.{Kind};
ghost use Rattle.row_filter.specs.Filtering.{may_filter};
ghost use Rattle.block_rows.specs.HeldRows.{HasReadValues, HaveReadValues};
ghost use Rattle.mdc_sound.specs.BlockRules.{AreTableIndexesSound};
ghost use Rattle.mdc_sound.specs.StandingTable.{BreaksExpected, StandsTable, TableForests, pages_of, view_of};
ghost use Rattle.row_entries.specs.SoundEntries.{HasSoundIndexes};
ghost use Rattle.plan_chooser.specs.Rule.{plan_of};
ghost use Rattle.table_scan.specs.FoundRows.{FindsRows, GivesRows};
ghost use Rattle.executor.specs.Planned.{CountsPlanned, GivesSome, IsPlanPage, LieInTable};
ghost use Rattle.executor.specs.SeenParts.{HasSeenPlan};

use crate::found::Found;
use crate::planned::scan_planned;
use mdc_ast::{PlanMode, Pred, TableDef};
use mdc_table::RowSink;
use mdc_words::Steps;
use plan_chooser::choose;
use std::alloc::Global;
use std::marker::Brand;
use std::sync::ledger::{Blank, Ledger};
use store_api::{Pages, Shape, StoreFault};

/// Gives a sink the rows of a table that qualify, by rising block and slot, and says how many Used blocks hold a row of the plan, which
/// is the one that the plan rule gives in this mode. It needs a predicate that may be judged on each row that was read. The lists of the
/// plan are read from the indexes that it names, and gone over block by block, and of row pages those of such blocks alone come to hand:
/// of a block that is listed whole the pages up to its last row by its line, and of others those of the places that are listed. A place
/// in a block that isn't Used is passed over, and what is given are rows of the table, none twice, even where a record index isn't
/// sound. Damaged where a dimension lists a block that isn't Used, where such a block is as `scan_counted_block` finds damaged, and where
/// a place in a Used block is listed that has no row.
pub fn scan_by_plan<P: Pages, K: RowSink>(
    alloc: Global,
    def: &TableDef,
    shape: Shape,
    pages: &mut P,
    mode: PlanMode,
    pred: &Option<Pred>,
    sink: &mut K,
) -> Result<u64, StoreFault>
    requires defined { IsTableDef def.now.number def.now }
    requires judged { (row : Row) → HasReadValues def.now.columns row → IsTrue (may_filter pred.now row.values) }
    requires fits { K.RowSink.is_for def.now.columns sink.old }
    requires going { (P.state pages.old).ended ≡ false }
    ensures gives { OnOk result ((owners : List Kind) (forests : TableForests) → StandsTable P.Pages shape pages.old def.now owners forests
        → AreTableIndexesSound shape (pages_of P.Pages pages.old) (view_of def.now forests) → GivesRows K.RowSink sink.old sink.new P.Pages shape pages.old def.now pred.now forests) }
    ensures lie { OnOk result ((owners : List Kind) (forests : TableForests) → StandsTable P.Pages shape pages.old def.now owners forests
        → GivesSome K.RowSink sink.old sink.new P.Pages shape pages.old def.now pred.now forests) }
    ensures counts { IfOk result (λ blocks. (owners : List Kind) (forests : TableForests) → StandsTable P.Pages shape pages.old def.now owners forests
        → AreTableIndexesSound shape (pages_of P.Pages pages.old) (view_of def.now forests) → CountsPlanned P.Pages shape pages.old def.now (plan_of def.now mode pred.now) forests blocks) }
    ensures seen { OnOk result (IsTrue (P.state pages.old).is_told → HasSeenPlan P.Pages shape pages.old def.now (plan_of def.now mode pred.now)) }
    ensures fits { OnOk result (K.RowSink.is_for def.now.columns sink.new) }
    ensures same { (P.state pages.new).work ≡ (P.state pages.old).work }
    ensures runs { RunsOverPages P.Pages NoPage (IsPlanPage P.Pages shape pages.old def.now mode pred.now) (BreaksExpected P.Pages shape pages.old def.now (HasSoundIndexes P.Pages shape pages.old def.now)) pages.old pages.new (fault_of result) }
{
    scan_uncounted::<P, K, Brand>(alloc, def, shape, pages, mode, pred, sink, Blank::new(1))
}

/// The same. The index entries that are read for it are counted in a ledger that nobody looks at.
fn scan_uncounted<P: Pages, K: RowSink, L: Ledger>(
    alloc: Global,
    def: &TableDef,
    shape: Shape,
    pages: &mut P,
    mode: PlanMode,
    pred: &Option<Pred>,
    sink: &mut K,
    blank: Blank,
) -> Result<u64, StoreFault>
    requires defined { IsTableDef def.now.number def.now }
    requires judged { (row : Row) → HasReadValues def.now.columns row → IsTrue (may_filter pred.now row.values) }
    requires fits { K.RowSink.is_for def.now.columns sink.old }
    requires going { (P.state pages.old).ended ≡ false }
    requires name { blank.name ≡ L.name }
    requires parts { blank.parts ≡ L.parts }
    requires some { 0 < blank.parts }
    ensures gives { OnOk result ((owners : List Kind) (forests : TableForests) → StandsTable P.Pages shape pages.old def.now owners forests
        → AreTableIndexesSound shape (pages_of P.Pages pages.old) (view_of def.now forests) → GivesRows K.RowSink sink.old sink.new P.Pages shape pages.old def.now pred.now forests) }
    ensures lie { OnOk result ((owners : List Kind) (forests : TableForests) → StandsTable P.Pages shape pages.old def.now owners forests
        → GivesSome K.RowSink sink.old sink.new P.Pages shape pages.old def.now pred.now forests) }
    ensures counts { IfOk result (λ blocks. (owners : List Kind) (forests : TableForests) → StandsTable P.Pages shape pages.old def.now owners forests
        → AreTableIndexesSound shape (pages_of P.Pages pages.old) (view_of def.now forests) → CountsPlanned P.Pages shape pages.old def.now (plan_of def.now mode pred.now) forests blocks) }
    ensures seen { OnOk result (IsTrue (P.state pages.old).is_told → HasSeenPlan P.Pages shape pages.old def.now (plan_of def.now mode pred.now)) }
    ensures fits { OnOk result (K.RowSink.is_for def.now.columns sink.new) }
    ensures same { (P.state pages.new).work ≡ (P.state pages.old).work }
    ensures runs { RunsOverPages P.Pages NoPage (IsPlanPage P.Pages shape pages.old def.now mode pred.now) (BreaksExpected P.Pages shape pages.old def.now (HasSoundIndexes P.Pages shape pages.old def.now)) pages.old pages.new (fault_of result) }
{
    let plan = choose(alloc, def, mode, pred)?;
    let mut entries: Steps<L> = Steps::new(blank);
    scan_planned(alloc, def, shape, pages, &plan, pred, &mut entries, sink)
}

/// Copies of the rows of a table that qualify, each with its place, by rising row number, and the number of Used blocks that hold a row
/// of the plan. Pages come to hand and are judged as `scan_by_plan` says.
pub fn find_by_plan<P: Pages>(
    alloc: Global,
    def: &TableDef,
    shape: Shape,
    pages: &mut P,
    mode: PlanMode,
    pred: &Option<Pred>,
) -> Result<Found, StoreFault>
    requires defined { IsTableDef def.now.number def.now }
    requires judged { (row : Row) → HasReadValues def.now.columns row → IsTrue (may_filter pred.now row.values) }
    requires going { (P.state pages.old).ended ≡ false }
    ensures finds { IfOk result (λ found. (owners : List Kind) (forests : TableForests) → StandsTable P.Pages shape pages.old def.now owners forests
        → AreTableIndexesSound shape (pages_of P.Pages pages.old) (view_of def.now forests) → FindsRows P.Pages shape pages.old def.now pred.now found.hits.items forests) }
    ensures lie { IfOk result (λ found. (owners : List Kind) (forests : TableForests) → StandsTable P.Pages shape pages.old def.now owners forests
        → LieInTable P.Pages shape pages.old def.now pred.now found.hits.items forests) }
    ensures counts { IfOk result (λ found. (owners : List Kind) (forests : TableForests) → StandsTable P.Pages shape pages.old def.now owners forests
        → AreTableIndexesSound shape (pages_of P.Pages pages.old) (view_of def.now forests) → CountsPlanned P.Pages shape pages.old def.now (plan_of def.now mode pred.now) forests found.blocks) }
    ensures seen { IfOk result (λ found. IsTrue (P.state pages.old).is_told → HasSeenPlan P.Pages shape pages.old def.now (plan_of def.now mode pred.now)) }
    ensures keyed { IfOk result (λ found. HaveReadValues def.now.columns found.hits.items) }
    ensures same { (P.state pages.new).work ≡ (P.state pages.old).work }
    ensures runs { RunsOverPages P.Pages NoPage (IsPlanPage P.Pages shape pages.old def.now mode pred.now) (BreaksExpected P.Pages shape pages.old def.now (HasSoundIndexes P.Pages shape pages.old def.now)) pages.old pages.new (fault_of result) }
{
    let mut hits = Vec::new(alloc);
    let blocks = scan_by_plan(alloc, def, shape, pages, mode, pred, &mut hits)?;
    Ok(Found::by_number(hits, blocks))
}
