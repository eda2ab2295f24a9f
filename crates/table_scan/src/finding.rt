// The rows of a table that qualify.
ghost use Rattle.std.specs.Prelude.{◌≡◌, List, false, IsTrue, IfOk, OnOk};
ghost use Rattle.mdc_ast.specs.declared.row.Row.{Row};
ghost use Rattle.store_api.specs.Causes.{fault_of};
ghost use Rattle.store_api.specs.Frame.{NoPage};
ghost use Rattle.store_api.specs.RunsOverPages.{RunsOverPages};
ghost use Rattle.extent_map.specs.declared.kind.Kind.{Kind};
ghost use Rattle.mdc_ast.specs.TableLimits.{IsTableDef};
ghost use Rattle.block_rows.specs.HeldRows.{HasReadValues, HaveReadValues};
ghost use Rattle.mdc_sound.specs.StandingTable.{BreaksTable, StandsTable, TableForests};
ghost use Rattle.row_filter.specs.Filtering.{may_filter};
ghost use Rattle.table_scan.specs.FoundRows.{FindsRows, GivesRows, IsChoicePage, IsChosenRowPage, IsScannedPage, ScansOnce};
ghost use Rattle.table_scan.specs.SeenTable.{HasScanned, HasSeenTable};

use crate::choosing::listed_blocks;
use crate::settling::unsettled;
use mdc_ast::{Pred, TableDef};
use mdc_table::{CellColumns, Hit, RowSink, scan_listed_block};
use row_filter::RowFilter;
use std::alloc::Global;
use store_api::{Pages, Shape, StoreFault};

/// Gives a sink the rows of a table that qualify, block by block and by rising slot. Of row pages only those of blocks come to hand in
/// whose cells a row may qualify, each once. It needs a predicate that may be judged on each row that was read. What a cell settles
/// isn't judged on its rows. Damaged where a page of such a block isn't a row page or doesn't have as many rows as its head says,
/// where the block doesn't have as many as its line in the block map says, and where a row isn't of the cell under which the block is
/// listed, or those of a block not of one where there is no predicate.
pub fn scan_rows<P: Pages, K: RowSink>(
    alloc: Global,
    def: &TableDef,
    shape: Shape,
    pages: &mut P,
    pred: &Option<Pred>,
    sink: &mut K,
) -> Result<(), StoreFault>
    requires defined { IsTableDef def.now.number def.now }
    requires judged { (row : Row) → HasReadValues def.now.columns row → IsTrue (may_filter pred.now row.values) }
    requires fits { K.RowSink.is_for def.now.columns sink.old }
    requires going { (P.state pages.old).ended ≡ false }
    ensures gives { OnOk result ((owners : List Kind) (forests : TableForests) → StandsTable P.Pages shape pages.old def.now owners forests
        → GivesRows K.RowSink sink.old sink.new P.Pages shape pages.old def.now pred.now forests) }
    ensures seen { OnOk result (IsTrue (P.state pages.old).is_told → HasScanned K.RowSink sink.old sink.new P.Pages shape pages.old def.now pred.now) }
    ensures fits { OnOk result (K.RowSink.is_for def.now.columns sink.new) }
    ensures same { (P.state pages.new).work ≡ (P.state pages.old).work }
    ensures once { ScansOnce P.Pages (IsChoicePage P.Pages shape pages.old def.now) (IsChosenRowPage P.Pages shape pages.old def.now pred.now) pages.old pages.new }
    ensures runs { RunsOverPages P.Pages NoPage (IsScannedPage P.Pages shape pages.old def.now pred.now) (BreaksTable P.Pages shape pages.old def.now) pages.old pages.new (fault_of result) }
{
    let Ok(left) = unsettled(alloc, def, pred) else {
        return Err(StoreFault::Memory);
    };
    let Ok(mut filter) = RowFilter::new(alloc, &left, def.columns.len()) else {
        return Err(StoreFault::Memory);
    };
    let Ok(cells) = CellColumns::of(alloc, def) else {
        return Err(StoreFault::Memory);
    };
    let listed = listed_blocks(alloc, def, shape, pages, pred)?;
    for one in listed.as_slice() {
        scan_listed_block(alloc, def, shape, pages, &cells, one, &mut filter, sink)?;
    }
    Ok(())
}

/// Copies of the rows of a table that qualify, each with its place, by rising row number. Pages come to hand and are judged as
/// `scan_rows` says.
pub fn find_rows<P: Pages>(
    alloc: Global,
    def: &TableDef,
    shape: Shape,
    pages: &mut P,
    pred: &Option<Pred>,
) -> Result<Vec<Hit>, StoreFault>
    requires defined { IsTableDef def.now.number def.now }
    requires judged { (row : Row) → HasReadValues def.now.columns row → IsTrue (may_filter pred.now row.values) }
    requires going { (P.state pages.old).ended ≡ false }
    ensures finds { IfOk result (λ hits. (owners : List Kind) (forests : TableForests) → StandsTable P.Pages shape pages.old def.now owners forests
        → FindsRows P.Pages shape pages.old def.now pred.now hits.items forests) }
    ensures seen { IfOk result (λ hits. IsTrue (P.state pages.old).is_told → HasSeenTable P.Pages shape pages.old def.now pred.now hits.items) }
    ensures keyed { IfOk result (λ hits. HaveReadValues def.now.columns hits.items) }
    ensures same { (P.state pages.new).work ≡ (P.state pages.old).work }
    ensures once { ScansOnce P.Pages (IsChoicePage P.Pages shape pages.old def.now) (IsChosenRowPage P.Pages shape pages.old def.now pred.now) pages.old pages.new }
    ensures runs { RunsOverPages P.Pages NoPage (IsScannedPage P.Pages shape pages.old def.now pred.now) (BreaksTable P.Pages shape pages.old def.now) pages.old pages.new (fault_of result) }
{
    let mut hits = Vec::new(alloc);
    scan_rows(alloc, def, shape, pages, pred, &mut hits)?;
    hits.sort_unstable_by_key(|hit| hit.row.number);
    Ok(hits)
}
