// The rows of a table, read.
ghost use Rattle.std.specs.Prelude.{◌≡◌, ◌<◌, List, None, Contains, IsTrue, false, map, IfOk, IfSome, OnOk};
ghost use Rattle.mdc_ast.specs.declared.row.Row.{Row};
ghost use Rattle.store_api.specs.Causes.{fault_of};
ghost use Rattle.store_api.specs.Fetching.{BringsOnce, BringsOnly};
ghost use Rattle.extent_map.specs.declared.kind.Kind.{Kind};
ghost use Rattle.mdc_ast.specs.TableLimits.{IsTableDef};
ghost use Rattle.block_map.specs.MapLines as lines;
ghost use Rattle.table_trees.specs.TableTrees.{map_place};
ghost use Rattle.table_trees.specs.TreesBeside.{IsTreePageAt};
ghost use Rattle.row_filter.specs.Filtering.{may_filter};
ghost use Rattle.block_rows.specs.HeldRows.{HasReadValues, HaveReadValues, placed_row};
ghost use Rattle.mdc_sound.specs.Placing.{row_at_spot};
ghost use Rattle.mdc_sound.specs.StandingTable.{IsPageOfBlock, StandsTable, TableForests, pages_of, spots_of};
ghost use Rattle.mdc_sound.specs.TableRows.{rows_in_block};
ghost use Rattle.mdc_table.specs.TableReading.{CountsBlocks, IsRowLook};
ghost use Rattle.table_scan.specs.FoundRows.{FindsRows, IsChoicePage, IsChosenRowPage, IsScannedPage, ScansOnce};
ghost use Rattle.table_scan.specs.SeenTable.{HasSeenTable};
ghost use Rattle.checked_table.specs.ExactDamage.{AnswersExactly, HasUsedIfStanding};
ghost use Rattle.checked_table.specs.LeftPages.{LeavesPages, ReadsExactly};

use crate::judging::exact_fault;
use mdc_ast::{Pred, Row, TableDef};
use mdc_table::{Account, Hit, rows_of_used_block};
use mdc_values::{Blocks, Rid};
use std::alloc::Global;
use store_api::{Pages, Shape, StoreFault};

/// A copy of the row in a place. None exactly where the block isn't Used, or the slot is empty. Damage is exact.
pub fn row_at<P: Pages>(
    alloc: Global,
    def: &TableDef,
    shape: Shape,
    pages: &mut P,
    rid: Rid,
) -> Result<Option<Row>, StoreFault>
    requires defined { IsTableDef def.now.number def.now }
    requires place { def.now.number < 16 }
    requires going { (P.state pages.old).ended ≡ false }
    requires unmarked { (P.state pages.old).marked ≡ None }
    ensures found { IfOk result (λ row. (owners : List Kind) (forests : TableForests) → StandsTable P.Pages shape pages.old def.now owners forests
        → row ≡ row_at_spot (spots_of P.Pages shape pages.old def.now owners forests) rid) }
    ensures keyed { IfOk result (λ row. IfSome row (HasReadValues def.now.columns)) }
    ensures leaves { ReadsExactly P.Pages shape def.now pages.old pages.new (fault_of result) }
    ensures brings { OnOk result (BringsOnly P.Pages (IsRowLook P.Pages shape pages.old def.now rid.block) pages.old pages.new) }
{
    match mdc_table::row_at(alloc, def, shape, pages, rid) {
        Ok(row) => Ok(row),
        Err(fault) => Err(exact_fault(alloc, def, shape, pages, fault)),
    }
}

/// Copies of the rows of a Used block, each with its place, by rising slot. Each of its pages comes to hand once, and no other row
/// page. Where the block is a Used one if the table stands, damage is exact.
pub fn rows_of_block<P: Pages>(
    alloc: Global,
    def: &TableDef,
    shape: Shape,
    pages: &mut P,
    block: u32,
) -> Result<Vec<Hit>, StoreFault>
    requires defined { IsTableDef def.now.number def.now }
    requires place { def.now.number < 16 }
    requires going { (P.state pages.old).ended ≡ false }
    requires unmarked { (P.state pages.old).marked ≡ None }
    ensures rows { IfOk result (λ hits. (owners : List Kind) (forests : TableForests) → StandsTable P.Pages shape pages.old def.now owners forests → Contains (lines.used_blocks forests.map) block
        → map placed_row hits.items ≡ rows_in_block shape (pages_of P.Pages pages.old) def.now block) }
    ensures keyed { IfOk result (λ hits. HaveReadValues def.now.columns hits.items) }
    ensures leaves { LeavesPages P.Pages (HasUsedIfStanding P.Pages shape pages.old def.now block → AnswersExactly P.Pages shape def.now pages.old (fault_of result)) pages.old pages.new (fault_of result) }
    ensures once { OnOk result (BringsOnce P.Pages (IsPageOfBlock shape block) pages.old pages.new) }
{
    match rows_of_used_block(alloc, def, shape, pages, block) {
        Ok(hits) => Ok(hits),
        Err(fault) => Err(exact_fault(alloc, def, shape, pages, fault)),
    }
}

/// The Used blocks, by rising number. It looks at no row page. Damage is exact.
pub fn used_blocks<P: Pages>(
    alloc: Global,
    def: &TableDef,
    shape: Shape,
    pages: &mut P,
) -> Result<Blocks, StoreFault>
    requires defined { IsTableDef def.now.number def.now }
    requires place { def.now.number < 16 }
    requires going { (P.state pages.old).ended ≡ false }
    requires unmarked { (P.state pages.old).marked ≡ None }
    ensures listed { IfOk result (λ blocks. (owners : List Kind) (forests : TableForests) → StandsTable P.Pages shape pages.old def.now owners forests → blocks ≡ lines.used_blocks forests.map) }
    ensures leaves { ReadsExactly P.Pages shape def.now pages.old pages.new (fault_of result) }
    ensures brings { OnOk result (BringsOnly P.Pages (IsTreePageAt P.Pages pages.old (map_place def.now)) pages.old pages.new) }
{
    match mdc_table::used_blocks(alloc, def, shape, pages) {
        Ok(blocks) => Ok(blocks),
        Err(fault) => Err(exact_fault(alloc, def, shape, pages, fault)),
    }
}

/// Counts the blocks of a table by their states. It looks at no row page. Damage is exact.
pub fn account_of<P: Pages>(
    alloc: Global,
    def: &TableDef,
    shape: Shape,
    pages: &mut P,
) -> Result<Account, StoreFault>
    requires defined { IsTableDef def.now.number def.now }
    requires place { def.now.number < 16 }
    requires going { (P.state pages.old).ended ≡ false }
    requires unmarked { (P.state pages.old).marked ≡ None }
    ensures counts { IfOk result (λ account. (owners : List Kind) (forests : TableForests) → StandsTable P.Pages shape pages.old def.now owners forests → CountsBlocks forests.map account) }
    ensures leaves { ReadsExactly P.Pages shape def.now pages.old pages.new (fault_of result) }
    ensures brings { OnOk result (BringsOnly P.Pages (IsTreePageAt P.Pages pages.old (map_place def.now)) pages.old pages.new) }
{
    match mdc_table::account_of(alloc, def, shape, pages) {
        Ok(account) => Ok(account),
        Err(fault) => Err(exact_fault(alloc, def, shape, pages, fault)),
    }
}

/// Copies of the rows of a table that qualify, each with its place, by rising row number. Of row pages only those of blocks come to
/// hand in whose cells a row may qualify, each once. It needs a predicate that may be judged on each row that was read. Damage is
/// exact.
pub fn find_rows<P: Pages>(
    alloc: Global,
    def: &TableDef,
    shape: Shape,
    pages: &mut P,
    pred: &Option<Pred>,
) -> Result<Vec<Hit>, StoreFault>
    requires defined { IsTableDef def.now.number def.now }
    requires place { def.now.number < 16 }
    requires judged { (row : Row) → HasReadValues def.now.columns row → IsTrue (may_filter pred.now row.values) }
    requires going { (P.state pages.old).ended ≡ false }
    requires unmarked { (P.state pages.old).marked ≡ None }
    ensures finds { IfOk result (λ hits. (owners : List Kind) (forests : TableForests) → StandsTable P.Pages shape pages.old def.now owners forests
        → FindsRows P.Pages shape pages.old def.now pred.now hits.items forests) }
    ensures seen { IfOk result (λ hits. IsTrue (P.state pages.old).is_told → HasSeenTable P.Pages shape pages.old def.now pred.now hits.items) }
    ensures keyed { IfOk result (λ hits. HaveReadValues def.now.columns hits.items) }
    ensures leaves { ReadsExactly P.Pages shape def.now pages.old pages.new (fault_of result) }
    ensures once { OnOk result (ScansOnce P.Pages (IsChoicePage P.Pages shape pages.old def.now) (IsChosenRowPage P.Pages shape pages.old def.now pred.now) pages.old pages.new) }
    ensures brings { OnOk result (BringsOnly P.Pages (IsScannedPage P.Pages shape pages.old def.now pred.now) pages.old pages.new) }
{
    match table_scan::find_rows(alloc, def, shape, pages, pred) {
        Ok(hits) => Ok(hits),
        Err(fault) => Err(exact_fault(alloc, def, shape, pages, fault)),
    }
}
