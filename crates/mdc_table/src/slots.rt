// The rows in some slots of a block that may be Used.
ghost use Rattle.std.specs.Prelude.{◌≡◌, ◌<◌, ◌==◌, if◌then◌else◌, List, [], false, true, length, nat_lt, IsTrue, IfOk, OnOk};
ghost use Rattle.std.specs.List.{list_any};
ghost use Rattle.mdc_values.specs.Rising.{IsLower, IsRising};
ghost use Rattle.mdc_ast.specs.declared.row.Row.{Row};
ghost use Rattle.mdc_ast.specs.TableLimits.{IsTableDef};
ghost use Rattle.store_api.specs.Causes.{fault_of};
ghost use Rattle.store_api.specs.Frame.{NoPage};
ghost use Rattle.store_api.specs.RunsOverPages.{RunsOverPages};
ghost use Rattle.extent_map.specs.declared.kind.Kind.{Kind};
ghost use Rattle.block_map.specs.MapLines.{used_blocks};
ghost use Rattle.row_filter.specs.Filtering.{may_filter};
ghost use Rattle.block_rows.specs.Giving.{WasGiven};
ghost use Rattle.block_rows.specs.HeldRows.{HasReadValues, qualifying};
ghost use Rattle.block_rows.specs.ListedSlots.{IsPageOfSlots, rows_in_slots};
ghost use Rattle.table_trees.specs.TableTrees.{map_place};
ghost use Rattle.table_trees.specs.TreesBeside.{IsTreePageAt};
ghost use Rattle.mdc_sound.specs.StandingTable.{BreaksExpected, BreaksTable, StandsTable, TableForests, pages_of};
ghost use Rattle.mdc_sound.specs.TableRows.{rows_in_block};
ghost use Rattle.mdc_table.specs.SeenPlaces.{HasSeenFilled, SeesSlots, SeesSlotsSo};
ghost use Rattle.mdc_table.specs.TableReading.{rows_if_used};
ghost use Rattle.mdc_table.specs.UsedSlots.{HasFilledSlots, HasRowsInSlots, IsSlotsPage, SeesUse};

use crate::faults::rowless;
use block_map::{BlockMap, BlockState};
use block_rows::RowSink;
use mdc_ast::TableDef;
use row_filter::RowFilter;
use std::alloc::Global;
use store_api::{Pages, Shape, StoreFault};

/// Gives a sink the rows in some slots of a block that a filter takes, by rising slot, and says whether the block is a Used one. The
/// block map is asked once. A block that it doesn't have as a Used one is passed over, and so is a number of no extent: none of its
/// pages comes to hand. Of a Used block those in which one of the slots lies do, each once. Damaged where one of these has no row: the
/// first record index of the table is named, whichever lists the slot.
pub fn scan_slots<P: Pages, K: RowSink>(
    alloc: Global,
    def: &TableDef,
    shape: Shape,
    pages: &mut P,
    block: u32,
    slots: &[u16],
    filter: &mut RowFilter,
    sink: &mut K,
) -> Result<bool, StoreFault>
    requires defined { IsTableDef def.now.number def.now }
    requires rise { IsRising IsLower slots.now }
    requires some { 0 < length slots.now }
    requires wide { length def.now.columns ≡ length filter.old.values }
    requires judged { (row : Row) → HasReadValues def.now.columns row → IsTrue (may_filter filter.old.pred.now row.values) }
    requires fits { K.RowSink.is_for def.now.columns sink.old }
    requires going { (P.state pages.old).ended ≡ false }
    ensures given { OnOk result ((owners : List Kind) (forests : TableForests) → StandsTable P.Pages shape pages.old def.now owners forests
        → WasGiven K.RowSink sink.old sink.new (qualifying filter.old.pred.now (rows_in_slots slots.now (rows_if_used shape (pages_of P.Pages pages.old) def.now forests.map block)))) }
    ensures given_any { IfOk result (λ used. IsTrue (P.state pages.old).is_told
        → WasGiven K.RowSink sink.old sink.new (qualifying filter.old.pred.now (if used then rows_in_slots slots.now (rows_in_block shape (pages_of P.Pages pages.old) def.now block) else []))) }
    ensures used { IfOk result (λ used. (owners : List Kind) (forests : TableForests) → StandsTable P.Pages shape pages.old def.now owners forests
        → used ≡ list_any (λ m. m == block) (used_blocks forests.map)) }
    ensures filled { IfOk result (λ used. (owners : List Kind) (forests : TableForests) → StandsTable P.Pages shape pages.old def.now owners forests
        → used ≡ true → length (rows_in_slots slots.now (rows_in_block shape (pages_of P.Pages pages.old) def.now block)) ≡ length slots.now) }
    ensures some { IfOk result (λ some. (owners : List Kind) (forests : TableForests) → StandsTable P.Pages shape pages.old def.now owners forests
        → some ≡ nat_lt 0 (length (rows_in_slots slots.now (rows_if_used shape (pages_of P.Pages pages.old) def.now forests.map block)))) }
    ensures seen { OnOk result (IsTrue (P.state pages.old).is_told → SeesSlots P.Pages shape pages.old def.now block slots.now) }
    ensures seen_so { IfOk result (λ used. IsTrue (P.state pages.old).is_told → SeesSlotsSo P.Pages shape pages.old def.now block slots.now used) }
    ensures fits { OnOk result (K.RowSink.is_for def.now.columns sink.new) }
    ensures pred { filter.new.pred.now ≡ filter.old.pred.now }
    ensures width { length filter.new.values ≡ length filter.old.values }
    ensures same { (P.state pages.new).work ≡ (P.state pages.old).work }
    ensures runs { RunsOverPages P.Pages NoPage (IsSlotsPage P.Pages shape pages.old def.now block slots.now) (BreaksExpected P.Pages shape pages.old def.now (HasRowsInSlots P.Pages shape pages.old def.now block slots.now)) pages.old pages.new (fault_of result) }
{
    if !is_used(alloc, def, shape, pages, block)? {
        return Ok(false);
    }
    scan_used_slots(alloc, def, shape, pages, block, slots, filter, sink)?;
    Ok(true)
}

/// Whether the block map has a block as a Used one. It is asked once, and not of a number of no extent.
fn is_used<P: Pages>(
    alloc: Global,
    def: &TableDef,
    shape: Shape,
    pages: &mut P,
    block: u32,
) -> Result<bool, StoreFault>
    requires defined { IsTableDef def.now.number def.now }
    requires going { (P.state pages.old).ended ≡ false }
    ensures used { IfOk result (λ used. (owners : List Kind) (forests : TableForests) → StandsTable P.Pages shape pages.old def.now owners forests
        → used ≡ list_any (λ m. m == block) (used_blocks forests.map)) }
    ensures seen { IfOk result (SeesUse P.Pages shape pages.old def.now block) }
    ensures same { (P.state pages.new).work ≡ (P.state pages.old).work }
    ensures runs { RunsOverPages P.Pages NoPage (IsTreePageAt P.Pages pages.old (map_place def.now)) (BreaksTable P.Pages shape pages.old def.now) pages.old pages.new (fault_of result) }
{
    if block >= shape.extents {
        return Ok(false);
    }
    let map = BlockMap::at(alloc, def.roots.map);
    let Some(line) = map.get(pages, block)? else {
        return Ok(false);
    };
    if line.state != BlockState::Used {
        return Ok(false);
    }
    Ok(true)
}

/// The rows in some slots of a Used block.
fn scan_used_slots<P: Pages, K: RowSink>(
    alloc: Global,
    def: &TableDef,
    shape: Shape,
    pages: &mut P,
    block: u32,
    slots: &[u16],
    filter: &mut RowFilter,
    sink: &mut K,
) -> Result<(), StoreFault>
    requires defined { IsTableDef def.now.number def.now }
    requires below { block < shape.extents }
    requires rise { IsRising IsLower slots.now }
    requires wide { length def.now.columns ≡ length filter.old.values }
    requires judged { (row : Row) → HasReadValues def.now.columns row → IsTrue (may_filter filter.old.pred.now row.values) }
    requires fits { K.RowSink.is_for def.now.columns sink.old }
    requires going { (P.state pages.old).ended ≡ false }
    ensures given { OnOk result (IsTrue (P.state pages.old).is_told
        → WasGiven K.RowSink sink.old sink.new (qualifying filter.old.pred.now (rows_in_slots slots.now (rows_in_block shape (pages_of P.Pages pages.old) def.now block)))) }
    ensures seen { OnOk result (IsTrue (P.state pages.old).is_told → HasSeenFilled shape (pages_of P.Pages pages.old) def.now block slots.now) }
    ensures fits { OnOk result (K.RowSink.is_for def.now.columns sink.new) }
    ensures pred { filter.new.pred.now ≡ filter.old.pred.now }
    ensures width { length filter.new.values ≡ length filter.old.values }
    ensures same { (P.state pages.new).work ≡ (P.state pages.old).work }
    ensures runs { RunsOverPages P.Pages NoPage (IsPageOfSlots shape def.now block slots.now) (BreaksExpected P.Pages shape pages.old def.now (HasFilledSlots P.Pages shape pages.old def.now block slots.now)) pages.old pages.new (fault_of result) }
{
    let rows = block_rows::scan_slots(alloc, def, shape, pages, block, slots, filter, sink)?;
    if rows != slots.len() {
        return Err(rowless(def, shape, block));
    }
    Ok(())
}
