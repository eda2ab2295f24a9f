// A row less in a Used block.
ghost use Rattle.std.specs.Prelude.{◌≡◌, ◌<◌, ◌+◌, List, None, Option, false, length, slice_set, IsTrue, IfOk, OnOk};
ghost use Rattle.store_api.specs.Causes.{fault_of};
ghost use Rattle.store_api.specs.RunsOverPages.{RunsOverPages};
ghost use Rattle.extent_map.specs.declared.kind.Kind.{Kind};
ghost use Rattle.mdc_ast.specs.declared.row.Row.{Row};
ghost use Rattle.row_page.specs.RowPage.{count_rows};
ghost use Rattle.mdc_ast.specs.TableLimits.{IsTableDef};
ghost use Rattle.table_trees.specs.SpaceChanges.{MakesChanges};
ghost use Rattle.block_rows.specs.HeldRows.{HasReadValues, HoldsRows};
ghost use Rattle.block_rows.specs.SeenRows.{SeesSlot, SeesSomeRow};
ghost use Rattle.mdc_sound.specs.Placing.{IsRowAt, block_slot_count};
ghost use Rattle.mdc_sound.specs.RunningFull.{left_changes};
ghost use Rattle.mdc_sound.specs.StandingTable.{BreaksExpected, IsBlockOrMapPage, IsPageOfBlock, StandsTable, TableForests, pages_of, spots_of};
ghost use Rattle.table_blocks.specs.BlockChanges.{BreaksAround};
ghost use Rattle.table_blocks.specs.BlockSteps.{EmptiesSlot, HasFilledSlot, HasThisRow};
ghost use Rattle.table_blocks.specs.SeenSlots.{IsMapApart, SeesUsedSlot};

use crate::cells::cell_of;
use crate::faults::miscounted;
use crate::lines::line_of_used;
use crate::releasing::release_block;
use block_map::{BlockMap, BlockState};
use block_rows::clear_slot;
use extent_map::SpaceNotes;
use mdc_ast::{Row, TableDef};
use mdc_values::Rid;
use std::alloc::Global;
use store_api::{Pages, Shape, StoreFault};

/// Takes the row out that lies in a place; it is given too. Answers how many rows are left in its block: one without rows is Free
/// afterwards, and isn't listed. Damaged where no row lies there. It claims no page.
pub fn take_row<P: Pages>(
    alloc: Global,
    def: &TableDef,
    shape: Shape,
    notes: &mut SpaceNotes,
    pages: &mut P,
    rid: Rid,
    row: &Row,
) -> Result<u16, StoreFault>
    requires defined { IsTableDef def.now.number def.now }
    requires keyed { HasReadValues def.now.columns row.now }
    requires within { rid.block < shape.extents }
    requires slot { rid.slot < block_slot_count shape def.now }
    requires going { (P.state pages.old).ended ≡ false }
    ensures takes { OnOk result ((owners : List Kind) (forests : TableForests) → StandsTable P.Pages shape pages.old def.now owners forests
        → HasThisRow P.Pages shape pages.old def.now rid row.now owners forests → EmptiesSlot P.Pages shape notes.old notes.new pages.old pages.new def.now rid row.now owners forests) }
    ensures left { IfOk result (λ left. (owners : List Kind) (forests : TableForests) → StandsTable P.Pages shape pages.old def.now owners forests
        → (slots : List (Option Row)) → IsRowAt (spots_of P.Pages shape pages.old def.now owners forests) rid row.now slots → count_rows slots ≡ left + 1) }
    ensures makes { OnOk result ((owners : List Kind) (forests : TableForests) → StandsTable P.Pages shape pages.old def.now owners forests
        → (slots : List (Option Row)) → IsRowAt (spots_of P.Pages shape pages.old def.now owners forests) rid row.now slots
        → MakesChanges shape (pages_of P.Pages pages.old) (left_changes def.now row.now rid.block (count_rows slots)) (pages_of P.Pages pages.new)) }
    ensures seen { OnOk result (IsTrue (P.state pages.old).is_told → IsMapApart P.Pages shape pages.old def.now rid.block → SeesSomeRow (SeesUsedSlot P.Pages shape pages.old def.now rid)) }
    ensures count { length (P.state pages.new).work ≡ length (P.state pages.old).work }
    ensures runs { RunsOverPages P.Pages (IsBlockOrMapPage P.Pages shape pages.old def.now rid.block) (IsBlockOrMapPage P.Pages shape pages.old def.now rid.block)
        (BreaksExpected P.Pages shape pages.old def.now (HasThisRow P.Pages shape pages.old def.now rid row.now)) pages.old pages.new (fault_of result) }
{
    let map = BlockMap::at(alloc, def.roots.map);
    if let Some(had) = map.discount_row(pages, rid.block)? {
        clear_filled(def, shape, pages, rid)?;
        return Ok(had - 1);
    }
    let line = line_of_used(def, &map, pages, rid.block)?;
    clear_filled(def, shape, pages, rid)?;
    let cell = cell_of(alloc, def, &row.values)?;
    release_block(
        alloc,
        def,
        shape,
        notes,
        pages,
        line,
        BlockState::Free,
        &cell,
    )?;
    Ok(0)
}

/// Empties the slot of a row. Damaged where it is empty.
fn clear_filled<P: Pages>(
    def: &TableDef,
    shape: Shape,
    pages: &mut P,
    rid: Rid,
) -> Result<(), StoreFault>
    requires defined { IsTableDef def.now.number def.now }
    requires within { rid.block < shape.extents }
    requires slot { rid.slot < block_slot_count shape def.now }
    requires going { (P.state pages.old).ended ≡ false }
    ensures clears { OnOk result ((slots : List (Option Row)) → HoldsRows P.Pages shape pages.old def.now rid.block slots
        → HoldsRows P.Pages shape pages.new def.now rid.block (slice_set slots rid.slot None)) }
    ensures seen { OnOk result (IsTrue (P.state pages.old).is_told → SeesSomeRow (SeesSlot shape (pages_of P.Pages pages.old) def.now rid)) }
    ensures count { length (P.state pages.new).work ≡ length (P.state pages.old).work }
    ensures runs { RunsOverPages P.Pages (IsPageOfBlock shape rid.block) (IsPageOfBlock shape rid.block)
        (BreaksAround P.Pages shape pages.old def.now rid.block (HasFilledSlot rid.slot P.Pages shape pages.old def.now rid.block)) pages.old pages.new (fault_of result) }
{
    if !clear_slot(def, shape, pages, rid)? {
        return Err(miscounted(shape, rid.block));
    }
    Ok(())
}
