// Another row in the place of one.
ghost use Rattle.std.specs.Prelude.{◌≡◌, ◌<◌, List, Option, Some, false, length, slice_set, IsTrue, OnOk};
ghost use Rattle.store_api.specs.Causes.{fault_of};
ghost use Rattle.store_api.specs.RunsOverPages.{RunsOverPages};
ghost use Rattle.extent_map.specs.declared.kind.Kind.{Kind};
ghost use Rattle.extent_map.specs.declared.space_notes.SpaceNotes.{SpaceNotes};
ghost use Rattle.mdc_ast.specs.declared.row.Row.{Row};
ghost use Rattle.mdc_ast.specs.TableLimits.{IsTableDef};
ghost use Rattle.table_trees.specs.RowCells.{AreOfOneCell};
ghost use Rattle.table_trees.specs.SpaceChanges.{IsSameSpace};
ghost use Rattle.mdc_ast.specs.FittingRows.{RowFits};
ghost use Rattle.mdc_sound.specs.Placing.{IsRowAt, block_slot_count};
ghost use Rattle.mdc_sound.specs.Placing.Spot.{UsedBlock};
ghost use Rattle.mdc_sound.specs.StandingTable.{BreaksExpected, HasRowAt, IsBlockOrMapPage, IsPageOfBlock, StandsTable, TableForests, pages_of, spots_of};
ghost use Rattle.block_rows.specs.HeldRows.{HoldsRows};
ghost use Rattle.block_rows.specs.SeenRows.{SeesSlot, SeesSomeRow};
ghost use Rattle.table_blocks.specs.BlockChanges.{BreaksAround, SameSpot, TurnsSpot};
ghost use Rattle.table_blocks.specs.BlockSteps.{HasFilledSlot};
ghost use Rattle.table_blocks.specs.SeenSlots.{SeesUsedSlot};

use crate::faults::miscounted;
use crate::lines::line_of_used;
use block_map::BlockMap;
use block_rows::put_slot;
use mdc_ast::{Row, TableDef};
use mdc_values::Rid;
use std::alloc::Global;
use store_api::{Pages, Shape, StoreFault};

/// Puts a row into the place of one that lies there and is of the same cell. Damaged where none lies there: the block isn't Used, or
/// the slot is empty. It claims no page, and changes no tree.
pub fn overwrite_row<P: Pages>(
    alloc: Global,
    def: &TableDef,
    shape: Shape,
    pages: &mut P,
    rid: Rid,
    row: &Row,
) -> Result<(), StoreFault>
    requires defined { IsTableDef def.now.number def.now }
    requires fits { RowFits def.now row.now }
    requires within { rid.block < shape.extents }
    requires slot { rid.slot < block_slot_count shape def.now }
    requires going { (P.state pages.old).ended ≡ false }
    ensures overwrites { OnOk result ((noted : SpaceNotes) (owners : List Kind) (forests : TableForests) (was : Row) (slots : List (Option Row)) → StandsTable P.Pages shape pages.old def.now owners forests
        → IsRowAt (spots_of P.Pages shape pages.old def.now owners forests) rid was slots → AreOfOneCell def.now was.values row.now.values
        → TurnsSpot P.Pages SameSpot shape noted noted pages.old pages.new def.now rid.block (UsedBlock (slice_set slots rid.slot (Some row.now))) owners forests owners forests) }
    ensures makes { OnOk result ((owners : List Kind) (forests : TableForests) → StandsTable P.Pages shape pages.old def.now owners forests → HasRowAt P.Pages shape pages.old def.now rid owners forests
        → IsSameSpace shape (pages_of P.Pages pages.old) (pages_of P.Pages pages.new)) }
    ensures seen { OnOk result (IsTrue (P.state pages.old).is_told → SeesSomeRow (SeesUsedSlot P.Pages shape pages.old def.now rid)) }
    ensures count { length (P.state pages.new).work ≡ length (P.state pages.old).work }
    ensures runs { RunsOverPages P.Pages (IsBlockOrMapPage P.Pages shape pages.old def.now rid.block) (IsBlockOrMapPage P.Pages shape pages.old def.now rid.block)
        (BreaksExpected P.Pages shape pages.old def.now (HasRowAt P.Pages shape pages.old def.now rid)) pages.old pages.new (fault_of result) }
{
    let map = BlockMap::at(alloc, def.roots.map);
    line_of_used(def, &map, pages, rid.block)?;
    put_filled(def, shape, pages, rid, row)
}

/// The same where the block is known to be a Used one of the table: the block map isn't asked. It touches pages of the block alone.
pub fn overwrite_row_of_used<P: Pages>(
    def: &TableDef,
    shape: Shape,
    pages: &mut P,
    rid: Rid,
    row: &Row,
) -> Result<(), StoreFault>
    requires defined { IsTableDef def.now.number def.now }
    requires fits { RowFits def.now row.now }
    requires within { rid.block < shape.extents }
    requires slot { rid.slot < block_slot_count shape def.now }
    requires going { (P.state pages.old).ended ≡ false }
    ensures overwrites { OnOk result ((noted : SpaceNotes) (owners : List Kind) (forests : TableForests) (was : Row) (slots : List (Option Row)) → StandsTable P.Pages shape pages.old def.now owners forests
        → IsRowAt (spots_of P.Pages shape pages.old def.now owners forests) rid was slots → AreOfOneCell def.now was.values row.now.values
        → TurnsSpot P.Pages SameSpot shape noted noted pages.old pages.new def.now rid.block (UsedBlock (slice_set slots rid.slot (Some row.now))) owners forests owners forests) }
    ensures makes { OnOk result ((owners : List Kind) (forests : TableForests) → StandsTable P.Pages shape pages.old def.now owners forests → HasRowAt P.Pages shape pages.old def.now rid owners forests
        → IsSameSpace shape (pages_of P.Pages pages.old) (pages_of P.Pages pages.new)) }
    ensures seen { OnOk result (IsTrue (P.state pages.old).is_told → SeesSomeRow (SeesSlot shape (pages_of P.Pages pages.old) def.now rid)) }
    ensures count { length (P.state pages.new).work ≡ length (P.state pages.old).work }
    ensures runs { RunsOverPages P.Pages (IsPageOfBlock shape rid.block) (IsPageOfBlock shape rid.block)
        (BreaksExpected P.Pages shape pages.old def.now (HasRowAt P.Pages shape pages.old def.now rid)) pages.old pages.new (fault_of result) }
{
    put_filled(def, shape, pages, rid, row)
}

/// Puts a row into the slot of one. Damaged where it is empty.
fn put_filled<P: Pages>(
    def: &TableDef,
    shape: Shape,
    pages: &mut P,
    rid: Rid,
    row: &Row,
) -> Result<(), StoreFault>
    requires defined { IsTableDef def.now.number def.now }
    requires fits { RowFits def.now row.now }
    requires within { rid.block < shape.extents }
    requires slot { rid.slot < block_slot_count shape def.now }
    requires going { (P.state pages.old).ended ≡ false }
    ensures puts { OnOk result ((slots : List (Option Row)) → HoldsRows P.Pages shape pages.old def.now rid.block slots
        → HoldsRows P.Pages shape pages.new def.now rid.block (slice_set slots rid.slot (Some row.now))) }
    ensures seen { OnOk result (IsTrue (P.state pages.old).is_told → SeesSomeRow (SeesSlot shape (pages_of P.Pages pages.old) def.now rid)) }
    ensures count { length (P.state pages.new).work ≡ length (P.state pages.old).work }
    ensures runs { RunsOverPages P.Pages (IsPageOfBlock shape rid.block) (IsPageOfBlock shape rid.block)
        (BreaksAround P.Pages shape pages.old def.now rid.block (HasFilledSlot rid.slot P.Pages shape pages.old def.now rid.block)) pages.old pages.new (fault_of result) }
{
    if !put_slot(def, shape, pages, rid, row)? {
        return Err(miscounted(shape, rid.block));
    }
    Ok(())
}
