// Blocks that are rolled out.
ghost use Rattle.std.specs.Prelude.{◌≡◌, ◌<◌, ◌≤◌, ◌+◌, All, List, [], false, true, length, IfOk, IsTrue, OnOk};
ghost use Rattle.mdc_ast.specs.Database.{Database, changed_at};
ghost use Rattle.mdc_ast.specs.declared.row.Row.{Row};
ghost use Rattle.store_api.specs.Causes.{fault_of};
ghost use Rattle.store_api.specs.Extents.{first_page_of};
ghost use Rattle.store_api.specs.RunsOverPages.{RunsOverPages};
ghost use Rattle.extent_map.specs.declared.kind.Kind.{Kind};
ghost use Rattle.mdc_ast.specs.TableLimits.{IsTableDef};
ghost use Rattle.block_index.specs.Cells.{FitsCell};
ghost use Rattle.block_rows.specs.HeldRows.{HasReadValues};
ghost use Rattle.free_space.specs.RoomNotes.{room_of};
ghost use Rattle.row_filter.specs.Filtering.{may_filter};
ghost use Rattle.mdc_sound.specs.SoundDatabase.{IsSoundBetweenChanges, with_table_page};
ghost use Rattle.mdc_sound.specs.StandsForDatabase.{PagesStandFor};
ghost use Rattle.mdc_sound.specs.StandingTable.{BreaksExpected, KeepsBlocksBut, StandsTable, TableForests, pages_of};
ghost use Rattle.row_entries.specs.RowEntries.{IsTreeOrMapPageOfTable};
ghost use Rattle.cell_change.specs.ExpectedTables.{HasSoundIndexes};
ghost use Rattle.rollout.specs.Applying.{applies_to};
ghost use Rattle.rollout.specs.GoingCells.{ListsCells, going_numbers};
ghost use Rattle.rollout.specs.RolledBlocks.{GivesBackSpace, IsBlockOfCell, RollsBlock, RollsOutRows, without_chosen};
ghost use Rattle.rollout.specs.RolledPages.{AnyPage, BringsRowsOnce, IsPageWhereListed, IsRolloutPage};
ghost use Rattle.rollout.specs.RolledSome.{RollsSome};
ghost use Rattle.rollout.specs.RolledSpace.{RollsInSpace};

use crate::choosing::{going_blocks, going_cells};
use crate::leaving::leave_entries;
use crate::reclaiming::no_extent;
use block_index::{CellBlock, cells};
use block_map::{BlockRow, BlockState};
use extent_map::SpaceNotes;
use mdc_ast::{Pred, TableDef};
use mdc_table::{Rooms, rows_of_line};
use std::alloc::Global;
use store_api::{Pages, Shape, StoreFault};
use table_blocks::{miscounted, release_block};

/// How many rows a rollout took out, and of how many blocks.
#[derive(Clone, Copy, Debug, PartialEq, Eq)]
pub struct RolledOut {
    pub rows: u64,
    pub blocks: u32,
}

/// Takes all rows out that qualify, where the predicate names dimension columns alone: each Used block in whose cell it is true becomes
/// Free, and the entries of its rows leave all record indexes, each of which is swept once where a large part of the rows goes. It claims
/// no page, and no row page changes; where no row qualifies nothing is changed. Row pages come to hand only where the table has a record
/// index and fewer rows go, and of those blocks alone, each once. The notes of rooms are forgotten. After a fault `undo` goes back to a
/// mark, and the notes of free space are to be forgotten too.
pub fn roll_out<P: Pages>(
    alloc: Global,
    def: &TableDef,
    shape: Shape,
    notes: &mut SpaceNotes,
    rooms: &mut Rooms,
    pages: &mut P,
    pred: &Option<Pred>,
) -> Result<RolledOut, StoreFault>
    requires defined { IsTableDef def.now.number def.now }
    requires judged { (row : Row) → HasReadValues def.now.columns row → IsTrue (may_filter pred.now row.values) }
    requires applies { applies_to pred.now def.now ≡ true }
    requires going { (P.state pages.old).ended ≡ false }
    ensures rolls { IfOk result (λ rolled. (owners : List Kind) (forests : TableForests) → StandsTable P.Pages shape pages.old def.now owners forests
        → RollsOutRows P.Pages shape notes.old notes.new (room_of rooms.new) pages.old pages.new def.now pred.now rolled owners forests) }
    ensures space { OnOk result ((owners : List Kind) (forests : TableForests) → StandsTable P.Pages shape pages.old def.now owners forests
        → RollsInSpace shape def.now (pages_of P.Pages pages.old) (pages_of P.Pages pages.new)) }
    ensures idle { IfOk result (λ rolled. rolled.rows ≡ 0 → (P.state pages.new).work ≡ (P.state pages.old).work) }
    ensures sound { OnOk result ((owners : List Kind) (forests : TableForests) → StandsTable P.Pages shape pages.old def.now owners forests
        → IsSoundBetweenChanges shape def.now (pages_of P.Pages pages.old) → IsSoundBetweenChanges shape def.now (pages_of P.Pages pages.new)) }
    ensures stands_for { OnOk result ((owners : List Kind) (forests : TableForests) → StandsTable P.Pages shape pages.old def.now owners forests → IsSoundBetweenChanges shape def.now (pages_of P.Pages pages.old)
        → (db : Database) → PagesStandFor shape (with_table_page def.now (pages_of P.Pages pages.old)) db
        → PagesStandFor shape (with_table_page def.now (pages_of P.Pages pages.new)) (changed_at db def.now.number (without_chosen pred.now))) }
    ensures stay { (owners : List Kind) (forests : TableForests) → StandsTable P.Pages shape pages.old def.now owners forests → KeepsBlocksBut P.Pages shape pages.old pages.new def.now owners (λ block. ⊥) }
    ensures count { length (P.state pages.new).work ≡ length (P.state pages.old).work }
    ensures once { OnOk result ((owners : List Kind) (forests : TableForests) → StandsTable P.Pages shape pages.old def.now owners forests
        → BringsRowsOnce P.Pages shape pages.old pages.new def.now owners AnyPage) }
    ensures runs { RunsOverPages P.Pages (IsTreeOrMapPageOfTable P.Pages shape pages.old def.now) (IsRolloutPage P.Pages shape pages.old def.now pred.now)
        (BreaksExpected P.Pages shape pages.old def.now (HasSoundIndexes P.Pages shape pages.old def.now)) pages.old pages.new (fault_of result) }
{
    rooms.forget();
    let found = cells(alloc, def, pages)?;
    let going = going_cells(alloc, def, pred, found.as_slice())?;
    let blocks = going_blocks(alloc, found.as_slice(), going.as_slice())?;
    if blocks.as_slice().len() == 0 {
        return Ok(RolledOut { rows: 0, blocks: 0 });
    }
    leave_entries(alloc, def, shape, notes, pages, &blocks)?;
    roll_cells(
        alloc,
        def,
        shape,
        notes,
        pages,
        found.as_slice(),
        going.as_slice(),
    )
}

/// Makes the blocks of those cells Free that go, and counts these blocks and their rows. The record indexes stay as they are, and no row
/// page comes to hand.
fn roll_cells<P: Pages>(
    alloc: Global,
    def: &TableDef,
    shape: Shape,
    notes: &mut SpaceNotes,
    pages: &mut P,
    found: &[CellBlock],
    going: &[bool],
) -> Result<RolledOut, StoreFault>
    requires defined { IsTableDef def.now.number def.now }
    requires one_each { length going.now ≡ length found.now }
    requires fit { All (λ one. FitsCell def.now one.cell.values) found.now }
    requires going { (P.state pages.old).ended ≡ false }
    ensures rolls { IfOk result (λ rolled. (owners : List Kind) (forests : TableForests) → StandsTable P.Pages shape pages.old def.now owners forests → ListsCells def.now found.now owners forests
        → RollsSome P.Pages shape notes.old notes.new pages.old pages.new def.now (going_numbers found.now going.now) rolled owners forests) }
    ensures some { IfOk result (λ rolled. rolled.rows ≡ 0 → going_numbers found.now going.now ≡ []) }
    ensures space { OnOk result ((owners : List Kind) (forests : TableForests) → StandsTable P.Pages shape pages.old def.now owners forests → ListsCells def.now found.now owners forests
        → GivesBackSpace shape (pages_of P.Pages pages.old) (pages_of P.Pages pages.new)) }
    ensures count { length (P.state pages.new).work ≡ length (P.state pages.old).work }
    ensures runs { RunsOverPages P.Pages (IsPageWhereListed P.Pages shape pages.old def.now found.now) (IsPageWhereListed P.Pages shape pages.old def.now found.now)
        (BreaksExpected P.Pages shape pages.old def.now (ListsCells def.now found.now)) pages.old pages.new (fault_of result) }
{
    let mut rolled = RolledOut { rows: 0, blocks: 0 };
    for at in 0..found.len() {
        if !going[at] {
            continue;
        }
        let rows = roll_block(alloc, def, shape, notes, pages, &found[at])?;
        rolled = counted(rolled, rows);
    }
    Ok(rolled)
}

/// The counts with those of a block that went. They stand still at their last number, which no table reaches.
fn counted(rolled: RolledOut, rows: u16) -> RolledOut
    ensures sum { rolled.rows + rows < 18446744073709551616 → rolled.blocks + 1 < 4294967296 → result ≡ record { rows = rolled.rows + rows; blocks = rolled.blocks + 1 } }
    ensures some { 0 < rows → 0 < result.rows }
{
    RolledOut {
        rows: rolled.rows.saturating_add(u64::from(rows)),
        blocks: rolled.blocks.saturating_add(1),
    }
}

/// Makes a Used block Free, which is listed under a cell, and answers how many rows it had, as its line counts them. Damaged where it
/// counts none.
fn roll_block<P: Pages>(
    alloc: Global,
    def: &TableDef,
    shape: Shape,
    notes: &mut SpaceNotes,
    pages: &mut P,
    one: &CellBlock,
) -> Result<u16, StoreFault>
    requires defined { IsTableDef def.now.number def.now }
    requires fits { FitsCell def.now one.now.cell.values }
    requires going { (P.state pages.old).ended ≡ false }
    ensures rolls { IfOk result (λ rows. (owners : List Kind) (forests : TableForests) → StandsTable P.Pages shape pages.old def.now owners forests → IsBlockOfCell P.Pages shape pages.old def.now one.now owners forests
        → RollsBlock P.Pages shape notes.old notes.new pages.old pages.new def.now one.now.block rows owners forests) }
    ensures some { IfOk result (λ rows. 0 < rows) }
    ensures few { IfOk result (λ rows. rows < 65536) }
    ensures space { OnOk result ((owners : List Kind) (forests : TableForests) → StandsTable P.Pages shape pages.old def.now owners forests → IsBlockOfCell P.Pages shape pages.old def.now one.now owners forests
        → GivesBackSpace shape (pages_of P.Pages pages.old) (pages_of P.Pages pages.new)) }
    ensures count { length (P.state pages.new).work ≡ length (P.state pages.old).work }
    ensures runs { RunsOverPages P.Pages (IsTreeOrMapPageOfTable P.Pages shape pages.old def.now) (IsTreeOrMapPageOfTable P.Pages shape pages.old def.now)
        (BreaksExpected P.Pages shape pages.old def.now (IsBlockOfCell P.Pages shape pages.old def.now one.now)) pages.old pages.new (fault_of result) }
{
    let rows = rows_of_line(alloc, def, shape, pages, one.block)?;
    if rows == 0 {
        return Err(no_row(def, shape, one.block));
    }
    let line = BlockRow {
        block: one.block,
        state: BlockState::Used,
        rows,
    };
    release_block(
        alloc,
        def,
        shape,
        notes,
        pages,
        line,
        BlockState::Free,
        &one.cell,
    )?;
    Ok(rows)
}

/// The fault of a block map that counts no row in a Used block, or names one that there isn't.
fn no_row(def: &TableDef, shape: Shape, block: u32) -> StoreFault
    ensures there { block < shape.extents → result ≡ StoreFault.Damaged (record { page = first_page_of shape.extents shape.extent_pages block; rule = 8 }) }
    ensures not { shape.extents ≤ block → result ≡ StoreFault.Damaged (record { page = def.now.roots.map; rule = 6 }) }
{
    if block >= shape.extents {
        return no_extent(def);
    }
    miscounted(shape, block)
}
