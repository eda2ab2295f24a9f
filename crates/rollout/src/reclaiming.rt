// Free blocks are given back.
ghost use Rattle.std.specs.Prelude.{◌≡◌, ◌<◌, ◌+◌, List, Contains, false, length, IfOk, OnOk};
ghost use Rattle.mdc_ast.specs.Database.{Database};
ghost use Rattle.mdc_ast.specs.TableLimits.{IsTableDef};
ghost use Rattle.store_api.specs.Causes.{fault_of};
ghost use Rattle.store_api.specs.RunsOverPages.{RunsOverPages};
ghost use Rattle.extent_map.specs.declared.kind.Kind.{Kind};
ghost use Rattle.block_map.specs.MapLines.{free_blocks};
ghost use Rattle.mdc_sound.specs.SoundDatabase.{IsSoundBetweenChanges, with_table_page};
ghost use Rattle.mdc_sound.specs.StandsForDatabase.{PagesStandFor};
ghost use Rattle.mdc_sound.specs.StandingTable.{BreaksExpected, BreaksTable, KeepsBlocksBut, StandsTable, TableForests, pages_of};
ghost use Rattle.table_blocks.specs.BlockChanges.{IsTreeOrMapPageOfTable};
ghost use Rattle.table_blocks.specs.BlockSteps.{HasFreeBlock, ReclaimsBlock};
ghost use Rattle.rollout.specs.ReclaimedBlocks.{ReclaimsFree};
ghost use Rattle.rollout.specs.RolledBlocks.{GivesBackSpace};

use block_map::{BlockMap, BlockState};
use extent_map::SpaceNotes;
use mdc_ast::TableDef;
use std::alloc::Global;
use store_api::rules::BLOCK_MAPS_RULE;
use store_api::{Damage, Pages, Shape, StoreFault};
use table_blocks::reclaim_block;

/// Gives the Free blocks of a table back, each of which leaves its block map, and answers how many there were. All other blocks stay, with
/// their rows, and so do all indexes. It claims no page, and no row page comes to hand. The notes of rooms stay right. After a fault
/// `undo` goes back to a mark, and the notes of free space are to be forgotten.
pub fn reclaim<P: Pages>(
    alloc: Global,
    def: &TableDef,
    shape: Shape,
    notes: &mut SpaceNotes,
    pages: &mut P,
) -> Result<u32, StoreFault>
    requires defined { IsTableDef def.now.number def.now }
    requires going { (P.state pages.old).ended ≡ false }
    ensures reclaims { IfOk result (λ count. (owners : List Kind) (forests : TableForests) → StandsTable P.Pages shape pages.old def.now owners forests
        → ReclaimsFree P.Pages shape notes.old notes.new pages.old pages.new def.now count owners forests) }
    ensures space { OnOk result ((owners : List Kind) (forests : TableForests) → StandsTable P.Pages shape pages.old def.now owners forests
        → GivesBackSpace shape (pages_of P.Pages pages.old) (pages_of P.Pages pages.new)) }
    ensures sound { OnOk result ((owners : List Kind) (forests : TableForests) → StandsTable P.Pages shape pages.old def.now owners forests
        → IsSoundBetweenChanges shape def.now (pages_of P.Pages pages.old) → IsSoundBetweenChanges shape def.now (pages_of P.Pages pages.new)) }
    ensures stands_for { OnOk result ((owners : List Kind) (forests : TableForests) → StandsTable P.Pages shape pages.old def.now owners forests → IsSoundBetweenChanges shape def.now (pages_of P.Pages pages.old)
        → (db : Database) → PagesStandFor shape (with_table_page def.now (pages_of P.Pages pages.old)) db → PagesStandFor shape (with_table_page def.now (pages_of P.Pages pages.new)) db) }
    ensures stay { (owners : List Kind) (forests : TableForests) → StandsTable P.Pages shape pages.old def.now owners forests → KeepsBlocksBut P.Pages shape pages.old pages.new def.now owners (λ block. ⊥) }
    ensures count { length (P.state pages.new).work ≡ length (P.state pages.old).work }
    ensures runs { RunsOverPages P.Pages (IsTreeOrMapPageOfTable P.Pages shape pages.old def.now) (IsTreeOrMapPageOfTable P.Pages shape pages.old def.now)
        (BreaksTable P.Pages shape pages.old def.now) pages.old pages.new (fault_of result) }
{
    let map = BlockMap::at(alloc, def.roots.map);
    let free = map.list(pages, BlockState::Free)?;
    let mut count = 0;
    for block in free.as_slice() {
        reclaim_listed(alloc, def, shape, notes, pages, *block)?;
        count = one_more(count);
    }
    Ok(count)
}

/// One more. It stands still at the last number, which no table reaches.
fn one_more(count: u32) -> u32
    ensures { count + 1 < 4294967296 → result ≡ count + 1 }
{
    count.saturating_add(1)
}

/// Gives a block back that the block map lists as a Free one. Damaged where there is no such extent, or it is no block that the map names.
fn reclaim_listed<P: Pages>(
    alloc: Global,
    def: &TableDef,
    shape: Shape,
    notes: &mut SpaceNotes,
    pages: &mut P,
    block: u32,
) -> Result<(), StoreFault>
    requires defined { IsTableDef def.now.number def.now }
    requires going { (P.state pages.old).ended ≡ false }
    ensures reclaims { OnOk result ((owners : List Kind) (forests : TableForests) → StandsTable P.Pages shape pages.old def.now owners forests → Contains (free_blocks forests.map) block
        → ReclaimsBlock P.Pages shape notes.old notes.new pages.old pages.new def.now block owners forests) }
    ensures space { OnOk result ((owners : List Kind) (forests : TableForests) → StandsTable P.Pages shape pages.old def.now owners forests → Contains (free_blocks forests.map) block
        → GivesBackSpace shape (pages_of P.Pages pages.old) (pages_of P.Pages pages.new)) }
    ensures count { length (P.state pages.new).work ≡ length (P.state pages.old).work }
    ensures runs { RunsOverPages P.Pages (IsTreeOrMapPageOfTable P.Pages shape pages.old def.now) (IsTreeOrMapPageOfTable P.Pages shape pages.old def.now)
        (BreaksExpected P.Pages shape pages.old def.now (HasFreeBlock block)) pages.old pages.new (fault_of result) }
{
    if block >= shape.extents {
        return Err(no_extent(def));
    }
    reclaim_block(alloc, def, shape, notes, pages, block)
}

/// The fault of a block map that lists an extent that there isn't.
pub(crate) fn no_extent(def: &TableDef) -> StoreFault
    ensures { result ≡ StoreFault.Damaged (record { page = def.now.roots.map; rule = 6 }) }
{
    StoreFault::Damaged(Damage {
        page: def.roots.map,
        rule: BLOCK_MAPS_RULE,
    })
}
