// Rows of blocks in each state, looked for before and after the state of one block changes.
ghost use Rattle.std.specs.Prelude.{◌≡◌, false, IfOk};
ghost use Rattle.record_index.specs.RecordIndexes.{HasRecordIndexes};

use block_map::{BlockMap, BlockRow, BlockState};
use entry_tree::Tree;
use extent_map::SpaceNotes;
use live_rows::{live, live_twin};
use mdc_ast::TableDef;
use mdc_values::{Rid, Rids};
use record_index_tests::{filled, indexed_table, may_enter, place, row_of};
use std::alloc::Global;
use std::test::Fail;
use store_api::layout::BLOCK_MAP_WIDTH;
use store_api::{Pages, Shape};

/// What was answered.
#[derive(Drop)]
pub struct Answers {
    /// The live ones of the places of rows 3, 1, 0 and of one in a block that isn't the table's.
    pub live: Rids,
    /// A row with the key of row 0, which blocks 2 and 3 have.
    pub same: Option<Rid>,
    /// One outside the place in block 3.
    pub other: Option<Rid>,
    /// A row with the key of row 2, whose first column is a null, and which lies in block 2.
    pub null: Option<Rid>,
    /// The same once block 2 is Used.
    pub null_later: Option<Rid>,
    /// One with the key of row 0 outside the place in block 2, then.
    pub other_later: Option<Rid>,
}

/// The table of `record_index_tests` with a block map: blocks 1 and 3 are Used, 2 waits for its cleanup, and 4 is Free.
pub fn mapped_table<P: Pages>(
    alloc: Global,
    shape: Shape,
    notes: &mut SpaceNotes,
    pages: &mut P,
) -> Result<TableDef, Fail>
    requires going { (P.state pages.old).ended ≡ false }
    ensures indexes { IfOk result HasRecordIndexes }
    ensures going { (P.state pages.new).ended ≡ false }
{
    let mut def = indexed_table(alloc, shape, notes, pages)?;
    let tree = Tree::make(alloc, shape, notes, pages, BLOCK_MAP_WIDTH)?;
    let map = BlockMap::at(alloc, tree.root);
    map.enter(shape, notes, pages, line(1, BlockState::Used, 1))?;
    map.enter(shape, notes, pages, line(2, BlockState::Pending, 0))?;
    map.enter(shape, notes, pages, line(3, BlockState::Used, 1))?;
    map.enter(shape, notes, pages, line(4, BlockState::Free, 0))?;
    def.roots.map = tree.root;
    Ok(def)
}

// A line of a block map.
fn line(block: u32, state: BlockState, rows: u16) -> BlockRow {
    BlockRow { block, state, rows }
}

/// A live row with the key of a row in the index V, outside some places.
pub fn twin<P: Pages>(
    alloc: Global,
    def: &TableDef,
    pages: &mut P,
    which: u8,
    but: &Rids,
) -> Result<Option<Rid>, Fail>
    requires indexes { HasRecordIndexes def.now }
    requires going { (P.state pages.old).ended ≡ false }
    ensures going { (P.state pages.new).ended ≡ false }
{
    let row = row_of(alloc, which)?;
    if !may_enter(def, 0, &row) {
        return Err(Fail::new("a row that has no key there"));
    }
    Ok(live_twin(alloc, def, 0, pages, &row.values, but)?)
}

/// Plays the scenario.
pub fn play<P: Pages>(
    alloc: Global,
    def: &TableDef,
    shape: Shape,
    notes: &mut SpaceNotes,
    pages: &mut P,
) -> Result<Answers, Fail>
    requires indexes { HasRecordIndexes def.now }
    requires going { (P.state pages.old).ended ≡ false }
{
    filled(alloc, def, 0, shape, notes, pages)?;
    let none = Rids::new(alloc);
    let in_block_2 = one_place(alloc, 2, 9)?;
    let in_block_3 = one_place(alloc, 3, 0)?;
    let live = live(alloc, def, pages, &some_places(alloc)?)?;
    let same = twin(alloc, def, pages, 0, &none)?;
    let other = twin(alloc, def, pages, 0, &in_block_3)?;
    let null = twin(alloc, def, pages, 2, &none)?;
    let map = BlockMap::at(alloc, def.roots.map);
    map.set(pages, line(2, BlockState::Used, 3))?;
    let null_later = twin(alloc, def, pages, 2, &none)?;
    let other_later = twin(alloc, def, pages, 0, &in_block_2)?;
    Ok(Answers {
        live,
        same,
        other,
        null,
        null_later,
        other_later,
    })
}

// A list of one place.
fn one_place(alloc: Global, block: u32, slot: u16) -> Result<Rids, Fail> {
    let mut rids = Rids::new(alloc);
    rids.push(place(block, slot))?;
    Ok(rids)
}

// The places of rows 3, 1 and 0, and one of block 5.
fn some_places(alloc: Global) -> Result<Rids, Fail> {
    let mut rids = Rids::new(alloc);
    rids.push(Rid { block: 1, slot: 1 })?;
    rids.push(Rid { block: 2, slot: 7 })?;
    rids.push(Rid { block: 3, slot: 0 })?;
    rids.push(Rid { block: 5, slot: 0 })?;
    Ok(rids)
}
