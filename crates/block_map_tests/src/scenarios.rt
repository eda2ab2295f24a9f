// What is seen of a block map between its calls.
ghost use Rattle.std.specs.Prelude.{◌≡◌, false};

use block_map::{BlockMap, BlockRow, BlockState};
use entry_tree::Tree;
use extent_map::{SpaceFault, SpaceNotes};
use mdc_values::Blocks;
use std::alloc::Global;
use store_api::{Shape, Store, StoreFault};

/// The width of an entry.
const WIDTH: u16 = 7;

/// What a block map shows of one of its blocks, of all blocks of a state, and of its Free ones.
#[derive(Debug, Drop)]
pub struct Seen {
    /// The row of the block.
    pub row: Option<BlockRow>,
    /// The blocks of the state.
    pub listed: Blocks,
    /// Their rows.
    pub rows: Vec<BlockRow>,
    /// The lowest Free block.
    pub first_free: Option<u32>,
    /// The lowest Free block above the block.
    pub free_behind: Option<u32>,
}

/// A map of blocks 9, 5 and 3, the first two Free and the last with two rows, entered in this order.
pub fn fill<S: Store>(
    alloc: Global,
    shape: Shape,
    notes: &mut SpaceNotes,
    store: &mut S,
) -> Result<BlockMap, SpaceFault>
    requires going { (S.state store.old).ended ≡ false }
    ensures going { (S.state store.new).ended ≡ false }
{
    let tree = Tree::make(alloc, shape, notes, store, WIDTH)?;
    let map = BlockMap::at(alloc, tree.root);
    map.enter(shape, notes, store, row(9, BlockState::Free, 0))?;
    map.enter(shape, notes, store, row(5, BlockState::Free, 0))?;
    map.enter(shape, notes, store, row(3, BlockState::Used, 2))?;
    Ok(map)
}

/// A row of a block map.
pub fn row(block: u32, state: BlockState, rows: u16) -> BlockRow
    ensures { result.block ≡ block }
{
    BlockRow { block, state, rows }
}

/// What a map shows.
pub fn look_round<S: Store>(
    map: &BlockMap,
    store: &mut S,
    block: u32,
    state: BlockState,
) -> Result<Seen, StoreFault>
    requires going { (S.state store.old).ended ≡ false }
{
    let row = map.get(store, block)?;
    let listed = map.list(store, state)?;
    let rows = map.rows(store, state)?;
    let first_free = map.first_free(store)?;
    let free_behind = map.first_free_from(store, block.saturating_add(1))?;
    Ok(Seen {
        row,
        listed,
        rows,
        first_free,
        free_behind,
    })
}
