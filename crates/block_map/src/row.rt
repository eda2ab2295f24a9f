// What a block map says of a block, and its entry.
ghost use Rattle.std.specs.Prelude.{◌≡◌, ◌<◌, ◌^◌, length, MatchOption, IfSome};
ghost use Rattle.node_page.specs.Node.{number_within};
ghost use Rattle.block_map.specs.MapLines.{map_entry};
ghost use Rattle.block_map.specs.MapRows.{row_entry};

use crate::BlockState;
use store_api::layout::BLOCK_MAP_WIDTH;

/// How many bytes an entry has.
const ENTRY_BYTES: usize = BLOCK_MAP_WIDTH as usize;

/// A block, its state, and how many rows it has.
#[derive(Clone, Copy, Debug, PartialEq, Eq)]
pub struct BlockRow {
    /// The number of the block.
    pub block: u32,
    /// What it is used for.
    pub state: BlockState,
    /// How many rows it has.
    pub rows: u16,
}

impl BlockRow {
    /// The bytes of its entry.
    pub(crate) fn entry(&self) -> [u8; ENTRY_BYTES]
        ensures entry { result ≡ row_entry self.now }
        ensures length { length result ≡ 7 }
    {
        let block = self.block.to_be_bytes();
        let rows = self.rows.to_be_bytes();
        [
            block[0],
            block[1],
            block[2],
            block[3],
            self.state.number(),
            rows[0],
            rows[1],
        ]
    }

    /// The row of an entry. None where its state is above 2.
    pub(crate) fn of(entry: &[u8]) -> Option<BlockRow>
        requires { length entry.now ≡ 7 }
        ensures row { MatchOption result (2 < number_within 4 1 entry.now) (λ row. entry.now ≡ row_entry row) }
        ensures small { IfSome result (λ row. row.block < 2 ^ 32) }
        ensures few { IfSome result (λ row. row.rows < 2 ^ 16) }
    {
        let state = BlockState::of(entry[4])?;
        Some(BlockRow {
            block: u32::from_be_bytes([entry[0], entry[1], entry[2], entry[3]]),
            state,
            rows: u16::from_be_bytes([entry[5], entry[6]]),
        })
    }
}

/// The lowest entry that a block may have.
pub(crate) fn lowest_entry(block: u32) -> [u8; ENTRY_BYTES]
    ensures entry { result ≡ map_entry block 0 0 }
    ensures length { length result ≡ 7 }
{
    let row = BlockRow {
        block,
        state: BlockState::Free,
        rows: 0,
    };
    row.entry()
}
