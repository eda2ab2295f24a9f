// What the entries of a block map name.
ghost use Rattle.std.specs.Prelude.{◌≡◌, ◌<◌, ◌≤◌, ◌⊎◌, None, length, IfOk, MatchOption};
ghost use Rattle.entry_tree.specs.Entries.{AreOfWidth};
ghost use Rattle.entry_tree.specs.EntryBounds.{Rises};
ghost use Rattle.block_map.specs.MapLines.{IsMapEntry, map_line};
ghost use Rattle.file_check.specs.BlockMapsJudged.{HaveNoForm, NameBlocks};

use byteorder::{BigEndian, ByteOrder};
use entry_tree::Entries;
use std::alloc::{AllocError, Global};

/// Where an entry has its state, behind the block.
const STATE_AT: usize = 4;

/// The highest state of a block.
const HIGHEST_STATE: u8 = 2;

/// The blocks that the entries of a block map name, in their order. None where they haven't the form of one: a state is none of
/// the three, or a block isn't above the one before.
pub(crate) fn blocks_named(alloc: Global, entries: &Entries) -> Result<Option<Vec<u32>>, AllocError>
    requires { AreOfWidth 7 entries.now }
    ensures { IfOk result (λ named. MatchOption named (Rises None None entries.now → HaveNoForm entries.now) (λ blocks. NameBlocks entries.now blocks.items)) }
{
    let mut blocks = Vec::new(alloc);
    let mut from = 0;
    for i in 0..entries.len() {
        let Some(block) = block_named(entries.at(i), from) else {
            return Ok(None);
        };
        blocks.push(block)?;
        from = u64::from(block) + 1;
    }
    Ok(Some(blocks))
}

/// The block that an entry names. None where it has none of the three states, or the block lies below a number.
fn block_named(entry: &[u8], from: u64) -> Option<u32>
    requires { length entry.now ≡ 7 }
    ensures written { IsMapEntry entry.now }
    ensures named { MatchOption result ((2 < (map_line entry.now).state) ⊎ ((map_line entry.now).block < from))
        (λ block. (block ≡ (map_line entry.now).block) × ((map_line entry.now).state ≤ 2) × (from ≤ block)) }
{
    let block = BigEndian::read_u32(entry);
    if entry[STATE_AT] > HIGHEST_STATE {
        return None;
    }
    if u64::from(block) < from {
        return None;
    }
    Some(block)
}
