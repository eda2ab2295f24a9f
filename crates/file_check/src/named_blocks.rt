// Whether blocks are those of a table.
ghost use Rattle.std.specs.Prelude.{◌≡◌, ◌≢◌, ◌<◌, length, slice_index, true, false};
ghost use Rattle.extent_map.specs.declared.kind.Kind.{Kind};
ghost use Rattle.file_check.specs.BlockMapsJudged.{AreBlocksOf, AreNoBlocksOf, RiseFrom};

use extent_map::Kind;

/// Whether these blocks, which rise, are those of a table, where these are the kinds of all extents. It goes over both in step.
pub(crate) fn are_blocks_of(kinds: &[Kind], table: u8, blocks: &[u32]) -> bool
    requires { RiseFrom 0 blocks.now }
    ensures are { result ≡ true → AreBlocksOf kinds.now table blocks.now }
    ensures not { result ≡ false → AreNoBlocksOf kinds.now table blocks.now }
{
    let mut at = 0;
    for e in 0..kinds.len() {
        let owned = is_block_of(kinds[e], table);
        if is_at(blocks, at, e) {
            if !owned {
                return false;
            }
            at += 1;
            continue;
        }
        if owned {
            return false;
        }
    }
    at == blocks.len()
}

/// Whether a block stands at a place.
fn is_at(blocks: &[u32], at: usize, e: usize) -> bool
    ensures within { result ≡ true → at < length blocks.now }
    ensures is { result ≡ true → slice_index blocks.now at ≡ e }
    ensures not { result ≡ false → at < length blocks.now → slice_index blocks.now at ≢ e }
{
    at < blocks.len() && blocks[at] as usize == e
}

/// Whether an extent of a kind is a block of a table.
fn is_block_of(kind: Kind, table: u8) -> bool
    ensures is { result ≡ true → kind ≡ Kind.Block table }
    ensures not { result ≡ false → kind ≢ Kind.Block table }
{
    match kind {
        Kind::Block(owner) => owner == table,
        Kind::Free => false,
        Kind::Index(_) => false,
    }
}
