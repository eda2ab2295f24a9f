// Many entries that leave a leaf in one pass.
ghost use Rattle.std.specs.Prelude.{◌≡◌, ◌==◌, ◌+◌, ◌*◌, ◌<◌, ◌≤◌, List};
ghost use Rattle.std.specs.List.{list_any};
ghost use Rattle.mdc_words.specs.ByteOrder.{Entry};
ghost use Rattle.node_page.specs.Node.{bytes_in, node_of, number_within, stated_entries};
ghost use Rattle.node_page.specs.Node.Node.{LeafNode};
ghost use Rattle.store_api.specs.StoreState.{patched};
ghost use Rattle.node_page.specs.Entries.{count_named, without_blocks};

use crate::slots::{blank_bytes, number_at, set_count, short_at, slot_at};
use mdc_values::Blocks;
use store_api::Page;

/// Takes the entries from a place on out of a leaf whose four bytes at `at` name one of these blocks, and answers how
/// many they were.
pub fn drop_blocks(page: &mut Page, width: u16, from: usize, at: usize, blocks: &Blocks) -> usize
    requires named { at + 4 ≤ width }
    requires place { from ≤ stated_entries page.old }
    requires fits { stated_entries page.old * width ≤ 4080 }
    ensures entries { (entries : List Entry) → node_of width page.old ≡ LeafNode entries
        → node_of width page.new ≡ LeafNode (without_blocks blocks.now at from entries) }
    ensures count { stated_entries page.new + result ≡ stated_entries page.old }
{
    let count = usize::from(short_at(page, 4));
    let step = usize::from(width);
    let end = slot_at(count, step);
    let mut to = from;
    for i in from..count {
        if has_block(blocks, block_at(page, step, i, at)) {
            continue;
        }
        move_slot(page, step, i, to);
        to += 1;
    }
    blank_bytes(page, slot_at(to, step), end);
    set_count(page, to as u16);
    count - to
}

/// How many entries of a leaf from a place on name one of these blocks in their four bytes at `at`.
pub fn count_named(page: &Page, width: u16, from: usize, at: usize, blocks: &Blocks) -> usize
    requires named { at + 4 ≤ width }
    requires fits { stated_entries page.now * width ≤ 4080 }
    ensures entries { (entries : List Entry) → node_of width page.now ≡ LeafNode entries → result ≡ count_named blocks.now at from entries }
    ensures few { result < 65536 }
{
    let count = usize::from(short_at(page, 4));
    let step = usize::from(width);
    let mut named = 0;
    for i in from..count {
        if !has_block(blocks, block_at(page, step, i, at)) {
            continue;
        }
        named += 1;
    }
    named
}

// The number in the four bytes of an entry from a place on.
fn block_at(page: &Page, step: usize, i: usize, at: usize) -> u32
    requires named { at + 4 ≤ step }
    requires fits { (i + 1) * step ≤ 4080 }
    ensures { result ≡ number_within at 4 (bytes_in (16 + i * step) step page.now) }
{
    number_at(page, slot_at(i, step) + at)
}

// Writes a slot over one that isn't behind it.
fn move_slot(page: &mut Page, step: usize, i: usize, to: usize)
    requires order { to ≤ i }
    requires fits { (i + 1) * step ≤ 4080 }
    ensures { page.new ≡ patched (16 + to * step) (bytes_in (16 + i * step) step page.old) page.old }
{
    if to < i {
        let start = slot_at(i, step);
        page.copy_within(start..start + step, slot_at(to, step));
    }
}

// Whether a block is one of these.
fn has_block(blocks: &Blocks, block: u32) -> bool
    ensures { result ≡ list_any (λ b. b == block) blocks.now }
{
    blocks.as_slice().binary_search(&block).is_ok()
}
