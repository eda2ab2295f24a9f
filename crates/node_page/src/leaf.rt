// Changes of a leaf.
ghost use Rattle.std.specs.Prelude.{◌≡◌, ◌+◌, ◌*◌, ◌<◌, ◌≤◌, List, [], length, slice_set};
ghost use Rattle.std.specs.List.{insert, remove};
ghost use Rattle.mdc_words.specs.ByteOrder.{Entry};
ghost use Rattle.node_page.specs.Node.{node_of, stated_entries, leaf_room};
ghost use Rattle.node_page.specs.Node.Node.{LeafNode};

use crate::slots::{
    HEAD_BYTES, LEAF_MARK, head_of, insert_bytes, lay_down, remove_bytes, set_count, short_at,
    slot_at,
};
use store_api::layout::PAGE_BYTES;
use store_api::{Page, put};

/// How many entries of a width have room in a leaf.
pub fn leaf_room(width: u16) -> usize
    requires { 0 < width }
    ensures { result ≡ leaf_room width }
{
    (PAGE_BYTES - HEAD_BYTES) / usize::from(width)
}

/// Makes a page of any bytes a leaf without entries.
pub fn make_leaf(page: &mut Page, width: u16)
    ensures { node_of width page.new ≡ LeafNode [] }
{
    lay_down(page, &head_of(LEAF_MARK, width, 0, 0), &[]);
}

/// Puts an entry in at a place of a leaf with room for one more. The page may hold any bytes; only what it becomes of a
/// leaf is told.
pub fn put_entry(page: &mut Page, width: u16, at: usize, entry: &[u8])
    requires wide { 0 < width }
    requires width { length entry.now ≡ width }
    requires place { at ≤ stated_entries page.old }
    requires room { (stated_entries page.old + 1) * width ≤ 4080 }
    ensures { (entries : List Entry) → node_of width page.old ≡ LeafNode entries → node_of width page.new ≡ LeafNode (insert entries at entry.now) }
{
    let count = short_at(page, 4);
    let width = usize::from(width);
    let end = slot_at(usize::from(count), width);
    insert_bytes(page, slot_at(at, width), end, entry);
    set_count(page, count + 1);
}

/// Takes the entry at a place out of a leaf.
pub fn take_entry(page: &mut Page, width: u16, at: usize)
    requires place { at < stated_entries page.old }
    requires fits { stated_entries page.old * width ≤ 4080 }
    ensures { (entries : List Entry) → node_of width page.old ≡ LeafNode entries → node_of width page.new ≡ LeafNode (remove entries at) }
{
    let count = short_at(page, 4);
    let width = usize::from(width);
    let end = slot_at(usize::from(count), width);
    remove_bytes(page, slot_at(at, width), width, end);
    set_count(page, count - 1);
}

/// Writes another entry over the one at a place of a leaf.
pub fn set_entry(page: &mut Page, width: u16, at: usize, entry: &[u8])
    requires width { length entry.now ≡ width }
    requires place { at < stated_entries page.old }
    requires fits { stated_entries page.old * width ≤ 4080 }
    ensures { (entries : List Entry) → node_of width page.old ≡ LeafNode entries → node_of width page.new ≡ LeafNode (slice_set entries at entry.now) }
{
    put(page, slot_at(at, usize::from(width)), entry);
}
