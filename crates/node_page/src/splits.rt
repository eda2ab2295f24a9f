// A full node and one entry more, cut in two.
ghost use Rattle.std.specs.Prelude.{◌≡◌, ◌+◌, ◌-◌, ◌*◌, ◌<◌, ◌≤◌, ℕ, List, [], length, take, drop, get_or};
ghost use Rattle.std.specs.List.{insert};
ghost use Rattle.mdc_words.specs.ByteOrder.{Entry};
ghost use Rattle.node_page.specs.Node.{node_of, stated_entries};
ghost use Rattle.node_page.specs.Node.Node.{LeafNode, InnerNode};
ghost use Rattle.node_page.specs.Entries.{lower_half, middle_place};
ghost use Rattle.node_page.specs.Looked.{fork_width};

use crate::inner::put_fork;
use crate::leaf::put_entry;
use crate::slots::{
    INNER_MARK, LEAF_MARK, blank_bytes, fork_step, head_of, lay_down, number_at, set_count,
    short_at, slot_at,
};
use store_api::Page;

/// Puts an entry in at a place of a leaf and cuts it in two: the lower half stays, the upper goes to a page of any bytes.
/// Both hold an entry at least, and of a full leaf each is at least half full. The first entry of the upper leaf is the
/// separator between them.
pub fn split_leaf(page: &mut Page, width: u16, at: usize, entry: &[u8], upper: &mut Page)
    requires wide { 0 < width }
    requires width { length entry.now ≡ width }
    requires place { at ≤ stated_entries page.old }
    requires some { 1 ≤ stated_entries page.old }
    requires fits { stated_entries page.old * width ≤ 4080 }
    ensures lower { (entries : List Entry) → node_of width page.old ≡ LeafNode entries
        → node_of width page.new ≡ LeafNode (take (lower_half (length entries)) (insert entries at entry.now)) }
    ensures upper { (entries : List Entry) → node_of width page.old ≡ LeafNode entries
        → node_of width upper.new ≡ LeafNode (drop (lower_half (length entries)) (insert entries at entry.now)) }
{
    let half = usize::from(short_at(page, 4)) / 2 + 1;
    if at < half {
        cut_leaf(page, width, half - 1, upper);
        put_entry(page, width, at, entry);
    } else {
        cut_leaf(page, width, half, upper);
        put_entry(upper, width, at - half, entry);
    }
}

// Cuts a leaf: the entries from a place on go to a page of any bytes.
fn cut_leaf(page: &mut Page, width: u16, keep: usize, upper: &mut Page)
    requires place { keep ≤ stated_entries page.old }
    requires fits { stated_entries page.old * width ≤ 4080 }
    ensures counted { stated_entries page.new ≡ keep }
    ensures counted_upper { stated_entries upper.new + keep ≡ stated_entries page.old }
    ensures lower { (entries : List Entry) → node_of width page.old ≡ LeafNode entries → node_of width page.new ≡ LeafNode (take keep entries) }
    ensures upper { (entries : List Entry) → node_of width page.old ≡ LeafNode entries → node_of width upper.new ≡ LeafNode (drop keep entries) }
{
    let count = short_at(page, 4);
    let step = usize::from(width);
    let end = slot_at(usize::from(count), step);
    let cut = slot_at(keep, step);
    let kept = keep as u16;
    let head = head_of(LEAF_MARK, width, count - kept, 0);
    lay_down(upper, &head, &page[cut..end]);
    blank_bytes(page, cut, end);
    set_count(page, kept);
}

/// Puts a separator in at a place of an inner node, with the child behind it, and cuts the node in two around another
/// separator, which goes to `middle`: what stands below it stays, what stands above it goes to a page of any bytes, under
/// the child that stood behind it.
pub fn split_inner(
    page: &mut Page,
    width: u16,
    at: usize,
    separator: &[u8],
    child: u32,
    upper: &mut Page,
    middle: &mut [u8],
)
    requires width { length separator.now ≡ width }
    requires room { length middle.old ≡ width }
    requires place { at ≤ stated_entries page.old }
    requires some { 3 ≤ stated_entries page.old }
    requires fits { stated_entries page.old * fork_width width ≤ 4080 }
    ensures middle { (separators : List Entry) (children : List ℕ) → node_of width page.old ≡ InnerNode separators children
        → middle.new ≡ get_or (insert separators at separator.now) (middle_place (length separators) at) [] }
    ensures lower { (separators : List Entry) (children : List ℕ) → node_of width page.old ≡ InnerNode separators children
        → let m = middle_place (length separators) at in
        node_of width page.new ≡ InnerNode (take m (insert separators at separator.now)) (take (m + 1) (insert children (at + 1) child)) }
    ensures upper { (separators : List Entry) (children : List ℕ) → node_of width page.old ≡ InnerNode separators children
        → let m = middle_place (length separators) at in
        node_of width upper.new ≡ InnerNode (drop (m + 1) (insert separators at separator.now)) (drop (m + 1) (insert children (at + 1) child)) }
{
    let half = usize::from(short_at(page, 4)) / 2;
    cut_inner(page, width, half, upper, middle);
    if at <= half {
        put_fork(page, width, at, separator, child);
    } else {
        put_fork(upper, width, at - half - 1, separator, child);
    }
}

// Cuts an inner node around the separator at a place.
fn cut_inner(page: &mut Page, width: u16, keep: usize, upper: &mut Page, middle: &mut [u8])
    requires room { length middle.old ≡ width }
    requires lower { 1 ≤ keep }
    requires upper { keep + 1 < stated_entries page.old }
    requires fits { stated_entries page.old * fork_width width ≤ 4080 }
    ensures counted { stated_entries page.new ≡ keep }
    ensures counted_upper { stated_entries upper.new + keep + 1 ≡ stated_entries page.old }
    ensures middle { (separators : List Entry) (children : List ℕ) → node_of width page.old ≡ InnerNode separators children
        → middle.new ≡ get_or separators keep [] }
    ensures lower { (separators : List Entry) (children : List ℕ) → node_of width page.old ≡ InnerNode separators children
        → node_of width page.new ≡ InnerNode (take keep separators) (take (keep + 1) children) }
    ensures upper { (separators : List Entry) (children : List ℕ) → node_of width page.old ≡ InnerNode separators children
        → node_of width upper.new ≡ InnerNode (drop (keep + 1) separators) (drop (keep + 1) children) }
{
    let count = short_at(page, 4);
    let step = fork_step(width);
    let end = slot_at(usize::from(count), step);
    let cut = slot_at(keep, step);
    let child_at = cut + usize::from(width);
    let kept = keep as u16;
    middle.copy_from_slice(&page[cut..child_at]);
    let child = number_at(page, child_at);
    let head = head_of(INNER_MARK, width, count - kept - 1, child);
    lay_down(upper, &head, &page[cut + step..end]);
    blank_bytes(page, cut, end);
    set_count(page, kept);
}
