// Pages that are changed as nodes, where they are such nodes.
ghost use Rattle.std.specs.Prelude.{◌≡◌, ◌+◌, ◌*◌, ◌<◌, ◌≤◌, ℕ, List, [], length, get_or, true, false, Some, IfSome};
ghost use Rattle.std.specs.List.{insert};
ghost use Rattle.mdc_words.specs.ByteOrder.{Entry};
ghost use Rattle.node_page.specs.Node.{node_of, stated_entries, is_full};
ghost use Rattle.node_page.specs.Node.Node.{LeafNode, InnerNode};
ghost use Rattle.node_page.specs.Looked.{fork_width};
ghost use Rattle.entry_tree.specs.Writing.{IsLeafWith, IsInnerWith, SplitsLeaf, SplitsInner};

use crate::tree::MAX_WIDTH;
use node_page::{NodeView, put_entry, put_fork, split_inner, split_leaf};
use store_api::Page;

/// How many entries a page has where it is a leaf, and whether it is full.
fn leaf_state(page: &Page, width: u16) -> Option<(usize, bool)>
    requires wide { 0 < width }
    ensures known { (items : List Entry) → node_of width page.now ≡ LeafNode items → result ≡ Some (record { 0 = length items; 1 = is_full width (LeafNode items) }) }
    ensures count { IfSome result (λ state. state.0 ≡ stated_entries page.now) }
    ensures fits { IfSome result (λ state. stated_entries page.now * width ≤ 4080) }
    ensures room { IfSome result (λ state. state.1 ≡ false → (stated_entries page.now + 1) * width ≤ 4080) }
{
    let Some(view) = NodeView::look(page, width) else {
        return None;
    };
    if !view.is_leaf() {
        return None;
    }
    Some((view.len(), view.is_full()))
}

/// How many separators a page has where it is an inner node, and whether it is full.
fn inner_state(page: &Page, width: u16) -> Option<(usize, bool)>
    requires wide { 0 < width }
    ensures known { (seps : List Entry) (children : List ℕ) → node_of width page.now ≡ InnerNode seps children → result ≡ Some (record { 0 = length seps; 1 = is_full width (InnerNode seps children) }) }
    ensures count { IfSome result (λ state. state.0 ≡ stated_entries page.now) }
    ensures fits { IfSome result (λ state. stated_entries page.now * fork_width width ≤ 4080) }
    ensures room { IfSome result (λ state. state.1 ≡ false → (stated_entries page.now + 1) * fork_width width ≤ 4080) }
{
    let Some(view) = NodeView::look(page, width) else {
        return None;
    };
    if view.is_leaf() {
        return None;
    }
    Some((view.len(), view.is_full()))
}

/// Puts an entry in at a place of a leaf with room for it. Whether the page was one.
pub(crate) fn insert_entry(page: &mut Page, width: u16, at: usize, entry: &[u8]) -> bool
    requires wide { 0 < width }
    requires width { length entry.now ≡ width }
    ensures done { result ≡ true → (items : List Entry) → node_of width page.old ≡ LeafNode items → node_of width page.new ≡ LeafNode (insert items at entry.now) }
    ensures known { IsLeafWith width (node_of width page.old) at false → result ≡ true }
{
    let Some((count, full)) = leaf_state(page, width) else {
        return false;
    };
    if full || at > count {
        return false;
    }
    put_entry(page, width, at, entry);
    true
}

/// Puts an entry in at a place of a full leaf, and cuts it in two: the upper half goes to a page of any bytes, and its first
/// entry is written. Whether the page was such a leaf.
pub(crate) fn split_entries(
    page: &mut Page,
    width: u16,
    at: usize,
    entry: &[u8],
    upper: &mut Page,
    separator: &mut [u8],
) -> bool
    requires wide { 5 ≤ width }
    requires narrow { width ≤ 134 }
    requires width { length entry.now ≡ width }
    requires separator { length separator.old ≡ width }
    ensures done { result ≡ true → (items : List Entry) → node_of width page.old ≡ LeafNode items → SplitsLeaf width (insert items at entry.now) (node_of width page.new) (node_of width upper.new) separator.new }
    ensures known { IsLeafWith width (node_of width page.old) at true → result ≡ true }
{
    let Some((count, full)) = leaf_state(page, width) else {
        return false;
    };
    if !full || at > count || count == 0 {
        return false;
    }
    split_leaf(page, width, at, entry, upper);
    copy_first(upper, width, separator);
    true
}

// Writes the first entry of a node that has one.
fn copy_first(page: &Page, width: u16, entry: &mut [u8])
    requires { length entry.old ≡ width }
    ensures { (items : List Entry) → node_of width page.now ≡ LeafNode items → 0 < length items → entry.new ≡ get_or items 0 [] }
{
    if let Some(view) = NodeView::look(page, width) {
        if view.len() > 0 {
            entry.copy_from_slice(view.entry(0));
        }
    }
}

/// Puts a separator and the child behind it in at a place of an inner node with room for them. Whether the page was one.
pub(crate) fn insert_separator(
    page: &mut Page,
    width: u16,
    at: usize,
    separator: &[u8],
    child: u32,
) -> bool
    requires wide { 0 < width }
    requires width { length separator.now ≡ width }
    ensures done { result ≡ true → (seps : List Entry) (children : List ℕ) → node_of width page.old ≡ InnerNode seps children
        → node_of width page.new ≡ InnerNode (insert seps at separator.now) (insert children (at + 1) child) }
    ensures known { IsInnerWith width (node_of width page.old) at false → result ≡ true }
{
    let Some((count, full)) = inner_state(page, width) else {
        return false;
    };
    if full || at > count {
        return false;
    }
    put_fork(page, width, at, separator, child);
    true
}

/// Puts a separator and the child behind it in at a place of a full inner node, and cuts it in two: the upper half goes to a
/// page of any bytes, and what stands between the two is written over the separator. Whether the page was such a node.
pub(crate) fn split_separators(
    page: &mut Page,
    width: u16,
    at: usize,
    separator: &mut [u8],
    child: u32,
    upper: &mut Page,
) -> bool
    requires wide { 5 ≤ width }
    requires narrow { width ≤ 134 }
    requires separator { length separator.old ≡ width }
    ensures done { result ≡ true → (seps : List Entry) (children : List ℕ) → node_of width page.old ≡ InnerNode seps children
        → SplitsInner (insert seps at separator.old) (insert children (at + 1) child) (node_of width page.new) (node_of width upper.new) separator.new }
    ensures known { IsInnerWith width (node_of width page.old) at true → result ≡ true }
{
    let Some((count, full)) = inner_state(page, width) else {
        return false;
    };
    if !full || at > count || count < 3 {
        return false;
    }
    let mut bytes = [0; MAX_WIDTH];
    let middle = &mut bytes[..usize::from(width)];
    split_inner(page, width, at, separator, child, upper, middle);
    separator.copy_from_slice(middle);
    true
}
