// Changes of an inner node.
ghost use Rattle.std.specs.Prelude.{◌≡◌, ◌+◌, ◌-◌, ◌*◌, ◌<◌, ◌≤◌, ℕ, List, [], ◌∷◌, length, drop, get_or, slice_set};
ghost use Rattle.std.specs.List.{insert, remove};
ghost use Rattle.mdc_words.specs.ByteOrder.{Entry};
ghost use Rattle.node_page.specs.Node.{node_of, stated_entries, inner_room};
ghost use Rattle.node_page.specs.Node.Node.{InnerNode};
ghost use Rattle.node_page.specs.Looked.{fork_width};

use crate::slots::{
    HEAD_BYTES, INNER_MARK, fork_step, head_of, insert_fork, lay_down, number_at, remove_bytes,
    set_count, short_at, slot_at,
};
use store_api::layout::PAGE_BYTES;
use store_api::{Page, put};

/// How many separators of a width, each with a child, have room in an inner node.
pub fn inner_room(width: u16) -> usize
    ensures { result ≡ inner_room width }
{
    (PAGE_BYTES - HEAD_BYTES) / fork_step(width)
}

/// Makes a page of any bytes an inner node over two children, as above the two halves of what was cut.
pub fn make_inner(page: &mut Page, width: u16, first: u32, separator: &[u8], second: u32)
    requires width { length separator.now ≡ width }
    requires room { fork_width width ≤ 4080 }
    ensures { node_of width page.new ≡ InnerNode (separator.now ∷ []) (first ∷ second ∷ []) }
{
    lay_down(page, &head_of(INNER_MARK, width, 0, first), &[]);
    insert_fork(page, HEAD_BYTES, HEAD_BYTES, separator, second);
    set_count(page, 1);
}

/// Puts a separator in at a place of an inner node with room for one more, and behind it the child of what stands from
/// it on.
pub fn put_fork(page: &mut Page, width: u16, at: usize, separator: &[u8], child: u32)
    requires width { length separator.now ≡ width }
    requires place { at ≤ stated_entries page.old }
    requires room { (stated_entries page.old + 1) * fork_width width ≤ 4080 }
    ensures { (separators : List Entry) (children : List ℕ) → node_of width page.old ≡ InnerNode separators children
        → node_of width page.new ≡ InnerNode (insert separators at separator.now) (insert children (at + 1) child) }
{
    let count = short_at(page, 4);
    let step = fork_step(width);
    let end = slot_at(usize::from(count), step);
    insert_fork(page, slot_at(at, step), end, separator, child);
    set_count(page, count + 1);
}

/// Takes a child out of an inner node that keeps a separator, and with it the separator before it, or behind it for the
/// first child.
pub fn take_fork(page: &mut Page, width: u16, at: usize)
    requires place { at ≤ stated_entries page.old }
    requires keeps { 1 < stated_entries page.old }
    requires fits { stated_entries page.old * fork_width width ≤ 4080 }
    ensures { (separators : List Entry) (children : List ℕ) → node_of width page.old ≡ InnerNode separators children
        → node_of width page.new ≡ InnerNode (remove separators (at - 1)) (remove children at) }
{
    if at == 0 {
        lead_with_second(page, width);
        drop_fork(page, width, 0);
    } else {
        drop_fork(page, width, at - 1);
    }
}

// Takes a separator out, and the child behind it.
fn drop_fork(page: &mut Page, width: u16, at: usize)
    requires place { at < stated_entries page.old }
    requires keeps { 1 < stated_entries page.old }
    requires fits { stated_entries page.old * fork_width width ≤ 4080 }
    ensures { (separators : List Entry) (children : List ℕ) → node_of width page.old ≡ InnerNode separators children
        → node_of width page.new ≡ InnerNode (remove separators at) (remove children (at + 1)) }
{
    let count = short_at(page, 4);
    let step = fork_step(width);
    let end = slot_at(usize::from(count), step);
    remove_bytes(page, slot_at(at, step), step, end);
    set_count(page, count - 1);
}

// Writes the second child over the first.
fn lead_with_second(page: &mut Page, width: u16)
    requires { fork_width width ≤ 4080 }
    ensures count { stated_entries page.new ≡ stated_entries page.old }
    ensures node { (separators : List Entry) (children : List ℕ) → node_of width page.old ≡ InnerNode separators children
        → node_of width page.new ≡ InnerNode separators (get_or children 1 0 ∷ drop 1 children) }
{
    let second = number_at(page, HEAD_BYTES + usize::from(width));
    put(page, 8, &second.to_be_bytes());
}

/// Writes another separator over the one at a place of an inner node.
pub fn set_separator(page: &mut Page, width: u16, at: usize, separator: &[u8])
    requires width { length separator.now ≡ width }
    requires place { at < stated_entries page.old }
    requires fits { stated_entries page.old * fork_width width ≤ 4080 }
    ensures { (separators : List Entry) (children : List ℕ) → node_of width page.old ≡ InnerNode separators children
        → node_of width page.new ≡ InnerNode (slice_set separators at separator.now) children }
{
    put(page, slot_at(at, fork_step(width)), separator);
}
