// The branches of a tree that are left to be judged, and a page that is judged as the node of one.
ghost use Rattle.std.specs.Prelude.{◌≡◌, ◌≤◌, ◌+◌, ◌++◌, IsTrue, ◌↔◌, true, false, length, reverse, IfOk, OnOk};
ghost use Rattle.node_page.specs.Entries.{EntriesRise};
ghost use Rattle.node_page.specs.Looked.{children_in, entries_in, is_leaf_node};
ghost use Rattle.node_page.specs.Node.{node_of};
ghost use Rattle.entry_tree.specs.EntryBounds.{AtLeast, Rises, Room, Under};
ghost use Rattle.file_check.specs.Branches.{GoesOnBehind, IsFitNode, IsTrimAt, branches_of};

use block_index::is_below;
use entry_tree::{Entry, Tree};
use node_page::NodeView;
use std::alloc::AllocError;
use store_api::Page;

/// A branch of a tree that is left to be judged.
#[derive(Drop)]
pub(crate) struct Branch {
    /// Its page.
    pub(crate) page: u32,
    /// Its entries lie below this, where there is a bound.
    pub(crate) high: Option<Entry>,
}

/// Judges the page of a branch by itself: whether it is a node of the tree's width, whose entries lie between the bounds, and which
/// holds an entry unless it is the root. Where it is so, its own branches are put in its place, of those that are left the last.
pub(crate) fn judge_node(
    page: &Page,
    tree: &Tree,
    branch: Branch,
    low: &mut Option<Entry>,
    left: &mut Vec<Branch>,
) -> Result<bool, AllocError>
    ensures fit { IfOk result (λ fits. fits ≡ true → IsFitNode tree.now.root low.old branch (node_of tree.now.width page.now)) }
    ensures unfit { IfOk result (λ fits. fits ≡ false → IsFitNode tree.now.root low.old branch (node_of tree.now.width page.now) → ⊥) }
    ensures behind { IfOk result (λ fits. fits ≡ true
        → GoesOnBehind branch (node_of tree.now.width page.now) low.old left.old.items low.new left.new.items) }
{
    let Some(view) = NodeView::read(page, tree.width) else {
        return Ok(false);
    };
    if !has_room(low, &branch.high) {
        return Ok(false);
    }
    if !view.is_leaf() {
        push_branches(&view, branch.high, left)?;
        return Ok(true);
    }
    if !is_leaf_fit(&view, tree.root, low, &branch) {
        return Ok(false);
    }
    *low = branch.high;
    Ok(true)
}

/// Puts the branches of an inner node last, the first of them behind all.
fn push_branches(
    view: &NodeView,
    high: Option<Entry>,
    left: &mut Vec<Branch>,
) -> Result<(), AllocError>
    requires inner { is_leaf_node view.now.node ≡ false }
    requires narrow { view.now.width ≤ 134 }
    ensures { OnOk result (length (children_in view.now.node) ≡ length (entries_in view.now.node) + 1
        → reverse left.new.items ≡ branches_of (entries_in view.now.node) (children_in view.now.node) high ++ reverse left.old.items) }
{
    let mut i = view.len();
    left.push(Branch {
        page: view.child(i),
        high,
    })?;
    while i > 0 {
        i -= 1;
        left.push(Branch {
            page: view.child(i),
            high: Some(Entry::of(view.entry(i))),
        })?;
    }
    Ok(())
}

/// Whether the entries of a leaf lie between the bounds, and there are some unless it is the root.
fn is_leaf_fit(view: &NodeView, root: u32, low: &Option<Entry>, branch: &Branch) -> bool
    requires { EntriesRise (entries_in view.now.node) }
    ensures rises { result ≡ true → Rises low.now branch.now.high (entries_in view.now.node) }
    ensures trim { result ≡ true → IsTrimAt root branch.now.page view.now.node }
    ensures unfit { result ≡ false → Rises low.now branch.now.high (entries_in view.now.node) → IsTrimAt root branch.now.page view.now.node → is_leaf_node view.now.node ≡ true → ⊥ }
{
    let count = view.len();
    if count == 0 {
        return branch.page == root;
    }
    is_at_least(view.entry(0), low) && is_under(view.entry(count - 1), &branch.high)
}

/// Whether a low bound lies below a high one.
fn has_room(low: &Option<Entry>, high: &Option<Entry>) -> bool
    ensures { IsTrue result ↔ Room low.now high.now }
{
    match low {
        None => true,
        Some(low) => is_under(low.bytes(), high),
    }
}

/// Whether an entry lies at or above a bound.
fn is_at_least(entry: &[u8], low: &Option<Entry>) -> bool
    ensures { IsTrue result ↔ AtLeast low.now entry.now }
{
    match low {
        None => true,
        Some(low) => !is_below(entry, low.bytes()),
    }
}

/// Whether an entry lies below a bound.
fn is_under(entry: &[u8], high: &Option<Entry>) -> bool
    ensures { IsTrue result ↔ Under high.now entry.now }
{
    match high {
        None => true,
        Some(high) => is_below(entry, high.bytes()),
    }
}
