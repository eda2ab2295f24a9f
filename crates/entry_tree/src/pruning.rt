// Nodes of a tree that lose an entry or a child, in place.
ghost use Rattle.std.specs.Prelude.{Option, ◌≡◌, ◌≢◌, ◌↔◌, ◌-◌, ◌*◌, ◌<◌, ◌≤◌, ℕ, List, length, false, IsTrue, IfOk, OnOk};
ghost use Rattle.std.specs.List.{remove};
ghost use Rattle.mdc_words.specs.ByteOrder.{Entry};
ghost use Rattle.node_page.specs.Looked.{fork_width};
ghost use Rattle.node_page.specs.Node.{node_of, stated_entries};
ghost use Rattle.node_page.specs.Node.Node.{LeafNode, InnerNode, NoNode};
ghost use Rattle.store_api.specs.Frame.{NoPage, OnlyPage};
ghost use Rattle.store_api.specs.Causes.{fault_of};
ghost use Rattle.store_api.specs.RunsOverPages.{RunsOverPages};
ghost use Rattle.entry_tree.specs.HeldTrees.{nodes_in};
ghost use Rattle.entry_tree.specs.Shown.{Shows};
ghost use Rattle.entry_tree.specs.TreeChanges.{IsPut};
ghost use Rattle.entry_tree.specs.Writing.{BreaksWhere};
ghost use Rattle.entry_tree.specs.Pruning.{HasLeafEntry, IsInnerFrom, IsSomeNode, HasBeside};

use crate::Tree;
use node_page::{NodeView, take_entry, take_fork};
use store_api::{Page, Pages, StoreFault, bring, write_page};

/// Takes the entry at a place out of a leaf.
pub(crate) fn take_from_leaf<P: Pages>(
    tree: &Tree,
    pages: &mut P,
    page: u32,
    at: usize,
) -> Result<(), StoreFault>
    requires going { (P.state pages.old).ended ≡ false }
    requires within { page < length (P.state pages.old).work }
    ensures taken { OnOk result ((items : List Entry) → nodes_in tree.now.width (P.state pages.old) page ≡ LeafNode items → at < length items
        → IsPut (nodes_in tree.now.width (P.state pages.old)) (nodes_in tree.now.width (P.state pages.new)) page (LeafNode (remove items at))) }
    ensures count { length (P.state pages.new).work ≡ length (P.state pages.old).work }
    ensures runs { RunsOverPages P.Pages (OnlyPage page) (OnlyPage page) (BreaksWhere tree.now (HasLeafEntry (nodes_in tree.now.width (P.state pages.old) page) at)) pages.old pages.new (fault_of result) }
{
    if !take_item(pages.edit(page)?, tree.width, at) {
        return Err(tree.damaged());
    }
    Ok(())
}

/// Takes a child out of an inner node that keeps two others at least.
pub(crate) fn take_from_inner<P: Pages>(
    tree: &Tree,
    pages: &mut P,
    page: u32,
    at: usize,
) -> Result<(), StoreFault>
    requires going { (P.state pages.old).ended ≡ false }
    requires within { page < length (P.state pages.old).work }
    ensures taken { OnOk result ((seps : List Entry) (children : List ℕ) → nodes_in tree.now.width (P.state pages.old) page ≡ InnerNode seps children → at ≤ length seps → 1 < length seps
        → IsPut (nodes_in tree.now.width (P.state pages.old)) (nodes_in tree.now.width (P.state pages.new)) page (InnerNode (remove seps (at - 1)) (remove children at))) }
    ensures count { length (P.state pages.new).work ≡ length (P.state pages.old).work }
    ensures runs { RunsOverPages P.Pages (OnlyPage page) (OnlyPage page) (BreaksWhere tree.now (IsInnerFrom (nodes_in tree.now.width (P.state pages.old) page) at 1)) pages.old pages.new (fault_of result) }
{
    if !take_child(pages.edit(page)?, tree.width, at) {
        return Err(tree.damaged());
    }
    Ok(())
}

/// How many entries a leaf has.
pub(crate) fn leaf_len<P: Pages>(tree: &Tree, pages: &mut P, page: u32) -> Result<usize, StoreFault>
    requires going { (P.state pages.old).ended ≡ false }
    requires within { page < length (P.state pages.old).work }
    ensures len { IfOk result (λ len. (items : List Entry) → nodes_in tree.now.width (P.state pages.old) page ≡ LeafNode items → len ≡ length items) }
    ensures same { (P.state pages.new).work ≡ (P.state pages.old).work }
    ensures runs { RunsOverPages P.Pages NoPage (OnlyPage page) (BreaksWhere tree.now ((items : List Entry) × (nodes_in tree.now.width (P.state pages.old) page ≡ LeafNode items))) pages.old pages.new (fault_of result) }
{
    bring(pages, page)?;
    match stated_len(pages.page(), tree.width) {
        Some(len) => Ok(len),
        None => Err(tree.damaged()),
    }
}

/// The one other child of an inner node with one separator. A node that has more has none such.
pub(crate) fn other_child<P: Pages>(
    tree: &Tree,
    pages: &mut P,
    page: u32,
    at: usize,
) -> Result<Option<u32>, StoreFault>
    requires going { (P.state pages.old).ended ≡ false }
    requires within { page < length (P.state pages.old).work }
    ensures beside { IfOk result (HasBeside (nodes_in tree.now.width (P.state pages.old) page) at) }
    ensures same { (P.state pages.new).work ≡ (P.state pages.old).work }
    ensures runs { RunsOverPages P.Pages NoPage (OnlyPage page) (BreaksWhere tree.now (IsInnerFrom (nodes_in tree.now.width (P.state pages.old) page) at 0)) pages.old pages.new (fault_of result) }
{
    bring(pages, page)?;
    match child_beside(pages.page(), tree.width, at) {
        Some(other) => Ok(other),
        None => Err(tree.damaged()),
    }
}

/// Gives a page what another holds, which is a node.
pub(crate) fn take_content<P: Pages>(
    tree: &Tree,
    pages: &mut P,
    page: u32,
    from: u32,
) -> Result<(), StoreFault>
    requires going { (P.state pages.old).ended ≡ false }
    requires within { page < length (P.state pages.old).work }
    ensures taken { OnOk result (IsSomeNode (nodes_in tree.now.width (P.state pages.old) from)
        → IsPut (nodes_in tree.now.width (P.state pages.old)) (nodes_in tree.now.width (P.state pages.new)) page (nodes_in tree.now.width (P.state pages.old) from)) }
    ensures count { length (P.state pages.new).work ≡ length (P.state pages.old).work }
    ensures runs { RunsOverPages P.Pages (OnlyPage page) (OnlyPage from) (BreaksWhere tree.now (IsSomeNode (nodes_in tree.now.width (P.state pages.old) from))) pages.old pages.new (fault_of result) }
{
    if from >= pages.count() {
        return Err(tree.damaged());
    }
    bring(pages, from)?;
    let content = *pages.page();
    if !is_node(&content, tree.width) {
        return Err(tree.damaged());
    }
    write_page(pages, page, &content)
}

// How many entries a leaf states.
fn stated_len(page: &Page, width: u16) -> Option<usize>
    ensures leaf { (items : List Entry) → node_of width page.now ≡ LeafNode items → result ≡ Some (length items) }
{
    let node = NodeView::look(page, width)?;
    if node.is_leaf() {
        Some(node.len())
    } else {
        None
    }
}

// Whether a page has the head of a node.
fn is_node(page: &Page, width: u16) -> bool
    ensures { node_of width page.now ≢ NoNode → IsTrue result }
{
    NodeView::look(page, width).is_some()
}

// What a page that is an inner node has besides one child.
fn child_beside(page: &Page, width: u16, at: usize) -> Option<Option<u32>>
    ensures known { (seps : List Entry) (children : List ℕ) → node_of width page.now ≡ InnerNode seps children → at ≤ length seps → 0 < length seps
        → (other : Option ℕ) × (result ≡ Some other) × HasBeside (InnerNode seps children) at other }
    ensures right { (seps : List Entry) (children : List ℕ) (other : Option ℕ) → node_of width page.now ≡ InnerNode seps children → result ≡ Some other → HasBeside (InnerNode seps children) at other }
{
    let node = NodeView::look(page, width)?;
    if node.is_leaf() || node.len() == 0 || at > node.len() {
        return None;
    }
    if node.len() > 1 {
        return Some(None);
    }
    Some(Some(node.child(1 - at)))
}

// Takes the entry at a place out of a page that is a leaf with an entry there. Whether it is one.
fn take_item(page: &mut Page, width: u16, at: usize) -> bool
    ensures { (items : List Entry) → node_of width page.old ≡ LeafNode items → at < length items → IsTrue result × (node_of width page.new ≡ LeafNode (remove items at)) }
{
    if !has_item(page, width, at) {
        return false;
    }
    take_entry(page, width, at);
    true
}

/// Whether a page is a leaf with an entry at a place.
pub(crate) fn has_item(page: &Page, width: u16, at: usize) -> bool
    ensures leaf { (items : List Entry) → node_of width page.now ≡ LeafNode items → at < length items → IsTrue result }
    ensures only { (items : List Entry) → node_of width page.now ≡ LeafNode items → IsTrue result → at < length items }
    ensures shown { (items : List Entry) → Shows width page.now (LeafNode items) → IsTrue result ↔ (at < length items) }
    ensures within { IsTrue result → at < stated_entries page.now }
    ensures fits { IsTrue result → stated_entries page.now * width ≤ 4080 }
{
    match NodeView::look(page, width) {
        Some(node) => node.is_leaf() && at < node.len(),
        None => false,
    }
}

// Takes a child out of a page that is an inner node with more than one separator. Whether it is one.
fn take_child(page: &mut Page, width: u16, at: usize) -> bool
    ensures { (seps : List Entry) (children : List ℕ) → node_of width page.old ≡ InnerNode seps children → at ≤ length seps → 1 < length seps
        → IsTrue result × (node_of width page.new ≡ InnerNode (remove seps (at - 1)) (remove children at)) }
{
    if !has_child(page, width, at) {
        return false;
    }
    take_fork(page, width, at);
    true
}

// Whether a page is an inner node with a child at a place and more than one separator.
fn has_child(page: &Page, width: u16, at: usize) -> bool
    ensures inner { (seps : List Entry) (children : List ℕ) → node_of width page.now ≡ InnerNode seps children → at ≤ length seps → 1 < length seps → IsTrue result }
    ensures within { IsTrue result → at ≤ stated_entries page.now }
    ensures some { IsTrue result → 1 < stated_entries page.now }
    ensures fits { IsTrue result → stated_entries page.now * fork_width width ≤ 4080 }
{
    match NodeView::look(page, width) {
        Some(node) => !node.is_leaf() && node.len() > 1 && at <= node.len(),
        None => false,
    }
}
