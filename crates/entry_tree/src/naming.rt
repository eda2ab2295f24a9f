// Entries of one leaf that name a block of a set.
ghost use Rattle.std.specs.Prelude.{◌≡◌, ◌+◌, ◌<◌, ◌≤◌, List, length, false, IsTrue, IfOk, IfSome, OnOk};
ghost use Rattle.mdc_words.specs.ByteOrder.{Entry};
ghost use Rattle.node_page.specs.Entries.{without_blocks};
ghost use Rattle.node_page.specs.Node.{node_of};
ghost use Rattle.node_page.specs.Node.Node.{LeafNode};
ghost use Rattle.store_api.specs.Causes.{fault_of};
ghost use Rattle.store_api.specs.Frame.{NoPage, OnlyPage};
ghost use Rattle.store_api.specs.RunsOverPages.{RunsOverPages};
ghost use Rattle.entry_tree.specs.HeldTrees.{nodes_in};
ghost use Rattle.entry_tree.specs.Pruning.{HasLeafEntry};
ghost use Rattle.entry_tree.specs.Sweeping.{named_of};
ghost use Rattle.entry_tree.specs.TreeChanges.{IsPut};
ghost use Rattle.entry_tree.specs.Writing.{BreaksWhere};

use crate::Tree;
use crate::pruning::has_item;
use mdc_values::Blocks;
use node_page::{NodeView, count_named, drop_blocks};
use store_api::{Page, Pages, StoreFault, bring};

/// How many entries of a leaf name a block.
#[derive(Clone, Copy, Debug)]
pub struct Named {
    /// These are to go.
    pub(crate) going: usize,
    /// All that the leaf has.
    pub(crate) of: usize,
}

/// Counts the entries of a leaf from a place on whose four bytes at `at` name one of these blocks.
pub(crate) fn count_in_leaf<P: Pages>(
    tree: &Tree,
    pages: &mut P,
    page: u32,
    from: usize,
    at: usize,
    blocks: &Blocks,
) -> Result<Named, StoreFault>
    requires named { at + 4 ≤ tree.now.width }
    requires going { (P.state pages.old).ended ≡ false }
    requires within { page < length (P.state pages.old).work }
    ensures counts { IfOk result (λ named. (items : List Entry) → nodes_in tree.now.width (P.state pages.old) page ≡ LeafNode items → named ≡ named_of blocks.now at from items) }
    ensures few { IfOk result (λ named. named.going < 65536) }
    ensures same { (P.state pages.new).work ≡ (P.state pages.old).work }
    ensures runs { RunsOverPages P.Pages NoPage (OnlyPage page) (BreaksWhere tree.now ((items : List Entry) × (nodes_in tree.now.width (P.state pages.old) page ≡ LeafNode items))) pages.old pages.new (fault_of result) }
{
    bring(pages, page)?;
    match named_on(pages.page(), tree.width, from, at, blocks) {
        Some(named) => Ok(named),
        None => Err(tree.damaged()),
    }
}

/// Takes those entries out of a leaf.
pub(crate) fn sweep_page<P: Pages>(
    tree: &Tree,
    pages: &mut P,
    page: u32,
    from: usize,
    at: usize,
    blocks: &Blocks,
) -> Result<(), StoreFault>
    requires named { at + 4 ≤ tree.now.width }
    requires going { (P.state pages.old).ended ≡ false }
    requires within { page < length (P.state pages.old).work }
    ensures swept { OnOk result ((items : List Entry) → nodes_in tree.now.width (P.state pages.old) page ≡ LeafNode items → from < length items
        → IsPut (nodes_in tree.now.width (P.state pages.old)) (nodes_in tree.now.width (P.state pages.new)) page (LeafNode (without_blocks blocks.now at from items))) }
    ensures count { length (P.state pages.new).work ≡ length (P.state pages.old).work }
    ensures runs { RunsOverPages P.Pages (OnlyPage page) (OnlyPage page) (BreaksWhere tree.now (HasLeafEntry (nodes_in tree.now.width (P.state pages.old) page) from)) pages.old pages.new (fault_of result) }
{
    if !sweep_items(pages.edit(page)?, tree.width, from, at, blocks) {
        return Err(tree.damaged());
    }
    Ok(())
}

// The count on the bytes of the page, which is a leaf.
fn named_on(page: &Page, width: u16, from: usize, at: usize, blocks: &Blocks) -> Option<Named>
    requires { at + 4 ≤ width }
    ensures counts { (items : List Entry) → node_of width page.now ≡ LeafNode items → result ≡ Some (named_of blocks.now at from items) }
    ensures few { IfSome result (λ named. named.going < 65536) }
{
    let node = NodeView::look(page, width)?;
    if !node.is_leaf() {
        return None;
    }
    let going = count_named(page, width, from, at, blocks);
    Some(Named {
        going,
        of: node.len(),
    })
}

// The same sweep on the bytes of the page. Whether it is a leaf with an entry at that place.
fn sweep_items(page: &mut Page, width: u16, from: usize, at: usize, blocks: &Blocks) -> bool
    requires { at + 4 ≤ width }
    ensures { (items : List Entry) → node_of width page.old ≡ LeafNode items → from < length items
        → IsTrue result × (node_of width page.new ≡ LeafNode (without_blocks blocks.now at from items)) }
{
    if !has_item(page, width, from) {
        return false;
    }
    drop_blocks(page, width, from, at, blocks);
    true
}
