// What a search sees on one page.
ghost use Rattle.std.specs.Prelude.{◌≡◌, ◌<◌, ℕ, List, length, false, Some, IsSome, IsTrue, IfOk, OnOk};
ghost use Rattle.mdc_words.specs.ByteOrder.{Entry};
ghost use Rattle.store_api.specs.Frame.{OnlyPage, NoPage};
ghost use Rattle.store_api.specs.StoreState.{page_at};
ghost use Rattle.store_api.specs.Causes.{fault_of, NoDamage};
ghost use Rattle.store_api.specs.RunsOverPages.{RunsOverPages};
ghost use Rattle.node_page.specs.Node.Node.{LeafNode};
ghost use Rattle.node_page.specs.Looked.{looked};
ghost use Rattle.entry_tree.specs.HeldTrees.{nodes_in};
ghost use Rattle.entry_tree.specs.Shown.{ShowsSight};
ghost use Rattle.entry_tree.specs.Sight.{Sees};
ghost use Rattle.entry_tree.specs.Spots.{LendsLeaf};

use crate::Tree;
use node_page::NodeView;
use store_api::{Pages, StoreFault, bring};

/// What a search for an entry sees on a page: no node, where the entry belongs in a leaf, or below which child of a node.
#[derive(Drop)]
pub(crate) enum Sight {
    /// The page isn't a node of the tree's width.
    Nothing,
    /// The place of the entry in a leaf, whether it is there, and whether the leaf is full.
    AtLeaf(usize, bool, bool),
    /// The place of the child below which the entry belongs, that child, and whether the node is full.
    AtInner(usize, u32, bool),
}

/// Looks for an entry on one page of a tree. It is a part of each loop that goes down, so that what it sees needn't be laid
/// down in memory.
#[inline(always)]
pub(crate) fn see<P: Pages>(
    pages: &mut P,
    tree: &Tree,
    page: u32,
    entry: &[u8],
) -> Result<Sight, StoreFault>
    requires width { length entry.now ≡ tree.now.width }
    requires going { (P.state pages.old).ended ≡ false }
    requires within { page < length (P.state pages.old).work }
    ensures sees { IfOk result (λ sight. Sees tree.now.width (nodes_in tree.now.width (P.state pages.old) page) entry.now sight) }
    ensures shown { IfOk result (λ sight. IsTrue (P.state pages.old).is_told → ShowsSight tree.now.width (page_at (P.state pages.old).work page) entry.now sight) }
    ensures at_hand { OnOk result (IsTrue (P.state pages.old).is_told → (P.state pages.new).hand ≡ Some (page_at (P.state pages.old).work page)) }
    ensures hand { OnOk result (IsSome (P.state pages.new).hand) }
    ensures lent { OnOk result ((items : List Entry) → nodes_in tree.now.width (P.state pages.old) page ≡ LeafNode items → LendsLeaf tree.now.width (P.state pages.new).hand items) }
    ensures same { (P.state pages.new).work ≡ (P.state pages.old).work }
    ensures runs { RunsOverPages P.Pages NoPage (OnlyPage page) NoDamage pages.old pages.new (fault_of result) }
{
    bring(pages, page)?;
    let Some(view) = NodeView::look(pages.page(), tree.width) else {
        return Ok(Sight::Nothing);
    };
    Ok(sight_in(&view, entry))
}

// What a search for an entry sees in a node.
fn sight_in(view: &NodeView, entry: &[u8]) -> Sight
    requires { 0 < view.now.width }
    ensures sees { Sees view.now.width view.now.node entry.now result }
    ensures shown { (bytes : List ℕ) → looked view.now.width bytes ≡ Some view.now → ShowsSight view.now.width bytes entry.now result }
{
    let full = view.is_full();
    if view.is_leaf() {
        let (at, there) = view.find(entry);
        Sight::AtLeaf(at, there, full)
    } else {
        let (at, child) = view.child_of(entry);
        Sight::AtInner(at, child, full)
    }
}
