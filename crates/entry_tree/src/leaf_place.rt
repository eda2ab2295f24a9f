// The leaf of an entry, and its place there.
ghost use Rattle.std.specs.Prelude.{◌≡◌, ◌<◌, List, length, false, Some, IsSome, IsTrue, IfOk, OnOk};
ghost use Rattle.mdc_words.specs.ByteOrder.{Entry};
ghost use Rattle.store_api.specs.Frame.{NoPage};
ghost use Rattle.store_api.specs.StoreState.{page_at};
ghost use Rattle.store_api.specs.Causes.{fault_of};
ghost use Rattle.store_api.specs.RunsOverPages.{RunsOverPages};
ghost use Rattle.node_page.specs.Node.Node.{LeafNode};
ghost use Rattle.entry_tree.specs.Finding.{IsEntryPlace};
ghost use Rattle.entry_tree.specs.Forest.{Forest};
ghost use Rattle.entry_tree.specs.HeldTrees.{nodes_in, HoldsTree, IsTreePage, BreaksTree};
ghost use Rattle.entry_tree.specs.Shown.{SeesPlace};
ghost use Rattle.entry_tree.specs.Spots.{LendsLeaf};

use crate::Tree;
use crate::sight::{Sight, see};
use store_api::{Pages, StoreFault};

/// The leaf of an entry.
#[derive(Clone, Copy, Debug)]
pub(crate) struct LeafPlace {
    pub(crate) page: u32,
    /// Where the entry belongs in it.
    pub(crate) at: usize,
    /// Whether it is there.
    pub(crate) there: bool,
}

/// Goes down to the leaf of an entry, which is at hand afterwards. Damaged names the root.
pub(crate) fn find_leaf<P: Pages>(
    tree: &Tree,
    pages: &mut P,
    entry: &[u8],
) -> Result<LeafPlace, StoreFault>
    requires width { length entry.now ≡ tree.now.width }
    requires going { (P.state pages.old).ended ≡ false }
    ensures found { IfOk result (λ leaf. (t : Forest) → HoldsTree P.Pages pages.old tree.now t
        → IsEntryPlace (nodes_in tree.now.width (P.state pages.old)) t entry.now leaf.page leaf.at leaf.there) }
    ensures seen { IfOk result (λ leaf. IsTrue (P.state pages.old).is_told → SeesPlace tree.now.width (P.state pages.old).work tree.now.root entry.now leaf.page leaf.at leaf.there) }
    ensures at_hand { IfOk result (λ leaf. IsTrue (P.state pages.old).is_told → (P.state pages.new).hand ≡ Some (page_at (P.state pages.old).work leaf.page)) }
    ensures hand { OnOk result (IsSome (P.state pages.new).hand) }
    ensures lent { IfOk result (λ leaf. (items : List Entry) → nodes_in tree.now.width (P.state pages.old) leaf.page ≡ LeafNode items → LendsLeaf tree.now.width (P.state pages.new).hand items) }
    ensures same { (P.state pages.new).work ≡ (P.state pages.old).work }
    ensures runs { RunsOverPages P.Pages NoPage (IsTreePage P.Pages pages.old tree.now) (BreaksTree P.Pages pages.old tree.now) pages.old pages.new (fault_of result) }
{
    let count = pages.count();
    let mut page = tree.root;
    for step in 0..count {
        if page >= count {
            return Err(tree.damaged());
        }
        match see(pages, tree, page, entry)? {
            Sight::Nothing => return Err(tree.damaged()),
            Sight::AtLeaf(at, there, _) => return Ok(LeafPlace { page, at, there }),
            Sight::AtInner(_, child, _) => page = child,
        }
    }
    Err(tree.damaged())
}
