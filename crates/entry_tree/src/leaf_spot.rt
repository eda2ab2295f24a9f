// Where an entry stands in a tree, for a removal.
ghost use Rattle.std.specs.Prelude.{◌≡◌, ◌<◌, length, false, IsTrue, IfOk, IfSome};
ghost use Rattle.store_api.specs.Frame.{NoPage};
ghost use Rattle.store_api.specs.Causes.{fault_of};
ghost use Rattle.store_api.specs.RunsOverPages.{RunsOverPages};
ghost use Rattle.entry_tree.specs.Forest.{Forest};
ghost use Rattle.entry_tree.specs.HeldTrees.{nodes_in, HoldsTree, IsTreePage, BreaksTree};
ghost use Rattle.entry_tree.specs.LeafSpots.{IsSeenSpot};
ghost use Rattle.entry_tree.specs.Shown.{SeesPlace};

use crate::Tree;
use crate::descent::find_way;
use store_api::{Pages, StoreFault};

/// The leaf of an entry, with what a removal has to know of the node above it.
#[derive(Clone, Copy, Debug)]
pub(crate) struct LeafSpot {
    /// The leaf.
    pub page: u32,
    /// The entry's place in it.
    pub at: usize,
    /// Whether it is there.
    pub there: bool,
    /// The page of the node above, and which of its children the leaf is. The root has none.
    pub parent: Option<(u32, usize)>,
}

/// Goes down to the leaf of an entry. Damaged names the root.
pub(crate) fn leaf_spot<P: Pages>(
    tree: &Tree,
    pages: &mut P,
    entry: &[u8],
) -> Result<LeafSpot, StoreFault>
    requires width { length entry.now ≡ tree.now.width }
    requires going { (P.state pages.old).ended ≡ false }
    ensures seen { IfOk result (λ spot. (t : Forest) → HoldsTree P.Pages pages.old tree.now t → IsSeenSpot (nodes_in tree.now.width (P.state pages.old)) t entry.now spot.page spot.at spot.there spot.parent) }
    ensures shown { IfOk result (λ spot. IsTrue (P.state pages.old).is_told → SeesPlace tree.now.width (P.state pages.old).work tree.now.root entry.now spot.page spot.at spot.there) }
    ensures there { IfOk result (λ spot. spot.page < length (P.state pages.old).work) }
    ensures parent { IfOk result (λ spot. IfSome spot.parent (λ place. place.0 < length (P.state pages.old).work)) }
    ensures same { (P.state pages.new).work ≡ (P.state pages.old).work }
    ensures runs { RunsOverPages P.Pages NoPage (IsTreePage P.Pages pages.old tree.now) (BreaksTree P.Pages pages.old tree.now) pages.old pages.new (fault_of result) }
{
    let mut way = find_way(tree, pages, entry)?;
    let parent = way.path.pop();
    Ok(LeafSpot {
        page: way.page,
        at: way.at,
        there: way.there,
        parent,
    })
}
