// The first leaf of a tree that holds an entry from a bound on.
ghost use Rattle.std.specs.Prelude.{◌≡◌, ◌<◌, ◌↔◌, ℕ, List, length, false, Some, IsTrue, IsSome, IfOk, IfSome};
ghost use Rattle.mdc_words.specs.ByteOrder.{Entry};
ghost use Rattle.node_page.specs.Node.Node.{LeafNode};
ghost use Rattle.store_api.specs.Causes.{fault_of};
ghost use Rattle.store_api.specs.Frame.{NoPage};
ghost use Rattle.store_api.specs.RunsOverPages.{RunsOverPages};
ghost use Rattle.entry_tree.specs.Forest.{Forest};
ghost use Rattle.entry_tree.specs.HeldTrees.{nodes_in, HoldsTree, IsTreePage, BreaksTree};
ghost use Rattle.entry_tree.specs.Shown.{SeesFirst, Shows};
ghost use Rattle.entry_tree.specs.Spots.{FenceFits, LendsLeaf, fence_bound};
ghost use Rattle.entry_tree.specs.Sweeping.{IsFirstSpot};

use crate::Tree;
use crate::pruning::has_item;
use crate::spot::{Spot, find_spot};
use store_api::{Pages, StoreFault};

/// Goes down to the first leaf that holds an entry from a bound on, or to the last leaf where there is none. Damaged names
/// the root.
pub(crate) fn first_leaf<P: Pages>(
    tree: &Tree,
    pages: &mut P,
    bound: &[u8],
) -> Result<Spot, StoreFault>
    requires width { length bound.now ≡ tree.now.width }
    requires going { (P.state pages.old).ended ≡ false }
    ensures first { IfOk result (λ spot. (t : Forest) → HoldsTree P.Pages pages.old tree.now t
        → IsFirstSpot (nodes_in tree.now.width (P.state pages.old)) t bound.now spot.page spot.at spot.parent (fence_bound spot.high)) }
    ensures seen { IfOk result (λ spot. IsTrue (P.state pages.old).is_told
        → SeesFirst tree.now.width (P.state pages.old).work tree.now.root bound.now spot.page spot.at spot.there (fence_bound spot.high)) }
    ensures high { IfOk result (λ spot. FenceFits tree.now.width spot.high) }
    ensures there { IfOk result (λ spot. spot.page < length (P.state pages.old).work) }
    ensures parent { IfOk result (λ spot. IfSome spot.parent (λ place. place.0 < length (P.state pages.old).work)) }
    ensures same { (P.state pages.new).work ≡ (P.state pages.old).work }
    ensures runs { RunsOverPages P.Pages NoPage (IsTreePage P.Pages pages.old tree.now) (BreaksTree P.Pages pages.old tree.now) pages.old pages.new (fault_of result) }
{
    let spot = find_spot(tree, pages, bound)?;
    if holds_at(tree, pages, spot.at) {
        return Ok(spot);
    }
    // The leaf of the bound has only entries below it. The next leaf begins above it.
    let Some(next) = &spot.high else {
        return Ok(spot);
    };
    find_spot(tree, pages, next.bound.bytes())
}

// Whether the leaf at hand has an entry at a place.
fn holds_at<P: Pages>(tree: &Tree, pages: &P, at: usize) -> bool
    requires { IsSome (P.state pages.now).hand }
    ensures held { (items : List Entry) → LendsLeaf tree.now.width (P.state pages.now).hand items → IsTrue result ↔ (at < length items) }
    ensures shown { (bytes : List ℕ) (items : List Entry) → (P.state pages.now).hand ≡ Some bytes → Shows tree.now.width bytes (LeafNode items) → IsTrue result ↔ (at < length items) }
{
    has_item(pages.page(), tree.width, at)
}
