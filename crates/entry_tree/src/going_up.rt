// The way up of an addition, from a leaf that was cut in two.
ghost use Rattle.std.specs.Prelude.{◌≡◌, ◌<◌, ◌+◌, ℕ, length, reverse, slice_index, false, OnOk, All};
ghost use Rattle.mdc_words.specs.ByteOrder.{Entry};
ghost use Rattle.node_page.specs.Node.{Node};
ghost use Rattle.store_api.specs.Causes.{fault_of};
ghost use Rattle.store_api.specs.RunsOverPages.{RunsOverPages};
ghost use Rattle.entry_tree.specs.Forest.{Forest};
ghost use Rattle.entry_tree.specs.HeldTrees.{nodes_in};
ghost use Rattle.entry_tree.specs.TreeChanges.{IsAdded};
ghost use Rattle.entry_tree.specs.Writing.{IsWrittenPage, IsUnderWay, BreaksWhere};

use crate::Tree;
use crate::descent::Path;
use crate::edits::{cut_inner, put_in_inner, raise};
use store_api::{Pages, StoreFault};

/// Puts the second half of a leaf that was cut, and what stands before it, into the nodes above: each full one is cut in two
/// with a page that was claimed, and the first with room takes it. A root that is cut goes to a page of its own, and its page
/// becomes the node above.
pub(crate) fn go_up<P: Pages>(
    tree: &Tree,
    pages: &mut P,
    path: Path,
    separator: &mut [u8],
    claimed: &[u32],
) -> Result<(), StoreFault>
    requires separator { length separator.old ≡ tree.now.width }
    requires going { (P.state pages.old).ended ≡ false }
    requires root { tree.now.root < length (P.state pages.old).work }
    requires there { All (λ p. p < length (P.state pages.old).work) claimed.now }
    requires path_there { All (λ place. place.0 < length (P.state pages.old).work) path.items }
    requires some { 0 < length claimed.now }
    ensures adds { (old : ℕ → Node) (t : Forest) (x : Entry) → IsUnderWay tree.now.width old (nodes_in tree.now.width (P.state pages.old)) tree.now.root t x (reverse path.items) separator.old (slice_index claimed.now 0) claimed.now 1
        → OnOk result (IsAdded tree.now.width old (nodes_in tree.now.width (P.state pages.new)) tree.now.root t x claimed.now) }
    ensures count { length (P.state pages.new).work ≡ length (P.state pages.old).work }
    ensures runs { RunsOverPages P.Pages (IsWrittenPage tree.now.root path.items claimed.now) (IsWrittenPage tree.now.root path.items claimed.now)
        (BreaksWhere tree.now ((old : ℕ → Node) × (t : Forest) × (x : Entry) × IsUnderWay tree.now.width old (nodes_in tree.now.width (P.state pages.old)) tree.now.root t x (reverse path.items) separator.old (slice_index claimed.now 0) claimed.now 1))
        pages.old pages.new (fault_of result) }
{
    let mut path = path;
    let mut other = claimed[0];
    let mut used = 1;
    while let Some((page, at)) = path.pop() {
        if used == claimed.len() {
            return put_in_inner(tree, pages, page, at, separator, other);
        }
        let next = claimed[used];
        cut_inner(tree, pages, page, at, separator, other, next)?;
        other = next;
        used += 1;
    }
    if used == claimed.len() {
        return Err(tree.damaged());
    }
    raise(tree, pages, separator, other, claimed[used])
}
