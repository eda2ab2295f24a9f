// The way down to the leaf of an entry, with the separators nearest to it.
ghost use Rattle.std.specs.Prelude.{◌≡◌, ◌<◌, ◌≤◌, List, length, false, Some, IsSome, IsTrue, IfOk, IfSome, OnOk};
ghost use Rattle.mdc_words.specs.ByteOrder.{Entry};
ghost use Rattle.store_api.specs.Frame.{NoPage, OnlyPage};
ghost use Rattle.store_api.specs.StoreState.{page_at};
ghost use Rattle.store_api.specs.Causes.{fault_of, NoDamage};
ghost use Rattle.store_api.specs.RunsOverPages.{RunsOverPages};
ghost use Rattle.node_page.specs.Node.{node_of};
ghost use Rattle.node_page.specs.Node.Node.{LeafNode};
ghost use Rattle.node_page.specs.Looked.{entries_in};
ghost use Rattle.entry_tree.specs.Forest.{Forest};
ghost use Rattle.entry_tree.specs.HeldTrees.{nodes_in, HoldsTree, IsTreePage, BreaksTree};
ghost use Rattle.entry_tree.specs.Shown.{SeesLeaf, ShowsPassed};
ghost use Rattle.entry_tree.specs.Spots.{fence_bound, nearer_fence, fence_before, fence_behind, MeetsOnWay, PassedFits, FenceFits, LendsLeaf, IsSpotBelow};

use crate::{Entry, Tree};
use node_page::NodeView;
use store_api::{Page, Pages, StoreFault, bring};

/// A separator, and where it stands: the page of its node, and its place there.
#[derive(Drop)]
pub struct Fence {
    pub(crate) page: u32,
    pub(crate) at: usize,
    pub(crate) bound: Entry,
}

/// What the way down meets on a page.
#[derive(Drop)]
pub enum Passed {
    /// The page isn't a node of the tree's width.
    NoNodeThere,
    /// A leaf: where the entry belongs in it, and whether it is there.
    LeafThere(usize, bool),
    /// The place of the child below which the entry belongs, that child, and the separators before and behind it.
    ChildThere(usize, u32, Option<Fence>, Option<Fence>),
}

/// The leaf of an entry.
#[derive(Drop)]
pub(crate) struct Spot {
    pub(crate) page: u32,
    /// Where the entry belongs in it.
    pub(crate) at: usize,
    /// Whether it is there.
    pub(crate) there: bool,
    /// The nearest separator at or below the entry.
    pub(crate) low: Option<Fence>,
    /// The nearest separator above it.
    pub(crate) high: Option<Fence>,
    /// The page of the node just above, and which of its children the leaf is. The root has none.
    pub(crate) parent: Option<(u32, usize)>,
}

/// Goes down to the leaf of an entry, which is at hand afterwards. Damaged names the root.
pub(crate) fn find_spot<P: Pages>(
    tree: &Tree,
    pages: &mut P,
    entry: &[u8],
) -> Result<Spot, StoreFault>
    requires width { length entry.now ≡ tree.now.width }
    requires going { (P.state pages.old).ended ≡ false }
    ensures found { IfOk result (λ spot. (t : Forest) → HoldsTree P.Pages pages.old tree.now t
        → IsSpotBelow (nodes_in tree.now.width (P.state pages.old)) t entry.now spot.page spot.at spot.there spot.low spot.high spot.parent) }
    ensures low { IfOk result (λ spot. FenceFits tree.now.width spot.low) }
    ensures high { IfOk result (λ spot. FenceFits tree.now.width spot.high) }
    ensures there { IfOk result (λ spot. spot.page < length (P.state pages.old).work) }
    ensures parent { IfOk result (λ spot. IfSome spot.parent (λ place. place.0 < length (P.state pages.old).work)) }
    ensures hand { OnOk result (IsSome (P.state pages.new).hand) }
    ensures seen { IfOk result (λ spot. IsTrue (P.state pages.old).is_told
        → SeesLeaf tree.now.width (P.state pages.old).work tree.now.root entry.now spot.page spot.at spot.there (fence_bound spot.high)) }
    ensures at_hand { IfOk result (λ spot. IsTrue (P.state pages.old).is_told → (P.state pages.new).hand ≡ Some (page_at (P.state pages.old).work spot.page)) }
    ensures lent { IfOk result (λ spot. (items : List Entry) → nodes_in tree.now.width (P.state pages.old) spot.page ≡ LeafNode items → LendsLeaf tree.now.width (P.state pages.new).hand items) }
    ensures same { (P.state pages.new).work ≡ (P.state pages.old).work }
    ensures runs { RunsOverPages P.Pages NoPage (IsTreePage P.Pages pages.old tree.now) (BreaksTree P.Pages pages.old tree.now) pages.old pages.new (fault_of result) }
{
    let count = pages.count();
    let mut page = tree.root;
    let mut low = None;
    let mut high = None;
    let mut parent = None;
    for step in 0..count {
        if page >= count {
            return Err(tree.damaged());
        }
        match pass(tree, pages, page, entry)? {
            Passed::NoNodeThere => return Err(tree.damaged()),
            Passed::LeafThere(at, there) => {
                return Ok(Spot {
                    page,
                    at,
                    there,
                    low,
                    high,
                    parent,
                });
            }
            Passed::ChildThere(at, child, before, behind) => {
                parent = Some((page, at));
                page = child;
                low = nearer(before, low);
                high = nearer(behind, high);
            }
        }
    }
    Err(tree.damaged())
}

// The nearer one of two separators.
fn nearer(near: Option<Fence>, far: Option<Fence>) -> Option<Fence>
    ensures { result ≡ nearer_fence near far }
{
    match near {
        Some(fence) => Some(fence),
        None => far,
    }
}

// Looks for an entry on one page of a tree, which is at hand afterwards.
fn pass<P: Pages>(tree: &Tree, pages: &mut P, page: u32, entry: &[u8]) -> Result<Passed, StoreFault>
    requires width { length entry.now ≡ tree.now.width }
    requires going { (P.state pages.old).ended ≡ false }
    requires within { page < length (P.state pages.old).work }
    ensures passes { IfOk result (λ passed. MeetsOnWay (nodes_in tree.now.width (P.state pages.old) page) page entry.now passed) }
    ensures fits { IfOk result (λ passed. PassedFits tree.now.width passed) }
    ensures shown { IfOk result (λ passed. IsTrue (P.state pages.old).is_told → ShowsPassed tree.now.width (page_at (P.state pages.old).work page) page entry.now passed) }
    ensures at_hand { OnOk result (IsTrue (P.state pages.old).is_told → (P.state pages.new).hand ≡ Some (page_at (P.state pages.old).work page)) }
    ensures hand { OnOk result (IsSome (P.state pages.new).hand) }
    ensures lent { OnOk result ((items : List Entry) → nodes_in tree.now.width (P.state pages.old) page ≡ LeafNode items → LendsLeaf tree.now.width (P.state pages.new).hand items) }
    ensures same { (P.state pages.new).work ≡ (P.state pages.old).work }
    ensures runs { RunsOverPages P.Pages NoPage (OnlyPage page) NoDamage pages.old pages.new (fault_of result) }
{
    bring(pages, page)?;
    Ok(look_down(pages.page(), tree.width, page, entry))
}

// What a page shows to the way of an entry.
fn look_down(bytes: &Page, width: u16, page: u32, entry: &[u8]) -> Passed
    requires narrow { width ≤ 134 }
    ensures passes { MeetsOnWay (node_of width bytes.now) page entry.now result }
    ensures fits { PassedFits width result }
    ensures shown { ShowsPassed width bytes.now page entry.now result }
{
    let Some(view) = NodeView::look(bytes, width) else {
        return Passed::NoNodeThere;
    };
    if view.is_leaf() {
        let (at, there) = view.find(entry);
        return Passed::LeafThere(at, there);
    }
    let (at, child) = view.child_of(entry);
    let before = fence_before(&view, page, at);
    let behind = fence_behind(&view, page, at);
    Passed::ChildThere(at, child, before, behind)
}

// The separator before a child.
fn fence_before(view: &NodeView, page: u32, at: usize) -> Option<Fence>
    requires within { at ≤ length (entries_in view.now.node) }
    requires narrow { view.now.width ≤ 134 }
    ensures fence { result ≡ fence_before page (entries_in view.now.node) at }
    ensures fits { FenceFits view.now.width result }
{
    if at == 0 {
        return None;
    }
    Some(Fence {
        page,
        at: at - 1,
        bound: Entry::of(view.entry(at - 1)),
    })
}

// The separator behind a child.
fn fence_behind(view: &NodeView, page: u32, at: usize) -> Option<Fence>
    requires narrow { view.now.width ≤ 134 }
    ensures fence { result ≡ fence_behind page (entries_in view.now.node) at }
    ensures fits { FenceFits view.now.width result }
{
    if at >= view.len() {
        return None;
    }
    Some(Fence {
        page,
        at,
        bound: Entry::of(view.entry(at)),
    })
}
