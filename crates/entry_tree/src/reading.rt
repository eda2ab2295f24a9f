// The entries of a tree, a leaf at a time.
ghost use Rattle.std.specs.Prelude.{◌≡◌, ◌≤◌, ◌+◌, ◌-◌, ◌*◌, ℕ, List, [], length, drop, false, Some, IsSome, IsTrue, OnOk, OnErr, IfOk};
ghost use Rattle.mdc_words.specs.ByteOrder.{Entry};
ghost use Rattle.store_api.specs.Frame.{NoPage};
ghost use Rattle.store_api.specs.Causes.{fault_of};
ghost use Rattle.store_api.specs.RunsOverPages.{RunsOverPages};
ghost use Rattle.node_page.specs.Node.{bytes_in};
ghost use Rattle.node_page.specs.Node.Node.{LeafNode};
ghost use Rattle.entry_tree.specs.Entries.{AreOfWidth};
ghost use Rattle.entry_tree.specs.Forest.{Forest, leaf_entries};
ghost use Rattle.entry_tree.specs.HeldTrees.{HoldsTree, IsTreePage, BreaksTree};
ghost use Rattle.entry_tree.specs.Reading.{IsLeafFrom, IsReadAt, BoundFits, IsFirstOr};
ghost use Rattle.entry_tree.specs.Shown.{ReadsFirst, ReadsFrom, ReadsLeaf, Shows};
ghost use Rattle.entry_tree.specs.Spots.{LendsLeaf, fence_bound};

use crate::spot::{Fence, find_spot};
use crate::{Entries, Entry, Leaf, Tree};
use node_page::{HEAD_BYTES, NodeView};
use std::alloc::AllocError;
use store_api::{Page, Pages, StoreFault};

impl Tree {
    /// Entries of one leaf from a bound on, at least one where one is there, and the bound at which the rest begins.
    /// Damaged names the root. Whether or not the pages are a tree, Ok says what the way down and its leaf show.
    pub fn leaf_from<P: Pages>(&self, pages: &mut P, bound: &[u8]) -> Result<Leaf, StoreFault>
        requires width { length bound.now ≡ self.now.width }
        requires going { (P.state pages.old).ended ≡ false }
        ensures read { IfOk result (λ leaf. (t : Forest) → HoldsTree P.Pages pages.old self.now t → IsLeafFrom (leaf_entries t) bound.now leaf.entries leaf.next) }
        ensures width { IfOk result (λ leaf. AreOfWidth self.now.width leaf.entries) }
        ensures seen { IfOk result (λ leaf. IsTrue (P.state pages.old).is_told → ReadsFrom self.now.width (P.state pages.old).work self.now.root bound.now leaf.entries leaf.next) }
        ensures next { IfOk result (λ leaf. BoundFits self.now.width leaf.next) }
        ensures same { (P.state pages.new).work ≡ (P.state pages.old).work }
        ensures runs { RunsOverPages P.Pages NoPage (IsTreePage P.Pages pages.old self.now) (BreaksTree P.Pages pages.old self.now) pages.old pages.new (fault_of result) }
    {
        let mut leaf = Leaf::new(self.alloc);
        self.read_leaf_from(pages, bound, &mut leaf)?;
        Ok(leaf)
    }

    /// The same, into a leaf whose memory is used again. After a fault it has no entries.
    pub fn read_leaf_from<P: Pages>(
        &self,
        pages: &mut P,
        bound: &[u8],
        leaf: &mut Leaf,
    ) -> Result<(), StoreFault>
        requires width { length bound.now ≡ self.now.width }
        requires going { (P.state pages.old).ended ≡ false }
        ensures read { OnOk result ((t : Forest) → HoldsTree P.Pages pages.old self.now t → IsLeafFrom (leaf_entries t) bound.now leaf.new.entries leaf.new.next) }
        ensures seen { OnOk result (IsTrue (P.state pages.old).is_told → ReadsFrom self.now.width (P.state pages.old).work self.now.root bound.now leaf.new.entries leaf.new.next) }
        ensures width { AreOfWidth self.now.width leaf.new.entries }
        ensures next { OnOk result (BoundFits self.now.width leaf.new.next) }
        ensures none { OnErr result (leaf.new.entries ≡ []) }
        ensures same { (P.state pages.new).work ≡ (P.state pages.old).work }
        ensures runs { RunsOverPages P.Pages NoPage (IsTreePage P.Pages pages.old self.now) (BreaksTree P.Pages pages.old self.now) pages.old pages.new (fault_of result) }
    {
        self.read_leaf(pages, bound, leaf)?;
        if leaf.entries.len() > 0 {
            return Ok(());
        }
        // The leaf of the bound has only entries below it. The next leaf has some above it.
        let Some(next) = leaf.next.take() else {
            return Ok(());
        };
        self.read_leaf(pages, next.bytes(), leaf)?;
        if leaf.entries.len() == 0 {
            return Err(self.damaged());
        }
        Ok(())
    }

    /// The lowest entry at or above a bound, if there is one. It takes no memory. Damaged names the root.
    pub fn first_from<P: Pages>(
        &self,
        pages: &mut P,
        bound: &[u8],
    ) -> Result<Option<Entry>, StoreFault>
        requires width { length bound.now ≡ self.now.width }
        requires going { (P.state pages.old).ended ≡ false }
        ensures first { IfOk result (λ first. (t : Forest) → HoldsTree P.Pages pages.old self.now t → IsFirstOr (leaf_entries t) bound.now first) }
        ensures seen { IfOk result (λ first. IsTrue (P.state pages.old).is_told → ReadsFirst self.now.width (P.state pages.old).work self.now.root bound.now first) }
        ensures width { IfOk result (λ first. BoundFits self.now.width first) }
        ensures same { (P.state pages.new).work ≡ (P.state pages.old).work }
        ensures runs { RunsOverPages P.Pages NoPage (IsTreePage P.Pages pages.old self.now) (BreaksTree P.Pages pages.old self.now) pages.old pages.new (fault_of result) }
    {
        match self.find_from(pages, bound)? {
            Some(found) => Ok(Some(found.into_entry())),
            None => Ok(None),
        }
    }

    // What the leaf of the bound itself has.
    fn read_leaf<P: Pages>(
        &self,
        pages: &mut P,
        bound: &[u8],
        leaf: &mut Leaf,
    ) -> Result<(), StoreFault>
        requires width { length bound.now ≡ self.now.width }
        requires going { (P.state pages.old).ended ≡ false }
        ensures read { OnOk result ((t : Forest) → HoldsTree P.Pages pages.old self.now t → IsReadAt t bound.now leaf.new.entries leaf.new.next) }
        ensures seen { OnOk result (IsTrue (P.state pages.old).is_told → ReadsLeaf self.now.width (P.state pages.old).work self.now.root bound.now leaf.new.entries leaf.new.next) }
        ensures width { AreOfWidth self.now.width leaf.new.entries }
        ensures next { OnOk result (BoundFits self.now.width leaf.new.next) }
        ensures none { OnErr result (leaf.new.entries ≡ []) }
        ensures same { (P.state pages.new).work ≡ (P.state pages.old).work }
        ensures runs { RunsOverPages P.Pages NoPage (IsTreePage P.Pages pages.old self.now) (BreaksTree P.Pages pages.old self.now) pages.old pages.new (fault_of result) }
    {
        leaf.entries.clear();
        let spot = find_spot(self, pages, bound)?;
        take_entries(self, pages, spot.at, &mut leaf.entries)?;
        leaf.next = fence_bound(spot.high);
        Ok(())
    }
}

/// The bound that a separator is.
pub(crate) fn fence_bound(fence: Option<Fence>) -> Option<Entry>
    ensures { result ≡ fence_bound fence }
{
    match fence {
        Some(fence) => {
            let Fence { bound, .. } = fence;
            Some(bound)
        }
        None => None,
    }
}

// Copies the entries of the leaf at hand from a place on.
fn take_entries<P: Pages>(
    tree: &Tree,
    pages: &P,
    at: usize,
    entries: &mut Entries,
) -> Result<(), AllocError>
    requires hand { IsSome (P.state pages.now).hand }
    ensures taken { OnOk result ((items : List Entry) → LendsLeaf tree.now.width (P.state pages.now).hand items → entries.new ≡ drop at items) }
    ensures shown { OnOk result ((bytes : List ℕ) (items : List Entry) → (P.state pages.now).hand ≡ Some bytes → Shows tree.now.width bytes (LeafNode items) → entries.new ≡ drop at items) }
    ensures width { AreOfWidth tree.now.width entries.new }
    ensures none { OnErr result (entries.new ≡ []) }
{
    entries.clear();
    let page = pages.page();
    let Some(view) = NodeView::look(page, tree.width) else {
        return Ok(());
    };
    let count = view.len();
    if !view.is_leaf() || at > count {
        return Ok(());
    }
    let width = usize::from(tree.width);
    entries.fill(width, count - at, part_of(page, width, at, count))
}

// Lends the bytes of the entries of a leaf, which are so many, from a place on.
fn part_of(page: &Page, width: usize, at: usize, count: usize) -> &[u8]
    requires place { at ≤ count }
    requires fits { count * width ≤ 4080 }
    ensures bytes { result.now ≡ bytes_in (16 + at * width) ((count - at) * width) page.now }
    ensures len { length result.now ≡ (count - at) * width }
{
    let bytes = &page[..];
    &bytes[HEAD_BYTES + at * width..HEAD_BYTES + count * width]
}
