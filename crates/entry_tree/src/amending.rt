// Replacing an entry by another one.
ghost use Rattle.std.specs.Prelude.{◌≡◌, ◌<◌, ◌≤◌, ◌⊎◌, ℕ, List, length, take, slice_set, true, false, IsTrue, IfOk, OnOk};
ghost use Rattle.mdc_words.specs.ByteOrder.{Entry, below};
ghost use Rattle.node_page.specs.Node.{node_of};
ghost use Rattle.node_page.specs.Node.Node.{LeafNode, InnerNode};
ghost use Rattle.store_api.specs.Frame.{NoPage, OnlyPage};
ghost use Rattle.store_api.specs.Causes.{fault_of};
ghost use Rattle.store_api.specs.RunsOverPages.{RunsOverPages};
ghost use Rattle.entry_tree.specs.Amending.{AmendsEntry, HasOwnFront, IsAmended, MakesRoom, HasBehind, lies_below, moved_to, SetsAt, SetsMoved, IsMovedPage, BreaksSlot, BreaksMoved};
ghost use Rattle.entry_tree.specs.Slots.{IsSlot};
ghost use Rattle.entry_tree.specs.Finding.{IsFoundEntry};
ghost use Rattle.entry_tree.specs.Forest.{Forest, leaf_entries};
ghost use Rattle.entry_tree.specs.HeldTrees.{HoldsTree, IsTreePage, BreaksTree};
ghost use Rattle.entry_tree.specs.Shown.{SeesWhether};
ghost use Rattle.entry_tree.specs.Spots.{FenceFits};

use crate::spot::{Fence, find_spot};
use crate::{Entry, FoundEntry, Tree};
use node_page::{NodeView, set_entry, set_separator};
use store_api::{Page, Pages, StoreFault};

impl Tree {
    /// Replaces an entry by another one with the same first four bytes. Answers whether it was there. Where these bytes begin
    /// no other entry, the tree is as before but for that entry, and each leaf keeps its number of entries. It claims no page.
    /// Damaged names the root.
    pub fn amend<P: Pages>(&self, pages: &mut P, old: &[u8], new: &[u8]) -> Result<bool, StoreFault>
        requires old_width { length old.now ≡ self.now.width }
        requires new_width { length new.now ≡ self.now.width }
        requires alike { take 4 old.now ≡ take 4 new.now }
        requires going { (P.state pages.old).ended ≡ false }
        ensures amended { IfOk result (λ there. (t : Forest) → HoldsTree P.Pages pages.old self.now t → IsAmended P.Pages pages.old pages.new self.now old.now new.now t there) }
        ensures seen { IfOk result (λ there. IsTrue (P.state pages.old).is_told → SeesWhether self.now.width (P.state pages.old).work self.now.root old.now there) }
        ensures count { length (P.state pages.new).work ≡ length (P.state pages.old).work }
        ensures runs { RunsOverPages P.Pages (IsTreePage P.Pages pages.old self.now) (IsTreePage P.Pages pages.old self.now) (BreaksTree P.Pages pages.old self.now) pages.old pages.new (fault_of result) }
    {
        let spot = find_spot(self, pages, old)?;
        if !spot.there {
            return Ok(false);
        }
        let moved = self.moved_fence(pages, spot.low, spot.high, new)?;
        set_moved(self, pages, &moved)?;
        set_at(self, pages, spot.page, spot.at, new)?;
        Ok(true)
    }

    /// Replaces an entry that was found by another one with the same first four bytes, in pages that are as they were then. Where
    /// these bytes begin no other entry, the tree is as before but for that entry, and each leaf keeps its number of entries. It
    /// claims no page. Damaged names the root.
    pub fn amend_found<P: Pages>(
        &self,
        pages: &mut P,
        found: &FoundEntry,
        new: &[u8],
    ) -> Result<(), StoreFault>
        requires stands { IsFoundEntry P.Pages pages.old self.now found.now }
        requires width { length new.now ≡ self.now.width }
        requires alike { take 4 found.now.entry ≡ take 4 new.now }
        requires going { (P.state pages.old).ended ≡ false }
        ensures amended { OnOk result ((t : Forest) → HoldsTree P.Pages pages.old self.now t → HasOwnFront found.now.entry (leaf_entries t)
            → AmendsEntry P.Pages pages.new self.now found.now.entry new.now t) }
        ensures count { length (P.state pages.new).work ≡ length (P.state pages.old).work }
        ensures runs { RunsOverPages P.Pages (IsTreePage P.Pages pages.old self.now) (IsTreePage P.Pages pages.old self.now) (BreaksTree P.Pages pages.old self.now) pages.old pages.new (fault_of result) }
    {
        if self.meets_no_separator(found) {
            set_at(self, pages, found.page, found.at, new)?;
            return Ok(());
        }
        // At an end of its leaf, the new entry may lie beyond a separator.
        if self.amend(pages, found.bytes(), new)? {
            Ok(())
        } else {
            Err(self.damaged())
        }
    }

    // Whether a found entry stays between the nearest separators whatever becomes of it behind its first four bytes: it stands
    // between others of its leaf, or the tree is this leaf alone.
    fn meets_no_separator(&self, found: &FoundEntry) -> bool
        ensures { IsTrue result → IsTrue found.now.inside ⊎ (found.now.page ≡ self.now.root) }
    {
        found.inside || found.page == self.root
    }

    // The separator that has to be moved so that an entry has room between the two nearest ones, and what it becomes.
    fn moved_fence<P: Pages>(
        &self,
        pages: &mut P,
        low: Option<Fence>,
        high: Option<Fence>,
        entry: &[u8],
    ) -> Result<Option<Fence>, StoreFault>
        requires width { length entry.now ≡ self.now.width }
        requires high { FenceFits self.now.width high }
        requires behind { (t : Forest) → HoldsTree P.Pages pages.old self.now t → HasBehind (leaf_entries t) high }
        requires going { (P.state pages.old).ended ≡ false }
        ensures room { IfOk result (λ moved. MakesRoom P.Pages pages.old self.now low high entry.now moved) }
        ensures width { IfOk result (λ moved. FenceFits self.now.width moved) }
        ensures same { (P.state pages.new).work ≡ (P.state pages.old).work }
        ensures runs { RunsOverPages P.Pages NoPage (IsTreePage P.Pages pages.old self.now) (BreaksTree P.Pages pages.old self.now) pages.old pages.new (fault_of result) }
    {
        if lies_below(entry, &low) {
            return Ok(moved_to(low, entry));
        }
        let Some(fence) = high else {
            return Ok(None);
        };
        if comes_before(entry, fence.bound.bytes()) {
            return Ok(None);
        }
        match self.first_from(pages, fence.bound.bytes())? {
            Some(first) => Ok(moved_to(Some(fence), first.bytes())),
            None => Err(self.damaged()),
        }
    }
}

// Whether a byte string comes before another one.
#[tactic(auto, unfolding(mdc_words::specs::ByteOrder::below))]
fn comes_before(first: &[u8], second: &[u8]) -> bool
    ensures { result ≡ below first.now second.now }
{
    first.cmp(second).is_lt()
}

// Whether an entry lies below a separator, if there is one.
fn lies_below(entry: &[u8], fence: &Option<Fence>) -> bool
    ensures { result ≡ lies_below entry.now fence.now }
{
    match fence {
        Some(fence) => comes_before(entry, fence.bound.bytes()),
        None => false,
    }
}

// The separator, if there is one, with another bound.
fn moved_to(fence: Option<Fence>, bound: &[u8]) -> Option<Fence>
    requires { length bound.now ≤ 134 }
    ensures { result ≡ moved_to fence bound.now }
{
    match fence {
        Some(fence) => {
            let Fence { page, at, .. } = fence;
            Some(Fence {
                page,
                at,
                bound: Entry::of(bound),
            })
        }
        None => None,
    }
}

// Moves a separator, if one has to be moved.
fn set_moved<P: Pages>(tree: &Tree, pages: &mut P, moved: &Option<Fence>) -> Result<(), StoreFault>
    requires width { FenceFits tree.now.width moved.now }
    requires going { (P.state pages.old).ended ≡ false }
    ensures sets { OnOk result (SetsMoved P.Pages pages.old pages.new tree.now.width moved.now) }
    ensures count { length (P.state pages.new).work ≡ length (P.state pages.old).work }
    ensures runs { RunsOverPages P.Pages (IsMovedPage moved.now) (IsMovedPage moved.now) (BreaksMoved P.Pages pages.old tree.now moved.now) pages.old pages.new (fault_of result) }
{
    match moved {
        Some(fence) => set_at(tree, pages, fence.page, fence.at, fence.bound.bytes()),
        None => Ok(()),
    }
}

// Writes over the entry of a leaf, or the separator of a node, at a place of a page. Damaged where there is none.
fn set_at<P: Pages>(
    tree: &Tree,
    pages: &mut P,
    page: u32,
    at: usize,
    entry: &[u8],
) -> Result<(), StoreFault>
    requires width { length entry.now ≡ tree.now.width }
    requires going { (P.state pages.old).ended ≡ false }
    ensures sets { OnOk result (SetsAt P.Pages pages.old pages.new tree.now.width page at entry.now) }
    ensures count { length (P.state pages.new).work ≡ length (P.state pages.old).work }
    ensures runs { RunsOverPages P.Pages (OnlyPage page) (OnlyPage page) (BreaksSlot P.Pages pages.old tree.now page at) pages.old pages.new (fault_of result) }
{
    if page >= pages.count() {
        return Err(tree.damaged());
    }
    if overwrite(pages.edit(page)?, tree.width, at, entry) {
        Ok(())
    } else {
        Err(tree.damaged())
    }
}

// The same on the bytes of the page. Answers whether there is such a place, and else leaves the page as it is.
fn overwrite(page: &mut Page, width: u16, at: usize, entry: &[u8]) -> bool
    requires width { length entry.now ≡ width }
    ensures leaf { (items : List Entry) → node_of width page.old ≡ LeafNode items → result ≡ true → node_of width page.new ≡ LeafNode (slice_set items at entry.now) }
    ensures no_leaf { (items : List Entry) → node_of width page.old ≡ LeafNode items → at < length items → result ≡ true }
    ensures inner { (seps : List Entry) (children : List ℕ) → node_of width page.old ≡ InnerNode seps children → result ≡ true
        → node_of width page.new ≡ InnerNode (slice_set seps at entry.now) children }
    ensures no_inner { (seps : List Entry) (children : List ℕ) → node_of width page.old ≡ InnerNode seps children → at < length seps → result ≡ true }
    ensures not { result ≡ false → page.new ≡ page.old }
{
    match slot_in(page, width, at) {
        Slot::Nowhere => false,
        Slot::OfLeaf => {
            set_entry(page, width, at, entry);
            true
        }
        Slot::OfInner => {
            set_separator(page, width, at, entry);
            true
        }
    }
}

// Whether a page has a place for an entry, or for a separator.
enum Slot {
    Nowhere,
    OfLeaf,
    OfInner,
}

fn slot_in(page: &Page, width: u16, at: usize) -> Slot
    ensures { IsSlot width page.now at result }
{
    let Some(view) = NodeView::look(page, width) else {
        return Slot::Nowhere;
    };
    if at >= view.len() {
        return Slot::Nowhere;
    }
    if view.is_leaf() {
        Slot::OfLeaf
    } else {
        Slot::OfInner
    }
}
