// The lowest entry from a bound on, and where it stands.
ghost use Rattle.std.specs.Prelude.{◌≡◌, ◌<◌, ◌+◌, ℕ, List, length, drop, false, Some, IsSome, IsTrue, IfOk, IfSome};
ghost use Rattle.mdc_words.specs.ByteOrder.{Entry};
ghost use Rattle.node_page.specs.Node.Node.{LeafNode};
ghost use Rattle.store_api.specs.Frame.{NoPage};
ghost use Rattle.store_api.specs.Causes.{fault_of};
ghost use Rattle.store_api.specs.RunsOverPages.{RunsOverPages};
ghost use Rattle.entry_tree.specs.Finding.{IsFoundEntry, found_entry};
ghost use Rattle.entry_tree.specs.Forest.{Forest, leaf_entries};
ghost use Rattle.entry_tree.specs.HeldTrees.{HoldsTree, IsTreePage, BreaksTree};
ghost use Rattle.entry_tree.specs.Reading.{BoundFits, IsFirstOr, first_entry};
ghost use Rattle.entry_tree.specs.Shown.{ReadsFirst, Shows};
ghost use Rattle.entry_tree.specs.Spots.{LendsLeaf};

use crate::leaf_place::find_leaf;
use crate::spot::find_spot;
use crate::{Entry, Tree};
use node_page::NodeView;
use store_api::{Pages, StoreFault};

/// An entry that was found, and where it stands. It takes no memory of its own.
#[derive(Drop)]
pub struct FoundEntry {
    pub(crate) entry: Entry,
    /// Its leaf.
    pub(crate) page: u32,
    /// Its place there.
    pub(crate) at: usize,
    /// Whether it is known to stand between two others of its leaf.
    pub(crate) inside: bool,
}

impl FoundEntry {
    /// Lends the bytes of the entry.
    pub fn bytes(&self) -> &[u8]
        ensures { result.now ≡ self.now.entry }
    {
        self.entry.bytes()
    }

    /// The entry alone.
    pub(crate) fn into_entry(self) -> Entry
        ensures { result ≡ self.entry }
    {
        self.entry
    }
}

impl Tree {
    /// The lowest entry at or above a bound, if there is one, and where it stands. It takes no memory. Damaged names the root.
    pub fn find_from<P: Pages>(
        &self,
        pages: &mut P,
        bound: &[u8],
    ) -> Result<Option<FoundEntry>, StoreFault>
        requires width { length bound.now ≡ self.now.width }
        requires going { (P.state pages.old).ended ≡ false }
        ensures first { IfOk result (λ found. (t : Forest) → HoldsTree P.Pages pages.old self.now t → IsFirstOr (leaf_entries t) bound.now (found_entry found)) }
        ensures seen { IfOk result (λ found. IsTrue (P.state pages.old).is_told → ReadsFirst self.now.width (P.state pages.old).work self.now.root bound.now (found_entry found)) }
        ensures stands { IfOk result (λ found. IfSome found (IsFoundEntry P.Pages pages.new self.now)) }
        ensures width { IfOk result (λ found. BoundFits self.now.width (found_entry found)) }
        ensures same { (P.state pages.new).work ≡ (P.state pages.old).work }
        ensures runs { RunsOverPages P.Pages NoPage (IsTreePage P.Pages pages.old self.now) (BreaksTree P.Pages pages.old self.now) pages.old pages.new (fault_of result) }
    {
        let leaf = find_leaf(self, pages, bound)?;
        let Some(entry) = take_first(self, pages, leaf.at) else {
            return self.find_behind(pages, bound);
        };
        Ok(Some(FoundEntry {
            entry,
            page: leaf.page,
            at: leaf.at,
            inside: is_inside(self, pages, leaf.at),
        }))
    }

    // The same where the leaf of the bound may have only entries below it: then the next leaf has some above it.
    fn find_behind<P: Pages>(
        &self,
        pages: &mut P,
        bound: &[u8],
    ) -> Result<Option<FoundEntry>, StoreFault>
        requires width { length bound.now ≡ self.now.width }
        requires going { (P.state pages.old).ended ≡ false }
        ensures first { IfOk result (λ found. (t : Forest) → HoldsTree P.Pages pages.old self.now t → IsFirstOr (leaf_entries t) bound.now (found_entry found)) }
        ensures seen { IfOk result (λ found. IsTrue (P.state pages.old).is_told → ReadsFirst self.now.width (P.state pages.old).work self.now.root bound.now (found_entry found)) }
        ensures stands { IfOk result (λ found. IfSome found (IsFoundEntry P.Pages pages.new self.now)) }
        ensures width { IfOk result (λ found. BoundFits self.now.width (found_entry found)) }
        ensures same { (P.state pages.new).work ≡ (P.state pages.old).work }
        ensures runs { RunsOverPages P.Pages NoPage (IsTreePage P.Pages pages.old self.now) (BreaksTree P.Pages pages.old self.now) pages.old pages.new (fault_of result) }
    {
        let spot = find_spot(self, pages, bound)?;
        if let Some(entry) = take_first(self, pages, spot.at) {
            return Ok(Some(found_at(spot.page, spot.at, entry)));
        }
        let Some(next) = spot.high else {
            return Ok(None);
        };
        let behind = find_spot(self, pages, next.bound.bytes())?;
        match take_first(self, pages, behind.at) {
            Some(entry) => Ok(Some(found_at(behind.page, behind.at, entry))),
            None => Err(self.damaged()),
        }
    }
}

// The entry at a place of a leaf.
fn found_at(page: u32, at: usize, entry: Entry) -> FoundEntry
    ensures { result ≡ record { entry = entry; page = page; at = at; inside = false } }
{
    FoundEntry {
        entry,
        page,
        at,
        inside: false,
    }
}

// Whether a place of the leaf at hand lies between two others.
fn is_inside<P: Pages>(tree: &Tree, pages: &P, at: usize) -> bool
    requires hand { IsSome (P.state pages.now).hand }
    ensures { (items : List Entry) → LendsLeaf tree.now.width (P.state pages.now).hand items → IsTrue result → (0 < at) × (at + 1 < length items) }
{
    let Some(view) = NodeView::look(pages.page(), tree.width) else {
        return false;
    };
    0 < at && at < view.len().saturating_sub(1)
}

// Copies the entry at a place of the leaf at hand, if there is one.
fn take_first<P: Pages>(tree: &Tree, pages: &P, at: usize) -> Option<Entry>
    requires hand { IsSome (P.state pages.now).hand }
    ensures taken { (items : List Entry) → LendsLeaf tree.now.width (P.state pages.now).hand items → result ≡ first_entry (drop at items) }
    ensures shown { (bytes : List ℕ) (items : List Entry) → (P.state pages.now).hand ≡ Some bytes → Shows tree.now.width bytes (LeafNode items) → result ≡ first_entry (drop at items) }
    ensures width { BoundFits tree.now.width result }
{
    let view = NodeView::look(pages.page(), tree.width)?;
    if !view.is_leaf() || at >= view.len() {
        return None;
    }
    Some(Entry::of(view.entry(at)))
}
