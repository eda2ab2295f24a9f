// An entry more.
ghost use Rattle.std.specs.Prelude.{◌≡◌, ◌<◌, List, length, reverse, false, not, IsTrue, IfOk, IfErr, OnOk, All, MatchBool};
ghost use Rattle.store_api.specs.Causes.{fault_of, store_fault_in};
ghost use Rattle.store_api.specs.RunsOverPages.{RunsOverPages};
ghost use Rattle.extent_map.specs.Damages.{IfFull, store_part_of};
ghost use Rattle.extent_map.specs.Map.{KeepsRoot};
ghost use Rattle.extent_map.specs.declared.kind.Kind.{Kind};
ghost use Rattle.entry_tree.specs.EntryBounds.{IsEntryOf};
ghost use Rattle.entry_tree.specs.Forest.{Forest, leaf_entries};
ghost use Rattle.entry_tree.specs.TreeChanges.{IsAdded};
ghost use Rattle.entry_tree.specs.HeldTrees.{nodes_in};
ghost use Rattle.entry_tree.specs.Shown.{SeesFull, SeesWhether};
ghost use Rattle.entry_tree.specs.Standing.{StandsTree, AddsEntry, FindsFull, IsTreeSpace, BreaksTreeOrMap};
ghost use Rattle.entry_tree.specs.Writing.{IsCutPage, IsReadyToCut, BreaksWhere};

use crate::Tree;
use crate::claims::claim_pages;
use crate::descent::{Path, Way, find_way};
use crate::edits::{cut_leaf, put_in_leaf};
use crate::going_up::go_up;
use crate::tree::MAX_WIDTH;
use extent_map::{SpaceFault, SpaceNotes};
use store_api::{Pages, Shape, StoreFault};

impl Tree {
    /// Adds an entry: false where it is there, and then the work stays. It claims one page for each full node from its
    /// leaf upwards without a gap, and one more where these reach the root, before a node changes: `Full` says that there
    /// were fewer. After a fault `undo` goes back, and the notes are to be forgotten.
    pub fn add<P: Pages>(
        &self,
        shape: Shape,
        notes: &mut SpaceNotes,
        pages: &mut P,
        entry: &[u8],
    ) -> Result<bool, SpaceFault>
        requires width { length entry.now ≡ self.now.width }
        requires going { (P.state pages.old).ended ≡ false }
        ensures adds { IfOk result (λ added. (owners : List Kind) (t : Forest) → StandsTree P.Pages shape pages.old self.now owners t
            → MatchBool added (AddsEntry P.Pages shape notes.old notes.new pages.old pages.new self.now entry.now owners t) (IsEntryOf entry.now (leaf_entries t))) }
        ensures seen { IfOk result (λ added. IsTrue (P.state pages.old).is_told → SeesWhether self.now.width (P.state pages.old).work self.now.root entry.now (not added)) }
        ensures there { IfOk result (λ added. added ≡ false → (P.state pages.new).work ≡ (P.state pages.old).work) }
        ensures there_notes { IfOk result (λ added. added ≡ false → notes.new ≡ notes.old) }
        ensures full { IfErr result (λ fault. IfFull fault (λ cap. (cap ≡ shape.extents)
            × ((owners : List Kind) (t : Forest) → StandsTree P.Pages shape pages.old self.now owners t → FindsFull P.Pages shape notes.old notes.new pages.old pages.new self.now entry.now owners t))) }
        ensures full_seen { IfErr result (λ fault. IfFull fault (λ cap. SeesFull P.Pages shape notes.old notes.new pages.old pages.new self.now entry.now)) }
        ensures root { (owners : List Kind) (t : Forest) → StandsTree P.Pages shape pages.old self.now owners t → KeepsRoot P.Pages pages.old pages.new }
        ensures runs { RunsOverPages P.Pages (IsTreeSpace P.Pages shape pages.old self.now) (IsTreeSpace P.Pages shape pages.old self.now)
            (BreaksTreeOrMap P.Pages shape pages.old self.now) pages.old pages.new (store_fault_in store_part_of result) }
    {
        let Way {
            path,
            page,
            at,
            there,
            asked,
        } = find_way(self, pages, entry)?;
        if there {
            return Ok(false);
        }
        if asked == 0 {
            put_in_leaf(self, pages, page, at, entry)?;
            return Ok(true);
        }
        let claimed = claim_pages(self.alloc, shape, notes, pages, asked)?;
        put_with_cuts(self, pages, path, page, at, entry, &claimed)?;
        Ok(true)
    }
}

/// Puts an entry into a full leaf: cuts it in two, and each full node above. All pages that this takes were claimed.
fn put_with_cuts<P: Pages>(
    tree: &Tree,
    pages: &mut P,
    path: Path,
    page: u32,
    at: usize,
    entry: &[u8],
    claimed: &[u32],
) -> Result<(), StoreFault>
    requires width { length entry.now ≡ tree.now.width }
    requires going { (P.state pages.old).ended ≡ false }
    requires within { page < length (P.state pages.old).work }
    requires root { tree.now.root < length (P.state pages.old).work }
    requires there { All (λ p. p < length (P.state pages.old).work) claimed.now }
    requires path_there { All (λ place. place.0 < length (P.state pages.old).work) path.items }
    requires some { 0 < length claimed.now }
    ensures adds { (t : Forest) → IsReadyToCut tree.now.width (nodes_in tree.now.width (P.state pages.old)) tree.now.root t entry.now (reverse path.items) page at claimed.now
        → OnOk result (IsAdded tree.now.width (nodes_in tree.now.width (P.state pages.old)) (nodes_in tree.now.width (P.state pages.new)) tree.now.root t entry.now claimed.now) }
    ensures count { length (P.state pages.new).work ≡ length (P.state pages.old).work }
    ensures runs { RunsOverPages P.Pages (IsCutPage page tree.now.root path.items claimed.now) (IsCutPage page tree.now.root path.items claimed.now)
        (BreaksWhere tree.now ((t : Forest) × IsReadyToCut tree.now.width (nodes_in tree.now.width (P.state pages.old)) tree.now.root t entry.now (reverse path.items) page at claimed.now))
        pages.old pages.new (fault_of result) }
{
    let mut bytes = [0; MAX_WIDTH];
    let separator = &mut bytes[..usize::from(tree.width)];
    cut_leaf(tree, pages, page, at, entry, claimed[0], separator)?;
    go_up(tree, pages, path, separator, claimed)
}
