// An entry leaves a tree.
ghost use Rattle.std.specs.Prelude.{◌≡◌, ◌<◌, length, List, false, IsTrue, IfOk, IfSome, OnOk, MatchBool};
ghost use Rattle.store_api.specs.Causes.{fault_of};
ghost use Rattle.store_api.specs.RunsOverPages.{RunsOverPages};
ghost use Rattle.extent_map.specs.declared.kind.Kind.{Kind};
ghost use Rattle.entry_tree.specs.EntryBounds.{IsEntryOf};
ghost use Rattle.entry_tree.specs.Forest.{Forest, leaf_entries};
ghost use Rattle.entry_tree.specs.HeldTrees.{nodes_in, HoldsTree};
ghost use Rattle.entry_tree.specs.LeafSpots.{IsItemSpot};
ghost use Rattle.entry_tree.specs.Shown.{SeesWhether};
ghost use Rattle.entry_tree.specs.Standing.{StandsTree};
ghost use Rattle.entry_tree.specs.Pruning.{RemovesEntry, RemovesItem, IsTreeOrMapPage, BreaksTreeOrReturn};

use crate::Tree;
use crate::dropping::drop_leaf;
use crate::leaf_spot::{LeafSpot, leaf_spot};
use crate::pruning::{leaf_len, take_from_leaf};
use extent_map::SpaceNotes;
use store_api::{Pages, Shape, StoreFault};

impl Tree {
    /// Removes an entry. False exactly where it wasn't there; then the pages stay as they were. It claims no page. A leaf
    /// that keeps no entry is given back, and so is the one other child of a node that would have it alone: the node takes
    /// what that child has. A root without entries stays. Damaged says that tree or extent map hadn't their form.
    pub fn remove<P: Pages>(
        &self,
        shape: Shape,
        notes: &mut SpaceNotes,
        pages: &mut P,
        entry: &[u8],
    ) -> Result<bool, StoreFault>
        requires width { length entry.now ≡ self.now.width }
        requires going { (P.state pages.old).ended ≡ false }
        ensures removes { IfOk result (λ there. (owners : List Kind) (t : Forest) → StandsTree P.Pages shape pages.old self.now owners t
            → MatchBool there (RemovesEntry P.Pages shape notes.old notes.new pages.new self.now entry.now owners t) (IsEntryOf entry.now (leaf_entries t) → ⊥)) }
        ensures seen { IfOk result (λ there. IsTrue (P.state pages.old).is_told → SeesWhether self.now.width (P.state pages.old).work self.now.root entry.now there) }
        ensures not { IfOk result (λ there. there ≡ false → (P.state pages.new).work ≡ (P.state pages.old).work) }
        ensures not_notes { IfOk result (λ there. there ≡ false → notes.new ≡ notes.old) }
        ensures count { length (P.state pages.new).work ≡ length (P.state pages.old).work }
        ensures runs { RunsOverPages P.Pages (IsTreeOrMapPage P.Pages shape pages.old self.now) (IsTreeOrMapPage P.Pages shape pages.old self.now) (BreaksTreeOrReturn P.Pages shape pages.old self.now) pages.old pages.new (fault_of result) }
    {
        let spot = leaf_spot(self, pages, entry)?;
        if !spot.there {
            return Ok(false);
        }
        take_out(self, shape, notes, pages, spot)?;
        Ok(true)
    }
}

/// Takes the entry at a spot out of its leaf, and a leaf that keeps none out of the tree.
fn take_out<P: Pages>(
    tree: &Tree,
    shape: Shape,
    notes: &mut SpaceNotes,
    pages: &mut P,
    spot: LeafSpot,
) -> Result<(), StoreFault>
    requires going { (P.state pages.old).ended ≡ false }
    requires there { spot.page < length (P.state pages.old).work }
    requires parent { IfSome spot.parent (λ place. place.0 < length (P.state pages.old).work) }
    requires spot { (t : Forest) → HoldsTree P.Pages pages.old tree.now t → IsItemSpot (nodes_in tree.now.width (P.state pages.old)) t spot.page spot.at spot.parent }
    ensures takes { OnOk result ((owners : List Kind) (t : Forest) → StandsTree P.Pages shape pages.old tree.now owners t → RemovesItem P.Pages shape notes.old notes.new pages.old pages.new tree.now owners t spot.page spot.at) }
    ensures count { length (P.state pages.new).work ≡ length (P.state pages.old).work }
    ensures runs { RunsOverPages P.Pages (IsTreeOrMapPage P.Pages shape pages.old tree.now) (IsTreeOrMapPage P.Pages shape pages.old tree.now) (BreaksTreeOrReturn P.Pages shape pages.old tree.now) pages.old pages.new (fault_of result) }
{
    let Some((page, at)) = spot.parent else {
        return take_from_leaf(tree, pages, spot.page, spot.at);
    };
    let len = leaf_len(tree, pages, spot.page)?;
    if len > 1 {
        return take_from_leaf(tree, pages, spot.page, spot.at);
    }
    drop_leaf(tree, shape, notes, pages, spot.page, page, at)
}
