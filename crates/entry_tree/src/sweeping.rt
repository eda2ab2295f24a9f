// Entries leave a leaf of a tree because they name a block of a set.
ghost use Rattle.std.specs.Prelude.{◌≡◌, ◌+◌, ◌<◌, ◌≤◌, List, length, false, IsTrue, IfOk, IfSome, OnOk};
ghost use Rattle.mdc_words.specs.ByteOrder.{Entry};
ghost use Rattle.node_page.specs.Entries.{count_named, without_blocks};
ghost use Rattle.node_page.specs.Node.Node.{LeafNode};
ghost use Rattle.store_api.specs.Causes.{fault_of};
ghost use Rattle.store_api.specs.RunsOverPages.{RunsOverPages};
ghost use Rattle.extent_map.specs.declared.kind.Kind.{Kind};
ghost use Rattle.entry_tree.specs.Forest.{Forest};
ghost use Rattle.entry_tree.specs.HeldTrees.{nodes_in, HoldsTree};
ghost use Rattle.entry_tree.specs.LeafSpots.{IsItemSpot};
ghost use Rattle.entry_tree.specs.Pruning.{IsTreeOrMapPage, BreaksTreeOrReturn};
ghost use Rattle.entry_tree.specs.Reading.{BoundFits};
ghost use Rattle.entry_tree.specs.Shown.{SeesSwept};
ghost use Rattle.entry_tree.specs.Standing.{StandsTree};
ghost use Rattle.entry_tree.specs.Sweeping.{IsEmptiedBy, IsLeafSpot, PrunesLeaf, SweepsLeaf};

use crate::dropping::drop_leaf;
use crate::first_leaf::first_leaf;
use crate::naming::{Named, count_in_leaf, sweep_page};
use crate::reading::fence_bound;
use crate::spot::Spot;
use crate::{Entry, Tree};
use extent_map::SpaceNotes;
use mdc_values::Blocks;
use store_api::{Pages, Shape, StoreFault};

/// What a sweep of one leaf did.
#[derive(Drop)]
pub struct Swept {
    /// How many entries left.
    pub removed: u32,
    /// The bound at which the entries behind the leaf begin. None where there are none.
    pub next: Option<Entry>,
}

impl Tree {
    /// Removes from one leaf the entries from a bound on whose four bytes at `at` name one of these blocks. The leaf is the
    /// first that holds an entry from the bound on. It claims no page. A leaf that keeps no entry is given back, as by
    /// `remove`; one that loses none is not written. Damaged says that tree or extent map hadn't their form.
    pub fn sweep_leaf<P: Pages>(
        &self,
        shape: Shape,
        notes: &mut SpaceNotes,
        pages: &mut P,
        bound: &[u8],
        at: u16,
        blocks: &Blocks,
    ) -> Result<Swept, StoreFault>
        requires width { length bound.now ≡ self.now.width }
        requires named { at + 4 ≤ self.now.width }
        requires going { (P.state pages.old).ended ≡ false }
        ensures sweeps { IfOk result (λ swept. (owners : List Kind) (t : Forest) → StandsTree P.Pages shape pages.old self.now owners t
            → SweepsLeaf P.Pages shape notes.old notes.new pages.new self.now owners t bound.now at blocks.now swept.removed swept.next) }
        ensures seen { IfOk result (λ swept. IsTrue (P.state pages.old).is_told → SeesSwept self.now.width (P.state pages.old).work self.now.root bound.now swept.next) }
        ensures not { IfOk result (λ swept. swept.removed ≡ 0 → (P.state pages.new).work ≡ (P.state pages.old).work) }
        ensures not_notes { IfOk result (λ swept. swept.removed ≡ 0 → notes.new ≡ notes.old) }
        ensures next { IfOk result (λ swept. BoundFits self.now.width swept.next) }
        ensures count { length (P.state pages.new).work ≡ length (P.state pages.old).work }
        ensures runs { RunsOverPages P.Pages (IsTreeOrMapPage P.Pages shape pages.old self.now) (IsTreeOrMapPage P.Pages shape pages.old self.now) (BreaksTreeOrReturn P.Pages shape pages.old self.now) pages.old pages.new (fault_of result) }
    {
        let spot = first_leaf(self, pages, bound)?;
        let removed = sweep_spot(self, shape, notes, pages, &spot, usize::from(at), blocks)?;
        Ok(Swept {
            removed,
            next: fence_bound(spot.high),
        })
    }
}

/// Removes the entries from a spot on that name a block, and answers how many they were.
fn sweep_spot<P: Pages>(
    tree: &Tree,
    shape: Shape,
    notes: &mut SpaceNotes,
    pages: &mut P,
    spot: &Spot,
    at: usize,
    blocks: &Blocks,
) -> Result<u32, StoreFault>
    requires named { at + 4 ≤ tree.now.width }
    requires going { (P.state pages.old).ended ≡ false }
    requires there { spot.now.page < length (P.state pages.old).work }
    requires parent { IfSome spot.now.parent (λ place. place.0 < length (P.state pages.old).work) }
    requires spot { (t : Forest) → HoldsTree P.Pages pages.old tree.now t → IsLeafSpot (nodes_in tree.now.width (P.state pages.old)) t spot.now.page spot.now.parent }
    ensures prunes { IfOk result (λ removed. (owners : List Kind) (t : Forest) → StandsTree P.Pages shape pages.old tree.now owners t
        → (s : IsLeafSpot (nodes_in tree.now.width (P.state pages.old)) t spot.now.page spot.now.parent)
        → PrunesLeaf P.Pages shape notes.old notes.new pages.new tree.now owners t s.above (without_blocks blocks.now at spot.now.at s.items) × (removed ≡ count_named blocks.now at spot.now.at s.items)) }
    ensures not { IfOk result (λ removed. removed ≡ 0 → (P.state pages.new).work ≡ (P.state pages.old).work) }
    ensures not_notes { IfOk result (λ removed. removed ≡ 0 → notes.new ≡ notes.old) }
    ensures count { length (P.state pages.new).work ≡ length (P.state pages.old).work }
    ensures runs { RunsOverPages P.Pages (IsTreeOrMapPage P.Pages shape pages.old tree.now) (IsTreeOrMapPage P.Pages shape pages.old tree.now) (BreaksTreeOrReturn P.Pages shape pages.old tree.now) pages.old pages.new (fault_of result) }
{
    let Named { going, of } = count_in_leaf(tree, pages, spot.page, spot.at, at, blocks)?;
    if going == 0 {
        return Ok(0);
    }
    prune_spot(tree, shape, notes, pages, spot, going == of, at, blocks)?;
    Ok(going as u32)
}

/// Takes those entries out of the leaf, or the leaf out of the tree where they are all that it has and it isn't the root.
fn prune_spot<P: Pages>(
    tree: &Tree,
    shape: Shape,
    notes: &mut SpaceNotes,
    pages: &mut P,
    spot: &Spot,
    all: bool,
    at: usize,
    blocks: &Blocks,
) -> Result<(), StoreFault>
    requires named { at + 4 ≤ tree.now.width }
    requires going { (P.state pages.old).ended ≡ false }
    requires there { spot.now.page < length (P.state pages.old).work }
    requires parent { IfSome spot.now.parent (λ place. place.0 < length (P.state pages.old).work) }
    requires spot { (t : Forest) → HoldsTree P.Pages pages.old tree.now t → IsItemSpot (nodes_in tree.now.width (P.state pages.old)) t spot.now.page spot.now.at spot.now.parent }
    requires all { (items : List Entry) → nodes_in tree.now.width (P.state pages.old) spot.now.page ≡ LeafNode items → IsEmptiedBy blocks.now at spot.now.at items all }
    ensures prunes { OnOk result ((owners : List Kind) (t : Forest) → StandsTree P.Pages shape pages.old tree.now owners t
        → (s : IsItemSpot (nodes_in tree.now.width (P.state pages.old)) t spot.now.page spot.now.at spot.now.parent)
        → PrunesLeaf P.Pages shape notes.old notes.new pages.new tree.now owners t s.above (without_blocks blocks.now at spot.now.at s.items)) }
    ensures count { length (P.state pages.new).work ≡ length (P.state pages.old).work }
    ensures runs { RunsOverPages P.Pages (IsTreeOrMapPage P.Pages shape pages.old tree.now) (IsTreeOrMapPage P.Pages shape pages.old tree.now) (BreaksTreeOrReturn P.Pages shape pages.old tree.now) pages.old pages.new (fault_of result) }
{
    let Some((page, place)) = spot.parent else {
        return sweep_page(tree, pages, spot.page, spot.at, at, blocks);
    };
    if !all {
        return sweep_page(tree, pages, spot.page, spot.at, at, blocks);
    }
    drop_leaf(tree, shape, notes, pages, spot.page, page, place)
}
