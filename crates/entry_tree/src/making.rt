// An empty tree.
ghost use Rattle.std.specs.Prelude.{◌≡◌, ◌<◌, ◌≤◌, List, [], length, false, IsTrue, IfOk, IfErr, OnOk};
ghost use Rattle.node_page.specs.Node.Node.{LeafNode};
ghost use Rattle.store_api.specs.Frame.{OnlyPage};
ghost use Rattle.store_api.specs.Causes.{fault_of, store_fault_in, NoDamage};
ghost use Rattle.store_api.specs.RunsOverPages.{RunsOverPages};
ghost use Rattle.extent_map.specs.Damages.{IfFull, BreaksSpace, store_part_of};
ghost use Rattle.extent_map.specs.Map.{HoldsMap, KeepsRoot};
ghost use Rattle.extent_map.specs.Owners.{AreRightNotes};
ghost use Rattle.extent_map.specs.declared.kind.Kind.{Kind};
ghost use Rattle.entry_tree.specs.HeldTrees.{nodes_in};
ghost use Rattle.entry_tree.specs.Standing.{MakesTree, IsFullMap, IsMapSpace};

use crate::Tree;
use extent_map::{SpaceFault, SpaceNotes};
use node_page::make_leaf;
use std::alloc::Global;
use store_api::{Pages, Shape, StoreFault};

impl Tree {
    /// Makes an empty tree, at a page that it claims. After a fault `undo` goes back, and the notes are to be
    /// forgotten.
    pub fn make<P: Pages>(
        alloc: Global,
        shape: Shape,
        notes: &mut SpaceNotes,
        pages: &mut P,
        width: u16,
    ) -> Result<Tree, SpaceFault>
        requires wide { 5 ≤ width }
        requires narrow { width ≤ 134 }
        requires going { (P.state pages.old).ended ≡ false }
        ensures makes { IfOk result (λ tree. (owners : List Kind) → HoldsMap P.Pages shape pages.old owners → MakesTree P.Pages shape notes.old notes.new pages.old pages.new tree owners) }
        ensures width { IfOk result (λ tree. tree.width ≡ width) }
        ensures full { IfErr result (λ fault. IfFull fault (λ cap. (cap ≡ shape.extents) × ((owners : List Kind) → HoldsMap P.Pages shape pages.old owners → AreRightNotes shape notes.old owners → IsFullMap shape owners))) }
        ensures full_same { IfErr result (λ fault. IfFull fault (λ cap. (P.state pages.new).work ≡ (P.state pages.old).work)) }
        ensures root { (owners : List Kind) → HoldsMap P.Pages shape pages.old owners → KeepsRoot P.Pages pages.old pages.new }
        ensures runs { RunsOverPages P.Pages (IsMapSpace P.Pages shape pages.old) (IsMapSpace P.Pages shape pages.old) (BreaksSpace P.Pages shape pages.old) pages.old pages.new (store_fault_in store_part_of result) }
    {
        let root = notes.claim_index_page(shape, pages)?;
        clear_leaf(pages, root, width)?;
        Ok(Tree::at(alloc, root, width))
    }
}

// Makes a page a leaf without entries.
fn clear_leaf<P: Pages>(pages: &mut P, page: u32, width: u16) -> Result<(), StoreFault>
    requires going { (P.state pages.old).ended ≡ false }
    requires within { page < length (P.state pages.old).work }
    ensures count { length (P.state pages.new).work ≡ length (P.state pages.old).work }
    ensures clears { OnOk result (IsTrue (P.state pages.old).is_told → nodes_in width (P.state pages.new) page ≡ LeafNode []) }
    ensures runs { RunsOverPages P.Pages (OnlyPage page) (OnlyPage page) NoDamage pages.old pages.new (fault_of result) }
{
    make_leaf(pages.edit(page)?, width);
    Ok(())
}
