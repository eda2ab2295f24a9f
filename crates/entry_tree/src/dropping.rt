// A leaf without entries leaves its tree.
ghost use Rattle.std.specs.Prelude.{◌≡◌, ◌<◌, ℕ, List, ◌∷◌, length, false, OnOk};
ghost use Rattle.node_page.specs.Node.{Node};
ghost use Rattle.store_api.specs.Causes.{fault_of};
ghost use Rattle.store_api.specs.RunsOverPages.{RunsOverPages};
ghost use Rattle.extent_map.specs.Damages.{BreaksUsedPage};
ghost use Rattle.extent_map.specs.Map.{HoldsMap, IsMapPage};
ghost use Rattle.extent_map.specs.Owners.{AreRightNotes, without_page};
ghost use Rattle.extent_map.specs.declared.kind.Kind.{Kind};
ghost use Rattle.entry_tree.specs.Forest.{Forest};
ghost use Rattle.entry_tree.specs.HeldTrees.{nodes_in};
ghost use Rattle.entry_tree.specs.TreePlaces.{Frame};
ghost use Rattle.entry_tree.specs.Pruning.{DropsLeaf, IsDropPage, IsDropLook, BreaksDrop, IsDropping};

use crate::Tree;
use crate::pruning::{other_child, take_content, take_from_inner};
use extent_map::{SpaceNotes, has_page, unused_page};
use store_api::{Pages, Shape, StoreFault};

/// Takes a leaf without entries out of the node above it, and gives its page back. Where that node would keep one child
/// alone, it takes what this child has, whose page is given back too; so no node above it changes, and the root stays where
/// it is.
pub(crate) fn drop_leaf<P: Pages>(
    tree: &Tree,
    shape: Shape,
    notes: &mut SpaceNotes,
    pages: &mut P,
    leaf: u32,
    page: u32,
    at: usize,
) -> Result<(), StoreFault>
    requires going { (P.state pages.old).ended ≡ false }
    requires within { page < length (P.state pages.old).work }
    ensures drops { OnOk result ((owners : List Kind) (was : ℕ → Node) (t : Forest) (frame : Frame) (above : List Frame) → IsDropping P.Pages shape pages.old tree.now owners was t frame above leaf page at
        → DropsLeaf P.Pages shape notes.old notes.new pages.new tree.now owners t (frame ∷ above)) }
    ensures count { length (P.state pages.new).work ≡ length (P.state pages.old).work }
    ensures runs { RunsOverPages P.Pages (IsDropPage shape page) (IsDropLook shape (nodes_in tree.now.width (P.state pages.old) page) page at) (BreaksDrop P.Pages shape pages.old tree.now leaf page at) pages.old pages.new (fault_of result) }
{
    match other_child(tree, pages, page, at)? {
        None => {
            take_from_inner(tree, pages, page, at)?;
            give_page(shape, notes, pages, leaf)
        }
        Some(other) => {
            take_content(tree, pages, page, other)?;
            give_page(shape, notes, pages, other)?;
            give_page(shape, notes, pages, leaf)
        }
    }
}

/// Gives a page of a tree back. Damaged names the page where it isn't a used page of an index extent.
pub(crate) fn give_page<P: Pages>(
    shape: Shape,
    notes: &mut SpaceNotes,
    pages: &mut P,
    page: u32,
) -> Result<(), StoreFault>
    requires going { (P.state pages.old).ended ≡ false }
    ensures gives { OnOk result ((owners : List Kind) → HoldsMap P.Pages shape pages.old owners → HoldsMap P.Pages shape pages.new (without_page shape owners page)) }
    ensures notes { OnOk result ((owners : List Kind) → HoldsMap P.Pages shape pages.old owners → AreRightNotes shape notes.old owners → AreRightNotes shape notes.new (without_page shape owners page)) }
    ensures count { length (P.state pages.new).work ≡ length (P.state pages.old).work }
    ensures runs { RunsOverPages P.Pages (IsMapPage shape) (IsMapPage shape) (BreaksUsedPage P.Pages shape pages.old page) pages.old pages.new (fault_of result) }
{
    if !has_page(shape, page) {
        return Err(StoreFault::Damaged(unused_page(page)));
    }
    notes.give_index_page(shape, pages, page)
}
