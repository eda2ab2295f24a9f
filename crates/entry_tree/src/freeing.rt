// Giving all pages of a tree back.
ghost use Rattle.std.specs.Prelude.{◌≡◌, ◌+◌, ◌<◌, ℕ, List, length, true, false, IfOk, OnOk};
ghost use Rattle.mdc_words.specs.ByteOrder.{Entry};
ghost use Rattle.node_page.specs.Node.{node_of};
ghost use Rattle.node_page.specs.Node.Node.{LeafNode, InnerNode};
ghost use Rattle.store_api.specs.Frame.{NoPage, OnlyPage};
ghost use Rattle.store_api.specs.Causes.{fault_of};
ghost use Rattle.store_api.specs.RunsOverPages.{RunsOverPages};
ghost use Rattle.extent_map.specs.Map.{IsMapPage};
ghost use Rattle.extent_map.specs.declared.kind.Kind.{Kind};
ghost use Rattle.entry_tree.specs.Forest.{Forest};
ghost use Rattle.entry_tree.specs.Freeing.{FreesTree, IsFreeingPage, BreaksFreeing, Continues, BreaksNode};
ghost use Rattle.entry_tree.specs.HeldTrees.{nodes_in};
ghost use Rattle.entry_tree.specs.Standing.{StandsTree};

use crate::Tree;
use extent_map::{SpaceNotes, has_page, unused_page};
use node_page::NodeView;
use std::alloc::AllocError;
use store_api::{Page, Pages, Shape, StoreFault, bring};

impl Tree {
    /// Gives all pages of the tree back, the root too. The tree isn't there afterwards. Damaged names the root, a page of the
    /// extent map, or a page of the tree that isn't a used one of an index extent.
    pub fn free_all<P: Pages>(
        &self,
        shape: Shape,
        notes: &mut SpaceNotes,
        pages: &mut P,
    ) -> Result<(), StoreFault>
        requires going { (P.state pages.old).ended ≡ false }
        ensures freed { OnOk result ((owners : List Kind) (t : Forest) → StandsTree P.Pages shape pages.old self.now owners t → FreesTree P.Pages shape notes.old notes.new pages.new owners t) }
        ensures count { length (P.state pages.new).work ≡ length (P.state pages.old).work }
        ensures runs { RunsOverPages P.Pages (IsMapPage shape) (IsFreeingPage P.Pages shape pages.old self.now) (BreaksFreeing P.Pages shape pages.old self.now) pages.old pages.new (fault_of result) }
    {
        let count = pages.count();
        let mut todo = Vec::new(self.alloc);
        todo.push(self.root)?;
        for step in 0..count {
            let Some(page) = todo.pop() else {
                return Ok(());
            };
            if !has_page(shape, page) {
                return Err(StoreFault::Damaged(unused_page(page)));
            }
            self.push_children(pages, page, &mut todo)?;
            notes.give_index_page(shape, pages, page)?;
        }
        let Some(_) = todo.pop() else {
            return Ok(());
        };
        Err(self.damaged())
    }

    // Notes the children of a page. Damaged where it is no node of the tree.
    fn push_children<P: Pages>(
        &self,
        pages: &mut P,
        page: u32,
        todo: &mut Vec<u32>,
    ) -> Result<(), StoreFault>
        requires going { (P.state pages.old).ended ≡ false }
        ensures notes { OnOk result (Continues (nodes_in self.now.width (P.state pages.old) page) todo.old.items todo.new.items) }
        ensures same { (P.state pages.new).work ≡ (P.state pages.old).work }
        ensures runs { RunsOverPages P.Pages NoPage (OnlyPage page) (BreaksNode P.Pages pages.old self.now page) pages.old pages.new (fault_of result) }
    {
        if page >= pages.count() {
            return Err(self.damaged());
        }
        bring(pages, page)?;
        if push_from(pages.page(), self.width, todo)? {
            Ok(())
        } else {
            Err(self.damaged())
        }
    }
}

// The same on the bytes of the page. Answers whether it is a node.
fn push_from(page: &Page, width: u16, todo: &mut Vec<u32>) -> Result<bool, AllocError>
    ensures notes { IfOk result (λ there. there ≡ true → Continues (node_of width page.now) todo.old.items todo.new.items) }
    ensures leaf { IfOk result (λ there. (items : List Entry) → node_of width page.now ≡ LeafNode items → there ≡ true) }
    ensures inner { IfOk result (λ there. (seps : List Entry) (children : List ℕ) → node_of width page.now ≡ InnerNode seps children → there ≡ true) }
{
    let Some(view) = NodeView::look(page, width) else {
        return Ok(false);
    };
    if view.is_leaf() {
        return Ok(true);
    }
    for i in 0..view.len() + 1 {
        todo.push(view.child(i))?;
    }
    Ok(true)
}
