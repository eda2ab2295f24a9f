// The members of trees of lists.
ghost use Rattle.std.specs.Prelude.{◌≡◌, ℕ, [], ◌∷◌, ◌++◌, IfOk, IsTrue, OnErr, OnOk};
ghost use Rattle.std.specs.List.{list_all, list_any};
ghost use Rattle.mdc_values.specs.declared.rid.Rid.{Rid};
ghost use Rattle.block_lists.specs.Lists.{holds, lists_block};
ghost use Rattle.block_lists.specs.Trees.{each_has_members, tree_holds, tree_lists_block};

use crate::lists::Lists;
use crate::tree::ListTree;
use mdc_values::{List, Memory};
use std::alloc::Global;
use std::marker::Model;

/// At least one tree, in each of which each `All` and each `Any` has a member.
#[derive(Debug, Drop)]
pub struct Members {
    trees: List<ListTree>,
}

impl Model for Members {
    ghost use Rattle.std.specs.Coded.{codes};
    ghost use Rattle.std.specs.Prelude.{IsTrue, List};
    ghost use Rattle.block_lists.specs.contracts.tree.ListTree as list_tree;
    ghost use Rattle.block_lists.specs.declared.tree.ListTree.{ListTree};
    ghost use Rattle.block_lists.specs.Trees.{can_be_members};

    ghost Value = { List ListTree };

    ghost coded = { Prim.hlevel (codes, list_tree.the_row.coded) };

    ghost view = { λ members. members.trees };

    ghost invariant = { λ members. IsTrue (can_be_members members.trees) };
}

impl Members {
    /// One member.
    pub fn of(alloc: Global, first: ListTree) -> Result<Members, Memory>
        requires { IsTrue (each_has_members first) }
        ensures { IfOk result (λ members. members ≡ first ∷ []) }
    {
        let mut trees = List::new(alloc);
        trees.push(first)?;
        Ok(Members { trees })
    }

    /// Puts a member last. After `Memory` the members are as before.
    pub fn push(&mut self, member: ListTree) -> Result<(), Memory>
        requires { IsTrue (each_has_members member) }
        ensures ok { OnOk result (self.new ≡ self.old ++ member ∷ []) }
        ensures err { OnErr result (self.new ≡ self.old) }
    {
        self.trees.push(member)?;
        Ok(())
    }

    /// The tree of what all members stand for. It takes no memory.
    pub fn all(self) -> ListTree
        ensures members { IsTrue (each_has_members result) }
        ensures rows { (rid : Rid) → tree_holds result rid ≡ list_all (λ member. tree_holds member rid) self }
        ensures blocks { (block : ℕ) → tree_lists_block result block ≡ list_all (λ member. tree_lists_block member block) self }
    {
        ListTree::All(self.trees)
    }

    /// The tree of what one of the members stands for. It takes no memory.
    pub fn any(self) -> ListTree
        ensures members { IsTrue (each_has_members result) }
        ensures rows { (rid : Rid) → tree_holds result rid ≡ list_any (λ member. tree_holds member rid) self }
        ensures blocks { (block : ℕ) → tree_lists_block result block ≡ list_any (λ member. tree_lists_block member block) self }
    {
        ListTree::Any(self.trees)
    }
}

/// The tree of what lists stand for. It takes no memory.
pub fn leaf(lists: Lists) -> ListTree
    ensures members { IsTrue (each_has_members result) }
    ensures rows { (rid : Rid) → tree_holds result rid ≡ holds lists rid }
    ensures blocks { (block : ℕ) → tree_lists_block result block ≡ lists_block lists block }
{
    ListTree::Leaf(lists)
}

/// Whether each `All` and each `Any` of a tree has a member.
pub fn has_members(tree: &ListTree) -> bool
    ensures { result ≡ each_has_members tree.now }
{
    match tree {
        ListTree::Leaf(_) => true,
        ListTree::All(members) | ListTree::Any(members) => {
            for member in members.as_slice() {
                if !has_members(member) {
                    return false;
                }
            }
            members.len() > 0
        }
    }
}
