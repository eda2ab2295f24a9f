// The parts of a tree of lists, one after another.
ghost use Rattle.std.specs.Prelude.{◌≡◌, [], ◌∷◌, IfOk, IsTrue, MatchOption, OnErr};
ghost use Rattle.block_lists.specs.Merging.{ArePartsOf};
ghost use Rattle.block_lists.specs.Trees.{each_has_members};

use crate::laws::lists_rise_apart;
use crate::lists::Lists;
use crate::part::Part;
use crate::parting::first_part;
use crate::tree::ListTree;
use crate::tree_lists::lists_of_tree;
use mdc_values::Memory;
use std::alloc::Global;
use std::marker::Model;

/// A cursor over the parts of a tree of lists, which contracts see as the parts that are still to come.
#[derive(Debug, Drop)]
pub struct Merge {
    alloc: Global,
    lists: Lists,
    blocks_given: usize,
    rids_given: usize,
}

impl Model for Merge {
    ghost use Rattle.std.specs.Prelude.{◌≤◌, List, length, drop};
    ghost use Rattle.block_lists.specs.declared.part.Part.{Part};
    ghost use Rattle.block_lists.specs.Parts.{parts_of};

    ghost Value = { List Part };

    ghost view = { λ merge. parts_of (drop merge.blocks_given merge.lists.blocks) (drop merge.rids_given merge.lists.rids) };

    ghost invariant = { λ merge. (merge.blocks_given ≤ length merge.lists.blocks) × (merge.rids_given ≤ length merge.lists.rids) };
}

impl Merge {
    /// A cursor before the first part. What it gives are the parts of the tree's lists by rising block, whole blocks where
    /// the lists have these and else the slots that they have. It joins the lists at once, so that a part needs no walk
    /// through the tree. The tree stays as it is, also after `Memory`.
    pub fn over(alloc: Global, tree: &ListTree) -> Result<Merge, Memory>
        requires { IsTrue (each_has_members tree.now) }
        ensures { IfOk result (ArePartsOf tree.now) }
    {
        let lists = lists_of_tree(alloc, tree)?;
        lists_rise_apart(&lists);
        Ok(Merge {
            alloc,
            lists,
            blocks_given: 0,
            rids_given: 0,
        })
    }

    /// The next part, or None exactly where all were given. After `Memory` the cursor is as before.
    pub fn next(&mut self) -> Result<Option<Part>, Memory>
        ensures ok { IfOk result (λ part. MatchOption part ((self.old ≡ []) × (self.new ≡ [])) (λ part. self.old ≡ part ∷ self.new)) }
        ensures err { OnErr result (self.new ≡ self.old) }
    {
        let lists = &self.lists;
        let blocks = &lists.blocks.as_slice()[self.blocks_given..];
        let rids = &lists.rids.as_slice()[self.rids_given..];
        let part = first_part(self.alloc, blocks, rids)?;
        if let Some(part) = &part {
            match &part.slots {
                Some(slots) => self.rids_given += slots.len(),
                None => self.blocks_given += 1,
            }
        }
        Ok(part)
    }
}
