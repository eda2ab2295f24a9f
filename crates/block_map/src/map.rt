// Where a block map is.
ghost use Rattle.std.specs.Prelude.{◌≡◌};

use entry_tree::Tree;
use std::alloc::Global;
use store_api::layout::BLOCK_MAP_WIDTH;
use store_api::rules::BLOCK_MAPS_RULE;
use store_api::{Damage, StoreFault};

/// The blocks of a table, by the tree of their entries.
#[derive(Clone, Copy)]
pub struct BlockMap {
    /// The tree.
    pub tree: Tree,
    pub(crate) alloc: Global,
    ghost seven: { tree.width ≡ 7 },
}

impl BlockMap {
    /// The block map at a root. It looks at no page.
    pub fn at(alloc: Global, root: u32) -> BlockMap
        ensures { result.tree.root ≡ root }
    {
        BlockMap {
            tree: Tree::at(alloc, root, BLOCK_MAP_WIDTH),
            alloc,
        }
    }

    /// The fault of a block map whose entries break its rule.
    pub(crate) fn damaged(&self) -> StoreFault
        ensures { result ≡ StoreFault.Damaged (record { page = self.now.tree.root; rule = 6 }) }
    {
        StoreFault::Damaged(Damage {
            page: self.tree.root,
            rule: BLOCK_MAPS_RULE,
        })
    }
}
