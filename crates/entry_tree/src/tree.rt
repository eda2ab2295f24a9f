// Where a tree is.
ghost use Rattle.std.specs.Prelude.{◌≡◌, ◌≤◌};

use std::alloc::Global;
use store_api::rules::TREES_RULE;
use store_api::{Damage, StoreFault};

/// The most bytes of an entry.
pub const MAX_WIDTH: usize = 134;

/// A tree of entries of one width, by its root page, which never moves.
#[derive(Clone, Copy)]
pub struct Tree {
    /// The root page.
    pub root: u32,
    /// The number of bytes of an entry.
    pub width: u16,
    pub(crate) alloc: Global,
    ghost wide: { 5 ≤ width },
    ghost narrow: { width ≤ 134 },
}

impl Tree {
    /// The tree of a width at a root. It looks at no page.
    pub fn at(alloc: Global, root: u32, width: u16) -> Tree
        requires wide { 5 ≤ width }
        requires narrow { width ≤ 134 }
        ensures root { result.root ≡ root }
        ensures width { result.width ≡ width }
    {
        Tree { root, width, alloc }
    }

    /// The fault of a tree whose pages break its rule.
    pub(crate) fn damaged(&self) -> StoreFault
        ensures { result ≡ StoreFault.Damaged (record { page = self.now.root; rule = 4 }) }
    {
        StoreFault::Damaged(Damage {
            page: self.root,
            rule: TREES_RULE,
        })
    }
}
