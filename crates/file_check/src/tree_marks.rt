// Marks of the pages that were met in trees.
ghost use Rattle.std.specs.Prelude.{◌≡◌, ◌≤◌, ◌<◌, ◌⊎◌, ◌+◌, ℕ, IfOk, length, true, false};
ghost use Rattle.file_check.specs.TreeMarks.{AreMarks, MeetsPage, last_tree, times_met};

use std::alloc::{AllocError, Global};

/// Which pages were met in trees: the trees have numbers from 1 on, in the order in which they are judged.
#[derive(Drop)]
pub(crate) struct TreeMarks {
    /// The tree that is judged.
    pub(crate) tree: u16,
    /// The last tree in which each page was met, or 0.
    pub(crate) last: Vec<u16>,
    /// In how many trees it was met.
    pub(crate) times: Vec<u16>,
}

impl TreeMarks {
    /// Marks of so many pages, none of which was met.
    pub(crate) fn new(alloc: Global, count: u32) -> Result<TreeMarks, AllocError>
        ensures marks { IfOk result (AreMarks count) }
        ensures first { IfOk result (λ marks. marks.tree ≡ 0) }
        ensures none { IfOk result (λ marks. (p : ℕ) → times_met marks p ≡ 0) }
    {
        let mut last = Vec::new(alloc);
        last.resize(count as usize, 0)?;
        let mut times = Vec::new(alloc);
        times.resize(count as usize, 0)?;
        Ok(TreeMarks {
            tree: 0,
            last,
            times,
        })
    }

    /// Goes on to the next tree, in which no page was met yet.
    pub(crate) fn begin(&mut self)
        requires { self.old.tree < 65535 }
        ensures { self.new ≡ record self.old { tree = self.old.tree + 1 } }
    {
        self.tree += 1;
    }

    /// Marks a page as one of the tree that is judged. Answers whether it is there, and wasn't met in this tree before.
    pub(crate) fn meet(&mut self, page: u32) -> bool
        requires few { (p : ℕ) → times_met self.old p ≤ last_tree self.old p }
        requires lengths { length self.old.times.items ≡ length self.old.last.items }
        ensures meets { result ≡ true → MeetsPage page self.old self.new }
        ensures kept { result ≡ false → self.new ≡ self.old }
        ensures refused { result ≡ false → (length self.old.last.items ≤ page) ⊎ (self.old.tree ≤ last_tree self.old page) }
    {
        let page = page as usize;
        if page >= self.last.len() {
            return false;
        }
        if self.last[page] >= self.tree {
            return false;
        }
        self.last[page] = self.tree;
        self.times[page] += 1;
        true
    }
}
