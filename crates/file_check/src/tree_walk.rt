// One tree, judged whole.
ghost use Rattle.std.specs.Prelude.{◌≡◌, ◌<◌, ◌+◌, IfOk, IsTrue, length, true, false};
ghost use Rattle.store_api.specs.Causes.{NoDamage, fault_of};
ghost use Rattle.store_api.specs.Frame.{NoPage};
ghost use Rattle.store_api.specs.RunsOverPages.{RunsOverPages};
ghost use Rattle.entry_tree.specs.Forest.{Forest};
ghost use Rattle.table_trees.specs.TableTrees.{place_of_tree};
ghost use Rattle.table_trees.specs.ToldPages.{HasTree};
ghost use Rattle.file_check.specs.Looking.{AnyPage};
ghost use Rattle.file_check.specs.TreeMarks.{AreMarks, StandsCounted};

use crate::branches::{Branch, judge_node};
use crate::tree_marks::TreeMarks;
use entry_tree::Tree;
use std::alloc::Global;
use store_api::{Pages, StoreFault, bring};

/// Whether a tree stands at its root: each page is a node of its width, its entries rise within the separators above them, no
/// page is in it twice, and each leaf but an empty root holds an entry. Where it stands, each of its pages is counted once more.
pub(crate) fn judge_tree<P: Pages>(
    alloc: Global,
    pages: &mut P,
    tree: &Tree,
    marks: &mut TreeMarks,
) -> Result<bool, StoreFault>
    requires going { (P.state pages.old).ended ≡ false }
    requires marks { AreMarks (length (P.state pages.old).work) marks.old }
    requires few { marks.old.tree < 65535 }
    ensures marks { AreMarks (length (P.state pages.old).work) marks.new }
    ensures next { marks.new.tree ≡ marks.old.tree + 1 }
    ensures stands { IfOk result (λ there. there ≡ true → IsTrue (P.state pages.old).is_told
        → StandsCounted (P.state pages.old).work (place_of_tree tree.now) marks.old marks.new) }
    ensures lacks { IfOk result (λ there. there ≡ false → IsTrue (P.state pages.old).is_told
        → (t : Forest) → HasTree (P.state pages.old).work (place_of_tree tree.now) t → ⊥) }
    ensures same { (P.state pages.new).work ≡ (P.state pages.old).work }
    ensures runs { RunsOverPages P.Pages NoPage AnyPage NoDamage pages.old pages.new (fault_of result) }
{
    marks.begin();
    let mut low = None;
    let mut left = Vec::new(alloc);
    left.push(Branch {
        page: tree.root,
        high: None,
    })?;
    while let Some(branch) = left.pop() {
        if !marks.meet(branch.page) {
            return Ok(false);
        }
        bring(pages, branch.page)?;
        if !judge_node(pages.page(), tree, branch, &mut low, &mut left)? {
            return Ok(false);
        }
    }
    Ok(true)
}
