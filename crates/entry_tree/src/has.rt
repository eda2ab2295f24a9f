// Whether an entry is in a tree.
ghost use Rattle.std.specs.Prelude.{◌≡◌, ◌<◌, ◌↔◌, length, false, IsTrue, IfOk};
ghost use Rattle.store_api.specs.Frame.{NoPage};
ghost use Rattle.store_api.specs.Causes.{fault_of};
ghost use Rattle.store_api.specs.RunsOverPages.{RunsOverPages};
ghost use Rattle.entry_tree.specs.EntryBounds.{IsEntryOf};
ghost use Rattle.entry_tree.specs.Forest.{Forest, leaf_entries};
ghost use Rattle.entry_tree.specs.HeldTrees.{HoldsTree, IsTreePage, BreaksTree};
ghost use Rattle.entry_tree.specs.Shown.{SeesWhether};

use crate::Tree;
use crate::leaf_place::find_leaf;
use store_api::{Pages, StoreFault};

impl Tree {
    /// Whether an entry is in the tree. Damaged names the root.
    pub fn has<P: Pages>(&self, pages: &mut P, entry: &[u8]) -> Result<bool, StoreFault>
        requires width { length entry.now ≡ self.now.width }
        requires going { (P.state pages.old).ended ≡ false }
        ensures has { IfOk result (λ there. (t : Forest) → HoldsTree P.Pages pages.old self.now t → IsTrue there ↔ IsEntryOf entry.now (leaf_entries t)) }
        ensures seen { IfOk result (λ there. IsTrue (P.state pages.old).is_told → SeesWhether self.now.width (P.state pages.old).work self.now.root entry.now there) }
        ensures same { (P.state pages.new).work ≡ (P.state pages.old).work }
        ensures runs { RunsOverPages P.Pages NoPage (IsTreePage P.Pages pages.old self.now) (BreaksTree P.Pages pages.old self.now) pages.old pages.new (fault_of result) }
    {
        let leaf = find_leaf(self, pages, entry)?;
        Ok(leaf.there)
    }
}
