// What holds of each tree, whoever reads it.
ghost use Rattle.std.specs.Prelude.{◌≡◌, [], ◌∷◌};
ghost use Rattle.entry_tree.specs.Forest.{Forest, IsTree, IsTrimTree, leaf_entries};
ghost use Rattle.entry_tree.specs.HeldTrees.{HoldsTree};
ghost use Rattle.entry_tree.specs.WorkedTree.{worked_nodes, worked_tree};

use crate::Tree;
use store_api::Pages;

/// The pages of a store hold at most one tree at a root.
pub fn one_tree<P: Pages>(_pages: &P, _tree: &Tree)
    ensures { (t u : Forest) → HoldsTree P.Pages _pages.now _tree.now t → HoldsTree P.Pages _pages.now _tree.now u → t ≡ u }
{}

/// Pages that were worked out by hand hold a tree of three levels, with these entries.
pub fn three_levels()
    ensures tree { IsTree worked_nodes 0 worked_tree }
    ensures trim { IsTrimTree worked_tree }
    ensures entries { leaf_entries worked_tree ≡ (3 ∷ []) ∷ (5 ∷ []) ∷ (6 ∷ []) ∷ (7 ∷ []) ∷ [] }
{}
