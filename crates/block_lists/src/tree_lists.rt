// The lists that a tree stands for.
ghost use Rattle.std.specs.Prelude.{IfOk, IsTrue};
ghost use Rattle.block_lists.specs.Trees.{IsListsOf, each_has_members};

use crate::joining::or_lists;
use crate::lists::Lists;
use crate::making::empty;
use crate::many::{and_all, or_all};
use crate::tree::ListTree;
use mdc_values::{List, Memory};
use std::alloc::Global;

/// The lists of a tree: a copy of a leaf, the intersection of the members of `All`, the union of those of `Any`. The
/// tree stays as it is, also after `Memory`.
pub fn lists_of_tree(alloc: Global, tree: &ListTree) -> Result<Lists, Memory>
    requires { IsTrue (each_has_members tree.now) }
    ensures { IfOk result (IsListsOf tree.now) }
{
    match tree {
        ListTree::Leaf(lists) => or_lists(alloc, lists, &empty(alloc)),
        ListTree::All(members) => {
            let mut lists = List::new(alloc);
            for member in members.as_slice() {
                lists.push(lists_of_tree(alloc, member)?)?;
            }
            and_all(alloc, lists.as_slice())
        }
        ListTree::Any(members) => {
            let mut lists = List::new(alloc);
            for member in members.as_slice() {
                lists.push(lists_of_tree(alloc, member)?)?;
            }
            or_all(alloc, lists.as_slice())
        }
    }
}
