// The way down to the leaf of an entry.
ghost use Rattle.std.specs.Prelude.{◌≡◌, ◌<◌, ◌≤◌, ◌+◌, if◌then◌else◌, length, reverse, false, IsTrue, IfOk, All};
ghost use Rattle.store_api.specs.Frame.{NoPage};
ghost use Rattle.store_api.specs.Causes.{fault_of};
ghost use Rattle.store_api.specs.RunsOverPages.{RunsOverPages};
ghost use Rattle.node_page.specs.Node.{is_full};
ghost use Rattle.entry_tree.specs.Forest.{Forest};
ghost use Rattle.entry_tree.specs.TreePlaces.{pages_asked};
ghost use Rattle.entry_tree.specs.TreeChanges.{IsLeafFound};
ghost use Rattle.entry_tree.specs.HeldTrees.{nodes_in, HoldsTree, IsTreePage, BreaksTree};
ghost use Rattle.entry_tree.specs.Shown.{SeesAsked};

use crate::Tree;
use crate::sight::{Sight, see};
use smallvec::SmallVec;
use store_api::{Pages, StoreFault};

/// How many nodes of a way lie in place, with no allocation: trees are seldom deeper.
const WAY_INLINE: usize = 8;

/// The nodes above a place, from the root down: the page of each, and which of its children is on the way.
pub(crate) type Path = SmallVec<(u32, usize), WAY_INLINE>;

/// The leaf of an entry, and the way to it.
#[derive(Drop)]
pub(crate) struct Way {
    pub(crate) path: Path,
    /// The leaf.
    pub(crate) page: u32,
    /// Where the entry belongs in it.
    pub(crate) at: usize,
    /// Whether it is there.
    pub(crate) there: bool,
    /// How many pages it asks for if it is added.
    pub(crate) asked: usize,
}

/// Goes down to the leaf of an entry. Damaged names the root.
pub(crate) fn find_way<P: Pages>(
    tree: &Tree,
    pages: &mut P,
    entry: &[u8],
) -> Result<Way, StoreFault>
    requires width { length entry.now ≡ tree.now.width }
    requires going { (P.state pages.old).ended ≡ false }
    ensures found { IfOk result (λ way. (t : Forest) → HoldsTree P.Pages pages.old tree.now t
        → IsLeafFound (nodes_in tree.now.width (P.state pages.old)) t entry.now (reverse way.path.items) way.page way.at way.there
        × (way.asked ≡ pages_asked (is_full tree.now.width) (nodes_in tree.now.width (P.state pages.old)) (reverse way.path.items) way.page)) }
    ensures seen { IfOk result (λ way. IsTrue (P.state pages.old).is_told
        → SeesAsked tree.now.width (P.state pages.old).work tree.now.root entry.now way.page way.at way.there way.asked) }
    ensures there { IfOk result (λ way. way.page < length (P.state pages.old).work) }
    ensures path { IfOk result (λ way. All (λ place. place.0 < length (P.state pages.old).work) way.path.items) }
    ensures root { IfOk result (λ way. tree.now.root < length (P.state pages.old).work) }
    ensures few { IfOk result (λ way. way.asked ≤ length (P.state pages.old).work + 1) }
    ensures same { (P.state pages.new).work ≡ (P.state pages.old).work }
    ensures runs { RunsOverPages P.Pages NoPage (IsTreePage P.Pages pages.old tree.now) (BreaksTree P.Pages pages.old tree.now) pages.old pages.new (fault_of result) }
{
    let count = pages.count();
    let mut path = SmallVec::new(tree.alloc);
    let mut page = tree.root;
    let mut run = 1;
    for step in 0..count {
        if page >= count {
            return Err(tree.damaged());
        }
        match see(pages, tree, page, entry)? {
            Sight::Nothing => return Err(tree.damaged()),
            Sight::AtLeaf(at, there, full) => {
                return Ok(Way {
                    path,
                    page,
                    at,
                    there,
                    asked: more_asked(full, run),
                });
            }
            Sight::AtInner(at, child, full) => {
                path.push((page, at))?;
                page = child;
                run = more_asked(full, run);
            }
        }
    }
    Err(tree.damaged())
}

/// How many pages are asked for with one node more below those that ask for so many.
fn more_asked(full: bool, run: usize) -> usize
    requires { run < usize.MAX }
    ensures { result ≡ (if full then 1 + run else 0) }
{
    if full { run + 1 } else { 0 }
}
