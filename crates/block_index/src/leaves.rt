// The entries of a tree, a leaf at a time.
ghost use Rattle.std.specs.Prelude.{◌≡◌, ◌<◌, ◌≤◌, ◌++◌, length, replicate, false, true, Some, IfOk};
ghost use Rattle.store_api.specs.Causes.{fault_of};
ghost use Rattle.store_api.specs.Frame.{NoPage};
ghost use Rattle.store_api.specs.RunsOverPages.{RunsOverPages};
ghost use Rattle.mdc_words.specs.ByteOrder.{below};
ghost use Rattle.entry_tree.specs.Entries.{AreOfWidth};
ghost use Rattle.entry_tree.specs.Forest.{Forest, leaf_entries};
ghost use Rattle.entry_tree.specs.HeldTrees.{BreaksTree, HoldsTree, IsTreePage};
ghost use Rattle.entry_tree.specs.Reading.{BoundFits, entries_from};
ghost use Rattle.block_index.specs.Reading.{entries_left, room_above};

use entry_tree::{Entry, Leaf, MAX_WIDTH, Tree};
use store_api::rules::TREES_RULE;
use store_api::{Damage, Pages, StoreFault};

/// The lowest entry of a width: zeros.
pub fn lowest_bound(width: u16) -> Entry
    requires { width ≤ MAX_WIDTH }
    ensures { result ≡ replicate width 0 }
{
    let bytes = [0; MAX_WIDTH];
    Entry::of(&bytes[..usize::from(width)])
}

/// Reads entries of one leaf from a bound on, and gives the bound at which the rest begins, if there is a rest. It lies
/// above the first one, so that a walk ends whatever the pages hold.
pub fn read_leaf<P: Pages>(
    tree: &Tree,
    pages: &mut P,
    bound: &[u8],
    leaf: &mut Leaf,
) -> Result<Option<Entry>, StoreFault>
    requires width { length bound.now ≡ tree.now.width }
    requires going { (P.state pages.old).ended ≡ false }
    ensures read { IfOk result (λ next. (t : Forest) → HoldsTree P.Pages pages.old tree.now t
        → entries_from bound.now (leaf_entries t) ≡ leaf.new.entries ++ entries_left (leaf_entries t) next) }
    ensures width { AreOfWidth tree.now.width leaf.new.entries }
    ensures next { IfOk result (BoundFits tree.now.width) }
    ensures falls { IfOk result (λ next. room_above tree.now.width next < room_above tree.now.width (Some bound.now)) }
    ensures same { (P.state pages.new).work ≡ (P.state pages.old).work }
    ensures runs { RunsOverPages P.Pages NoPage (IsTreePage P.Pages pages.old tree.now) (BreaksTree P.Pages pages.old tree.now) pages.old pages.new (fault_of result) }
{
    tree.read_leaf_from(pages, bound, leaf)?;
    let Some(next) = leaf.next.take() else {
        return Ok(None);
    };
    if !lies_above(next.bytes(), bound) {
        return Err(out_of_order(tree));
    }
    Ok(Some(next))
}

/// Whether a bound lies above another one of its length.
fn lies_above(high: &[u8], low: &[u8]) -> bool
    requires { length high.now ≡ length low.now }
    ensures above { result ≡ below low.now high.now }
    ensures falls { result ≡ true → room_above (length low.now) (Some high.now) < room_above (length low.now) (Some low.now) }
{
    is_below(low, high)
}

/// Whether a byte string comes before another.
#[tactic(auto, unfolding(mdc_words::specs::ByteOrder::below))]
pub fn is_below(a: &[u8], b: &[u8]) -> bool
    ensures { result ≡ below a.now b.now }
{
    a.cmp(b).is_lt()
}

/// The fault of a tree whose entries don't rise.
pub fn out_of_order(tree: &Tree) -> StoreFault
    ensures { result ≡ StoreFault.Damaged (record { page = tree.now.root; rule = 4 }) }
{
    StoreFault::Damaged(Damage {
        page: tree.root,
        rule: TREES_RULE,
    })
}
