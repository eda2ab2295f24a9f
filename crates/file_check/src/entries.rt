// All entries of a tree.
ghost use Rattle.std.specs.Prelude.{◌≡◌, ◌++◌, ◌∷◌, [], length, true, false, IfOk, IfErr, OnOk};
ghost use Rattle.store_api.specs.Causes.{fault_of};
ghost use Rattle.store_api.specs.Frame.{NoPage};
ghost use Rattle.store_api.specs.RunsOverPages.{RunsOverPages};
ghost use Rattle.entry_tree.specs.Entries.{AreOfWidth, LiesAboveLast};
ghost use Rattle.entry_tree.specs.Forest.{Forest, leaf_entries};
ghost use Rattle.entry_tree.specs.HeldTrees.{BreaksTree, HoldsTree};
ghost use Rattle.file_check.specs.Looking.{AnyPage};
ghost use Rattle.file_check.specs.TakingEntries.{IsInNoTree, IsTakingFault};

use block_index::{is_below, lowest_bound, out_of_order, read_leaf};
use entry_tree::{Entries, Leaf, Tree};
use std::alloc::Global;
use store_api::{Pages, StoreFault};

/// All entries of a tree, in order. It takes memory for all of them.
pub(crate) fn entries_of<P: Pages>(
    alloc: Global,
    pages: &mut P,
    tree: &Tree,
) -> Result<Entries, StoreFault>
    requires going { (P.state pages.old).ended ≡ false }
    ensures all { IfOk result (λ entries. (t : Forest) → HoldsTree P.Pages pages.old tree.now t → entries ≡ leaf_entries t) }
    ensures width { IfOk result (AreOfWidth tree.now.width) }
    ensures same { (P.state pages.new).work ≡ (P.state pages.old).work }
    ensures runs { RunsOverPages P.Pages NoPage AnyPage (BreaksTree P.Pages pages.old tree.now) pages.old pages.new (fault_of result) }
{
    let mut entries = Entries::new(alloc);
    let mut leaf = Leaf::new(alloc);
    let mut bound = Some(lowest_bound(tree.width));
    'leaves: loop {
        let Some(low) = bound else {
            return Ok(entries);
        };
        bound = read_leaf(tree, pages, low.bytes(), &mut leaf)?;
        take_leaf(tree, &leaf.entries, &mut entries)?;
    }
}

/// Puts the entries of a leaf last. Where they don't rise, that is damage of the tree.
fn take_leaf(tree: &Tree, leaf: &Entries, entries: &mut Entries) -> Result<(), StoreFault>
    requires leaf { AreOfWidth tree.now.width leaf.now }
    requires width { AreOfWidth tree.now.width entries.old }
    ensures taken { OnOk result (entries.new ≡ entries.old ++ leaf.now) }
    ensures fault { IfErr result (IsTakingFault tree.now (entries.old ++ leaf.now)) }
{
    for i in 0..leaf.len() {
        take_entry(tree, leaf.at(i), entries)?;
    }
    Ok(())
}

/// Puts an entry last. One that doesn't lie above the last one is damage of the tree.
fn take_entry(tree: &Tree, entry: &[u8], entries: &mut Entries) -> Result<(), StoreFault>
    requires entry { length entry.now ≡ tree.now.width }
    requires width { AreOfWidth tree.now.width entries.old }
    ensures taken { OnOk result (entries.new ≡ entries.old ++ entry.now ∷ []) }
    ensures fault { IfErr result (IsTakingFault tree.now (entries.old ++ entry.now ∷ [])) }
{
    if !lies_above_last(entry, entries) {
        return Err(out_of_order(tree));
    }
    match entries.push(entry) {
        Ok(()) => Ok(()),
        Err(_) => Err(StoreFault::Memory),
    }
}

/// Whether an entry lies above the last one, if there is one.
fn lies_above_last(entry: &[u8], entries: &Entries) -> bool
    ensures above { result ≡ true → LiesAboveLast entry.now entries.now }
    ensures not { result ≡ false → IsInNoTree (entries.now ++ entry.now ∷ []) }
{
    let count = entries.len();
    if count == 0 {
        return true;
    }
    is_below(entries.at(count - 1), entry)
}
