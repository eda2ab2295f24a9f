// Calls of a tree and of the extents, those that change something under a mark of their own.
ghost use Rattle.std.specs.Prelude.{◌≡◌, false, None, IfOk, OnOk, length};
ghost use Rattle.entry_tree.specs.Reading.{BoundFits};

use crate::entries::{Bytes, WIDTH};
use bench_plan::Stop;
use entry_tree::{Leaf, Tree};
use extent_map::SpaceNotes;
use std::alloc::Global;
use store_api::{Pages, Shape};

/// Makes an empty tree.
pub fn make<S: Pages>(
    alloc: Global,
    shape: Shape,
    notes: &mut SpaceNotes,
    store: &mut S,
) -> Result<Tree, Stop>
    requires going { (S.state store.old).ended ≡ false }
    requires unmarked { (S.state store.old).marked ≡ None }
    ensures width { IfOk result (λ tree. tree.width ≡ WIDTH) }
    ensures going { (S.state store.new).ended ≡ false }
    ensures unmarked { OnOk result ((S.state store.new).marked ≡ None) }
{
    store.mark();
    let tree = Tree::make(alloc, shape, notes, store, WIDTH)?;
    store.keep()?;
    Ok(tree)
}

/// Adds an entry to a tree.
pub fn add<S: Pages>(
    tree: &Tree,
    shape: Shape,
    notes: &mut SpaceNotes,
    store: &mut S,
    entry: &Bytes,
) -> Result<bool, Stop>
    requires width { tree.now.width ≡ WIDTH }
    requires going { (S.state store.old).ended ≡ false }
    requires unmarked { (S.state store.old).marked ≡ None }
    ensures going { (S.state store.new).ended ≡ false }
    ensures unmarked { OnOk result ((S.state store.new).marked ≡ None) }
{
    store.mark();
    let is_new = tree.add(shape, notes, store, entry)?;
    store.keep()?;
    Ok(is_new)
}

/// Removes an entry from a tree.
pub fn remove<S: Pages>(
    tree: &Tree,
    shape: Shape,
    notes: &mut SpaceNotes,
    store: &mut S,
    entry: &Bytes,
) -> Result<bool, Stop>
    requires width { tree.now.width ≡ WIDTH }
    requires going { (S.state store.old).ended ≡ false }
    requires unmarked { (S.state store.old).marked ≡ None }
    ensures going { (S.state store.new).ended ≡ false }
    ensures unmarked { OnOk result ((S.state store.new).marked ≡ None) }
{
    store.mark();
    let was_there = tree.remove(shape, notes, store, entry)?;
    store.keep()?;
    Ok(was_there)
}

/// Whether an entry is in a tree.
pub fn has<S: Pages>(tree: &Tree, store: &mut S, entry: &Bytes) -> Result<bool, Stop>
    requires width { tree.now.width ≡ WIDTH }
    requires going { (S.state store.old).ended ≡ false }
    ensures going { (S.state store.new).ended ≡ false }
{
    Ok(tree.has(store, entry)?)
}

/// Reads the entries of a leaf from a bound on.
pub fn read<S: Pages>(tree: &Tree, store: &mut S, bound: &[u8], leaf: &mut Leaf) -> Result<(), Stop>
    requires width { tree.now.width ≡ WIDTH }
    requires bound { length bound.now ≡ WIDTH }
    requires going { (S.state store.old).ended ≡ false }
    ensures next { OnOk result (BoundFits WIDTH leaf.new.next) }
    ensures going { (S.state store.new).ended ≡ false }
{
    tree.read_leaf_from(store, bound, leaf)?;
    Ok(())
}

/// Claims a block.
pub fn claim<S: Pages>(shape: Shape, notes: &mut SpaceNotes, store: &mut S) -> Result<u32, Stop>
    requires going { (S.state store.old).ended ≡ false }
    requires unmarked { (S.state store.old).marked ≡ None }
    ensures going { (S.state store.new).ended ≡ false }
    ensures unmarked { OnOk result ((S.state store.new).marked ≡ None) }
{
    store.mark();
    let e = notes.claim_block(shape, store, 0)?;
    store.keep()?;
    Ok(e)
}
