// The pieces of work. Each answers a number that tells of what it did.
ghost use Rattle.std.specs.Prelude.{◌≡◌, false, None, IfOk, OnOk};

use crate::calls;
use crate::entries::{Order, WIDTH, entry};
use crate::what::What;
use bench_plan::{Plan, Stop};
use entry_tree::{Entry, Leaf, Tree};
use extent_map::SpaceNotes;
use std::alloc::Global;
use store_api::{Pages, Shape};

// How many blocks are claimed each time.
const CLAIMS: u32 = 1000;

// How many entries have room in a leaf.
const LEAF_ROOM: u64 = 272;

// The parts of a whole in which a fill is told.
const PARTS: u64 = 1000;

/// Does a piece of work of that size so many times.
pub fn do_work<S: Pages>(
    alloc: Global,
    shape: Shape,
    notes: &mut SpaceNotes,
    store: &mut S,
    plan: Plan<What>,
) -> Result<u64, Stop>
    requires going { (S.state store.old).ended ≡ false }
    requires unmarked { (S.state store.old).marked ≡ None }
{
    let Plan { what, size, times } = plan;
    match what {
        What::Add => make_trees(alloc, shape, notes, store, Order::Shuffled, size, times),
        What::Rise => make_trees(alloc, shape, notes, store, Order::Rising, size, times),
        What::Has => {
            let tree = made_tree(alloc, shape, notes, store, Order::Shuffled, size)?;
            find_times(&tree, store, size, times)
        }
        What::Walk => {
            let tree = made_tree(alloc, shape, notes, store, Order::Shuffled, size)?;
            walk_times(&tree, store, &mut Leaf::new(alloc), times)
        }
        What::Remove => remove_times(alloc, shape, notes, store, size, times),
        What::Claim => claim(shape, notes, store, size, times),
        What::Fill => fill(alloc, shape, notes, store, Order::Shuffled, size),
        What::FillRising => fill(alloc, shape, notes, store, Order::Rising, size),
    }
}

// Claims a thousand blocks so many times, behind so many extents in use. Answers the sum of their numbers.
fn claim<S: Pages>(
    shape: Shape,
    notes: &mut SpaceNotes,
    store: &mut S,
    size: u32,
    times: u32,
) -> Result<u64, Stop>
    requires going { (S.state store.old).ended ≡ false }
    requires unmarked { (S.state store.old).marked ≡ None }
{
    claim_many(shape, notes, store, size)?;
    claim_many(shape, notes, store, times.saturating_mul(CLAIMS))
}

// How full the leaves are of so many entries that came in an order, in thousandths.
fn fill<S: Pages>(
    alloc: Global,
    shape: Shape,
    notes: &mut SpaceNotes,
    store: &mut S,
    order: Order,
    size: u32,
) -> Result<u64, Stop>
    requires going { (S.state store.old).ended ≡ false }
    requires unmarked { (S.state store.old).marked ≡ None }
{
    let tree = made_tree(alloc, shape, notes, store, order, size)?;
    let Reads { entries, leaves } = walk_once(&tree, store, &mut Leaf::new(alloc))?;
    Ok(entries.saturating_mul(PARTS) / leaves.saturating_mul(LEAF_ROOM).max(1))
}

// Makes so many trees of so many entries. Answers the sum of their roots.
fn make_trees<S: Pages>(
    alloc: Global,
    shape: Shape,
    notes: &mut SpaceNotes,
    store: &mut S,
    order: Order,
    size: u32,
    times: u32,
) -> Result<u64, Stop>
    requires going { (S.state store.old).ended ≡ false }
    requires unmarked { (S.state store.old).marked ≡ None }
{
    let mut sum: u64 = 0;
    for _ in 0..times {
        let tree = made_tree(alloc, shape, notes, store, order, size)?;
        sum = sum.wrapping_add(u64::from(tree.root));
    }
    Ok(sum)
}

// A new tree with so many entries.
fn made_tree<S: Pages>(
    alloc: Global,
    shape: Shape,
    notes: &mut SpaceNotes,
    store: &mut S,
    order: Order,
    size: u32,
) -> Result<Tree, Stop>
    requires going { (S.state store.old).ended ≡ false }
    requires unmarked { (S.state store.old).marked ≡ None }
    ensures width { IfOk result (λ tree. tree.width ≡ WIDTH) }
    ensures going { (S.state store.new).ended ≡ false }
    ensures unmarked { OnOk result ((S.state store.new).marked ≡ None) }
{
    let tree = calls::make(alloc, shape, notes, store)?;
    for i in 0..size {
        calls::add(&tree, shape, notes, store, &entry(order, i))?;
    }
    Ok(tree)
}

// How many of so many entries a tree has, over so many searches for each.
fn find_times<S: Pages>(tree: &Tree, store: &mut S, size: u32, times: u32) -> Result<u64, Stop>
    requires width { tree.now.width ≡ WIDTH }
    requires going { (S.state store.old).ended ≡ false }
{
    let mut found: u64 = 0;
    for _ in 0..times {
        found = found.wrapping_add(count_found(tree, store, size)?);
    }
    Ok(found)
}

// How many of so many entries a tree has.
fn count_found<S: Pages>(tree: &Tree, store: &mut S, size: u32) -> Result<u64, Stop>
    requires width { tree.now.width ≡ WIDTH }
    requires going { (S.state store.old).ended ≡ false }
    ensures going { (S.state store.new).ended ≡ false }
{
    let mut found: u64 = 0;
    for i in 0..size {
        let is_there = calls::has(tree, store, &entry(Order::Shuffled, i))?;
        found = found.wrapping_add(u64::from(is_there));
    }
    Ok(found)
}

// Makes a tree of so many entries and empties it, so many times. Answers how many entries were removed.
fn remove_times<S: Pages>(
    alloc: Global,
    shape: Shape,
    notes: &mut SpaceNotes,
    store: &mut S,
    size: u32,
    times: u32,
) -> Result<u64, Stop>
    requires going { (S.state store.old).ended ≡ false }
    requires unmarked { (S.state store.old).marked ≡ None }
{
    let mut removed: u64 = 0;
    for _ in 0..times {
        let tree = made_tree(alloc, shape, notes, store, Order::Shuffled, size)?;
        removed = removed.wrapping_add(remove_all(&tree, shape, notes, store, size)?);
    }
    Ok(removed)
}

// Removes so many entries. Answers how many were there.
fn remove_all<S: Pages>(
    tree: &Tree,
    shape: Shape,
    notes: &mut SpaceNotes,
    store: &mut S,
    size: u32,
) -> Result<u64, Stop>
    requires width { tree.now.width ≡ WIDTH }
    requires going { (S.state store.old).ended ≡ false }
    requires unmarked { (S.state store.old).marked ≡ None }
    ensures going { (S.state store.new).ended ≡ false }
    ensures unmarked { OnOk result ((S.state store.new).marked ≡ None) }
{
    let mut removed: u64 = 0;
    for i in 0..size {
        let was_there = calls::remove(tree, shape, notes, store, &entry(Order::Shuffled, i))?;
        removed = removed.wrapping_add(u64::from(was_there));
    }
    Ok(removed)
}

// Reads all entries of a tree so many times. Answers how many there were.
fn walk_times<S: Pages>(
    tree: &Tree,
    store: &mut S,
    leaf: &mut Leaf,
    times: u32,
) -> Result<u64, Stop>
    requires width { tree.now.width ≡ WIDTH }
    requires going { (S.state store.old).ended ≡ false }
{
    let mut read: u64 = 0;
    for _ in 0..times {
        read = read.wrapping_add(walk_once(tree, store, leaf)?.entries);
    }
    Ok(read)
}

// How much a walk read.
#[derive(Clone, Copy, Debug)]
struct Reads {
    entries: u64,
    leaves: u64,
}

// Reads all entries of a tree.
fn walk_once<S: Pages>(tree: &Tree, store: &mut S, leaf: &mut Leaf) -> Result<Reads, Stop>
    requires width { tree.now.width ≡ WIDTH }
    requires going { (S.state store.old).ended ≡ false }
    ensures going { (S.state store.new).ended ≡ false }
{
    let mut bound = Entry::of(&[0; 15]);
    let mut reads = Reads {
        entries: 0,
        leaves: 0,
    };
    for _ in 0..store.count() {
        calls::read(tree, store, bound.bytes(), leaf)?;
        reads.entries = reads.entries.wrapping_add(leaf.entries.len() as u64);
        reads.leaves = reads.leaves.wrapping_add(1);
        let Some(next) = leaf.next.take() else {
            break;
        };
        bound = next;
    }
    Ok(reads)
}

// Claims so many blocks. Answers the sum of their numbers.
fn claim_many<S: Pages>(
    shape: Shape,
    notes: &mut SpaceNotes,
    store: &mut S,
    claims: u32,
) -> Result<u64, Stop>
    requires going { (S.state store.old).ended ≡ false }
    requires unmarked { (S.state store.old).marked ≡ None }
    ensures going { OnOk result ((S.state store.new).ended ≡ false) }
    ensures unmarked { OnOk result ((S.state store.new).marked ≡ None) }
{
    let mut sum: u64 = 0;
    for _ in 0..claims {
        sum = sum.wrapping_add(u64::from(calls::claim(shape, notes, store)?));
    }
    Ok(sum)
}
