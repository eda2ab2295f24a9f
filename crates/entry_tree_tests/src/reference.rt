// Thousands of changes of a tree, at the least width, at the greatest and at one between.
ghost use Rattle.std.specs.Prelude.{◌≡◌, ◌≤◌, false, None, OnOk};

use crate::changes::{add_some, remove_some, sweep};
use crate::fresh::fresh_store;
use crate::numbers::{NUMBERS, Order};
use crate::reading::{expected, read_all, used_pages};
use crate::stores::{extents_of, save};
use entry_tree::Tree;
use extent_map::SpaceNotes;
use std::alloc::Global;
use std::test::Fail;
use store_api::{Pages, Shape, Store};

// Many changes of one kind.
#[derive(Clone, Copy, Debug)]
enum Change {
    Add(Order, usize),
    Remove(Order, usize),
    Sweep,
}

fn make_changes<P: Pages>(
    alloc: Global,
    tree: &Tree,
    shape: Shape,
    notes: &mut SpaceNotes,
    pages: &mut P,
    there: &mut [bool],
    change: Change,
) -> Result<(), Fail>
    requires { (P.state pages.old).ended ≡ false }
    ensures going { (P.state pages.new).ended ≡ false }
    ensures marked { (P.state pages.new).marked ≡ (P.state pages.old).marked }
{
    match change {
        Change::Add(order, many) => add_some(tree, shape, notes, pages, there, order, many),
        Change::Remove(order, many) => remove_some(tree, shape, notes, pages, there, order, many),
        Change::Sweep => sweep(alloc, tree, shape, notes, pages, there),
    }
}

// Whether a tree has the entries that should be there, in no more pages than its leaves and the nodes above them take, each
// of which has two children at least.
fn check<P: Pages>(
    alloc: Global,
    tree: &Tree,
    shape: Shape,
    pages: &mut P,
    there: &[bool],
) -> Result<(), Fail>
    requires { (P.state pages.old).ended ≡ false }
    ensures going { (P.state pages.new).ended ≡ false }
    ensures marked { (P.state pages.new).marked ≡ (P.state pages.old).marked }
{
    let found = read_all(alloc, tree, pages)?;
    if found.bytes != expected(alloc, tree, there)? {
        return Err("other entries")?;
    }
    let used = used_pages(shape, pages)?;
    if used < found.leaves || used >= found.leaves.saturating_mul(2) {
        return Err("another number of pages")?;
    }
    Ok(())
}

// Makes many changes, looks at what came of them, and commits.
fn step<S: Store>(
    alloc: Global,
    tree: &Tree,
    shape: Shape,
    notes: &mut SpaceNotes,
    store: &mut S,
    there: &mut [bool],
    change: Change,
) -> Result<(), Fail>
    requires going { (S.state store.old).ended ≡ false }
    requires unmarked { (S.state store.old).marked ≡ None }
    ensures going { OnOk result ((S.state store.new).ended ≡ false) }
    ensures unmarked { OnOk result ((S.state store.new).marked ≡ None) }
{
    make_changes(alloc, tree, shape, notes, store, there, change)?;
    check(alloc, tree, shape, store, there)?;
    save(store)
}

// Fills a tree whole, after some entries came in two orders and went again.
fn fill<S: Store>(
    alloc: Global,
    tree: &Tree,
    shape: Shape,
    notes: &mut SpaceNotes,
    store: &mut S,
    there: &mut [bool],
) -> Result<(), Fail>
    requires going { (S.state store.old).ended ≡ false }
    requires unmarked { (S.state store.old).marked ≡ None }
    ensures going { OnOk result ((S.state store.new).ended ≡ false) }
    ensures unmarked { OnOk result ((S.state store.new).marked ≡ None) }
{
    step(
        alloc,
        tree,
        shape,
        notes,
        store,
        there,
        Change::Add(Order::Shuffled, 2500),
    )?;
    step(
        alloc,
        tree,
        shape,
        notes,
        store,
        there,
        Change::Remove(Order::Falling, 1800),
    )?;
    step(alloc, tree, shape, notes, store, there, Change::Sweep)?;
    step(
        alloc,
        tree,
        shape,
        notes,
        store,
        there,
        Change::Add(Order::Rising, NUMBERS),
    )
}

// Empties a tree, with some entries put back in between.
fn empty<S: Store>(
    alloc: Global,
    tree: &Tree,
    shape: Shape,
    notes: &mut SpaceNotes,
    store: &mut S,
    there: &mut [bool],
) -> Result<(), Fail>
    requires going { (S.state store.old).ended ≡ false }
    requires unmarked { (S.state store.old).marked ≡ None }
    ensures going { OnOk result ((S.state store.new).ended ≡ false) }
    ensures unmarked { OnOk result ((S.state store.new).marked ≡ None) }
{
    step(
        alloc,
        tree,
        shape,
        notes,
        store,
        there,
        Change::Remove(Order::Shuffled, 3900),
    )?;
    step(
        alloc,
        tree,
        shape,
        notes,
        store,
        there,
        Change::Add(Order::Falling, 1000),
    )?;
    step(alloc, tree, shape, notes, store, there, Change::Sweep)?;
    step(
        alloc,
        tree,
        shape,
        notes,
        store,
        there,
        Change::Remove(Order::Rising, NUMBERS),
    )
}

// Fills a tree and empties it, in several orders.
fn fill_and_empty<S: Store>(
    alloc: Global,
    tree: &Tree,
    shape: Shape,
    notes: &mut SpaceNotes,
    store: &mut S,
) -> Result<(), Fail>
    requires going { (S.state store.old).ended ≡ false }
    requires unmarked { (S.state store.old).marked ≡ None }
    ensures going { OnOk result ((S.state store.new).ended ≡ false) }
{
    let mut all = vec![in alloc; false; NUMBERS]?;
    let there = all.as_mut_slice();
    fill(alloc, tree, shape, notes, store, there)?;
    empty(alloc, tree, shape, notes, store, there)
}

// How many pages a tree of a width has in use once it was filled and emptied, and after it has given all back.
fn used_at_last<S: Store>(
    alloc: Global,
    shape: Shape,
    notes: &mut SpaceNotes,
    store: &mut S,
    width: u16,
) -> Result<[u32; 2], Fail>
    requires going { (S.state store.old).ended ≡ false }
    requires unmarked { (S.state store.old).marked ≡ None }
    requires wide { 5 ≤ width }
    requires narrow { width ≤ 134 }
{
    let tree = Tree::make(alloc, shape, notes, store, width)?;
    fill_and_empty(alloc, &tree, shape, notes, store)?;
    let emptied = used_pages(shape, store)?;
    tree.free_all(shape, notes, store)?;
    Ok([emptied, used_pages(shape, store)?])
}

#[test]
fn a_tree_of_the_least_width_is_filled_and_emptied(rt: HostRuntime) -> Result<(), Fail> {
    let used = used_at_last(
        rt.alloc(),
        extents_of(512)?,
        &mut SpaceNotes::new(),
        &mut fresh_store(rt.alloc())?,
        5,
    )?;
    assert_eq!(rt; used, [1, 0]);
    Ok(())
}

#[test]
fn a_tree_of_width_eleven_is_filled_and_emptied(rt: HostRuntime) -> Result<(), Fail> {
    let used = used_at_last(
        rt.alloc(),
        extents_of(512)?,
        &mut SpaceNotes::new(),
        &mut fresh_store(rt.alloc())?,
        11,
    )?;
    assert_eq!(rt; used, [1, 0]);
    Ok(())
}

#[test]
fn a_tree_of_the_greatest_width_is_filled_and_emptied(rt: HostRuntime) -> Result<(), Fail> {
    let used = used_at_last(
        rt.alloc(),
        extents_of(512)?,
        &mut SpaceNotes::new(),
        &mut fresh_store(rt.alloc())?,
        134,
    )?;
    assert_eq!(rt; used, [1, 0]);
    Ok(())
}
