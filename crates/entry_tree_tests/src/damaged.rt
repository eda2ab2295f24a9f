// Pages that aren't those of a tree: each call answers.
ghost use Rattle.std.specs.Prelude.{◌≡◌, ◌+◌, ◌≤◌, false, length};

use crate::fresh::first_pages;
use crate::stores::{extents_of, store_of};
use entry_tree::Tree;
use extent_map::{SpaceFault, SpaceNotes};
use mdc_values::Blocks;
use std::alloc::Global;
use std::test::Fail;
use store_api::{Damage, MemStore, Page, Pages, Shape, StoreFault};

// The root, of a tree of width 7. Two extents are in use, and there is no page 22.
const ROOT: u8 = 18;

const LEAF: u8 = 0x4c;

const INNER: u8 = 0x49;

// What a call says that finds the tree damaged.
const DAMAGED: Option<StoreFault> = Some(StoreFault::Damaged(Damage { page: 18, rule: 4 }));

// A node that states a width, a count and a first child, with the bytes of its entries.
fn node(mark: u8, width: u8, count: u8, child: u8, entries: &[u8]) -> Page
    requires { length entries.now ≤ 4080 }
{
    let mut page = [0; 4096];
    page[0] = mark;
    page[3] = width;
    page[5] = count;
    page[11] = child;
    page[16..16 + entries.len()].copy_from_slice(entries);
    page
}

// A store whose first two extents have pages of trees in use: these two, and two leaves without entries.
fn store_with(alloc: Global, root: Page, child: Page) -> Result<MemStore, Fail> {
    let mut map = [0; 4096];
    map[..16].copy_from_slice(&[2, 0, 0, 0, 0, 0, 0, 3, 2, 0, 0, 0, 0, 0, 0, 3]);
    let mut pages = first_pages(alloc, 22, map)?;
    pages.push(root)?;
    pages.push(child)?;
    pages.push(node(LEAF, 7, 0, 0, &[]))?;
    pages.push(node(LEAF, 7, 0, 0, &[]))?;
    store_of(alloc, pages)
}

fn fault_of<T: Drop>(answer: Result<T, StoreFault>) -> Option<StoreFault> {
    answer.err()
}

fn space_fault_of(answer: Result<bool, SpaceFault>) -> Option<StoreFault> {
    match answer {
        Err(SpaceFault::Store(fault)) => Some(fault),
        Ok(_) | Err(SpaceFault::Full(_)) => None,
    }
}

// The faults of the calls on a tree of width 7, if any.
fn faults<P: Pages>(
    alloc: Global,
    shape: Shape,
    notes: &mut SpaceNotes,
    pages: &mut P,
    entry: &[u8; 7],
) -> [Option<StoreFault>; 5]
    requires { (P.state pages.old).ended ≡ false }
{
    let tree = Tree::at(alloc, u32::from(ROOT), 7);
    [
        fault_of(tree.has(pages, entry)),
        fault_of(tree.leaf_from(pages, entry)),
        fault_of(tree.remove(shape, notes, pages, entry)),
        fault_of(tree.sweep_leaf(shape, notes, pages, entry, 3, &Blocks::new(alloc))),
        space_fault_of(tree.add(shape, notes, pages, entry)),
    ]
}

// The faults of the calls on the tree of a root and a child.
fn faults_of(alloc: Global, root: Page, child: Page) -> Result<[Option<StoreFault>; 5], Fail> {
    Ok(faults(
        alloc,
        extents_of(16)?,
        &mut SpaceNotes::new(),
        &mut store_with(alloc, root, child)?,
        b"entry-m",
    ))
}

// Whether a call had no fault but that of a damaged tree.
fn is_answer(fault: Option<StoreFault>) -> bool {
    fault.is_none() || fault == DAMAGED
}

#[test]
fn a_root_that_is_its_own_child_ends_each_call(rt: HostRuntime) -> Result<(), Fail> {
    let root = node(INNER, 7, 1, ROOT, b"entry-c\0\0\0\x12");
    assert_eq!(rt; faults_of(rt.alloc(), root, [0; 4096])?, [DAMAGED; 5]);
    Ok(())
}

#[test]
fn a_child_past_the_last_page_is_damage(rt: HostRuntime) -> Result<(), Fail> {
    let root = node(INNER, 7, 1, 19, b"entry-c\0\0\0\x16");
    assert_eq!(rt; faults_of(rt.alloc(), root, [0; 4096])?, [DAMAGED; 5]);
    Ok(())
}

#[test]
fn a_root_of_another_width_is_damage(rt: HostRuntime) -> Result<(), Fail> {
    let root = node(LEAF, 8, 1, 0, b"entry-of");
    assert_eq!(rt; faults_of(rt.alloc(), root, [0; 4096])?, [DAMAGED; 5]);
    Ok(())
}

#[test]
fn a_child_that_is_no_node_is_damage(rt: HostRuntime) -> Result<(), Fail> {
    let root = node(INNER, 7, 1, 19, b"entry-p\0\0\0\x14");
    assert_eq!(rt; faults_of(rt.alloc(), root, [0; 4096])?, [DAMAGED; 5]);
    Ok(())
}

#[test]
fn entries_out_of_order_are_answered(rt: HostRuntime) -> Result<(), Fail> {
    let root = node(LEAF, 7, 3, 0, b"entry-zentry-centry-a");
    let faults = faults_of(rt.alloc(), root, [0; 4096])?;
    assert!(rt; faults.iter().all(|fault| is_answer(*fault)));
    Ok(())
}

#[test]
fn a_separator_that_its_child_breaks_is_answered(rt: HostRuntime) -> Result<(), Fail> {
    let root = node(INNER, 7, 1, 20, b"entry-c\0\0\0\x13");
    let child = node(LEAF, 7, 2, 0, b"entry-aentry-b");
    let faults = faults_of(rt.alloc(), root, child)?;
    assert!(rt; faults.iter().all(|fault| is_answer(*fault)));
    Ok(())
}
