// Small lists worked by hand.
ghost use Rattle.std.specs.Prelude.{◌≡◌, IfOk, IsTrue};
ghost use Rattle.block_lists.specs.Trees.{each_has_members};

use block_lists::{
    ListTree, Lists, Members, Merge, Slots, and_all, and_lists, empty, from_blocks, from_rids,
    has_members, leaf, lists_of_tree, or_all, or_lists, same_rows_same_lists, touched_blocks,
};
use mdc_values::{Blocks, List, Memory, Rid, Rids};
use std::alloc::Global;
use std::process::Abort;
use std::test::Fail;

fn rid(block: u32, slot: u16) -> Rid {
    Rid { block, slot }
}

fn whole_block(alloc: Global, number: u32) -> Result<Lists, Memory> {
    let mut blocks = Blocks::new(alloc);
    blocks.push(number)?;
    Ok(from_blocks(alloc, blocks))
}

fn one_row(alloc: Global, rid: Rid) -> Result<Lists, Memory> {
    let mut rids = Rids::new(alloc);
    rids.push(rid)?;
    Ok(from_rids(alloc, rids))
}

/// The lists of these blocks and of these rows.
fn lists(alloc: Global, blocks: &[u32], rids: &[Rid]) -> Result<Lists, Memory> {
    let mut members = List::new(alloc);
    for block in blocks {
        members.push(whole_block(alloc, *block)?)?;
    }
    for rid in rids {
        members.push(one_row(alloc, *rid)?)?;
    }
    or_all(alloc, members.as_slice())
}

fn leaf_of(alloc: Global, blocks: &[u32], rids: &[Rid]) -> Result<ListTree, Memory>
    ensures { IfOk result (λ tree. IsTrue (each_has_members tree)) }
{
    Ok(leaf(lists(alloc, blocks, rids)?))
}

fn are(rt: &impl Abort, lists: &Lists, blocks: &[u32], rids: &[Rid]) {
    assert_eq!(rt; lists.blocks.as_slice(), blocks);
    assert_eq!(rt; lists.rids.as_slice(), rids);
}

/// A cursor over the tree gives these parts and no more. A part with no slots beside it is a whole block.
fn gives(
    rt: &impl Abort,
    alloc: Global,
    tree: &ListTree,
    parts: &[(u32, Option<&[u16]>)],
) -> Result<(), Fail>
    requires { IsTrue (each_has_members tree.now) }
{
    let mut merge = Merge::over(alloc, tree)?;
    for (block, slots) in parts {
        next_is(rt, &mut merge, *block, *slots)?;
    }
    let after = merge.next()?;
    assert!(rt; after.is_none());
    Ok(())
}

fn next_is(
    rt: &impl Abort,
    merge: &mut Merge,
    block: u32,
    slots: Option<&[u16]>,
) -> Result<(), Fail> {
    let Some(part) = merge.next()? else {
        return Err(Fail::new("a part is lacking"));
    };
    assert_eq!(rt; part.block, block);
    assert_eq!(rt; part.slots.as_ref().map(|slots| slots.as_slice()), slots);
    Ok(())
}

/// The blocks 3 and 5, and the rows 0 of block 4, 1 of block 5 and 7 of block 5.
fn two_leaves(alloc: Global) -> Result<Members, Memory> {
    let mut members = Members::of(alloc, leaf_of(alloc, &[3, 5], &[])?)?;
    members.push(leaf_of(alloc, &[], &[rid(4, 0), rid(5, 1), rid(5, 7)])?)?;
    Ok(members)
}

/// The intersections of two lists in either order, which are the same.
fn both_in_either_order(alloc: Global, a: &Lists, b: &Lists) -> Result<(Lists, Lists), Memory>
    ensures { IfOk result (λ both. (both.0.blocks ≡ both.1.blocks) × (both.0.rids ≡ both.1.rids)) }
{
    let both = and_lists(alloc, a, b)?;
    let turned = and_lists(alloc, b, a)?;
    same_rows_same_lists(&both, &turned);
    Ok((both, turned))
}

#[test]
fn two_lists_are_joined(rt: HostRuntime) -> Result<(), Fail> {
    let alloc = rt.alloc();
    let a = lists(alloc, &[3, 5], &[rid(7, 1), rid(7, 2), rid(9, 0)])?;
    let b = lists(alloc, &[5, 7], &[rid(3, 4), rid(9, 0), rid(9, 1)])?;
    let (both, turned) = both_in_either_order(alloc, &a, &b)?;
    let rids = [rid(3, 4), rid(7, 1), rid(7, 2), rid(9, 0)];
    are(&rt, &both, &[5], &rids);
    are(&rt, &turned, &[5], &rids);
    are(
        &rt,
        &or_lists(alloc, &a, &b)?,
        &[3, 5, 7],
        &[rid(9, 0), rid(9, 1)],
    );
    Ok(())
}

#[test]
fn many_lists_are_joined(rt: HostRuntime) -> Result<(), Fail> {
    let alloc = rt.alloc();
    let none = or_all(alloc, &[])?;
    are(&rt, &none, &[], &[]);
    let members = [
        lists(alloc, &[1, 2, 3], &[])?,
        lists(alloc, &[2, 3], &[rid(1, 8)])?,
        lists(alloc, &[3, 4], &[rid(1, 8), rid(2, 6)])?,
    ];
    let only = and_all(alloc, &members[..1])?;
    are(&rt, &only, &[1, 2, 3], &[]);
    let all = and_all(alloc, &members)?;
    are(&rt, &all, &[3], &[rid(1, 8), rid(2, 6)]);
    let any = or_all(alloc, &members)?;
    are(&rt, &any, &[1, 2, 3, 4], &[]);
    Ok(())
}

#[test]
fn lists_touch_blocks(rt: HostRuntime) -> Result<(), Fail> {
    let alloc = rt.alloc();
    let listed = lists(alloc, &[3, 9], &[rid(5, 1), rid(5, 2), rid(8, 0)])?;
    let used = lists(alloc, &[2, 3, 5, 7], &[])?;
    let touched = touched_blocks(alloc, &listed, &used.blocks)?;
    assert_eq!(rt; touched.as_slice(), [3, 5].as_slice());
    let touched = touched_blocks(alloc, &empty(alloc), &used.blocks)?;
    assert_eq!(rt; touched.len(), 0);
    Ok(())
}

#[test]
fn slots_keep_what_they_are_given(rt: HostRuntime) -> Result<(), Fail> {
    let mut slots = Slots::new(rt.alloc());
    slots.push(7)?;
    assert_eq!(rt; slots.len(), 1);
    assert_eq!(rt; *slots.at(0), 7);
    assert_eq!(rt; slots.as_slice(), [7].as_slice());
    Ok(())
}

#[test]
fn all_of_two_leaves_has_some_slots_of_one_block(rt: HostRuntime) -> Result<(), Fail> {
    let alloc = rt.alloc();
    let tree = two_leaves(alloc)?.all();
    gives(&rt, alloc, &tree, &[(5, Some([1, 7].as_slice()))])
}

#[test]
fn any_of_two_leaves_has_three_blocks(rt: HostRuntime) -> Result<(), Fail> {
    let alloc = rt.alloc();
    let tree = two_leaves(alloc)?.any();
    let parts = [(3, None), (4, Some([0].as_slice())), (5, None)];
    gives(&rt, alloc, &tree, &parts)
}

/// Of the blocks 4 and 5 and of two rows, those that one of the two leaves has.
#[test]
fn trees_have_trees_as_members(rt: HostRuntime) -> Result<(), Fail> {
    let alloc = rt.alloc();
    let mut members = Members::of(alloc, two_leaves(alloc)?.any())?;
    members.push(leaf_of(alloc, &[4, 5], &[rid(3, 2), rid(6, 0)])?)?;
    let tree = members.all();
    let joined = lists_of_tree(alloc, &tree)?;
    are(&rt, &joined, &[5], &[rid(3, 2), rid(4, 0)]);
    let parts = [
        (3, Some([2].as_slice())),
        (4, Some([0].as_slice())),
        (5, None),
    ];
    gives(&rt, alloc, &tree, &parts)
}

#[test]
fn an_any_without_members_is_told(rt: HostRuntime) -> Result<(), Fail> {
    let alloc = rt.alloc();
    let mut trees = List::new(alloc);
    trees.push(two_leaves(alloc)?.all())?;
    assert!(rt; has_members(trees.at(0)));
    trees.push(ListTree::Any(List::new(alloc)))?;
    assert!(rt; !has_members(&ListTree::All(trees)));
    Ok(())
}
