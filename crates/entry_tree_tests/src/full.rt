// A file that is full when a tree asks for pages.
ghost use Rattle.std.specs.Prelude.{◌≡◌, false, None};

use crate::changes::add_some;
use crate::fresh::fresh_store;
use crate::numbers::{NUMBERS, Order, entry_of};
use crate::reading::all_pages;
use crate::stores::extents_of;
use entry_tree::Tree;
use extent_map::{SpaceFault, SpaceNotes};
use std::alloc::Global;
use std::test::Fail;
use store_api::{Pages, Shape};

// So many entries of width 134 that came in rising order are in 30 full or half full leaves under a root with no room: each
// leaf has room for 30, of a full one 16 stay, and a node above them has room for 29 separators. The next entry splits the
// last leaf and the root, which takes three pages.
const BEFORE_SPLIT: usize = 494;

// The 31 pages of that tree and the three are those of 17 extents.
const EXTENTS: u32 = 17;

// What an add of one more entry answers, and whether all pages are what they were once it was undone.
fn add_and_undo<P: Pages>(
    alloc: Global,
    tree: &Tree,
    shape: Shape,
    notes: &mut SpaceNotes,
    pages: &mut P,
) -> Result<(Result<bool, SpaceFault>, bool), Fail>
    requires going { (P.state pages.old).ended ≡ false }
    requires unmarked { (P.state pages.old).marked ≡ None }
{
    let before = all_pages(alloc, pages)?;
    pages.mark();
    let answer = tree.add(shape, notes, pages, entry_of(tree, BEFORE_SPLIT).bytes());
    pages.undo();
    notes.forget();
    Ok((answer, all_pages(alloc, pages)? == before))
}

// The same behind the tree above, with so many pages fewer.
fn add_with_fewer<P: Pages>(
    alloc: Global,
    shape: Shape,
    notes: &mut SpaceNotes,
    pages: &mut P,
    fewer: u32,
) -> Result<(Result<bool, SpaceFault>, bool), Fail>
    requires going { (P.state pages.old).ended ≡ false }
    requires unmarked { (P.state pages.old).marked ≡ None }
{
    let tree = Tree::make(alloc, shape, notes, pages, 134)?;
    let mut all = vec![in alloc; false; NUMBERS]?;
    add_some(
        &tree,
        shape,
        notes,
        pages,
        &mut all,
        Order::Rising,
        BEFORE_SPLIT,
    )?;
    claim_pages(shape, notes, pages, fewer)?;
    add_and_undo(alloc, &tree, shape, notes, pages)
}

// Claims so many pages for no tree.
fn claim_pages<P: Pages>(
    shape: Shape,
    notes: &mut SpaceNotes,
    pages: &mut P,
    many: u32,
) -> Result<(), Fail>
    requires { (P.state pages.old).ended ≡ false }
    ensures going { (P.state pages.new).ended ≡ false }
    ensures marked { (P.state pages.new).marked ≡ (P.state pages.old).marked }
{
    for _ in 0..many {
        notes.claim_index_page(shape, pages)?;
    }
    Ok(())
}

// The answer on a store of its own.
fn answer_with_fewer(alloc: Global, fewer: u32) -> Result<(Result<bool, SpaceFault>, bool), Fail> {
    add_with_fewer(
        alloc,
        extents_of(EXTENTS)?,
        &mut SpaceNotes::new(),
        &mut fresh_store(alloc)?,
        fewer,
    )
}

#[test]
fn a_split_that_finds_its_pages_is_undone(rt: HostRuntime) -> Result<(), Fail> {
    assert_eq!(rt; answer_with_fewer(rt.alloc(), 0)?, (Ok(true), true));
    Ok(())
}

#[test]
fn a_split_that_lacks_a_page_is_full_and_undone(rt: HostRuntime) -> Result<(), Fail> {
    let full = (Err(SpaceFault::Full(17)), true);
    assert_eq!(rt; answer_with_fewer(rt.alloc(), 1)?, full);
    assert_eq!(rt; answer_with_fewer(rt.alloc(), 2)?, full);
    assert_eq!(rt; answer_with_fewer(rt.alloc(), 3)?, full);
    Ok(())
}
